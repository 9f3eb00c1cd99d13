// The three trees, and a field's index and order.
ghost use Rattle.std.specs.Bool.{then_some};
ghost use Rattle.std.specs.Prelude.{◌≡◌, ◌&&◌, ◌+◌, ◌<◌, ◌==◌};
ghost use Rattle.pack.specs.Notation.{◌<ᵇ◌, ◌≤ᵇ◌};
ghost use Rattle.pack.specs.Trees.{tree_number, protocol_of, prefix_of, section_of};

use crate::load::{Index, Section};

// The trees, in the order of the numbers that the C interface and findings give them.
#[derive(Clone, Copy)]
pub enum Protocol {
    Nmea2000,
    J1939,
    Quick,
}

impl Protocol {
    pub const COUNT: usize = 3;

    pub const ALL: [Protocol; Protocol::COUNT] = [
        Protocol::Nmea2000,
        Protocol::J1939,
        Protocol::Quick,
    ];

    // The tree of that number.
    pub fn from_number(tree: u32) -> Option<Protocol>
        ensures { result ≡ then_some (tree <ᵇ 3) (protocol_of tree) }
    {
        Protocol::ALL.get(tree as usize).copied()
    }

    // The same; Quick for every other.
    pub fn of_tree(tree: u32) -> Protocol
        ensures { result ≡ protocol_of tree }
    {
        Protocol::from_number(tree).unwrap_or(Protocol::Quick)
    }

    pub fn tree(self) -> u32
        ensures { result ≡ tree_number self }
    {
        self as u32
    }

    // `check_prefix`, before `pgns/`.
    pub fn prefix(protocol: Protocol) -> &'static [u8]
        ensures { result.now ≡ prefix_of protocol }
    {
        match protocol {
            Protocol::Nmea2000 => b"",
            Protocol::J1939 => b"j1939/",
            Protocol::Quick => b"quick/",
        }
    }

    // Where its PGNs stand.
    pub fn section(self, index: Index) -> Section
        ensures { result ≡ section_of self index }
    {
        match self {
            Protocol::Nmea2000 => index.nmea2000,
            Protocol::J1939 => index.j1939,
            Protocol::Quick => index.quick,
        }
    }
}

// "A field's index runs from 0 and its order from 1; sets and countField use orders."
#[derive(Clone, Copy)]
pub struct FieldIndex(pub u32);

#[derive(Clone, Copy)]
pub struct FieldOrder(pub u32);

impl FieldIndex {
    pub fn order(self) -> FieldOrder
        requires { self.0 < 4294967295 }
        ensures { result.0 ≡ self.0 + 1 }
    {
        FieldOrder(self.0 + 1)
    }
}

// Orders are compared by this: whether one comes before another. No derive, since 01 allows these comparisons alone.
pub fn precedes(a: FieldOrder, b: FieldOrder) -> bool
    ensures { result ≡ (a.0 <ᵇ b.0) }
{
    a.0 < b.0
}

// Neither precedes the other.
pub fn same_order(a: FieldOrder, b: FieldOrder) -> bool
    ensures { result ≡ (a.0 == b.0) }
{
    if precedes(a, b) {
        return false;
    }
    !precedes(b, a)
}

// So many orders from `start` on.
pub fn among(order: FieldOrder, start: FieldOrder, count: u32) -> bool
    ensures { result ≡ ((start.0 ≤ᵇ order.0) && (order.0 <ᵇ start.0 + count)) }
{
    if precedes(order, start) {
        return false;
    }
    order.0 - start.0 < count
}
