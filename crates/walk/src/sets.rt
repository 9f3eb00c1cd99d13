// The repeating sets of a PGN as values: "sets and countField use orders". Loops over them go by an index up to four, which the compiler unrolls
// (docs/DECISIONS.md 68). Which set it is is asked to be below 4, and an order to be one, as the bound of an index: types of their own would be taken
// apart at each `[k]` and at each comparison with a set that begins at 0.
ghost use Rattle.std.specs.Prelude.{◌≡◌, IfSome, ◌&&◌, ◌||◌, suc, ◌+◌, ◌<◌, ◌==◌, List};
ghost use Rattle.pack.specs.Loaded.{pgn_value};
ghost use Rattle.pack.specs.Meaning.{opt_order, optional_repeating};
ghost use Rattle.pack.specs.Notation.{◌<ᵇ◌};
ghost use Rattle.pack.specs.Value.{Field};
ghost use Rattle.walk.specs.ByPlace.{placed};
ghost use Rattle.rules.specs.Search.{any_below};
ghost use Rattle.walk.specs.Layout.{Layout, layout, no_set, set_or_empty, sets_hold, nested_in, inside_previous, misplaced, clash, stop_1};
ghost use Rattle.walk.specs.SetsOf.{count_bits, SetIs, IsSet, SetsAre, has_orders, in_set, holds_both, sets_share, set_misplaced, set_inside};

use crate::orders::index_of;
use pack::loaded::PgnRef;
use pack::pgn::{RepeatingView, set_at};
use pack::protocol::{FieldIndex, FieldOrder, precedes};

// The orders from `start` to before `end`, none in an empty set; and the order and width of its countField.
#[derive(Clone, Copy)]
pub struct Set {
    pub start: FieldOrder,
    pub end: FieldOrder,
    pub counter: Option<FieldOrder>,
    pub count_bits: u32,
    pub nested: bool,
}

// The sets of a PGN with so many fields, the rest of the four empty.
#[derive(Clone, Copy)]
pub struct Sets {
    pub fields: u32,
    pub sets: [Set; 4],
}

// An empty set.
fn no_set() -> Set
    ensures { (fields : List Field) → SetIs fields no_set result }
{
    let order = FieldOrder(0);
    Set {
        start: order,
        end: order,
        counter: None,
        count_bits: 0,
        nested: false,
    }
}

// The width of a countField; 0 without one, or where no field has its order.
fn count_bits(pgn: &PgnRef, counter: Option<FieldOrder>) -> u32
    ensures { result ≡ count_bits (pgn_value pgn.now).fields (opt_order counter) }
{
    let Some(order) = counter else {
        return 0;
    };
    if order.0 == 0 {
        return 0;
    }
    let Some(field) = pgn.get_field(index_of(order).0) else {
        return 0;
    };
    field.scaling.bits
}

// An absent set is empty.
fn set_of(pgn: &PgnRef, o: Option<RepeatingView>) -> Set
    requires { IfSome o (λ set. set.start.0 + set.count < 4294967296) }
    ensures { SetIs (pgn_value pgn.now).fields (set_or_empty (optional_repeating o)) result }
{
    let Some(set) = o else {
        return no_set();
    };
    Set {
        start: set.start,
        end: FieldOrder(set.start.0 + set.count),
        counter: set.counter,
        count_bits: count_bits(pgn, set.counter),
        nested: set.nested,
    }
}

// The set at place k; an empty one where the PGN has no such place.
fn set_in(pgn: &PgnRef, k: u32) -> Set
    requires { k < 4 }
    ensures { IsSet (layout (pgn_value pgn.now)) k result }
{
    if k < pgn.view.places {
        return set_of(pgn, set_at(pgn.view, k));
    }
    no_set()
}

// The sets of a PGN.
pub fn sets_of(pgn: &PgnRef) -> Sets
    ensures { SetsAre (layout (pgn_value pgn.now)) result }
{
    let first = set_in(pgn, 0);
    let second = set_in(pgn, 1);
    let third = set_in(pgn, 2);
    let fourth = set_in(pgn, 3);
    Sets {
        fields: pgn.view.fields,
        sets: [first, second, third, fourth],
    }
}

pub fn is_nonempty(set: Set) -> bool
    ensures { result ≡ has_orders set }
{
    precedes(set.start, set.end)
}

// Whether a set holds an order.
pub fn holds(set: Set, o: FieldOrder) -> bool
    ensures { result ≡ in_set set o.0 }
{
    !precedes(o, set.start) && precedes(o, set.end)
}

// Whether a set that holds the order a holds the order b.
fn holds_both(set: Set, a: FieldOrder, b: FieldOrder) -> bool
    ensures { result ≡ holds_both set a.0 b.0 }
{
    !holds(set, a) || holds(set, b)
}

// Whether every set that holds the order a holds the order b.
pub fn sets_hold(sets: Sets, a: FieldOrder, b: FieldOrder) -> bool
    ensures { (L : Layout) → SetsAre L sets → result ≡ sets_hold L a.0 b.0 }
{
    for k in 0..4 {
        if !holds_both(sets.sets[k], a, b) {
            return false;
        }
    }
    true
}

// Whether the field t comes before the order o, and every set that holds it holds o.
#[tactic(auto, using(crate::proofs::SetValues::placed_by))]
pub fn placed(sets: Sets, o: FieldOrder, t: FieldIndex) -> bool
    requires { t.0 < 4294967295 }
    ensures { (L : Layout) → SetsAre L sets → result ≡ placed L o.0 t.0 }
{
    let own = t.order();
    precedes(own, o) && sets_hold(sets, own, o)
}

// Whether two sets have an order in common.
fn overlap(a: Set, b: Set) -> bool
    ensures { result ≡ ((a.start.0 <ᵇ b.end.0) && (b.start.0 <ᵇ a.end.0)) }
{
    precedes(a.start, b.end) && precedes(b.start, a.end)
}

// Whether two nonempty sets share an order.
fn share(a: Set, b: Set) -> bool
    ensures { result ≡ sets_share a b }
{
    is_nonempty(a) && is_nonempty(b) && overlap(a, b)
}

// Whether set k is nested in set j by the marks: each after j up to k bears one.
pub fn nested_in(sets: Sets, j: usize, k: usize) -> bool
    requires { k < 4 }
    ensures { (L : Layout) → SetsAre L sets → result ≡ nested_in L j k }
{
    for inner in (0..k).rev() {
        if !sets.sets[inner + 1].nested {
            return false;
        }
        if inner == j {
            return true;
        }
    }
    false
}

// Of two sets: "set 2 is not nested and shares an order with set 1".
fn clash(sets: Sets, j: usize, k: usize) -> bool
    requires { record { first : j < 4; second : k < 4 } }
    ensures { (L : Layout) → SetsAre L sets → result ≡ clash L j k }
{
    share(sets.sets[j], sets.sets[k]) && !nested_in(sets, j, k)
}

// Whether set k clashes with one before it.
pub fn clashes(sets: Sets, k: usize) -> bool
    requires { k < 4 }
    ensures { (L : Layout) → SetsAre L sets → result ≡ any_below (λ j. clash L j k) k }
{
    for j in 0..k {
        if clash(sets, j, k) {
            return true;
        }
    }
    false
}

// Whether a set has start 0 or runs past so many fields.
fn out_of_range(set: Set, fields: u32) -> bool
    ensures { result ≡ ((set.start.0 == 0) || (suc fields <ᵇ set.end.0)) }
{
    set.start.0 == 0 || fields as u64 + 1 < set.end.0 as u64
}

// "a nonempty set has start 0, runs past the fields, or is marked nested but is not set 2 .. ending within" set 1: whether it is inside
// is given.
fn set_misplaced(set: Set, fields: u32, inside: bool) -> bool
    ensures { result ≡ set_misplaced set fields inside }
{
    is_nonempty(set) && (out_of_range(set, fields) || set.nested && !inside)
}

// Of two sets: "set 2 starting after set 1's start and ending within it".
fn lies_inside(set: Set, outer: Set) -> bool
    ensures { result ≡ set_inside set outer }
{
    precedes(outer.start, set.start) && !precedes(outer.end, set.end)
}

// Whether set k lies so in the one before it.
fn inside_previous(sets: Sets, k: usize) -> bool
    requires { k < 4 }
    ensures { (L : Layout) → SetsAre L sets → result ≡ inside_previous L k }
{
    k != 0 && lies_inside(sets.sets[k], sets.sets[k - 1])
}

// STOP 1, of set k.
#[tactic(auto, using(crate::proofs::SetValues::misplaced_at))]
fn misplaced(sets: Sets, k: usize) -> bool
    requires { k < 4 }
    ensures { (L : Layout) → SetsAre L sets → result ≡ misplaced L k }
{
    let inside = inside_previous(sets, k);
    set_misplaced(sets.sets[k], sets.fields, inside)
}

// The same, or it clashes with one before it.
fn stops(sets: Sets, k: usize) -> bool
    requires { k < 4 }
    ensures { (L : Layout) → SetsAre L sets → result ≡ (misplaced L k || any_below (λ j. clash L j k) k) }
{
    misplaced(sets, k) || clashes(sets, k)
}

// STOP 1, before any visit.
pub fn stop_1(sets: Sets) -> bool
    ensures { (L : Layout) → SetsAre L sets → result ≡ stop_1 L }
{
    for k in 0..4 {
        if stops(sets, k) {
            return true;
        }
    }
    false
}
