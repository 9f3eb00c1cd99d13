// An accepted pack with what `load` left in the work buffer: its records by their index, each with the facts that a reader of it asks.
ghost use Rattle.std.specs.Prelude.{◌≡◌, ◌+◌, ◌<◌, length, get_or};
ghost use Rattle.std.specs.List.{slice_get};
ghost use Rattle.std.specs.Bool.{then_some};
ghost use Rattle.std.specs.Option.{option_map};
ghost use Rattle.pack.specs.Notation.{◌<ᵇ◌};
ghost use Rattle.pack.specs.Items.{bytes_of};
ghost use Rattle.pack.specs.Meaning.{type_meaning, entry_meaning, field_meaning, pack_of};
ghost use Rattle.pack.specs.Ready.{Ready, IndexIs, LookupAt, LookupIs, PgnAt, PgnIs, place_of_lookup, place_of_pgn};
ghost use Rattle.pack.specs.Trees.{tree_number};
ghost use Rattle.pack.specs.Value.{no_field_type, no_entry, pgns_of, pgn_at, field_at, lookup_at};

use crate::entry::EntryView;
use crate::field::FieldView;
use crate::field_type::FieldTypeView;
use crate::load::Index;
use crate::lookup::LookupView;
use crate::of::{entry_of, field_id_of, field_name_of, field_of, lookup_of, pgn_of, type_of};
use crate::pgn::PgnView;
use crate::protocol::Protocol;
use crate::text::{Text, part};

// An accepted pack. The calls make it of `load`'s answer: a function that did so would lend the work buffer on, and could not promise what it
// holds after the call.
#[derive(Clone, Copy)]
pub struct Pack<'a> {
    pub bytes: &'a [u8],
    pub work: &'a [u32],
    pub index: Index,
    pub ghost ready: { Ready bytes.now work.now },
    pub ghost indexed: { IndexIs (pack_of bytes.now) index },
}

// A lookup of an accepted pack: which one, its work position, and the view.
#[derive(Clone, Copy)]
pub struct LookupRef<'a> {
    pub pack: Pack<'a>,
    pub item: u32,
    pub place: usize,
    pub view: LookupView,
    pub ghost at: { LookupAt pack.bytes.now pack.work.now item place },
    pub ghost is: { LookupIs pack.bytes.now (lookup_at (pack_of pack.bytes.now).lookups item) view },
}

// A PGN of an accepted pack: its tree, which one of it, its work position, and the view.
#[derive(Clone, Copy)]
pub struct PgnRef<'a> {
    pub pack: Pack<'a>,
    pub protocol: Protocol,
    pub item: u32,
    pub place: usize,
    pub view: PgnView,
    pub ghost at: { PgnAt pack.bytes.now pack.work.now (tree_number protocol) item place },
    pub ghost is: { PgnIs pack.bytes.now (pgn_at (pack_of pack.bytes.now) (tree_number protocol) item) view },
}

// A field of a PGN of an accepted pack: which one, and the view.
#[derive(Clone, Copy)]
pub struct FieldRef<'p, 'a> {
    pub pgn: &'p PgnRef<'a>,
    pub index: u32,
    pub view: FieldView,
    pub ghost inside: { index < pgn.now.view.fields },
    pub ghost means: { field_meaning pgn.now.pack.bytes.now view ≡ field_at
        (pgn_at (pack_of pgn.now.pack.bytes.now) (tree_number pgn.now.protocol) pgn.now.item) index },
}

// The lookups, and the PGNs of a tree: `item` comes next. They are two iterators: one over a trait of records would take a trait with six members
// for two impls.
#[derive(Clone, Copy)]
pub struct Lookups<'a> {
    pub(crate) pack: Pack<'a>,
    pub(crate) item: u32,
    pub(crate) place: usize,
    ghost placed: { place ≡ place_of_lookup (pack_of pack.bytes.now) item },
}

#[derive(Clone, Copy)]
pub struct Pgns<'a> {
    pub(crate) pack: Pack<'a>,
    pub(crate) protocol: Protocol,
    pub(crate) count: u32,
    pub(crate) item: u32,
    pub(crate) place: usize,
    ghost counted: { count ≡ length (pgns_of (pack_of pack.bytes.now) (tree_number protocol)) },
    ghost placed: { place ≡ place_of_pgn (pack_of pack.bytes.now) (tree_number protocol) item },
}

impl<'a> Pack<'a> {
    ghost use Rattle.pack.specs.Loaded.{lookups_left, pgns_left, lookup_spots, pgn_spots};

    pub fn text(&self, text: Text) -> &'a [u8]
        ensures { result.now ≡ bytes_of self.now.bytes.now text }
    {
        part(self.bytes, text)
    }

    // The offset that the work list has at p.
    fn offset(&self, p: usize) -> u32
        requires { p < length self.now.work.now }
        ensures { result ≡ get_or self.now.work.now p 0 }
    {
        self.work[p]
    }

    // Field type i.
    pub fn field_type(&self, i: u32) -> FieldTypeView
        requires { i < length (pack_of self.now.bytes.now).fieldtypes }
        ensures { type_meaning self.now.bytes.now result ≡ get_or (pack_of self.now.bytes.now).fieldtypes i no_field_type }
    {
        type_of(self.bytes, self.work, i)
    }

    // The byte at which it begins.
    pub fn byte_of_type(&self, i: u32) -> u32
        requires { i < length (pack_of self.now.bytes.now).fieldtypes }
        ensures { result ≡ get_or self.now.work.now i 0 }
    {
        self.offset(i as usize)
    }

    // None past the last.
    pub fn get_field_type(&self, i: u32) -> Option<FieldTypeView>
        ensures { option_map (type_meaning self.now.bytes.now) result ≡ slice_get (pack_of self.now.bytes.now).fieldtypes i }
    {
        if self.index.types.count <= i {
            return None;
        }
        Some(self.field_type(i))
    }

    pub fn lookups(&self) -> Lookups<'a>
        ensures { lookups_left result ≡ lookup_spots self.now.bytes.now self.now.work.now 0 (length (pack_of self.now.bytes.now).lookups) }
    {
        Lookups {
            pack: *self,
            item: 0,
            place: self.index.lookups.place,
        }
    }

    pub fn pgns(&self, protocol: Protocol) -> Pgns<'a>
        ensures { pgns_left result ≡ pgn_spots self.now.bytes.now self.now.work.now (tree_number protocol) 0
            (length (pgns_of (pack_of self.now.bytes.now) (tree_number protocol))) }
    {
        let section = protocol.section(self.index);
        Pgns {
            pack: *self,
            protocol,
            count: section.count,
            item: 0,
            place: section.place,
        }
    }
}

impl<'a> Pack<'a> {
    ghost use Rattle.pack.specs.Loaded.{lookup_spot, pgn_spot};

    // That lookup; None past the last.
    pub fn lookup(&self, item: u32) -> Option<LookupRef<'a>>
        ensures { option_map lookup_spot result ≡ then_some (item <ᵇ length (pack_of self.now.bytes.now).lookups)
            (record { bytes = self.now.bytes.now; work = self.now.work.now; item = item }) }
    {
        if self.index.lookups.count <= item {
            return None;
        }
        self.lookups().nth(item as usize)
    }

    // That PGN of that tree; None past the last.
    pub fn pgn(&self, protocol: Protocol, item: u32) -> Option<PgnRef<'a>>
        ensures { option_map pgn_spot result ≡ then_some (item <ᵇ length (pgns_of (pack_of self.now.bytes.now) (tree_number protocol)))
            (record { bytes = self.now.bytes.now; work = self.now.work.now; tree = tree_number protocol; item = item }) }
    {
        if protocol.section(self.index).count <= item {
            return None;
        }
        self.pgns(protocol).nth(item as usize)
    }
}

impl<'a> LookupRef<'a> {
    ghost use Rattle.pack.specs.Loaded.{lookup_value};

    // The byte at which it begins.
    pub fn byte(&self) -> u32
        ensures { result ≡ get_or self.now.pack.work.now self.now.place 0 }
    {
        let LookupRef { pack, place, .. } = self;
        pack.offset(*place)
    }

    // The work position of entry k.
    fn place_of_entry(&self, k: u32) -> usize
        requires { k < self.now.view.entries }
        ensures { result ≡ self.now.place + 1 + k }
    {
        self.place + 1 + k as usize
    }

    // The byte at which entry k begins.
    pub fn byte_of_entry(&self, k: u32) -> u32
        requires { k < self.now.view.entries }
        ensures { result ≡ get_or self.now.pack.work.now (self.now.place + 1 + k) 0 }
    {
        self.pack.offset(self.place_of_entry(k))
    }

    // Entry k.
    #[inline(always)]
    pub fn entry(&self, k: u32) -> EntryView
        requires { k < self.now.view.entries }
        ensures { entry_meaning self.now.pack.bytes.now result ≡ get_or (lookup_value self.now).entries k no_entry }
    {
        let LookupRef {
            pack,
            item,
            place,
            view,
            ..
        } = *self;
        entry_of(pack.bytes, pack.work, item, place, view.kind, k)
    }
}

impl<'a> PgnRef<'a> {
    ghost use Rattle.pack.specs.Loaded.{pgn_value};

    // The byte at which it begins.
    pub fn byte(&self) -> u32
        ensures { result ≡ get_or self.now.pack.work.now self.now.place 0 }
    {
        self.pack.offset(self.place)
    }

    // The work position of field k.
    fn place_of_field(&self, k: u32) -> usize
        requires { k < self.now.view.fields }
        ensures { result ≡ self.now.place + 1 + k }
    {
        self.place + 1 + k as usize
    }

    // The byte at which field k begins.
    pub fn byte_of_field(&self, k: u32) -> u32
        requires { k < self.now.view.fields }
        ensures { result ≡ get_or self.now.pack.work.now (self.now.place + 1 + k) 0 }
    {
        self.pack.offset(self.place_of_field(k))
    }

    // Field k.
    pub fn field(&self, k: u32) -> FieldView
        requires { k < self.now.view.fields }
        ensures { field_meaning self.now.pack.bytes.now result ≡ field_at (pgn_value self.now) k }
    {
        let PgnRef {
            pack,
            protocol,
            item,
            place,
            ..
        } = *self;
        field_of(pack.bytes, pack.work, protocol.tree(), item, place, k)
    }

    // The same with its PGN and its index.
    pub fn field_ref<'p>(&'p self, k: u32) -> FieldRef<'p, 'a>
        requires { k < self.now.view.fields }
        ensures { record {
          pgn : result.pgn.now ≡ self.now;
          index : result.index ≡ k;
          means : field_meaning self.now.pack.bytes.now result.view ≡ field_at (pgn_value self.now) k;
        } }
    {
        FieldRef {
            pgn: self,
            index: k,
            view: self.field(k),
        }
    }

    // The id of field k.
    pub fn field_id(&self, k: u32) -> Text
        requires { k < self.now.view.fields }
        ensures { bytes_of self.now.pack.bytes.now result ≡ (field_at (pgn_value self.now) k).id }
    {
        let PgnRef {
            pack,
            protocol,
            item,
            place,
            ..
        } = *self;
        field_id_of(pack.bytes, pack.work, protocol.tree(), item, place, k)
    }

    // Its name.
    pub fn field_name(&self, k: u32) -> Text
        requires { k < self.now.view.fields }
        ensures { bytes_of self.now.pack.bytes.now result ≡ (field_at (pgn_value self.now) k).name }
    {
        let PgnRef {
            pack,
            protocol,
            item,
            place,
            ..
        } = *self;
        field_name_of(pack.bytes, pack.work, protocol.tree(), item, place, k)
    }

    // Field k; None past the last.
    pub fn get_field(&self, k: u32) -> Option<FieldView>
        ensures { option_map (field_meaning self.now.pack.bytes.now) result ≡ slice_get (pgn_value self.now).fields k }
    {
        if self.view.fields <= k {
            return None;
        }
        Some(self.field(k))
    }
}

impl<'p, 'a> FieldRef<'p, 'a> {
    ghost use Rattle.pack.specs.Loaded.{pgn_value};

    // Its field type.
    pub fn field_type(&self) -> FieldTypeView
        ensures { type_meaning self.now.pgn.now.pack.bytes.now result ≡ get_or (pack_of self.now.pgn.now.pack.bytes.now).fieldtypes
            (field_at (pgn_value self.now.pgn.now) self.now.index).ft no_field_type }
    {
        let pgn = self.pgn;
        pgn.pack.field_type(self.view.ft)
    }
}

impl<'a> Iterator for Lookups<'a> {
    ghost use Rattle.std.specs.Iterator.{item_count, YieldsFirstBy};
    ghost use Rattle.pack.specs.Loaded.{lookup_spot, lookups_left};

    type Item = LookupRef<'a>;

    ghost next_gives = { YieldsFirstBy lookup_spot lookups_left };

    ghost remaining = { item_count lookups_left };

    #[inline(always)]
    fn next(&mut self) -> Option<LookupRef<'a>> {
        let Lookups { pack, item, place } = *self;
        let count = pack.index.lookups.count;
        if count <= item {
            return None;
        }
        let view = lookup_of(pack.bytes, pack.work, item, place);
        *self = Lookups {
            pack,
            item: item + 1,
            place: place + 1 + view.entries as usize,
        };
        Some(LookupRef {
            pack,
            item,
            place,
            view,
        })
    }
}

impl<'a> Iterator for Pgns<'a> {
    ghost use Rattle.std.specs.Iterator.{item_count, YieldsFirstBy};
    ghost use Rattle.pack.specs.Loaded.{pgn_spot, pgns_left};

    type Item = PgnRef<'a>;

    ghost next_gives = { YieldsFirstBy pgn_spot pgns_left };

    ghost remaining = { item_count pgns_left };

    fn next(&mut self) -> Option<PgnRef<'a>> {
        let Pgns {
            pack,
            protocol,
            count,
            item,
            place,
        } = *self;
        if count <= item {
            return None;
        }
        let view = pgn_of(pack.bytes, pack.work, protocol.tree(), item, place);
        *self = Pgns {
            pack,
            protocol,
            count,
            item: item + 1,
            place: place + 1 + view.fields as usize,
        };
        Some(PgnRef {
            pack,
            protocol,
            item,
            place,
            view,
        })
    }
}
