// The record that a finding's place names, found in the pack. Place and tree are numbers here: so the C interface gives them.
ghost use Rattle.std.specs.Bool.{then_some};
ghost use Rattle.std.specs.Option.{option_map};
ghost use Rattle.std.specs.Prelude.{◌≡◌, ◌&&◌, ◌<◌, length, ◌==◌};
ghost use Rattle.pack.specs.Meaning.{pack_of};
ghost use Rattle.pack.specs.Notation.{◌<ᵇ◌};
ghost use Rattle.pack.specs.Ready.{Ready, PgnAt, place_of_tree};
ghost use Rattle.pack.specs.Trees.{tree_number};
ghost use Rattle.pack.specs.Value.{pgns_of, pgn_at, lookup_at};
ghost use Rattle.rules.specs.Locs.{loc_text};
ghost use Rattle.rules.specs.PlaceText.{pgn_loc, group_loc, lookup_loc, has_number, place_text};

use crate::locs::Loc;
use pack::loaded::Pack;
use pack::of::pgn_of;
use pack::protocol::Protocol;

// The work position of a PGN of tree t, which begins at `first`.
pub fn pgn_position(s: &[u8], work: &[u32], t: u32, first: usize, item: u32) -> usize
    requires { record {
      ready : Ready s.now work.now;
      trees : t < 3;
      first : first ≡ place_of_tree (pack_of s.now) t;
      item : item < length (pgns_of (pack_of s.now) t);
    } }
    ensures { PgnAt s.now work.now t item result }
{
    let mut p = first;
    for i in 0..item {
        let g = pgn_of(s, work, t, i, p);
        p = p + 1 + g.fields as usize;
    }
    p
}

// "for place 3 a PGN of that number in the tree"
fn has_number(pack: &Pack, protocol: Protocol, number: u32) -> bool
    ensures { result ≡ has_number (pack_of pack.now.bytes.now) (tree_number protocol) number }
{
    for pgn in pack.pgns(protocol) {
        if pgn.view.pgn == number {
            return true;
        }
    }
    false
}

// "places 0 and 2 want tree 0"
fn in_first_tree(tree: u32, item: u32, count: u32) -> bool
    ensures { result ≡ ((tree == 0) && (item <ᵇ count)) }
{
    tree == 0 && item < count
}

// Place 1.
#[tactic(auto, unfolding(crate::specs::PlaceText::pgn_loc, crate::specs::Locs::pgn_text))]
fn pgn_loc(pack: &Pack, tree: u32, item: u32) -> Option<Loc>
    ensures { option_map (loc_text pack.now.bytes.now) result ≡ then_some
        ((tree <ᵇ 3) && (item <ᵇ length (pgns_of (pack_of pack.now.bytes.now) tree)))
        (pgn_loc tree (pgn_at (pack_of pack.now.bytes.now) tree item)) }
{
    let protocol = Protocol::from_number(tree)?;
    let pgn = pack.pgn(protocol, item)?;
    Some(Loc::Pgn {
        protocol,
        number: pgn.view.pgn,
        id: pgn.view.id,
    })
}

// Place 2.
fn lookup_loc(pack: &Pack, tree: u32, item: u32) -> Option<Loc>
    ensures { option_map (loc_text pack.now.bytes.now) result ≡ then_some
        ((tree == 0) && (item <ᵇ length (pack_of pack.now.bytes.now).lookups))
        (lookup_loc (lookup_at (pack_of pack.now.bytes.now).lookups item).name) }
{
    if tree != 0 {
        return None;
    }
    let lookup = pack.lookup(item)?;
    Some(Loc::Lookup(lookup.view.name))
}

// Place 3, where the item is the PGN number.
fn group_loc(pack: &Pack, tree: u32, item: u32) -> Option<Loc>
    ensures { option_map (loc_text pack.now.bytes.now) result ≡ then_some
        ((tree <ᵇ 3) && has_number (pack_of pack.now.bytes.now) tree item) (group_loc tree item) }
{
    let protocol = Protocol::from_number(tree)?;
    has_number(pack, protocol, item).then_some(Loc::Group {
        protocol,
        number: item,
    })
}

// "The place text call names a finding by place, tree and item"
#[tactic(auto, unfolding(crate::specs::PlaceText::place_text))]
pub(crate) fn find_loc(pack: &Pack, place: u32, tree: u32, item: u32) -> Option<Loc>
    ensures { option_map (loc_text pack.now.bytes.now) result ≡ place_text (pack_of pack.now.bytes.now) place tree item }
{
    match place {
        0 => in_first_tree(tree, item, pack.index.types.count).then_some(Loc::FieldTypes),
        1 => pgn_loc(pack, tree, item),
        2 => lookup_loc(pack, tree, item),
        3 => group_loc(pack, tree, item),
        _ => None,
    }
}
