// R20
ghost use Rattle.std.specs.Bool.{then_some};
ghost use Rattle.std.specs.Prelude.{◌≡◌, not, ◌&&◌, length, Some};
ghost use Rattle.pack.specs.Loaded.{tree_of, pgn_value};
ghost use Rattle.pack.specs.Meaning.{pack_of};
ghost use Rattle.pack.specs.Notation.{◌≤ᵇ◌};
ghost use Rattle.pack.specs.Trees.{tree_number};
ghost use Rattle.pack.specs.Value.{pgns_of, pgn_at};
ghost use Rattle.rules.specs.Emit.{Emitted};
ghost use Rattle.rules.specs.Search.{latest_below};
ghost use Rattle.rules.specs.Variants.{has_match, duplicates, in_group, variant_at, group_findings, least_group, check_variants};

use crate::emit::{Findings, group_error, pgn_error};
use crate::match_keys::{duplicates, has_match};
use crate::searches::{counted, latest, smaller};
use pack::loaded::{Pack, PgnRef};
use pack::protocol::Protocol;

// A variant of that number; fallback ones are none.
#[tactic(auto, unfolding(crate::specs::Variants::in_group))]
fn in_group(pgn: &PgnRef, number: u32) -> bool
    ensures { result ≡ in_group (tree_of pgn.now) (pgns_of (pack_of pgn.now.pack.bytes.now) (tree_of pgn.now)) number pgn.now.item }
{
    !pgn.view.flags.fallback && pgn.view.pgn == number
}

// Its number, if it is no fallback one and of number b or above.
fn number_from(pgn: &PgnRef, b: u64) -> Option<u32>
    ensures { result ≡ then_some (not (pgn_value pgn.now).fallback && (b ≤ᵇ (pgn_value pgn.now).pgn)) (pgn_value pgn.now).pgn }
{
    if !pgn.view.flags.fallback && b <= pgn.view.pgn as u64 {
        return Some(pgn.view.pgn);
    }
    None
}

// The least number from b on that has a group.
#[tactic(auto, unfolding(crate::specs::Variants::least_group))]
fn least_group(pack: &Pack, protocol: Protocol, b: u64) -> Option<u32>
    ensures { result ≡ least_group (tree_number protocol) (pgns_of (pack_of pack.now.bytes.now) (tree_number protocol)) b }
{
    let mut found = None;
    for pgn in pack.pgns(protocol) {
        let one = number_from(&pgn, b);
        found = smaller(found, one);
    }
    found
}

// A PGN of the group that has the matches of another.
fn duplicate_at(earlier: &PgnRef, pgn: &PgnRef, number: u32) -> bool
    ensures { result ≡
        (in_group (tree_of earlier.now) (pgns_of (pack_of earlier.now.pack.bytes.now) (tree_of earlier.now)) number earlier.now.item
        && duplicates (pgn_value earlier.now) (pgn_value pgn.now)) }
{
    in_group(earlier, number) && duplicates(earlier, pgn)
}

// The latest variant before a PGN with its matches. The loop is that of `latest_holder` (R21): over a closure its contract would be that of this one's
// test, and the edits of both would be one.
fn latest_duplicate(pgn: &PgnRef, number: u32) -> Option<u32>
    ensures { result ≡ latest_below
        (λ j. in_group (tree_of pgn.now) (pgns_of (pack_of pgn.now.pack.bytes.now) (tree_of pgn.now)) number j && duplicates
        (pgn_at (pack_of pgn.now.pack.bytes.now) (tree_of pgn.now) j) (pgn_value pgn.now)) pgn.now.item }
{
    let mut found = None;
    for earlier in pgn.pack.pgns(pgn.protocol) {
        if earlier.item == pgn.item {
            return found;
        }
        let hit = duplicate_at(&earlier, pgn, number);
        found = latest(hit, earlier.item, found);
    }
    found
}

// A PGN of the group, against those before it.
#[tactic(auto, unfolding(crate::specs::Variants::variant_at, crate::specs::Variants::duplicate_of))]
fn variant_at(out: &mut Findings, pgn: &PgnRef, number: u32)
    ensures { Emitted out.old
        (variant_at (tree_of pgn.now) (pgns_of (pack_of pgn.now.pack.bytes.now) (tree_of pgn.now)) number pgn.now.item) out.new }
{
    if !in_group(pgn, number) {
        return;
    }
    if !has_match(pgn) {
        return;
    }
    if let Some(earlier) = latest_duplicate(pgn, number) {
        out.put(pgn_error(20, 1, pgn, 0, earlier));
    }
}

// A PGN of the group without a match.
fn matchless_at(pgn: &PgnRef, number: u32) -> bool
    ensures { result ≡
        (in_group (tree_of pgn.now) (pgns_of (pack_of pgn.now.pack.bytes.now) (tree_of pgn.now)) number pgn.now.item && not
        (has_match (pgn_value pgn.now) (length (pgn_value pgn.now).fields))) }
{
    in_group(pgn, number) && !has_match(pgn)
}

// The group of the number: its variants, and how many of them have no match.
#[tactic(auto, unfolding(crate::specs::Variants::group_findings, crate::specs::Variants::matchless))]
fn group_findings(out: &mut Findings, pack: &Pack, protocol: Protocol, number: u32)
    ensures { Emitted out.old
        (group_findings (tree_number protocol) (pgns_of (pack_of pack.now.bytes.now) (tree_number protocol)) (Some number)) out.new }
{
    let mut without: u32 = 0;
    for pgn in pack.pgns(protocol) {
        variant_at(out, &pgn, number);
        let hit = matchless_at(&pgn, number);
        without = counted(without, hit);
    }
    out.put_if(1 < without, group_error(20, 2, protocol, number, without));
}

// R20: variants of one PGN are told apart by their matches, and at most one has none. The groups come in rising number.
#[tactic(auto, unfolding(crate::specs::Variants::check_variants))]
pub fn check_variants(out: &mut Findings, pack: &Pack, protocol: Protocol)
    ensures { Emitted out.old (check_variants (tree_number protocol) (pgns_of (pack_of pack.now.bytes.now) (tree_number protocol))) out.new }
{
    let count = protocol.section(pack.index).count;
    let mut b: u64 = 0;
    for r in 0..count {
        let Some(number) = least_group(pack, protocol, b) else {
            return;
        };
        group_findings(out, pack, protocol, number);
        b = number as u64 + 1;
    }
}
