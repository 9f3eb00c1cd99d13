// The rules that look at a PGN or a tree, in the order in which the Rust reports.
ghost use Rattle.std.specs.Prelude.{length};
ghost use Rattle.pack.specs.Loaded.{tree_of, pgn_value};
ghost use Rattle.pack.specs.Meaning.{pack_of};
ghost use Rattle.pack.specs.Notation.{concat_below};
ghost use Rattle.pack.specs.Trees.{tree_number};
ghost use Rattle.pack.specs.Value.{pgns_of, pgn_at};
ghost use Rattle.rules.specs.Check.{check_pgn, check_tree, check_tree_continues};
ghost use Rattle.rules.specs.Emit.{Emitted};

use crate::bit_length_field::check_bit_length_field;
use crate::continues::check_continues;
use crate::dynamic_length::check_dynamic_length;
use crate::emit::Findings;
use crate::field_count::check_field_count;
use crate::field_type_overrides::check_field_type_overrides;
use crate::frame_length::check_frame_length;
use crate::match_values::check_match_values;
use crate::min_length::check_min_length;
use crate::pgn_range::check_pgn_range;
use crate::proprietary::check_proprietary;
use crate::repeating::check_repeating;
use crate::reserved_ids::check_reserved_ids;
use crate::special_values::check_special_values;
use crate::trailing_zero::check_trailing_zero_is_digit;
use crate::unique_ids::check_unique_ids;
use crate::variants::check_variants;
use pack::loaded::{Pack, PgnRef};
use pack::protocol::Protocol;

// One PGN.
fn check_pgn(out: &mut Findings, pgn: &PgnRef)
    ensures { Emitted out.old
        (check_pgn (pack_of pgn.now.pack.bytes.now) (tree_of pgn.now) pgn.now.item (pgn_value pgn.now)) out.new }
{
    check_pgn_range(out, pgn);
    check_frame_length(out, pgn);
    check_repeating(out, pgn);
    check_dynamic_length(out, pgn);
    check_proprietary(out, pgn);
    check_special_values(out, pgn);
    check_field_count(out, pgn);
    check_reserved_ids(out, pgn);
    check_match_values(out, pgn);
    check_field_type_overrides(out, pgn);
    check_bit_length_field(out, pgn);
    check_trailing_zero_is_digit(out, pgn);
    check_min_length(out, pgn);
}

// The PGNs of a tree, each by itself.
fn check_pgns(out: &mut Findings, pack: &Pack, protocol: Protocol)
    ensures { Emitted out.old
        (concat_below (λ i. check_pgn (pack_of pack.now.bytes.now) (tree_number protocol) i
        (pgn_at (pack_of pack.now.bytes.now) (tree_number protocol) i))
        (length (pgns_of (pack_of pack.now.bytes.now) (tree_number protocol)))) out.new }
{
    for pgn in pack.pgns(protocol) {
        check_pgn(out, &pgn);
    }
}

// A tree.
fn check_tree(out: &mut Findings, pack: &Pack, protocol: Protocol)
    ensures { Emitted out.old (check_tree (pack_of pack.now.bytes.now) (tree_number protocol)) out.new }
{
    check_pgns(out, pack, protocol);
    check_variants(out, pack, protocol);
    check_unique_ids(out, pack, protocol);
}

pub fn check_trees(out: &mut Findings, pack: &Pack)
    ensures { Emitted out.old (concat_below (check_tree (pack_of pack.now.bytes.now)) 3) out.new }
{
    for protocol in Protocol::ALL {
        check_tree(out, pack, protocol);
    }
}

// R43 of a tree.
#[tactic(auto, unfolding(crate::specs::Check::check_tree_continues))]
fn check_tree_continues(out: &mut Findings, pack: &Pack, protocol: Protocol)
    ensures { Emitted out.old (check_tree_continues (pack_of pack.now.bytes.now) (tree_number protocol)) out.new }
{
    for pgn in pack.pgns(protocol) {
        check_continues(out, &pgn);
    }
}

pub fn check_trees_continues(out: &mut Findings, pack: &Pack)
    ensures { Emitted out.old (concat_below (check_tree_continues (pack_of pack.now.bytes.now)) 3) out.new }
{
    for protocol in Protocol::ALL {
        check_tree_continues(out, pack, protocol);
    }
}
