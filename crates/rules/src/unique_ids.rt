// R21
ghost use Rattle.std.specs.Prelude.{◌≡◌, ◌++◌};
ghost use Rattle.pack.specs.Loaded.{tree_of, pgn_value};
ghost use Rattle.pack.specs.Meaning.{pack_of};
ghost use Rattle.pack.specs.Notation.{◌≐◌};
ghost use Rattle.pack.specs.Trees.{tree_number};
ghost use Rattle.pack.specs.Value.{pgns_of, pgn_at};
ghost use Rattle.rules.specs.Emit.{Emitted};
ghost use Rattle.rules.specs.Search.{latest_below};
ghost use Rattle.rules.specs.UniqueIds.{same_id_as, unique_field_ids, check_unique_ids};

use crate::emit::{Findings, pgn_error};
use crate::searches::latest;
use crate::targets::first_with_id;
use pack::loaded::{Pack, PgnRef};
use pack::protocol::Protocol;
use pack::text::same_text;

// The latest PGN before one that has its id.
fn latest_holder(pgn: &PgnRef) -> Option<u32>
    ensures { result ≡ latest_below
        (λ j. (pgn_at (pack_of pgn.now.pack.bytes.now) (tree_of pgn.now) j).id ≐ (pgn_value pgn.now).id) pgn.now.item }
{
    let mut found = None;
    for earlier in pgn.pack.pgns(pgn.protocol) {
        if earlier.item == pgn.item {
            return found;
        }
        let hit = same_text(pgn.pack.bytes, earlier.view.id, pgn.view.id);
        found = latest(hit, earlier.item, found);
    }
    found
}

// A PGN, and an earlier one of its id.
#[tactic(auto, unfolding(crate::specs::UniqueIds::same_id_as))]
fn same_id(out: &mut Findings, pgn: &PgnRef)
    ensures { Emitted out.old
        (same_id_as (tree_of pgn.now) pgn.now.item
        (latest_below (λ j. (pgn_at (pack_of pgn.now.pack.bytes.now) (tree_of pgn.now) j).id ≐ (pgn_value pgn.now).id) pgn.now.item)) out.new }
{
    if let Some(earlier) = latest_holder(pgn) {
        out.put(pgn_error(21, 1, pgn, 0, earlier));
    }
}

// No `FieldRule`, which would read the whole field: the id alone is read.
#[tactic(auto, unfolding(crate::specs::UniqueIds::unique_field_ids))]
fn unique_field_ids(out: &mut Findings, pgn: &PgnRef)
    ensures { Emitted out.old (unique_field_ids (tree_of pgn.now) pgn.now.item (pgn_value pgn.now)) out.new }
{
    for k in 0..pgn.view.fields {
        let id = pgn.field_id(k);
        let j = first_with_id(pgn, k, id);
        out.put_if(j.is_some(), pgn_error(21, 2, pgn, k, 0));
    }
}

// One PGN.
fn unique_ids_at(out: &mut Findings, pgn: &PgnRef)
    ensures { Emitted out.old
        (same_id_as (tree_of pgn.now) pgn.now.item
        (latest_below (λ j. (pgn_at (pack_of pgn.now.pack.bytes.now) (tree_of pgn.now) j).id ≐ (pgn_value pgn.now).id) pgn.now.item)
        ++ unique_field_ids (tree_of pgn.now) pgn.now.item (pgn_value pgn.now)) out.new }
{
    same_id(out, pgn);
    unique_field_ids(out, pgn);
}

// R21: PGN ids are unique in a tree, field ids within a PGN.
#[tactic(auto, unfolding(crate::specs::UniqueIds::check_unique_ids))]
pub fn check_unique_ids(out: &mut Findings, pack: &Pack, protocol: Protocol)
    ensures { Emitted out.old (check_unique_ids (tree_number protocol) (pgns_of (pack_of pack.now.bytes.now) (tree_number protocol))) out.new }
{
    for pgn in pack.pgns(protocol) {
        unique_ids_at(out, &pgn);
    }
}
