// R13
ghost use Rattle.pack.specs.Loaded.{tree_of, pgn_value};
ghost use Rattle.pack.specs.Meaning.{pack_of};
ghost use Rattle.rules.specs.Emit.{Emitted};
ghost use Rattle.rules.specs.MatchValues.{match_value_at, check_match_values};

use crate::emit::{Findings, field_error};
use crate::field_rules::{FieldRule, check_fields};
use crate::matches::resolve_match;
use crate::widths::exceeds;
use pack::loaded::{FieldRef, PgnRef};

struct MatchValues;

impl FieldRule for MatchValues {
    ghost findings = { λ g k. match_value_at (pack_of g.pack.bytes.now).lookups (tree_of g) g.item (pgn_value g) k };

    #[tactic(auto, unfolding(crate::specs::MatchValues::match_value_at, crate::specs::MatchValues::resolved_at))]
    fn at(out: &mut Findings, field: &FieldRef) {
        let f = field.view;
        if f.authored.matched.is_none() {
            return;
        }
        let Some(v) = resolve_match(&field.pgn.pack, f) else {
            out.put(field_error(13, 1, field, 0));
            return;
        };
        let wide = exceeds(f.scaling.bits, v);
        out.put_if(wide, field_error(13, 2, field, 0));
    }
}

// R13: a match resolves to a number that fits the field's width.
#[tactic(auto, unfolding(crate::specs::MatchValues::check_match_values))]
pub fn check_match_values(out: &mut Findings, pgn: &PgnRef)
    ensures { Emitted out.old
        (check_match_values (pack_of pgn.now.pack.bytes.now).lookups (tree_of pgn.now) pgn.now.item (pgn_value pgn.now)) out.new }
{
    check_fields::<MatchValues>(out, pgn);
}
