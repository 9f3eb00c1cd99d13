// R15
ghost use Rattle.std.specs.Prelude.{◌≡◌};
ghost use Rattle.pack.specs.Loaded.{tree_of, pgn_value};
ghost use Rattle.pack.specs.Value.{field_at};
ghost use Rattle.rules.specs.Emit.{Emitted};
ghost use Rattle.rules.specs.BitLengthField.{variable_binary, not_bit_count, bit_length_target_at, bit_length_field_at, check_bit_length_field};

use crate::emit::{Findings, field_error};
use crate::field_rules::{FieldRule, check_fields};
use crate::floats::{ONE, float_eq};
use crate::targets::target;
use pack::loaded::{FieldRef, PgnRef};
use pack::text::text_is;

#[tactic(auto, unfolding(crate::specs::BitLengthField::variable_binary))]
fn variable_binary(field: &FieldRef) -> bool
    ensures { result ≡ variable_binary (field_at (pgn_value field.now.pgn.now) field.now.index) }
{
    let pgn = field.pgn;
    let f = field.view;
    f.scaling.bits == 0 && text_is(pgn.pack.bytes, f.names.kind, b"BINARY")
}

// "not an integer bit-count field"
#[tactic(auto, unfolding(crate::specs::BitLengthField::not_bit_count))]
fn not_bit_count(field: &FieldRef) -> bool
    ensures { result ≡ not_bit_count (field_at (pgn_value field.now.pgn.now) field.now.index) }
{
    let f = field.view;
    f.links.reference.is_some() || !float_eq(f.scaling.resolution, ONE) || f.scaling.bits == 0
}

// The target of a field.
#[tactic(auto, unfolding(crate::specs::BitLengthField::bit_length_target_at))]
fn bit_length_target_at(out: &mut Findings, field: &FieldRef, j: Option<u32>)
    ensures { Emitted out.old
        (bit_length_target_at (tree_of field.now.pgn.now) field.now.pgn.now.item (pgn_value field.now.pgn.now) field.now.index j) out.new }
{
    let Some(j) = j else {
        out.put(field_error(15, 3, field, 0));
        return;
    };
    if field.index <= j {
        out.put(field_error(15, 4, field, j));
        return;
    }
    let pgn = field.pgn;
    let aim = pgn.field_ref(j);
    let wrong = not_bit_count(&aim);
    out.put_if(wrong, field_error(15, 5, field, j));
}

struct BitLengthField;

impl FieldRule for BitLengthField {
    ghost findings = { λ g k. bit_length_field_at (tree_of g) g.item (pgn_value g) k (field_at (pgn_value g) k).bit_length_field };

    #[tactic(auto, unfolding(crate::specs::BitLengthField::bit_length_field_at))]
    fn at(out: &mut Findings, field: &FieldRef) {
        let binary = variable_binary(field);
        let Some(id) = field.view.links.length else {
            out.put_if(binary, field_error(15, 1, field, 0));
            return;
        };
        if !binary {
            out.put(field_error(15, 2, field, 0));
            return;
        }
        let j = target(field.pgn, id);
        bit_length_target_at(out, field, j);
    }
}

// R15: a variable-length BINARY field takes its length from an earlier integer field.
#[tactic(auto, unfolding(crate::specs::BitLengthField::check_bit_length_field))]
pub fn check_bit_length_field(out: &mut Findings, pgn: &PgnRef)
    ensures { Emitted out.old (check_bit_length_field (tree_of pgn.now) pgn.now.item (pgn_value pgn.now)) out.new }
{
    check_fields::<BitLengthField>(out, pgn);
}
