// R09
ghost use Rattle.std.specs.Prelude.{◌≡◌};
ghost use Rattle.pack.specs.Loaded.{tree_of, pgn_value};
ghost use Rattle.pack.specs.Value.{field_at};
ghost use Rattle.rules.specs.Emit.{Emitted};
ghost use Rattle.rules.specs.SpecialValues.{special_max, special_values_at, check_special_values};

use crate::emit::{Findings, field_error};
use crate::field_rules::{FieldRule, check_fields};
use pack::loaded::{FieldRef, PgnRef};

// The largest value of so many bits, at most of 63.
#[tactic(auto, unfolding(crate::specs::SpecialValues::special_max))]
fn special_max(bits: u32) -> u64
    ensures { result ≡ special_max bits }
{
    (1u64 << bits.min(63)) - 1
}

struct SpecialValues;

impl FieldRule for SpecialValues {
    ghost findings = { λ g k. special_values_at (tree_of g) g.item k (field_at (pgn_value g) k).res_bits (field_at (pgn_value g) k).special_values };

    #[tactic(auto, unfolding(crate::specs::SpecialValues::special_values_at))]
    fn at(out: &mut Findings, field: &FieldRef) {
        let Some(special) = field.view.links.special else {
            return;
        };
        let outside = 3 < special || special_max(field.view.scaling.bits) < special as u64;
        out.put_if(outside, field_error(9, 1, field, 0));
    }
}

// R09: specialValues within 0 to 3, and below 2^bits.
#[tactic(auto, unfolding(crate::specs::SpecialValues::check_special_values))]
pub fn check_special_values(out: &mut Findings, pgn: &PgnRef)
    ensures { Emitted out.old (check_special_values (tree_of pgn.now) pgn.now.item (pgn_value pgn.now)) out.new }
{
    check_fields::<SpecialValues>(out, pgn);
}
