// R14
ghost use Rattle.pack.specs.Loaded.{tree_of, pgn_value};
ghost use Rattle.pack.specs.Meaning.{pack_of};
ghost use Rattle.pack.specs.Value.{field_at};
ghost use Rattle.rules.specs.Emit.{Emitted};
ghost use Rattle.rules.specs.FieldTypeOverrides.{overrides_at, check_field_type_overrides};
ghost use Rattle.rules.specs.Model.{fieldtype_of};

use crate::emit::{Findings, field_error};
use crate::field_rules::{FieldRule, check_fields};
use crate::floats::{ZERO, float_eq};
use pack::loaded::{FieldRef, PgnRef};

struct Overrides;

impl FieldRule for Overrides {
    ghost findings = { λ g k. overrides_at (tree_of g) g.item k (field_at (pgn_value g) k)
        (fieldtype_of (pack_of g.pack.bytes.now).fieldtypes (field_at (pgn_value g) k)) };

    #[tactic(auto, unfolding(crate::specs::FieldTypeOverrides::overrides_at))]
    fn at(out: &mut Findings, field: &FieldRef) {
        let f = field.view;
        let ft = field.field_type();
        let width = f.flags.bits && ft.size != 0;
        out.put_if(width, field_error(14, 1, field, 0));
        let resolution = f.authored.resolution.is_some() && !float_eq(ft.resolution, ZERO);
        out.put_if(resolution, field_error(14, 2, field, 0));
    }
}

// R14: a field does not author the width or the resolution that its field type fixes.
#[tactic(auto, unfolding(crate::specs::FieldTypeOverrides::check_field_type_overrides))]
pub fn check_field_type_overrides(out: &mut Findings, pgn: &PgnRef)
    ensures { Emitted out.old
        (check_field_type_overrides (pack_of pgn.now.pack.bytes.now).fieldtypes (tree_of pgn.now) pgn.now.item (pgn_value pgn.now)) out.new }
{
    check_fields::<Overrides>(out, pgn);
}
