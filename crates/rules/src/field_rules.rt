// Rules that look at a PGN's fields one by one.
ghost use Rattle.pack.specs.Notation.{concat_below};
ghost use Rattle.rules.specs.Emit.{Emitted};
ghost use Rattle.rules.specs.FieldRules.{OfField};

use crate::emit::Findings;
use pack::loaded::{FieldRef, PgnRef};

// What a rule looks for at one field. Its causes are its own, so that each rule has an impl.
pub trait FieldRule {
    // What is found at a field of the PGN.
    ghost findings: { OfField };

    // At a field.
    fn at(out: &mut Findings, field: &FieldRef)
        ensures { Emitted out.old (findings field.now.pgn.now field.now.index) out.new };
}

// The rule at every field of the PGN.
pub fn check_fields<R: FieldRule>(out: &mut Findings, pgn: &PgnRef)
    ensures { Emitted out.old (concat_below (R.findings pgn.now) pgn.now.view.fields) out.new }
{
    for k in 0..pgn.view.fields {
        R::at(out, &pgn.field_ref(k));
    }
}
