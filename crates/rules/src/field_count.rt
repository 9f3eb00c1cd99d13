// R11
ghost use Rattle.pack.specs.Loaded.{tree_of, pgn_value};
ghost use Rattle.rules.specs.Emit.{Emitted};
ghost use Rattle.rules.specs.FieldCount.{check_field_count};

use crate::emit::{Findings, pgn_error};
use pack::loaded::PgnRef;

// The entries of the C runtime's fieldList array.
const FIELD_LIST: u32 = 33;

// R11: a PGN has no more fields than the C runtime's fieldList array holds.
pub fn check_field_count(out: &mut Findings, pgn: &PgnRef)
    ensures { Emitted out.old (check_field_count (tree_of pgn.now) pgn.now.item (pgn_value pgn.now)) out.new }
{
    out.put_if(FIELD_LIST < pgn.view.fields, pgn_error(11, 1, pgn, 0, 0));
}
