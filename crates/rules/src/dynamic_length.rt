// R06
ghost use Rattle.std.specs.Prelude.{◌≡◌, ◌||◌};
ghost use Rattle.pack.specs.Notation.{◌≐◌};
ghost use Rattle.pack.specs.Items.{bytes_of};
ghost use Rattle.pack.specs.Loaded.{tree_of, pgn_value};
ghost use Rattle.pack.specs.Meaning.{pack_of};
ghost use Rattle.pack.specs.Value.{field_at};
ghost use Rattle.rules.specs.DynamicLength.{have_length_source, dynamic_length_at, check_dynamic_length};
ghost use Rattle.rules.specs.Emit.{Emitted};
ghost use Rattle.rules.specs.Model.{root_of};
ghost use Rattle.rules.specs.Texts.{DYNAMIC_FIELD_KEY};

use crate::emit::{Findings, field_error};
use pack::loaded::{FieldRef, PgnRef};
use pack::text::{Text, text_is};

// Whether a field is a length source: dynamicFieldLength or DYNAMIC_FIELD_KEY.
pub fn length_source(s: &[u8], dynamic: bool, root: Text) -> bool
    ensures { result ≡ (dynamic || (bytes_of s.now root ≐ DYNAMIC_FIELD_KEY)) }
{
    dynamic || text_is(s, root, b"DYNAMIC_FIELD_KEY")
}

// A field with its root's name, and whether there is a length source by then.
fn dynamic_length_at(out: &mut Findings, field: &FieldRef, root: Text, have: bool)
    requires { record {
      root : bytes_of field.now.pgn.now.pack.bytes.now root ≡ root_of (pack_of field.now.pgn.now.pack.bytes.now).fieldtypes
          (field_at (pgn_value field.now.pgn.now) field.now.index);
      have : have ≡ have_length_source (pack_of field.now.pgn.now.pack.bytes.now).fieldtypes (pgn_value field.now.pgn.now) field.now.index;
    } }
    ensures { Emitted out.old
        (dynamic_length_at (pack_of field.now.pgn.now.pack.bytes.now).fieldtypes (tree_of field.now.pgn.now) field.now.pgn.now.item
        (pgn_value field.now.pgn.now) field.now.index (field_at (pgn_value field.now.pgn.now) field.now.index)) out.new }
{
    let pgn = field.pgn;
    let s = pgn.pack.bytes;
    let flags = field.view.flags;
    let dynamic = flags.dynamic;
    let is_length = text_is(s, root, b"DYNAMIC_FIELD_LENGTH");
    let is_value = text_is(s, root, b"DYNAMIC_FIELD_VALUE");
    let misplaced = dynamic && !is_length;
    out.put_if(misplaced, field_error(6, 1, field, 0));
    let overhead = flags.overhead && !dynamic;
    out.put_if(overhead, field_error(6, 2, field, 0));
    let sourceless = is_value && !have;
    out.put_if(sourceless, field_error(6, 3, field, 0));
}

// R06: DYNAMIC_FIELD_VALUE needs an earlier length source; overhead only on length fields; dynamicFieldLength only on
// DYNAMIC_FIELD_LENGTH fields.
// No `FieldRule`: what a length source is goes from field to field.
#[tactic(auto, unfolding(crate::specs::DynamicLength::check_dynamic_length))]
pub(crate) fn check_dynamic_length(out: &mut Findings, pgn: &PgnRef)
    ensures { Emitted out.old
        (check_dynamic_length (pack_of pgn.now.pack.bytes.now).fieldtypes (tree_of pgn.now) pgn.now.item (pgn_value pgn.now)) out.new }
{
    let mut have = false;
    for k in 0..pgn.view.fields {
        let field = pgn.field_ref(k);
        let root = field.field_type().root;
        have |= length_source(pgn.pack.bytes, field.view.flags.dynamic, root);
        dynamic_length_at(out, &field, root, have);
    }
}
