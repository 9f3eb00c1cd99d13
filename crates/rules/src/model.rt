// What the rules read of a pack: `model.rs`.
ghost use Rattle.std.specs.Prelude.{◌≡◌, ◌<◌, length, get_or};
ghost use Rattle.pack.specs.Items.{bytes_of};
ghost use Rattle.pack.specs.Loaded.{pgn_value};
ghost use Rattle.pack.specs.Meaning.{optional_bytes, pack_of};
ghost use Rattle.pack.specs.Ready.{Ready};
ghost use Rattle.pack.specs.Value.{no_field_type, field_at};
ghost use Rattle.rules.specs.Model.{is_text, value_bits};

use pack::loaded::FieldRef;
use pack::of::type_of;
use pack::text::{Text, same_text};

// The name of the root of field type ft.
pub fn root_of(s: &[u8], work: &[u32], ft: u32) -> Text
    requires { record { ready : Ready s.now work.now; type : ft < length (pack_of s.now).fieldtypes } }
    ensures { bytes_of s.now result ≡ (get_or (pack_of s.now).fieldtypes ft no_field_type).root_name }
{
    let v = type_of(s, work, ft);
    v.root
}

// Whether a text is given and is that one.
pub(crate) fn is_text(s: &[u8], o: Option<Text>, t: Text) -> bool
    ensures { result ≡ is_text (optional_bytes s.now o) (bytes_of s.now t) }
{
    o.is_some_and(|own| same_text(s, own, t))
}

// "its own bits plus any bits a later field continues it with"
#[tactic(auto, unfolding(crate::specs::Model::value_bits))]
pub(crate) fn value_bits(field: &FieldRef) -> u64
    ensures { result ≡ value_bits (field_at (pgn_value field.now.pgn.now) field.now.index) }
{
    let f = field.view;
    f.scaling.bits as u64 + f.links.continuation.unwrap_or(0) as u64
}
