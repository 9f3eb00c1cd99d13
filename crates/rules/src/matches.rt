// The number that a match stands for: the Rust's `resolve_match`, with hexadecimal (document 02).
ghost use Rattle.std.specs.Prelude.{◌≡◌};
ghost use Rattle.pack.specs.Meaning.{field_meaning, pack_of};
ghost use Rattle.rules.specs.Model.{resolve_match};

use crate::of;
use pack::field::FieldView;
use pack::loaded::Pack;

pub fn resolve_match(pack: &Pack, f: FieldView) -> Option<u64>
    ensures { result ≡ resolve_match (pack_of pack.now.bytes.now).lookups (field_meaning pack.now.bytes.now f) }
{
    of::resolve_match(pack.bytes, pack.work, pack.index.lookups, f)
}
