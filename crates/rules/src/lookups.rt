// Lookups by name: the Rust's `db.lookups.get(name)`.
ghost use Rattle.std.specs.Prelude.{◌≡◌, IfSome, ◌==◌};
ghost use Rattle.std.specs.Option.{option_map};
ghost use Rattle.pack.specs.Items.{bytes_of};
ghost use Rattle.pack.specs.Loaded.{lookup_value};
ghost use Rattle.pack.specs.Meaning.{pack_of};
ghost use Rattle.rules.specs.Model.{find_lookup};

use crate::of;
use pack::kinds::LookupKind;
use pack::loaded::{LookupRef, Pack};
use pack::text::Text;

// The lookup of that name.
pub fn find_lookup<'a>(pack: &Pack<'a>, name: Text) -> Option<LookupRef<'a>>
    ensures found { option_map (λ l. l.item) result ≡ find_lookup (pack_of pack.now.bytes.now).lookups (bytes_of pack.now.bytes.now name) }
    ensures same { IfSome result (λ l. record { bytes : l.pack.bytes.now ≡ pack.now.bytes.now; work : l.pack.work.now ≡ pack.now.work.now }) }
{
    let found = of::find_lookup(pack.bytes, pack.work, pack.index.lookups, name)?;
    Some(LookupRef {
        pack: *pack,
        item: found.item,
        place: found.place,
        view: found.view,
    })
}

// Whether its entries name field types, and lookups nested in them.
pub fn has_fieldtypes(lookup: &LookupRef) -> bool
    ensures { result ≡ ((lookup_value lookup.now).kind == 3) }
{
    lookup.view.kind == LookupKind::Fieldtype
}
