// R08, causes 6 and 7: what the entries of fieldtype lookups name.
ghost use Rattle.std.specs.Prelude.{◌≡◌, ◌<◌, length};
ghost use Rattle.pack.specs.Notation.{concat_below};
ghost use Rattle.pack.specs.Items.{bytes_of};
ghost use Rattle.pack.specs.Loaded.{lookup_value};
ghost use Rattle.pack.specs.Meaning.{optional_bytes, pack_of};
ghost use Rattle.pack.specs.Value.{entry_at, lookup_at};
ghost use Rattle.rules.specs.Emit.{Emitted};
ghost use Rattle.rules.specs.LookupWiring.{is_fieldtype, nested_lookup_at, fieldtype_entry_at, check_nested_refs};

use crate::emit::{Findings, lookup_error};
use crate::lookups::{find_lookup, has_fieldtypes};
use crate::of;
use pack::loaded::{LookupRef, Pack};
use pack::text::Text;

// `db.fieldtype(name)`
pub fn is_fieldtype(pack: &Pack, name: Text) -> bool
    ensures { result ≡ is_fieldtype (pack_of pack.now.bytes.now).fieldtypes (bytes_of pack.now.bytes.now name) }
{
    of::is_fieldtype(pack.bytes, pack.work, pack.index.types.count, name)
}

// Cause 7: the nested lookup of entry e.
#[tactic(auto, unfolding(crate::specs::LookupWiring::nested_lookup_at))]
fn nested_lookup_at(out: &mut Findings, lookup: &LookupRef, e: u32, nested: Option<Text>)
    ensures { Emitted out.old
        (nested_lookup_at (pack_of lookup.now.pack.bytes.now).lookups lookup.now.item e (optional_bytes lookup.now.pack.bytes.now nested)) out.new }
{
    let Some(name) = nested else {
        return;
    };
    let missing = find_lookup(&lookup.pack, name).is_none();
    out.put_if(missing, lookup_error(8, 7, lookup, e, 0));
}

// Entry e.
#[tactic(auto, unfolding(crate::specs::LookupWiring::fieldtype_entry_at))]
fn fieldtype_entry_at(out: &mut Findings, lookup: &LookupRef, e: u32)
    requires { e < lookup.now.view.entries }
    ensures { Emitted out.old
        (fieldtype_entry_at (pack_of lookup.now.pack.bytes.now) lookup.now.item e (entry_at (lookup_value lookup.now).entries e)) out.new }
{
    let entry = lookup.entry(e);
    let known = is_fieldtype(&lookup.pack, entry.fieldtype);
    out.put_if(!known, lookup_error(8, 6, lookup, e, 0));
    nested_lookup_at(out, lookup, e, entry.nested);
}

// One lookup.
fn check_nested_refs(out: &mut Findings, lookup: &LookupRef)
    ensures { Emitted out.old
        (check_nested_refs (pack_of lookup.now.pack.bytes.now) lookup.now.item (lookup_value lookup.now)) out.new }
{
    if !has_fieldtypes(lookup) {
        return;
    }
    for e in 0..lookup.view.entries {
        fieldtype_entry_at(out, lookup, e);
    }
}

// Every lookup.
pub(crate) fn check_all_nested_refs(out: &mut Findings, pack: &Pack)
    ensures { Emitted out.old
        (concat_below
        (λ l. check_nested_refs (pack_of pack.now.bytes.now) l (lookup_at (pack_of pack.now.bytes.now).lookups l))
        (length (pack_of pack.now.bytes.now).lookups)) out.new }
{
    for lookup in pack.lookups() {
        check_nested_refs(out, &lookup);
    }
}
