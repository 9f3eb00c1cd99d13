// R24
ghost use Rattle.std.specs.Prelude.{◌≡◌, ◌<◌, length};
ghost use Rattle.pack.specs.Kinds.{kind_number};
ghost use Rattle.pack.specs.Loaded.{lookup_value};
ghost use Rattle.pack.specs.Notation.{concat_below};
ghost use Rattle.pack.specs.Value.{entry_at, lookup_at};
ghost use Rattle.pack.specs.Meaning.{entry_meaning, pack_of};
ghost use Rattle.rules.specs.Emit.{Emitted};
ghost use Rattle.rules.specs.Search.{latest_below};
ghost use Rattle.rules.specs.LookupNames.{same_name, same_name_as, lookup_names_of};

use crate::emit::{Findings, lookup_error};
use crate::searches::latest;
use pack::entry::EntryView;
use pack::kinds::LookupKind;
use pack::loaded::{LookupRef, Pack};
use pack::text::{same_text, text_is};

// One name, of a triplet under one first value: not all that a derive would compare.
#[tactic(auto, unfolding(crate::specs::LookupNames::same_name))]
fn same_name(s: &[u8], kind: LookupKind, a: EntryView, b: EntryView) -> bool
    ensures { result ≡ same_name (kind_number kind) (entry_meaning s.now a) (entry_meaning s.now b) }
{
    (kind != LookupKind::Triplet || a.first == b.first) && same_text(s, a.name, b.name)
}

// The latest entry before e of its name.
fn latest_same_name(lookup: &LookupRef, e: u32) -> Option<u32>
    requires { e < lookup.now.view.entries }
    ensures { result ≡ latest_below
        (λ d. same_name (lookup_value lookup.now).kind (entry_at (lookup_value lookup.now).entries d)
        (entry_at (lookup_value lookup.now).entries e)) e }
{
    let entry = lookup.entry(e);
    let mut found = None;
    for d in 0..e {
        let other = lookup.entry(d);
        let hit = same_name(lookup.pack.bytes, lookup.view.kind, other, entry);
        found = latest(hit, d, found);
    }
    found
}

// Entry e.
#[tactic(auto, unfolding(crate::specs::LookupNames::same_name_as))]
fn same_name_at(out: &mut Findings, lookup: &LookupRef, e: u32)
    requires { e < lookup.now.view.entries }
    ensures { Emitted out.old
        (same_name_as lookup.now.item e
        (latest_below
        (λ d. same_name (lookup_value lookup.now).kind (entry_at (lookup_value lookup.now).entries d)
        (entry_at (lookup_value lookup.now).entries e)) e)) out.new }
{
    if let Some(d) = latest_same_name(lookup, e) {
        out.put(lookup_error(24, 1, lookup, e, d));
    }
}

// One lookup. J1939_SPN is generated from field names.
#[tactic(auto, unfolding(crate::specs::LookupNames::lookup_names_of))]
fn lookup_names_of(out: &mut Findings, lookup: &LookupRef)
    ensures { Emitted out.old (lookup_names_of lookup.now.item (lookup_value lookup.now)) out.new }
{
    if text_is(lookup.pack.bytes, lookup.view.name, b"J1939_SPN") {
        return;
    }
    for e in 0..lookup.view.entries {
        same_name_at(out, lookup, e);
    }
}

// R24, cause 1: a lookup gives each name to one code.
pub fn check_lookup_names(out: &mut Findings, pack: &Pack)
    ensures { Emitted out.old
        (concat_below (λ l. lookup_names_of l (lookup_at (pack_of pack.now.bytes.now).lookups l))
        (length (pack_of pack.now.bytes.now).lookups)) out.new }
{
    for lookup in pack.lookups() {
        lookup_names_of(out, &lookup);
    }
}
