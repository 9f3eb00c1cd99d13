// Lookups, matches, field types and targets of a pack by its bytes and work list: who has no index asks these, as `pack::of` stands beside `pack::loaded`.
ghost use Rattle.std.specs.Prelude.{◌≡◌, ◌≤◌, ◌||◌, IfSome, length, ◌==◌, if◌then◌else◌};
ghost use Rattle.std.specs.Option.{option_map};
ghost use Rattle.pack.specs.Items.{bytes_of};
ghost use Rattle.pack.specs.Kinds.{kind_number};
ghost use Rattle.pack.specs.Meaning.{optional_reference, field_meaning, pack_of};
ghost use Rattle.pack.specs.Notation.{◌≐◌};
ghost use Rattle.pack.specs.Ready.{Ready, LookupAt, LookupIs, LookupsAre, PgnAt};
ghost use Rattle.pack.specs.Value.{field_at, lookup_at, pgn_at};
ghost use Rattle.rules.specs.LookupWiring.{is_fieldtype};
ghost use Rattle.rules.specs.Model.{find_lookup, value_named, resolve_name, resolve_match, target};
ghost use Rattle.rules.specs.Search.{first_below};

use numerals::decimal::parse_u64;
use numerals::hexadecimal::parse_hex;
use pack::field::{FieldView, ReferenceView};
use pack::kinds::LookupKind;
use pack::load::Section;
use pack::lookup::LookupView;
use pack::of::{entry_of, field_id_of, lookup_of, type_of};
use pack::text::{Text, part, same_text};

// A lookup of the pack: which one, its work position, and the view.
#[derive(Clone, Copy)]
pub struct FoundLookup {
    pub item: u32,
    pub place: usize,
    pub view: LookupView,
}

// The lookup of that name.
pub fn find_lookup(s: &[u8], work: &[u32], lookups: Section, name: Text) -> Option<FoundLookup>
    requires { record { ready : Ready s.now work.now; lookups : LookupsAre (pack_of s.now) lookups } }
    ensures found { option_map (λ l. l.item) result ≡ find_lookup (pack_of s.now).lookups (bytes_of s.now name) }
    ensures there { IfSome result (λ l. record {
      at : LookupAt s.now work.now l.item l.place;
      is : LookupIs s.now (lookup_at (pack_of s.now).lookups l.item) l.view;
    }) }
{
    let mut place = lookups.place;
    for item in 0..lookups.count {
        let view = lookup_of(s, work, item, place);
        if same_text(s, view.name, name) {
            return Some(FoundLookup { item, place, view });
        }
        place = place + 1 + view.entries as usize;
    }
    None
}

// The value of the first entry of that name, of a lookup.
#[tactic(auto, using(crate::specs::SearchLaws::first_turn), unfolding(crate::specs::Model::value_named))]
fn value_named(s: &[u8], work: &[u32], lookup: FoundLookup, name: Text) -> Option<u64>
    requires { record {
      at : LookupAt s.now work.now lookup.item lookup.place;
      is : LookupIs s.now (lookup_at (pack_of s.now).lookups lookup.item) lookup.view;
    } }
    ensures { result ≡ value_named (lookup_at (pack_of s.now).lookups lookup.item).entries (bytes_of s.now name) }
{
    let FoundLookup { item, place, view } = lookup;
    for e in 0..view.entries {
        let entry = entry_of(s, work, item, place, view.kind, e);
        if same_text(s, entry.name, name) {
            return Some(entry.value);
        }
    }
    None
}

// Whether a reference of a kind goes to the entries of a lookup of that kind.
fn has_entries(reference: LookupKind, kind: LookupKind) -> bool
    ensures { result ≡ (if kind_number reference == 3 then kind_number kind == 3 else ((kind_number kind == 0) || (kind_number kind == 2))) }
{
    if reference == LookupKind::Fieldtype {
        kind == LookupKind::Fieldtype
    } else {
        kind == LookupKind::Pair || kind == LookupKind::Bit
    }
}

fn resolve_name(
    s: &[u8],
    work: &[u32],
    lookups: Section,
    m: Text,
    r: Option<ReferenceView>,
) -> Option<u64>
    requires { record { ready : Ready s.now work.now; lookups : LookupsAre (pack_of s.now) lookups } }
    ensures { result ≡ resolve_name (pack_of s.now).lookups (bytes_of s.now m) (optional_reference s.now r) }
{
    let r = r?;
    let lookup = find_lookup(s, work, lookups, r.name)?;
    if !has_entries(r.kind, lookup.view.kind) {
        return None;
    }
    value_named(s, work, lookup, m)
}

// The number that a field's match stands for.
#[tactic(auto, unfolding(crate::specs::Model::resolve_match, crate::specs::Model::resolve_text))]
pub fn resolve_match(s: &[u8], work: &[u32], lookups: Section, f: FieldView) -> Option<u64>
    requires { record { ready : Ready s.now work.now; lookups : LookupsAre (pack_of s.now) lookups } }
    ensures { result ≡ resolve_match (pack_of s.now).lookups (field_meaning s.now f) }
{
    let m = f.authored.matched?;
    let text = part(s, m);
    let number = parse_u64(text).or_else(|| parse_hex(text));
    if number.is_some() {
        return number;
    }
    resolve_name(s, work, lookups, m, f.links.reference)
}

// `db.fieldtype(name)`, of so many field types.
#[tactic(auto, using(crate::specs::SearchLaws::any_turn), unfolding(crate::specs::LookupWiring::is_fieldtype))]
pub fn is_fieldtype(s: &[u8], work: &[u32], types: u32, name: Text) -> bool
    requires { record { ready : Ready s.now work.now; types : types ≡ length (pack_of s.now).fieldtypes } }
    ensures { result ≡ is_fieldtype (pack_of s.now).fieldtypes (bytes_of s.now name) }
{
    for j in 0..types {
        let v = type_of(s, work, j);
        if same_text(s, v.name, name) {
            return true;
        }
    }
    false
}

// The first of n fields of PGN i of tree t, which is at p, with that id.
#[tactic(auto, using(crate::specs::SearchLaws::first_turn))]
pub(crate) fn first_with_id(
    s: &[u8],
    work: &[u32],
    t: u32,
    i: u32,
    p: usize,
    n: u32,
    id: Text,
) -> Option<u32>
    requires { record { at : PgnAt s.now work.now t i p; fields : n ≤ length (pgn_at (pack_of s.now) t i).fields } }
    ensures { result ≡ first_below (λ j. (field_at (pgn_at (pack_of s.now) t i) j).id ≐ bytes_of s.now id) n }
{
    for j in 0..n {
        let other = field_id_of(s, work, t, i, p, j);
        if same_text(s, other, id) {
            return Some(j);
        }
    }
    None
}

// "A target is the first field with that id", of n fields.
#[tactic(auto, unfolding(crate::specs::Model::target))]
pub fn target(s: &[u8], work: &[u32], t: u32, i: u32, p: usize, n: u32, id: Text) -> Option<u32>
    requires { record { at : PgnAt s.now work.now t i p; fields : n ≡ length (pgn_at (pack_of s.now) t i).fields } }
    ensures { result ≡ target (pgn_at (pack_of s.now) t i) (bytes_of s.now id) }
{
    first_with_id(s, work, t, i, p, n, id)
}
