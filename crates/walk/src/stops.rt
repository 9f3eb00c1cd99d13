// The stops 3 to 9 at a due field: "At a field, in this order".
ghost use Rattle.std.specs.Prelude.{is_some, IfSome, IfOk, ◌≡◌, ◌&&◌, suc, ◌<◌, ◌==◌};
ghost use Rattle.std.specs.Result.{result_err};
ghost use Rattle.pack.specs.Loaded.{lookup_value, pgn_value};
ghost use Rattle.pack.specs.Meaning.{optional_bytes, optional_reference, entry_meaning, field_meaning, pack_of};
ghost use Rattle.pack.specs.Value.{field_at};
ghost use Rattle.rules.specs.Search.{any_below};
ghost use Rattle.rules.specs.DynamicLength.{length_source};
ghost use Rattle.rules.specs.Model.{lookup_ref};
ghost use Rattle.walk.specs.ByPlace.{placed};
ghost use Rattle.walk.specs.Layout.{layout, sets_hold};
ghost use Rattle.walk.specs.StopParts.{entry_missing, Named, IsSource, OnlyByReading, field_stop, need_stop};
ghost use Rattle.walk.specs.Stops.{is_missing, lookup_missing, match_unfit, names_missing, entries_name_missing};
ghost use Rattle.walk.specs.Stops.{is_dynamic_value, lacks, lacks_length, stop_at};

use crate::named::FoundPgn;
use crate::sets::{placed, sets_hold};
use pack::entry::EntryView;
use pack::field::ReferenceView;
use pack::loaded::{FieldRef, LookupRef, Pack, PgnRef};
use pack::protocol::{FieldIndex, FieldOrder};
use pack::text::{Text, text_is};
use rules::dynamic_length::length_source;
use rules::lookups::{find_lookup, has_fieldtypes};
use rules::matches::resolve_match;
use rules::nested_refs::is_fieldtype;
use rules::targets::target;
use rules::widths::exceeds;

// Why a walk stops: 1 before any visit, 2 on arriving at a set, the others at a field, asked in this order.
#[derive(Clone, Copy)]
pub enum Stop {
    SetMisplaced = 1,
    CounterNotCurrent,
    LookupMissing,
    MatchUnfit,
    EntryNamesMissing,
    LengthNotCurrent,
    ContinuedNotCurrent,
    NoLengthSource,
    TrailingNotCurrent,
}

// Whether a lookup is named, and the pack has none of that name.
#[tactic(auto, using(crate::proofs::Parts::missing_is), unfolding(crate::specs::Stops::is_missing))]
fn is_missing(pack: &Pack, name: Option<Text>) -> bool
    ensures { result ≡ is_missing (pack_of pack.now.bytes.now) (optional_bytes pack.now.bytes.now name) }
{
    match name {
        Some(name) => find_lookup(pack, name).is_none(),
        None => false,
    }
}

// "3 lookup missing"
#[tactic(auto, unfolding(crate::specs::Stops::lookup_missing))]
fn lookup_missing(field: &FieldRef) -> bool
    ensures { result ≡ lookup_missing (pack_of field.now.pgn.now.pack.bytes.now) (field_at (pgn_value field.now.pgn.now) field.now.index) }
{
    let pgn = field.pgn;
    is_missing(&pgn.pack, field.view.links.reference.map(|r| r.name))
}

// "4 match unresolved or, below 64 bits, above 2^bits − 1"
#[tactic(auto, using(crate::proofs::Parts::unfit_is), unfolding(crate::specs::Stops::match_unfit, crate::specs::Stops::unfit))]
fn match_unfit(field: &FieldRef) -> bool
    ensures { result ≡ match_unfit (pack_of field.now.pgn.now.pack.bytes.now) (field_at (pgn_value field.now.pgn.now) field.now.index) }
{
    let pgn = field.pgn;
    let f = field.view;
    if f.authored.matched.is_none() {
        return false;
    }
    match resolve_match(&pgn.pack, f) {
        Some(v) => exceeds(f.scaling.bits, v),
        None => true,
    }
}

// The stops that go by the field alone: 3 and 4.
#[tactic(auto, unfolding(crate::specs::StopParts::field_stop))]
fn field_stop(field: &FieldRef) -> Option<Stop>
    ensures { result ≡ field_stop (pack_of field.now.pgn.now.pack.bytes.now) (field_at (pgn_value field.now.pgn.now) field.now.index) }
{
    if lookup_missing(field) {
        return Some(Stop::LookupMissing);
    }
    if match_unfit(field) {
        return Some(Stop::MatchUnfit);
    }
    None
}

// Whether an entry of a fieldtype lookup names a missing field type or nested lookup. Its view is enough, since it is read already.
#[tactic(auto, unfolding(crate::specs::Stops::names_missing))]
pub fn names_missing(pack: &Pack, e: EntryView) -> bool
    ensures { result ≡ names_missing (pack_of pack.now.bytes.now) (entry_meaning pack.now.bytes.now e) }
{
    !is_fieldtype(pack, e.fieldtype) || is_missing(pack, e.nested)
}

// Whether an entry is for the reading and names something missing.
fn entry_names_missing(pack: &Pack, e: EntryView, reading: u64) -> bool
    ensures { result ≡ ((e.value == reading) && names_missing (pack_of pack.now.bytes.now) (entry_meaning pack.now.bytes.now e)) }
{
    e.value == reading && names_missing(pack, e)
}

// "5 an entry for the reading names a missing field type or nested lookup": of the entries of a lookup.
fn entries_name_missing(lookup: &LookupRef, reading: u64) -> bool
    ensures { result ≡ entries_name_missing (pack_of lookup.now.pack.bytes.now) (lookup_value lookup.now).entries reading }
{
    for e in 0..lookup.view.entries {
        let entry = lookup.entry(e);
        if entry_names_missing(&lookup.pack, entry, reading) {
            return true;
        }
    }
    false
}

// The fieldtype lookup that a reference names: only the entries of such a one name anything.
fn fieldtype_lookup<'a>(pack: &Pack<'a>, r: Option<ReferenceView>) -> Option<LookupRef<'a>>
    ensures { Named pack.now.bytes.now (optional_reference pack.now.bytes.now r) result }
{
    let r = r?;
    let lookup = find_lookup(pack, r.name)?;
    if !has_fieldtypes(&lookup) {
        return None;
    }
    Some(lookup)
}

// 5, of a fieldtype lookup of the pack that a field's reference names.
fn entry_missing(pack: &Pack, lookup: &Option<LookupRef>, reading: u64) -> bool
    requires { IfSome lookup.now (λ l. l.pack.bytes.now ≡ pack.now.bytes.now) }
    ensures { result ≡ entry_missing (pack_of pack.now.bytes.now) lookup.now reading }
{
    match lookup {
        Some(lookup) => entries_name_missing(lookup, reading),
        None => false,
    }
}

// "6 bitLengthField target not current; 7 continued field not current", "9 trailing-zero target not current": at the order o the
// target is named and is not current.
#[tactic(auto, unfolding(crate::specs::Stops::lacks))]
fn lacks(found: &FoundPgn, o: FieldOrder, id: Option<Text>) -> bool
    ensures { result ≡ lacks (pgn_value found.now.pgn) (placed (layout (pgn_value found.now.pgn)) o.0)
        (optional_bytes found.now.pgn.pack.bytes.now id) }
{
    let Some(id) = id else {
        return false;
    };
    let Some(aim) = target(&found.pgn, id) else {
        return true;
    };
    !placed(found.sets, o, FieldIndex(aim))
}

// Whether field j is a length source.
fn length_source_at(pgn: &PgnRef, j: u32) -> bool
    requires { j < pgn.now.view.fields }
    ensures { result ≡ length_source (pack_of pgn.now.pack.bytes.now).fieldtypes (field_at (pgn_value pgn.now) j) }
{
    let field = pgn.field_ref(j);
    let root = field.field_type().root;
    length_source(pgn.pack.bytes, field.view.flags.dynamic, root)
}

// Whether field j is a length source whose sets hold the order o.
fn gives_length(found: &FoundPgn, o: FieldOrder, j: u32) -> bool
    requires { j < found.now.pgn.view.fields }
    ensures { result ≡
        (length_source (pack_of found.now.pgn.pack.bytes.now).fieldtypes (field_at (pgn_value found.now.pgn) j) && sets_hold
        (layout (pgn_value found.now.pgn)) (suc j) o.0) }
{
    sets_hold(found.sets, FieldIndex(j).order(), o) && length_source_at(&found.pgn, j)
}

// The first field before field k that gives it a length.
pub fn length_giver(found: &FoundPgn, k: u32) -> Option<FieldIndex>
    requires { k < found.now.pgn.view.fields }
    ensures { record {
      given : is_some result ≡ any_below
          (λ j. length_source (pack_of found.now.pgn.pack.bytes.now).fieldtypes (field_at (pgn_value found.now.pgn) j) && sets_hold
          (layout (pgn_value found.now.pgn)) (suc j) (suc k)) k;
      source : IsSource (pack_of found.now.pgn.pack.bytes.now) (pgn_value found.now.pgn) k result;
    } }
{
    let own = FieldIndex(k).order();
    for j in 0..k {
        if gives_length(found, own, j) {
            return Some(FieldIndex(j));
        }
    }
    None
}

// Whether a field has the root DYNAMIC_FIELD_VALUE.
pub fn is_value(field: &FieldRef) -> bool
    ensures { result ≡ is_dynamic_value (pack_of field.now.pgn.now.pack.bytes.now) (field_at (pgn_value field.now.pgn.now) field.now.index) }
{
    let pgn = field.pgn;
    let root = field.field_type().root;
    text_is(pgn.pack.bytes, root, b"DYNAMIC_FIELD_VALUE")
}

// "8 root DYNAMIC_FIELD_VALUE and no lower-order dynamicFieldLength or DYNAMIC_FIELD_KEY field current": of a field of the PGN.
#[tactic(auto, unfolding(crate::specs::Stops::lacks_length))]
fn lacks_length(found: &FoundPgn, field: &FieldRef) -> bool
    requires { field.now.pgn.now ≡ found.now.pgn }
    ensures { result ≡ lacks_length (pack_of found.now.pgn.pack.bytes.now) (pgn_value found.now.pgn)
        (placed (layout (pgn_value found.now.pgn)) (suc field.now.index)) field.now.index }
{
    is_value(field) && length_giver(found, field.index).is_none()
}

// The stops that go by what is current: 6 to 9. Of a field of the PGN.
#[tactic(auto, unfolding(crate::specs::StopParts::need_stop))]
fn need_stop(found: &FoundPgn, field: &FieldRef) -> Option<Stop>
    requires { field.now.pgn.now ≡ found.now.pgn }
    ensures { result ≡ need_stop (pack_of found.now.pgn.pack.bytes.now) (pgn_value found.now.pgn)
        (placed (layout (pgn_value found.now.pgn)) (suc field.now.index)) field.now.index }
{
    let f = field.view;
    let own = FieldIndex(field.index).order();
    if lacks(found, own, f.links.length) {
        return Some(Stop::LengthNotCurrent);
    }
    if lacks(found, own, f.authored.continues) {
        return Some(Stop::ContinuedNotCurrent);
    }
    if lacks_length(found, field) {
        return Some(Stop::NoLengthSource);
    }
    if lacks(found, own, f.links.trailing) {
        return Some(Stop::TrailingNotCurrent);
    }
    None
}

// Field k of a PGN, with its reading: the stop, or the fieldtype lookup that it names.
pub fn judge<'a>(found: &FoundPgn<'a>, k: u32, reading: u64) -> Result<Option<LookupRef<'a>>, Stop>
    requires { k < found.now.pgn.view.fields }
    ensures { record {
      stop : result_err result ≡ stop_at (pack_of found.now.pgn.pack.bytes.now) (pgn_value found.now.pgn)
          (placed (layout (pgn_value found.now.pgn)) (suc k)) k reading;
      named : IfOk result (λ l. Named found.now.pgn.pack.bytes.now (lookup_ref (field_at (pgn_value found.now.pgn) k)) l);
      only : IfOk result (λ _. OnlyByReading (pack_of found.now.pgn.pack.bytes.now) (pgn_value found.now.pgn) k);
    } }
{
    let pack = &found.pgn.pack;
    let field = found.pgn.field_ref(k);
    if let Some(stop) = field_stop(&field) {
        return Err(stop);
    }
    let lookup = fieldtype_lookup(pack, field.view.links.reference);
    if entry_missing(pack, &lookup, reading) {
        return Err(Stop::EntryNamesMissing);
    }
    if let Some(stop) = need_stop(found, &field) {
        return Err(stop);
    }
    Ok(lookup)
}
