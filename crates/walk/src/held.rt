// Which PGNs are held.
ghost use Rattle.std.specs.Prelude.{◌≡◌, IfSome, is_some, not, ◌&&◌, ◌||◌, suc, ◌<◌, length};
ghost use Rattle.pack.specs.Loaded.{pgn_value};
ghost use Rattle.pack.specs.Meaning.{pack_of};
ghost use Rattle.pack.specs.Value.{field_at};
ghost use Rattle.walk.specs.Held.{shares_held, count_field_held, count_fields_held, bit_length_held, dynamic_value_held, held};
ghost use Rattle.rules.specs.DynamicLength.{length_source};
ghost use Rattle.walk.specs.Layout.{Layout, layout, set_at, holds, sets_hold, nested_in};
ghost use Rattle.walk.specs.SetsOf.{SetsAre};
ghost use Rattle.walk.specs.StopParts.{IsSource, holds_also};
ghost use Rattle.rules.specs.Search.{any_below, every_below};

use crate::named::FoundPgn;
use crate::sets::{Sets, clashes, holds, nested_in, sets_hold};
use crate::stops::{is_value, length_giver};
use pack::protocol::{FieldIndex, FieldOrder};
use rules::targets::target;

// "nonempty sets share no order unless set 2 is nested"
fn shares_held(sets: Sets) -> bool
    ensures { (L : Layout) → SetsAre L sets → result ≡ shares_held L }
{
    for k in 0..4 {
        if clashes(sets, k) {
            return false;
        }
    }
    true
}

// Whether set k is nested in set j where that one holds the order.
fn nested_or_apart(sets: Sets, j: usize, k: usize, o: FieldOrder) -> bool
    requires { record { first : j < 4; second : k < 4 } }
    ensures { (L : Layout) → SetsAre L sets → result ≡ (not (holds L j o.0) || nested_in L j k) }
{
    !holds(sets.sets[j], o) || nested_in(sets, j, k)
}

// The countField of set k.
fn counter_held(sets: Sets, k: usize) -> bool
    requires { k < 4 }
    ensures { (L : Layout) → SetsAre L sets → result ≡ count_field_held L k (set_at L k).count_field }
{
    let set = sets.sets[k];
    let Some(counter) = set.counter else {
        return true;
    };
    for j in 0..4 {
        if !nested_or_apart(sets, j, k, counter) {
            return false;
        }
    }
    true
}

// "a countField lies in no nonempty set, or in set 1 for a nested set 2"
fn count_fields_held(sets: Sets) -> bool
    ensures { (L : Layout) → SetsAre L sets → result ≡ count_fields_held L }
{
    for k in 0..4 {
        if !counter_held(sets, k) {
            return false;
        }
    }
    true
}

// Whether the sets of the bitLengthField target of field k hold field k.
fn bit_length_held(found: &FoundPgn, k: u32) -> bool
    requires { k < found.now.pgn.view.fields }
    ensures { result ≡ bit_length_held (pgn_value found.now.pgn) k }
{
    let f = found.pgn.field(k);
    let Some(id) = f.links.length else {
        return true;
    };
    let Some(aim) = target(&found.pgn, id) else {
        return true;
    };
    let own = FieldIndex(k).order();
    sets_hold(found.sets, FieldIndex(aim).order(), own)
}

// "a bitLengthField target's nonempty sets hold its user"
fn bit_lengths_held(found: &FoundPgn) -> bool
    ensures { result ≡ every_below (λ k. bit_length_held (pgn_value found.now.pgn) k)
        (length (pgn_value found.now.pgn).fields) }
{
    let fields = found.pgn.view.fields;
    for k in 0..fields {
        if !bit_length_held(found, k) {
            return false;
        }
    }
    true
}

// Whether there is a giver, and its sets hold field k.
fn still_gives(sets: Sets, giver: Option<FieldIndex>, k: u32) -> bool
    requires { record { giver : IfSome giver (λ g. g.0 < 4294967295); field : k < 4294967295 } }
    ensures { (L : Layout) → SetsAre L sets → result ≡ holds_also L giver k }
{
    match giver {
        Some(g) => sets_hold(sets, g.order(), FieldIndex(k).order()),
        None => false,
    }
}

// A giver of field k's length, if there is one. The latest one found is asked first: as sets are ranges, a search is then made at most a few times
// a PGN, and not for each value.
fn latest_giver(found: &FoundPgn, k: u32, giver: Option<FieldIndex>) -> Option<FieldIndex>
    requires { record {
      field : k < found.now.pgn.view.fields;
      source : IsSource (pack_of found.now.pgn.pack.bytes.now) (pgn_value found.now.pgn) k giver;
    } }
    ensures { record {
      given : is_some result ≡ any_below
          (λ j. length_source (pack_of found.now.pgn.pack.bytes.now).fieldtypes (field_at (pgn_value found.now.pgn) j) && sets_hold
          (layout (pgn_value found.now.pgn)) (suc j) (suc k)) k;
      source : IsSource (pack_of found.now.pgn.pack.bytes.now) (pgn_value found.now.pgn) k result;
    } }
{
    if still_gives(found.sets, giver, k) {
        return giver;
    }
    length_giver(found, k)
}

// "each DYNAMIC_FIELD_VALUE has a lower-order dynamicFieldLength or DYNAMIC_FIELD_KEY field whose nonempty sets hold it": then it is never
// without one that is current.
fn dynamic_values_held(found: &FoundPgn) -> bool
    ensures { result ≡ every_below (λ k. dynamic_value_held (pack_of found.now.pgn.pack.bytes.now) (pgn_value found.now.pgn) k)
        (length (pgn_value found.now.pgn).fields) }
{
    let fields = found.pgn.view.fields;
    let mut giver = None;
    for k in 0..fields {
        let field = found.pgn.field_ref(k);
        if !is_value(&field) {
            continue;
        }
        giver = latest_giver(found, k, giver);
        if giver.is_none() {
            return false;
        }
    }
    true
}

// Whether the PGN is held.
#[tactic(auto, unfolding(crate::specs::Held::held))]
pub fn held_at(found: &FoundPgn) -> bool
    ensures { result ≡ held (pack_of found.now.pgn.pack.bytes.now) (pgn_value found.now.pgn) }
{
    shares_held(found.sets)
        && count_fields_held(found.sets)
        && bit_lengths_held(found)
        && dynamic_values_held(found)
}
