// R44
ghost use Rattle.std.specs.Prelude.{◌≡◌, ◌||◌, ◌≤◌, ◌<◌, length, ◌==◌};
ghost use Rattle.pack.specs.Loaded.{tree_of, pgn_value};
ghost use Rattle.pack.specs.Meaning.{optional_repeating, pack_of};
ghost use Rattle.pack.specs.Value.{field_at, set_place};
ghost use Rattle.rules.specs.Emit.{Emitted};
ghost use Rattle.rules.specs.Search.{any_below, every_below};
ghost use Rattle.rules.specs.TrailingZero.{starts_behind, fixed, unsigned_integer, trailing_zero_target_at, trailing_zero_at};
ghost use Rattle.rules.specs.TrailingZero.{check_trailing_zero_is_digit};

use crate::emit::{Findings, field_error};
use crate::field_rules::{FieldRule, check_fields};
use crate::floats::{ONE, ZERO, float_eq};
use crate::targets::{integer, target};
use pack::field::FieldView;
use pack::loaded::{FieldRef, PgnRef};
use pack::pgn::{RepeatingView, set_at};
use pack::protocol::{FieldIndex, FieldOrder, precedes};
use pack::text::text_is;

// The set, if any, starts behind the order. By `match`: with `is_none_or` the must-fail edit
// empty_set_ignored is refused only since the search gives up.
fn starts_behind(set: Option<RepeatingView>, order: FieldOrder) -> bool
    ensures { result ≡ starts_behind (optional_repeating set) order.0 }
{
    match set {
        Some(given) => precedes(order, given.start),
        None => true,
    }
}

// A variable-width field, or a proprietary one that may be absent. The view alone is read, no text of it.
fn moves(f: FieldView) -> bool
    ensures { result ≡ ((f.scaling.bits == 0) || f.flags.proprietary) }
{
    f.scaling.bits == 0 || f.flags.proprietary
}

// Whether such a field is among the first n.
#[tactic(auto, using(crate::specs::SearchLaws::any_turn))]
fn any_moves(pgn: &PgnRef, n: u32) -> bool
    requires { n ≤ pgn.now.view.fields }
    ensures { result ≡
        any_below (λ k. ((field_at (pgn_value pgn.now) k).res_bits == 0) || (field_at (pgn_value pgn.now) k).proprietary) n }
{
    for k in 0..n {
        let f = pgn.field(k);
        if moves(f) {
            return true;
        }
    }
    false
}

// Whether every set starts behind the order.
fn sets_start_behind(pgn: &PgnRef, order: FieldOrder) -> bool
    ensures { result ≡
        every_below (λ k. starts_behind (set_place (pgn_value pgn.now) k) order.0) (length (pgn_value pgn.now).sets) }
{
    let places = pgn.view.places;
    for k in 0..places {
        let set = set_at(pgn.view, k);
        if !starts_behind(set, order) {
            return false;
        }
    }
    true
}

// Whether field j has a fixed position.
#[tactic(auto, unfolding(crate::specs::TrailingZero::fixed))]
fn fixed(pgn: &PgnRef, j: u32) -> bool
    requires { j < pgn.now.view.fields }
    ensures { result ≡ fixed (pgn_value pgn.now) j }
{
    !any_moves(pgn, j) && sets_start_behind(pgn, FieldIndex(j).order())
}

// "an unsigned, unscaled NUMBER or LOOKUP without an offset", of 1 to 63 bits
#[tactic(auto, using(crate::proofs::Types::integer_is), unfolding(crate::specs::TrailingZero::unsigned_integer))]
fn unsigned_integer(field: &FieldRef) -> bool
    ensures { result ≡ unsigned_integer (pack_of field.now.pgn.now.pack.bytes.now).fieldtypes (field_at (pgn_value field.now.pgn.now) field.now.index) }
{
    let pgn = field.pgn;
    let f = field.view;
    let v = field.field_type();
    integer(pgn.pack.bytes, v)
        && !v.signed
        && float_eq(f.scaling.resolution, ONE)
        && float_eq(f.scaling.offset, ZERO)
        && f.scaling.bits != 0
        && f.scaling.bits <= 63
}

// The target of a field.
#[tactic(auto, unfolding(crate::specs::TrailingZero::trailing_zero_target_at))]
fn trailing_zero_target_at(out: &mut Findings, field: &FieldRef, j: Option<u32>)
    ensures { Emitted out.old
        (trailing_zero_target_at (pack_of field.now.pgn.now.pack.bytes.now).fieldtypes (tree_of field.now.pgn.now) field.now.pgn.now.item
        (pgn_value field.now.pgn.now) field.now.index j) out.new }
{
    let Some(j) = j else {
        out.put(field_error(44, 2, field, 0));
        return;
    };
    let pgn = field.pgn;
    if field.index <= j {
        out.put(field_error(44, 3, field, j));
        return;
    }
    if !fixed(pgn, j) {
        out.put(field_error(44, 3, field, j));
        return;
    }
    let aim = pgn.field_ref(j);
    let right = unsigned_integer(&aim);
    out.put_if(!right, field_error(44, 4, field, j));
}

struct TrailingZero;

impl FieldRule for TrailingZero {
    ghost findings = { λ g k. trailing_zero_at (pack_of g.pack.bytes.now).fieldtypes (tree_of g) g.item (pgn_value g) k
        (field_at (pgn_value g) k).trailing_zero };

    #[tactic(auto, unfolding(crate::specs::TrailingZero::trailing_zero_at))]
    fn at(out: &mut Findings, field: &FieldRef) {
        let pgn = field.pgn;
        let Some(id) = field.view.links.trailing else {
            return;
        };
        if !text_is(pgn.pack.bytes, field.view.names.kind, b"DECIMAL") {
            out.put(field_error(44, 1, field, 0));
            return;
        }
        let j = target(pgn, id);
        trailing_zero_target_at(out, field, j);
    }
}

// R44: a DECIMAL's trailingZeroIsDigit names an earlier field of fixed position.
#[tactic(auto, unfolding(crate::specs::TrailingZero::check_trailing_zero_is_digit))]
pub fn check_trailing_zero_is_digit(out: &mut Findings, pgn: &PgnRef)
    ensures { Emitted out.old
        (check_trailing_zero_is_digit (pack_of pgn.now.pack.bytes.now).fieldtypes (tree_of pgn.now) pgn.now.item (pgn_value pgn.now))
        out.new }
{
    check_fields::<TrailingZero>(out, pgn);
}
