// R43
ghost use Rattle.std.specs.Prelude.{◌≡◌, not, ◌||◌, ◌<◌};
ghost use Rattle.pack.specs.Notation.{◌<ᵇ◌, ◌≐◌};
ghost use Rattle.pack.specs.Items.{bytes_of};
ghost use Rattle.pack.specs.Loaded.{tree_of, pgn_value};
ghost use Rattle.pack.specs.Meaning.{optional_repeating, pack_of};
ghost use Rattle.pack.specs.Value.{field_at};
ghost use Rattle.rules.specs.Emit.{Emitted};
ghost use Rattle.rules.specs.Findings.{pgn_error};
ghost use Rattle.rules.specs.Floats.{float_eq, ZERO};
ghost use Rattle.rules.specs.Texts.{NUMBER};
ghost use Rattle.rules.specs.Model.{fieldtype_of, root_of, value_bits};
ghost use Rattle.rules.specs.Continues.{holds_order, place_number, set_of, integer, differs_from, not_raw};
ghost use Rattle.rules.specs.Continues.{continued_by, continued_place, continued_at, continues_at, check_continues};

use crate::Finding;
use crate::emit::{Findings, field_error};
use crate::field_rules::{FieldRule, check_fields};
use crate::floats::{ONE, ZERO, float_eq};
use crate::model::{is_text, value_bits};
use crate::searches::counted;
use crate::targets::{first_with_id, integer};
use pack::loaded::{FieldRef, PgnRef};
use pack::pgn::{RepeatingView, set_at};
use pack::protocol::{FieldIndex, FieldOrder, among};
use pack::text::{Text, text_is};

// The set holds the order.
pub fn holds_order(set: Option<RepeatingView>, order: FieldOrder) -> bool
    ensures { result ≡ holds_order (optional_repeating set) order.0 }
{
    set.is_some_and(|given| among(order, given.start, given.count))
}

// The highest place whose set holds field k.
#[tactic(auto, unfolding(crate::specs::Continues::set_of))]
fn set_of(pgn: &PgnRef, k: u32) -> Option<u32>
    requires { k < pgn.now.view.fields }
    ensures { place_number result ≡ set_of (pgn_value pgn.now) k }
{
    let order = FieldIndex(k).order();
    for j in (0..pgn.view.places).rev() {
        if holds_order(set_at(pgn.view, j), order) {
            return Some(j);
        }
    }
    None
}

// Given, and not the float.
fn differs_from(o: Option<u64>, c: u64) -> bool
    ensures { result ≡ differs_from o c }
{
    o.is_some_and(|pattern| !float_eq(pattern, c))
}

// What a continuing field has of its own beside its bits.
#[tactic(auto, unfolding(crate::specs::Continues::not_raw))]
fn not_raw(field: &FieldRef) -> bool
    ensures { result ≡ not_raw (field_at (pgn_value field.now.pgn.now) field.now.index) }
{
    let f = field.view;
    differs_from(f.authored.resolution, ONE)
        || differs_from(f.authored.offset, ZERO)
        || f.flags.unit
        || f.links.reference.is_some()
        || f.authored.matched.is_some()
        || f.authored.spn.is_some()
}

// How many fields of the PGN continue the one of that id.
#[tactic(auto, using(crate::specs::SearchLaws::count_turn), unfolding(crate::specs::Continues::continued_by))]
fn continued_by(pgn: &PgnRef, id: Text) -> u32
    ensures { result ≡ continued_by (pgn_value pgn.now) (bytes_of pgn.now.pack.bytes.now id) }
{
    let fields = pgn.view.fields;
    let mut count: u32 = 0;
    for k in 0..fields {
        let f = pgn.field(k);
        let hit = is_text(pgn.pack.bytes, f.authored.continues, id);
        count = counted(count, hit);
    }
    count
}

// Not integers: the field low and the one that continues it.
#[tactic(auto, using(crate::proofs::Types::integer_is))]
fn not_integers(low: &FieldRef, field: &FieldRef) -> bool
    ensures { let g = low.now.pgn.now in let h = field.now.pgn.now in
        result ≡ (not (integer (pack_of g.pack.bytes.now).fieldtypes (field_at (pgn_value g) low.now.index))
        || not (root_of (pack_of h.pack.bytes.now).fieldtypes (field_at (pgn_value h) field.now.index) ≐ NUMBER)) }
{
    let low_pgn = low.pgn;
    let pgn = field.pgn;
    let v = low.field_type();
    let root = field.field_type().root;
    !integer(low_pgn.pack.bytes, v) || !text_is(pgn.pack.bytes, root, b"NUMBER")
}

// A sign or an offset.
fn not_plain(low: &FieldRef) -> bool
    ensures { let g = low.now.pgn.now in let f = field_at (pgn_value g) low.now.index in
        result ≡ ((fieldtype_of (pack_of g.pack.bytes.now).fieldtypes f).signed || not (float_eq f.res_offset ZERO)) }
{
    let v = low.field_type();
    v.signed || !float_eq(low.view.scaling.offset, ZERO)
}

// Wider than 64 bits with its continuation.
fn too_wide(low: &FieldRef) -> bool
    ensures { result ≡ (64 <ᵇ value_bits (field_at (pgn_value low.now.pgn.now) low.now.index)) }
{
    64 < value_bits(low)
}

// A field that continues an earlier one, by its id.
#[derive(Clone, Copy)]
struct Continuing<'f, 'p, 'a> {
    field: &'f FieldRef<'p, 'a>,
    id: Text,
    earlier: u32,
    ghost before: { earlier < field.now.index },
}

// The cause is a finding's number.
fn link_error(cause: u32, link: &Continuing) -> Finding
    ensures { result ≡ pgn_error 43 cause (tree_of link.now.field.now.pgn.now) link.now.field.now.pgn.now.item link.now.field.now.index link.now.earlier }
{
    field_error(43, cause, link.field, link.earlier)
}

// Where a field lies that continues another: another set, no fixed distance, or not the only one.
fn placed_at(out: &mut Findings, link: &Continuing, continued: bool)
    ensures { Emitted out.old
        (continued_place (tree_of link.now.field.now.pgn.now) link.now.field.now.pgn.now.item (pgn_value link.now.field.now.pgn.now)
        link.now.field.now.index (bytes_of link.now.field.now.pgn.now.pack.bytes.now link.now.id) link.now.earlier continued) out.new }
{
    let pgn = link.field.pgn;
    if set_of(pgn, link.earlier) != set_of(pgn, link.field.index) {
        out.put(link_error(2, link));
        return;
    }
    if !continued {
        out.put(link_error(3, link));
        return;
    }
    let count = continued_by(pgn, link.id);
    out.put_if(1 < count, link_error(4, link));
}

// The field continues the earlier one.
fn continued_at(out: &mut Findings, link: &Continuing)
    ensures { Emitted out.old
        (continued_at (pack_of link.now.field.now.pgn.now.pack.bytes.now).fieldtypes (tree_of link.now.field.now.pgn.now)
        link.now.field.now.pgn.now.item (pgn_value link.now.field.now.pgn.now) link.now.field.now.index
        (field_at (pgn_value link.now.field.now.pgn.now) link.now.field.now.index) (bytes_of link.now.field.now.pgn.now.pack.bytes.now link.now.id)
        link.now.earlier (field_at (pgn_value link.now.field.now.pgn.now) link.now.earlier)) out.new }
{
    let pgn = link.field.pgn;
    let low = pgn.field_ref(link.earlier);
    placed_at(out, link, low.view.links.continuation.is_some());
    out.put_if(low.view.authored.continues.is_some(), link_error(5, link));
    out.put_if(not_integers(&low, link.field), link_error(6, link));
    out.put_if(not_raw(link.field), link_error(7, link));
    out.put_if(not_plain(&low), link_error(8, link));
    out.put_if(too_wide(&low), link_error(9, link));
}

struct Continues;

impl FieldRule for Continues {
    ghost findings = { λ g k. continues_at (pack_of g.pack.bytes.now).fieldtypes (tree_of g) g.item (pgn_value g) k (field_at (pgn_value g) k).continues };

    #[tactic(auto, unfolding(crate::specs::Continues::continues_at, crate::specs::Continues::continued_found_at))]
    fn at(out: &mut Findings, field: &FieldRef) {
        let Some(id) = field.view.authored.continues else {
            return;
        };
        let Some(earlier) = first_with_id(field.pgn, field.index, id) else {
            out.put(field_error(43, 1, field, 0));
            return;
        };
        let link = Continuing { field, id, earlier };
        continued_at(out, &link);
    }
}

// R43: a `continues:` field adds high bits to an earlier, plain integer field of the same record, at a fixed distance from it.
#[tactic(auto, unfolding(crate::specs::Continues::check_continues))]
pub(crate) fn check_continues(out: &mut Findings, pgn: &PgnRef)
    ensures { Emitted out.old
        (check_continues (pack_of pgn.now.pack.bytes.now).fieldtypes (tree_of pgn.now) pgn.now.item (pgn_value pgn.now)) out.new }
{
    check_fields::<Continues>(out, pgn);
}
