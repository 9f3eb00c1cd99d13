// R42
ghost use Rattle.std.specs.Prelude.{is_some, ◌≡◌, true, ◌&&◌, length, ◌==◌, Some};
ghost use Rattle.std.specs.Float.Ieee.{of_bits};
ghost use Rattle.std.specs.Float.{binary64};
ghost use Rattle.pack.specs.Loaded.{tree_of, pgn_value};
ghost use Rattle.pack.specs.Meaning.{optional_bytes, pack_of};
ghost use Rattle.pack.specs.Notation.{concat_below};
ghost use Rattle.pack.specs.Trees.{tree_number};
ghost use Rattle.pack.specs.Value.{pgns_of, pgn_at, field_at};
ghost use Rattle.rules.specs.Emit.{Emitted};
ghost use Rattle.rules.specs.Findings.{report_if, pgn_error};
ghost use Rattle.rules.specs.Floats.{float_eq};
ghost use Rattle.rules.specs.SpnNames.{spn_field};
ghost use Rattle.rules.specs.Spns.{spns_elsewhere, same_unit, first_seen, unlike_first, spn_at, check_scalings, check_spns};

use crate::emit::{Findings, field_error, pgn_error};
use crate::field_rules::{FieldRule, check_fields};
use crate::spn_names::{Carrier, is_number};
use pack::field::{FieldView, ScalingView};
use pack::float::float;
use pack::loaded::{FieldRef, Pack, PgnRef};
use pack::protocol::Protocol;
use pack::text::{Text, same_text};

// "The largest SPN: J1939 carries them in 19 bits."
const MAX_SPN: u32 = 0x7ffff;

// "SPN scaling is a width, two floats compared as floats, and a unit."
#[derive(Clone, Copy)]
struct Scaling {
    width: u32,
    resolution: f64,
    offset: f64,
    unit: Option<Text>,
}

// One unit, or none for both. By `match`: over mapped options `==` would need a law of its own.
fn same_unit(s: &[u8], a: Option<Text>, b: Option<Text>) -> bool
    ensures { result ≡ same_unit (optional_bytes s.now a) (optional_bytes s.now b) }
{
    match (a, b) {
        (Some(x), Some(y)) => same_text(s, x, y),
        (None, None) => true,
        _ => false,
    }
}

// What a view says of a field's scaling, its patterns as floats.
impl From<ScalingView> for Scaling {
    ghost from_gives = { λ v s.
        s ≡ record { width = v.bits; resolution = of_bits binary64 v.resolution; offset = of_bits binary64 v.offset; unit = v.unit } };

    fn from(v: ScalingView) -> Scaling {
        Scaling {
            width: v.bits,
            resolution: float(v.resolution),
            offset: float(v.offset),
            unit: v.unit,
        }
    }
}

// `==` of the Rust's tuple: a NaN differs from itself. No derive, since the unit is a text, compared by its bytes.
#[tactic(auto, unfolding(crate::specs::Floats::float_eq))]
fn same_scaling(s: &[u8], v: ScalingView, w: ScalingView) -> bool
    ensures { result ≡
        ((v.bits == w.bits) && float_eq v.resolution w.resolution && float_eq v.offset w.offset && same_unit
        (optional_bytes s.now v.unit) (optional_bytes s.now w.unit)) }
{
    let a = Scaling::from(v);
    let b = Scaling::from(w);
    a.width == b.width
        && a.resolution == b.resolution
        && a.offset == b.offset
        && same_unit(s, a.unit, b.unit)
}

// The field of the J1939 tree that carries the SPN first, where one does. Both loops stand here, with 01's labelled break, and not `spn_field`'s.
fn first_seen<'a>(pack: &Pack<'a>, spn: u32) -> Carrier<'a>
    requires { is_some (first_seen (pack_of pack.now.bytes.now).pgns_j1939 spn) ≡ true }
    ensures { record {
      bytes : result.pgn.pack.bytes.now ≡ pack.now.bytes.now;
      tree : tree_of result.pgn ≡ 1;
      seen : first_seen (pack_of pack.now.bytes.now).pgns_j1939 spn ≡ Some result.pgn.item;
      field : spn_field (pgn_value result.pgn) spn ≡ Some result.field;
    } }
{
    let mut seen = None;
    'search: for pgn in pack.pgns(Protocol::J1939) {
        for field in 0..pgn.view.fields {
            let f = pgn.field(field);
            if is_number(f.authored.spn, spn) {
                seen = Some(Carrier { pgn, field });
                break 'search;
            }
        }
    }
    let Some(carrier) = seen else { unreachable!() };
    carrier
}

// Whether it is that field of that PGN.
fn is_at(seen: &Carrier, item: u32, field: u32) -> bool
    ensures { result ≡ ((seen.now.pgn.item == item) && (seen.now.field == field)) }
{
    seen.pgn.item == item && seen.field == field
}

// A field of the J1939 tree that carries an SPN against the first that does. That its tree is this one is asked here and in five places more: a
// type for PGNs of one tree would be taken apart at each use.
fn unlike_first(out: &mut Findings, field: &FieldRef, spn: u32)
    requires { record { tree : tree_of field.now.pgn.now ≡ 1; spn : field.now.view.authored.spn ≡ Some spn } }
    ensures { Emitted out.old
        (unlike_first (pack_of field.now.pgn.now.pack.bytes.now).pgns_j1939 field.now.pgn.now.item field.now.index spn
        (first_seen (pack_of field.now.pgn.now.pack.bytes.now).pgns_j1939 spn)) out.new }
{
    let pgn = field.pgn;
    let seen = first_seen(&pgn.pack, spn);
    if is_at(&seen, pgn.item, field.index) {
        return;
    }
    let g = seen.pgn.field(seen.field);
    let alike = same_scaling(pgn.pack.bytes, g.scaling, field.view.scaling);
    out.put_if(!alike, field_error(42, 3, field, seen.pgn.item));
}

// A field of the J1939 tree.
fn spn_at(out: &mut Findings, field: &FieldRef)
    requires { tree_of field.now.pgn.now ≡ 1 }
    ensures { Emitted out.old
        (spn_at (pack_of field.now.pgn.now.pack.bytes.now).pgns_j1939 field.now.pgn.now.item field.now.index
        (field_at (pgn_value field.now.pgn.now) field.now.index).spn) out.new }
{
    let Some(spn) = field.view.authored.spn else {
        return;
    };
    if MAX_SPN < spn {
        out.put(field_error(42, 2, field, 0));
        return;
    }
    unlike_first(out, field, spn);
}

// A PGN of the J1939 tree. No `FieldRule`, which can't ask for the tree.
#[tactic(auto, unfolding(crate::specs::Spns::check_scalings))]
fn check_scalings(out: &mut Findings, pgn: &PgnRef)
    requires { tree_of pgn.now ≡ 1 }
    ensures { Emitted out.old
        (check_scalings (pack_of pgn.now.pack.bytes.now).pgns_j1939 pgn.now.item (pgn_value pgn.now)) out.new }
{
    for k in 0..pgn.view.fields {
        spn_at(out, &pgn.field_ref(k));
    }
}

// The J1939 tree.
fn scalings(out: &mut Findings, pack: &Pack)
    ensures { Emitted out.old
        (concat_below (λ i. check_scalings (pgns_of (pack_of pack.now.bytes.now) 1) i (pgn_at (pack_of pack.now.bytes.now) 1 i))
        (length (pgns_of (pack_of pack.now.bytes.now) 1))) out.new }
{
    for pgn in pack.pgns(Protocol::J1939) {
        check_scalings(out, &pgn);
    }
}

struct SpnsElsewhere;

impl FieldRule for SpnsElsewhere {
    ghost findings = { λ g k. report_if (is_some (field_at (pgn_value g) k).spn) (pgn_error 42 1 (tree_of g) g.item k 0) };

    fn at(out: &mut Findings, field: &FieldRef) {
        let carried = field.view.authored.spn.is_some();
        out.put_if(carried, field_error(42, 1, field, 0));
    }
}

// A PGN of another tree.
#[tactic(auto, unfolding(crate::specs::Spns::spns_elsewhere))]
fn spns_elsewhere(out: &mut Findings, pgn: &PgnRef)
    ensures { Emitted out.old (spns_elsewhere (tree_of pgn.now) pgn.now.item (pgn_value pgn.now)) out.new }
{
    check_fields::<SpnsElsewhere>(out, pgn);
}

// Another tree.
fn elsewhere(out: &mut Findings, pack: &Pack, protocol: Protocol)
    ensures { Emitted out.old
        (concat_below (λ i. spns_elsewhere (tree_number protocol) i (pgn_at (pack_of pack.now.bytes.now) (tree_number protocol) i))
        (length (pgns_of (pack_of pack.now.bytes.now) (tree_number protocol)))) out.new }
{
    for pgn in pack.pgns(protocol) {
        spns_elsewhere(out, &pgn);
    }
}

// R42: spn only on J1939 fields, within 19 bits, and decoded alike by every field that carries the same SPN.
#[tactic(auto, unfolding(crate::specs::Spns::check_spns))]
pub fn check_spns(out: &mut Findings, pack: &Pack)
    ensures { Emitted out.old (check_spns (pack_of pack.now.bytes.now)) out.new }
{
    elsewhere(out, pack, Protocol::Nmea2000);
    elsewhere(out, pack, Protocol::Quick);
    scalings(out, pack);
}
