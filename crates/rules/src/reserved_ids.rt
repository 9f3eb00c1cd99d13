// R12
ghost use Rattle.std.specs.Prelude.{◌≡◌, false, not, if◌then◌else◌};
ghost use Rattle.pack.specs.Notation.{◌≐◌};
ghost use Rattle.pack.specs.Loaded.{tree_of, pgn_value};
ghost use Rattle.pack.specs.Value.{field_at};
ghost use Rattle.rules.specs.Emit.{Emitted};
ghost use Rattle.numerals.specs.Numerals.{all_digits};
ghost use Rattle.rules.specs.ReservedIds.{numbered, reserved_id_at, check_reserved_ids};
ghost use Rattle.rules.specs.Texts.{bytes};

use crate::emit::{Findings, field_error};
use crate::field_rules::{FieldRule, check_fields};
use pack::loaded::{FieldRef, PgnRef};
use pack::text::{part, text_is};

// Whether all bytes are ASCII digits.
fn all_digits(digits: &[u8]) -> bool
    ensures { result ≡ all_digits digits.now }
{
    digits.iter().all(|b| b.is_ascii_digit())
}

// Whether the id is the wanted text, followed by ASCII digits or nothing.
fn numbered(want: &[u8], id: &[u8]) -> bool
    ensures { result ≡ numbered want.now id.now }
{
    match id.strip_prefix(want) {
        Some(rest) => all_digits(rest),
        None => false,
    }
}

// Whether a Reserved or Spare field has another id.
fn misnamed(field: &FieldRef) -> bool
    ensures { let f = field_at (pgn_value field.now.pgn.now) field.now.index in
        result ≡ (if f.name ≐ bytes "Reserved" then not (numbered (bytes "reserved") f.id)
        else (if f.name ≐ bytes "Spare" then not (numbered (bytes "spare") f.id) else false)) }
{
    let pgn = field.pgn;
    let s = pgn.pack.bytes;
    let name = field.view.names.name;
    let id = field.view.names.id;
    if text_is(s, name, b"Reserved") {
        return !numbered(b"reserved", part(s, id));
    }
    if text_is(s, name, b"Spare") {
        return !numbered(b"spare", part(s, id));
    }
    false
}

struct ReservedIds;

impl FieldRule for ReservedIds {
    ghost findings = { λ g k. reserved_id_at (tree_of g) g.item k (field_at (pgn_value g) k) };

    #[tactic(auto, unfolding(crate::specs::ReservedIds::reserved_id_at))]
    fn at(out: &mut Findings, field: &FieldRef) {
        let report = misnamed(field);
        out.put_if(report, field_error(12, 1, field, 0));
    }
}

// R12: Reserved and Spare fields have the id `reserved` or `spare`, with a number or without.
#[tactic(auto, unfolding(crate::specs::ReservedIds::check_reserved_ids))]
pub fn check_reserved_ids(out: &mut Findings, pgn: &PgnRef)
    ensures { Emitted out.old (check_reserved_ids (tree_of pgn.now) pgn.now.item (pgn_value pgn.now)) out.new }
{
    check_fields::<ReservedIds>(out, pgn);
}
