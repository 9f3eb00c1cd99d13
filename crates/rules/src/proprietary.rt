// R07
ghost use Rattle.std.specs.Prelude.{◌≡◌, not, ◌&&◌, ◌||◌, ◌==◌};
ghost use Rattle.pack.specs.Notation.{◌≐◌};
ghost use Rattle.pack.specs.Loaded.{tree_of, pgn_value};
ghost use Rattle.pack.specs.Meaning.{pack_of};
ghost use Rattle.pack.specs.Value.{field_at};
ghost use Rattle.rules.specs.Emit.{Emitted};
ghost use Rattle.rules.specs.Model.{root_of};
ghost use Rattle.rules.specs.Proprietary.{is_manufacturer_pgn, pair_is, company_fields, check_proprietary};
ghost use Rattle.rules.specs.Texts.{RESERVED};

use crate::emit::{Findings, pgn_error};
use crate::is_manufacturer_pgn;
use pack::kinds::LookupKind;
use pack::loaded::{FieldRef, PgnRef};
use pack::text::text_is;

// A field of so many bits with a reference of kind pair to the lookup of that name.
fn is_pair(field: &FieldRef, name: &[u8], bits: u32) -> bool
    ensures { let f = field_at (pgn_value field.now.pgn.now) field.now.index in
        result ≡ (pair_is f.reference name.now && (f.res_bits == bits)) }
{
    let pgn = field.pgn;
    let f = field.view;
    let reference = f.links.reference;
    reference.is_some_and(|r| r.kind == LookupKind::Pair && text_is(pgn.pack.bytes, r.name, name))
        && f.scaling.bits == bits
}

// A RESERVED field of so many bits.
fn is_reserved(field: &FieldRef, bits: u32) -> bool
    ensures { let g = field.now.pgn.now in let f = field_at (pgn_value g) field.now.index in
        result ≡ ((root_of (pack_of g.pack.bytes.now).fieldtypes f ≐ RESERVED) && (f.res_bits == bits)) }
{
    let pgn = field.pgn;
    let root = field.field_type().root;
    text_is(pgn.pack.bytes, root, b"RESERVED") && field.view.scaling.bits == bits
}

// Whether the PGN opens with Manufacturer Code, Reserved, Industry Code.
fn company_fields(pgn: &PgnRef) -> bool
    ensures { result ≡ company_fields (pack_of pgn.now.pack.bytes.now).fieldtypes (pgn_value pgn.now) }
{
    if pgn.view.fields < 3 {
        return false;
    }
    let code = pgn.field_ref(0);
    if !is_pair(&code, b"MANUFACTURER_CODE", 11) {
        return false;
    }
    let reserved = pgn.field_ref(1);
    if !is_reserved(&reserved, 2) {
        return false;
    }
    let industry = pgn.field_ref(2);
    is_pair(&industry, b"INDUSTRY_CODE", 3)
}

// Not manufacturer-proprietary, or a fallback.
fn is_exempt(pgn: u32, fallback: bool) -> bool
    ensures { result ≡ (not (is_manufacturer_pgn pgn) || fallback) }
{
    !is_manufacturer_pgn(pgn) || fallback
}

// R07: manufacturer-proprietary PGNs open with Manufacturer Code / Reserved / Industry Code, or declare MissingCompanyFields.
#[tactic(auto, unfolding(crate::specs::Proprietary::check_proprietary))]
pub fn check_proprietary(out: &mut Findings, pgn: &PgnRef)
    ensures { Emitted out.old
        (check_proprietary (pack_of pgn.now.pack.bytes.now).fieldtypes (tree_of pgn.now) pgn.now.item (pgn_value pgn.now)) out.new }
{
    if is_exempt(pgn.view.pgn, pgn.view.flags.fallback) {
        return;
    }
    if pgn.view.flags.incomplete {
        return;
    }
    let opened = company_fields(pgn);
    out.put_if(!opened, pgn_error(7, 1, pgn, 0, 0));
}
