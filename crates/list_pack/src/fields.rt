// The fields of a PGN.
use listing::words::{Counted, flags, kind_name, text};
use pack::field::{AuthoredView, FieldFlags, FieldView, LinksView, NamesView, ScalingView};
use pack::loaded::Pack;
use pack::text::Text;
use std::io;
use std::io::Write;

fn opt_text(out: &mut impl Write, words: &str, pack: &Pack<'_>, t: Option<Text>) -> io::Result<()> {
    match t {
        Some(t) => text(out, words, pack.text(t)),
        None => Ok(()),
    }
}

fn names(
    out: &mut impl Write,
    pack: &Pack<'_>,
    names: NamesView,
    order: u32,
    at: u32,
) -> io::Result<()> {
    write!(out, "    {order}")?;
    text(out, " ", pack.text(names.id))?;
    text(out, " \"", pack.text(names.name))?;
    write!(out, "\" at byte {at}")?;
    text(out, ": type ", pack.text(names.kind))
}

fn scaling(
    out: &mut impl Write,
    pack: &Pack<'_>,
    scaling: ScalingView,
    given: FieldFlags,
) -> io::Result<()> {
    let bits = Counted {
        count: scaling.bits as usize,
        one: "bit",
        many: "bits",
    };
    write!(
        out,
        ", {bits}, resolution {:016x}, offset {:016x}",
        scaling.resolution, scaling.offset
    )?;
    flags(
        out,
        &[
            (given.bits, "bits given"),
            (given.unit, "unit given"),
            (given.proprietary, "proprietary"),
            (given.mismatch, "allowLookupWidthMismatch"),
            (given.dynamic, "dynamicFieldLength"),
            (given.overhead, "overhead"),
        ],
    )?;
    opt_text(out, ", unit ", pack, scaling.unit)
}

fn authored(out: &mut impl Write, pack: &Pack<'_>, authored: AuthoredView) -> io::Result<()> {
    if let Some(resolution) = authored.resolution {
        write!(out, ", authored resolution {resolution:016x}")?;
    }
    if let Some(offset) = authored.offset {
        write!(out, ", authored offset {offset:016x}")?;
    }
    if let Some(spn) = authored.spn {
        write!(out, ", spn {spn}")?;
    }
    opt_text(out, ", continues ", pack, authored.continues)?;
    opt_text(out, ", match ", pack, authored.matched)
}

fn links(out: &mut impl Write, pack: &Pack<'_>, links: LinksView) -> io::Result<()> {
    if let Some(reference) = links.reference {
        write!(out, ", reference {}", kind_name(reference.kind))?;
        text(out, " ", pack.text(reference.name))?;
    }
    if let Some(special) = links.special {
        write!(out, ", specialValues {special}")?;
    }
    opt_text(out, ", bitLengthField ", pack, links.length)?;
    opt_text(out, ", trailing zero of ", pack, links.trailing)?;
    if let Some(continuation) = links.continuation {
        write!(out, ", continuation width {continuation}")?;
    }
    Ok(())
}

// The field of that order.
pub fn list(
    out: &mut impl Write,
    pack: &Pack<'_>,
    order: u32,
    at: u32,
    field: FieldView,
) -> io::Result<()> {
    names(out, pack, field.names, order, at)?;
    write!(out, ", field type {}", field.ft)?;
    if let Some(field_type) = pack.get_field_type(field.ft) {
        text(out, " ", pack.text(field_type.name))?;
    }
    scaling(out, pack, field.scaling, field.flags)?;
    authored(out, pack, field.authored)?;
    links(out, pack, field.links)?;
    writeln!(out)
}
