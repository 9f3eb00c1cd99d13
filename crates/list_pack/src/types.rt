// The field types.
use listing::words::{flags, text};
use pack::field_type::FieldTypeView;
use pack::loaded::Pack;
use std::io;
use std::io::Write;

fn list_type(
    out: &mut impl Write,
    pack: &Pack<'_>,
    i: u32,
    at: u32,
    view: FieldTypeView,
) -> io::Result<()> {
    write!(out, "  {i}")?;
    text(out, " ", pack.text(view.name))?;
    write!(
        out,
        " at byte {at}: size {}, resolution {:016x}",
        view.size, view.resolution
    )?;
    text(out, ", root ", pack.text(view.root))?;
    flags(
        out,
        &[
            (view.base, "base"),
            (view.print, "print function"),
            (view.signed, "signed"),
        ],
    )?;
    writeln!(out)
}

pub fn list(out: &mut impl Write, pack: &Pack<'_>) -> io::Result<()> {
    writeln!(out, "field types {}", pack.index.types.count)?;
    for i in 0..pack.index.types.count {
        list_type(out, pack, i, pack.byte_of_type(i), pack.field_type(i))?;
    }
    Ok(())
}
