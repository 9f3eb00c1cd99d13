// The lookups, each with its entries. Other records are listed alike in the other modules: what is written of each differs.
use listing::words::{Counted, kind_name, text};
use pack::entry::EntryView;
use pack::kinds::LookupKind;
use pack::loaded::{LookupRef, Pack};
use std::io;
use std::io::Write;

fn list_entry(
    out: &mut impl Write,
    pack: &Pack<'_>,
    kind: LookupKind,
    at: u32,
    entry: EntryView,
) -> io::Result<()> {
    write!(out, "   ")?;
    if kind == LookupKind::Triplet {
        write!(out, " {}", entry.first)?;
    }
    write!(out, " {}", entry.value)?;
    text(out, " ", pack.text(entry.name))?;
    write!(out, " at byte {at}")?;
    if kind == LookupKind::Fieldtype {
        text(out, ", field type ", pack.text(entry.fieldtype))?;
        if let Some(nested) = entry.nested {
            text(out, ", nested lookup ", pack.text(nested))?;
        }
    }
    writeln!(out)
}

fn list_lookup(out: &mut impl Write, pack: &Pack<'_>, lookup: LookupRef<'_>) -> io::Result<()> {
    let view = lookup.view;
    write!(out, "  {}", lookup.item)?;
    text(out, " ", pack.text(view.name))?;
    let at = lookup.byte();
    let kind = kind_name(view.kind);
    let bits = Counted {
        count: view.bits as usize,
        one: "bit",
        many: "bits",
    };
    let entries = Counted {
        count: view.entries as usize,
        one: "entry",
        many: "entries",
    };
    writeln!(out, " at byte {at}: {kind}, {bits}, {entries}")?;
    for k in 0..view.entries {
        list_entry(
            out,
            pack,
            view.kind,
            lookup.byte_of_entry(k),
            lookup.entry(k),
        )?;
    }
    Ok(())
}

pub fn list(out: &mut impl Write, pack: &Pack<'_>) -> io::Result<()> {
    writeln!(out, "lookups {}", pack.index.lookups.count)?;
    for lookup in pack.lookups() {
        list_lookup(out, pack, lookup)?;
    }
    Ok(())
}
