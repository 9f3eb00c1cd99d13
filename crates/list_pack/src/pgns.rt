// The PGNs of a tree, each with its sets and fields.
use crate::fields;
use listing::words::{Counted, flags, protocol_name, text};
use pack::kinds::MessageType;
use pack::loaded::{Pack, PgnRef};
use pack::pgn::RepeatingView;
use pack::protocol::Protocol;
use std::io;
use std::io::Write;

// What a PGN's type is called.
fn message_name(message: MessageType) -> &'static str {
    match message {
        MessageType::Single => "Single",
        MessageType::Fast => "Fast",
        MessageType::Iso => "ISO",
        MessageType::Mixed => "Mixed",
    }
}

// The set at a place, counted from 1.
fn list_set(out: &mut impl Write, place: u32, set: RepeatingView) -> io::Result<()> {
    write!(
        out,
        "    set {place}: start {}, count {}",
        set.start.0, set.count
    )?;
    if let Some(counter) = set.counter {
        write!(out, ", countField {}", counter.0)?;
    }
    flags(out, &[(set.nested, "nested")])?;
    writeln!(out)
}

fn list_pgn(out: &mut impl Write, pack: &Pack<'_>, pgn: PgnRef<'_>) -> io::Result<()> {
    let view = pgn.view;
    write!(out, "  {}", view.pgn)?;
    text(out, " ", pack.text(view.id))?;
    let at = pgn.byte();
    let message = message_name(view.kind);
    write!(out, " at byte {at}: {message}, length {}", view.length)?;
    if let Some(minimum) = view.minimum {
        write!(out, ", minimum {minimum}")?;
    }
    flags(
        out,
        &[
            (view.flags.fallback, "fallback"),
            (view.flags.variable, "variable"),
            (view.flags.incomplete, "MissingCompanyFields"),
        ],
    )?;
    let fields = Counted {
        count: view.fields as usize,
        one: "field",
        many: "fields",
    };
    writeln!(out, ", {fields}")?;
    for (place, set) in (1..=view.places).zip(view.sets) {
        if let Some(set) = set {
            list_set(out, place, set)?;
        }
    }
    for k in 0..view.fields {
        fields::list(out, pack, k + 1, pgn.byte_of_field(k), pgn.field(k))?;
    }
    Ok(())
}

pub fn list(out: &mut impl Write, pack: &Pack<'_>, protocol: Protocol) -> io::Result<()> {
    let tree = protocol.tree();
    let name = protocol_name(protocol);
    let count = protocol.section(pack.index).count;
    writeln!(out, "tree {tree} {name}, PGNs {count}")?;
    for pgn in pack.pgns(protocol) {
        list_pgn(out, pack, pgn)?;
    }
    Ok(())
}
