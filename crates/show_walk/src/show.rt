// The walk over a PGN, visit by visit.
use crate::arguments::Arguments;
use crate::find::find;
use crate::passes::{Passes, counts_passes, indent};
use listing::input::load_pack;
use listing::words::{Counted, Refused, protocol_name, text};
use pack::loaded::PgnRef;
use pack::protocol::{FieldIndex, Protocol};
use rules::check::{Reported, check};
use std::alloc::{AllocError, Global};
use std::io::Write;
use std::{fmt, io};
use walk::counts::unavailable;
use walk::walk::{End, Ended, Stop, held, walk};

const FINDINGS: usize = 16_384;

const VISITS: usize = 256;

// The buffers of the calls.
#[derive(Drop)]
struct Buffers {
    work: Vec<u32>,
    findings: Vec<u32>,
    visits: Vec<u32>,
}

impl Buffers {
    // No record of a pack has less than two bytes.
    fn new(alloc: Global, bytes: usize) -> Result<Buffers, AllocError> {
        Ok(Buffers {
            work: vec![in alloc; 0; bytes / 2]?,
            findings: vec![in alloc; 0; FINDINGS]?,
            visits: vec![in alloc; 0; VISITS]?,
        })
    }
}

// A PGN of a pack: the pack's bytes, the tree, and which one of it.
#[derive(Clone, Copy)]
struct Named<'a> {
    bytes: &'a [u8],
    protocol: Protocol,
    item: u32,
}

// A tree by its number and its protocol's name.
#[derive(Clone, Copy)]
struct Tree(Protocol);

impl fmt::Display for Tree {
    fn fmt<W: fmt::Write>(&self, f: &mut fmt::Formatter<W>) -> fmt::Result {
        write!(f, "tree {} {}", self.0.tree(), protocol_name(self.0))
    }
}

// What being held means for a pack that was checked without one error, or not.
fn meaning(held: bool, clean: bool) -> &'static str {
    match (held, clean) {
        (false, _) => "not held: a walk may stop even where there is no error",
        (true, true) => "held, and no error: no walk stops, whatever the readings",
        (true, false) => "held, but a walk may stop: the pack is not without error",
    }
}

// How many errors the pack has. Whether it has none: a check that is refused, by 22 here, shows nothing.
fn show_errors(out: &mut impl Write, pack: &[u8], buffers: &mut Buffers) -> io::Result<bool> {
    match check(pack, &mut buffers.work, &mut buffers.findings) {
        Err(refusal) => {
            writeln!(
                out,
                "its pack's errors are not counted: {}",
                Refused(refusal)
            )?;
            Ok(false)
        }
        Ok(Reported { findings, errors }) => {
            let found = Counted {
                count: findings,
                one: "finding",
                many: "findings",
            };
            let wrong = Counted {
                count: errors,
                one: "error",
                many: "errors",
            };
            writeln!(out, "its pack has {found}, {wrong}")?;
            Ok(errors == 0)
        }
    }
}

// A visit of field k.
fn show_visit(
    out: &mut impl Write,
    pgn: PgnRef<'_>,
    passes: &mut Passes,
    k: u32,
    reading: u64,
) -> io::Result<()> {
    let Some(field) = pgn.get_field(k) else {
        return Ok(());
    };
    if u32::MAX == k {
        return Ok(());
    }
    let view = pgn.view;
    let order = FieldIndex(k).order();
    passes.at_visit(out, &view, order)?;
    indent(out, &view, order, view.places as usize)?;
    write!(out, "order {}", order.0)?;
    text(out, " ", pgn.pack.text(field.names.id))?;
    write!(out, " reading {reading}")?;
    if counts_passes(&view, order) && unavailable(field.scaling.bits, reading) {
        write!(out, ", count not available")?;
    }
    writeln!(out)
}

// "At a field, in this order", and before.
fn reason(stop: Stop) -> &'static str {
    match stop {
        Stop::SetMisplaced => "a set out of place",
        Stop::CounterNotCurrent => "a set's countField not current",
        Stop::LookupMissing => "lookup missing",
        Stop::MatchUnfit => "match unresolved, or too large for the field's bits",
        Stop::EntryNamesMissing => {
            "an entry for the reading names a missing field type or nested lookup"
        }
        Stop::LengthNotCurrent => "bitLengthField target not current",
        Stop::ContinuedNotCurrent => "continued field not current",
        Stop::NoLengthSource =>
            "no lower-order dynamicFieldLength or DYNAMIC_FIELD_KEY field current",
        Stop::TrailingNotCurrent => "trailing-zero target not current",
    }
}

fn show_end(out: &mut impl Write, end: End, visits: usize) -> io::Result<()> {
    let visits = Counted {
        count: visits,
        one: "visit",
        many: "visits",
    };
    match end {
        End::Whole => writeln!(out, "whole after {visits}"),
        End::UsedUp => writeln!(out, "used up after {visits}"),
        End::Stop(stop) => {
            let number = stop as u32;
            writeln!(out, "stop {number} after {visits}: {}", reason(stop))
        }
    }
}

// The visits, by the pack loaded once more: the walk had the work buffer.
fn show_visits(
    out: &mut impl Write,
    named: Named<'_>,
    readings: &[u64],
    work: &mut [u32],
    visits: &[u32],
) -> io::Result<()> {
    let Ok(pack) = load_pack(named.bytes, work) else {
        return Ok(());
    };
    let Some(pgn) = pack.pgn(named.protocol, named.item) else {
        return Ok(());
    };
    let mut passes = Passes::none();
    for (k, reading) in visits.iter().zip(readings) {
        show_visit(out, pgn, &mut passes, *k, *reading)?;
    }
    Ok(())
}

fn show_walk(
    out: &mut impl Write,
    named: Named<'_>,
    readings: &[u64],
    buffers: &mut Buffers,
) -> io::Result<()> {
    match walk(
        named.bytes,
        &mut buffers.work,
        named.protocol.tree(),
        named.item,
        readings,
        &mut buffers.visits,
    ) {
        Err(refusal) => writeln!(out, "{}", Refused(refusal)),
        Ok(Ended { end, visits }) => {
            let made = visits.min(buffers.visits.len());
            show_visits(
                out,
                named,
                readings,
                &mut buffers.work,
                &buffers.visits[..made],
            )?;
            show_end(out, end, visits)
        }
    }
}

// The walk first, and at once, since a check can take long.
fn show_found(
    out: &mut impl Write,
    named: Named<'_>,
    readings: &[u64],
    buffers: &mut Buffers,
) -> io::Result<()> {
    show_walk(out, named, readings, buffers)?;
    out.flush()?;
    let clean = show_errors(out, named.bytes, buffers)?;
    match held(
        named.bytes,
        &mut buffers.work,
        named.protocol.tree(),
        named.item,
    ) {
        Err(refusal) => writeln!(out, "{}", Refused(refusal)),
        Ok(held) => writeln!(out, "{}", meaning(held, clean)),
    }
}

// The index of the PGN of that name, once its heading is written; None where the pack is refused or has none, which is written then.
fn head(
    out: &mut impl Write,
    bytes: &[u8],
    work: &mut [u32],
    arguments: &Arguments<'_>,
) -> io::Result<Option<u32>> {
    let protocol = arguments.protocol;
    match load_pack(bytes, work) {
        Err(refusal) => {
            writeln!(out, "{}", Refused(refusal))?;
            Ok(None)
        }
        Ok(pack) => {
            let Some(found) = find(&pack, protocol, arguments.name) else {
                writeln!(
                    out,
                    "not in the pack: no PGN of that number or id in {}",
                    Tree(protocol)
                )?;
                return Ok(None);
            };
            write!(out, "PGN {}", found.view.pgn)?;
            text(out, " ", pack.text(found.view.id))?;
            writeln!(out, " of {}, index {}", Tree(protocol), found.item)?;
            Ok(Some(found.item))
        }
    }
}

// The PGN of that name in the tree. One work buffer serves every call.
pub fn show(
    out: &mut impl Write,
    alloc: Global,
    bytes: &[u8],
    arguments: &Arguments<'_>,
) -> io::Result<()> {
    let mut buffers = Buffers::new(alloc, bytes.len())?;
    let Some(item) = head(out, bytes, &mut buffers.work, arguments)? else {
        return Ok(());
    };
    let named = Named {
        bytes,
        protocol: arguments.protocol,
        item,
    };
    show_found(out, named, &arguments.readings, &mut buffers)
}
