// Lists the pack on standard input in words: every record with the byte at which it begins, or why the pack is refused.
#![tactic(auto)]

mod fields;
mod lookups;
mod pgns;
mod refusal;
mod types;

use listing::input::{load_pack, read_pack};
use listing::output::Stdout;
use listing::words::Counted;
use pack::loaded::Pack;
use pack::protocol::Protocol;
use refusal::InWords;
use std::io;
use std::io::Write;

fn list(out: &mut impl Write, pack: &Pack<'_>) -> io::Result<()> {
    let length = pack.bytes.len();
    let records = Counted {
        count: pack.index.records,
        one: "record",
        many: "records",
    };
    writeln!(out, "pack of {length} bytes, version 1, {records}")?;
    types::list(out, pack)?;
    lookups::list(out, pack)?;
    for protocol in Protocol::ALL {
        pgns::list(out, pack, protocol)?;
    }
    Ok(())
}

fn load_and_list(out: &mut impl Write, bytes: &[u8], work: &mut [u32]) -> io::Result<()> {
    match load_pack(bytes, work) {
        Ok(pack) => list(out, &pack),
        Err(refusal) => writeln!(out, "{}", InWords(refusal)),
    }
}

fn read_and_list(out: &mut impl Write, buf: &mut [u8], work: &mut [u32]) -> io::Result<()> {
    match read_pack(buf) {
        Some(bytes) => load_and_list(out, bytes, work),
        None => writeln!(out, "too long"),
    }
}

// Not called with the arrays themselves: the check runs out of stack over the bounds of a million bytes.
fn lend(buf: &mut [u8; 1_048_576], work: &mut [u32; 524_288]) -> io::Result<()> {
    let mut out = Stdout::new();
    read_and_list(&mut out, buf, work)?;
    out.flush()
}

// Room for a pack that `load` takes, and for the offsets of its records: none has less than two bytes.
fn main() {
    let mut buf = [0u8; 1_048_576];
    let mut work = [0u32; 524_288];
    // A write that fails is passed over, so that there is nothing to tell.
    let _ = lend(&mut buf, &mut work);
}
