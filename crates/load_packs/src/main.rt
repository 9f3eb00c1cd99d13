// Loads each pack that an argument names, and packs of the largest size, and prints what `load` answers and what it leaves in work
// buffers of several lengths.
#![tactic(auto)]

use listing::output::Stdout;
use pack::load::{Index, Refusal, Section, load};
use std::alloc::Global;
use std::fs::File;
use std::io::{Read, Write};
use std::{env, fmt, fs, io};

// The most numbers that a work buffer has here, and what each of them is before a load.
const ROOM: usize = 64;

const UNUSED: u32 = 0xaaaa_aaaa;

// So many of a file's bytes are loaded.
const MOST: u64 = 4096;

// As long as a pack may be.
const LONGEST: usize = 1_048_576;

#[derive(Clone, Copy)]
struct InWords(Section);

impl fmt::Display for InWords {
    fn fmt<W: fmt::Write>(&self, f: &mut fmt::Formatter<W>) -> fmt::Result {
        write!(f, "{} at {}", self.0.count, self.0.place)
    }
}

fn write_index(out: &mut impl Write, index: Index) -> io::Result<()> {
    write!(
        out,
        "types {}, lookups {}, nmea2000 {}, j1939 {}, quick {}, records {}",
        InWords(index.types),
        InWords(index.lookups),
        InWords(index.nmea2000),
        InWords(index.j1939),
        InWords(index.quick),
        index.records
    )
}

// Whether the rest of a work buffer is as it was.
fn write_kept(out: &mut impl Write, rest: &[u32]) -> io::Result<()> {
    let kept = rest.iter().all(|n| *n == UNUSED);
    writeln!(out, ", {}", if kept { "kept" } else { "CHANGED" })
}

// What a load answered, and what it left in the work buffer. The answer is how many records an accepted pack has.
fn write_loaded(
    out: &mut impl Write,
    loaded: Result<Index, Refusal>,
    work: &[u32],
) -> io::Result<Option<usize>> {
    match loaded {
        Err(refusal) => {
            write!(
                out,
                "refused {} detail {}",
                refusal.number(),
                refusal.detail()
            )?;
            write_kept(out, work)?;
            Ok(None)
        }
        Ok(index) => {
            let (offsets, rest) = work.split_at(index.records.min(work.len()));
            write_index(out, index)?;
            write!(out, ", offsets")?;
            for offset in offsets {
                write!(out, " {offset}")?;
            }
            write_kept(out, rest)?;
            Ok(Some(index.records))
        }
    }
}

// Loads the pack with the first n numbers of a work buffer.
fn load_with(out: &mut impl Write, pack: &[u8], n: usize) -> io::Result<Option<usize>> {
    let mut work = [UNUSED; ROOM];
    write!(out, "  work of {n}: ")?;
    let Some(part) = work.get_mut(..n) else {
        writeln!(out, "not tried")?;
        return Ok(None);
    };
    let loaded = load(pack, part);
    write_loaded(out, loaded, &work)
}

// A refused pack is loaded once more without any work buffer, an accepted one with a number too few, just enough, and one more. What is held goes
// out, since the next file may keep the program waiting.
fn report(out: &mut impl Write, name: &str, pack: &[u8]) -> io::Result<()> {
    writeln!(out, "{name}")?;
    let Some(n) = load_with(out, pack, ROOM)? else {
        load_with(out, pack, 0)?;
        return out.flush();
    };
    if 0 < n {
        load_with(out, pack, n - 1)?;
    }
    load_with(out, pack, n)?;
    if n < ROOM {
        load_with(out, pack, n + 1)?;
    }
    out.flush()
}

fn report_file(out: &mut impl Write, alloc: Global, name: &str, file: File) -> io::Result<()> {
    let mut pack = Vec::new(alloc);
    file.take(MOST).read_to_end(&mut pack)?;
    report(out, name, &pack)
}

// A file that can't be opened is named on standard error, and the next one follows.
fn report_argument(rt: &HostRuntime, out: &mut impl Write, name: &str) -> io::Result<()> {
    match fs::open(rt, name) {
        Ok(file) => report_file(out, rt.alloc(), name, file),
        Err(error) => {
            out.flush()?;
            eprintln!(rt; "{name}: {error}")
        }
    }
}

// A pack of the largest size, of that version, and one of a byte more: one field type whose name takes up all the room, all else 0.
fn report_large(
    out: &mut impl Write,
    pack: &mut [u8],
    version: u8,
    largest: &str,
    larger: &str,
) -> io::Result<()> {
    if let Some(first) = pack.first_mut() {
        *first = version;
    }
    report(out, largest, &pack[..pack.len().min(LONGEST)])?;
    report(out, larger, pack)
}

fn report_all(rt: &HostRuntime, out: &mut impl Write) -> io::Result<()> {
    for name in env::args(rt)?.skip(1) {
        report_argument(rt, out, name.as_str())?;
    }
    let mut pack = Vec::with_capacity(rt.alloc(), LONGEST + 1)?;
    pack.extend_from_slice(&[1, 1, 0xec, 0xff, 0x3f])?;
    pack.resize(LONGEST + 1, 0)?;
    report_large(out, &mut pack, 1, "largest", "larger_by_one_byte")?;
    report_large(
        out,
        &mut pack,
        2,
        "largest_of_version_2",
        "larger_by_one_byte_of_version_2",
    )
}

// What is held goes out before an error is told. A write that fails is passed over.
fn main(rt: HostRuntime) -> io::Result<()> {
    let mut out = Stdout::new();
    let done = report_all(&rt, &mut out);
    out.flush()?;
    done
}
