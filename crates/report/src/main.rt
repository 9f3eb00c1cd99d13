// The report: the findings of the pack on standard input, one a line, and how many there are.
#![tactic(auto)]

use listing::input::read_pack;
use listing::output::Stdout;
use listing::words::Refused;
use pack::load::Refusal;
use rules::check::check;
use rules::place_text::place_text;
use std::io;
use std::io::Write;

// As long as a pack may be here, and the room for its records, its findings and a place text.
const LONGEST: usize = 65_536;

const ROOM: usize = 16_384;

const TEXT: usize = 65_536;

// Why a report ends before its last line: an error enum, one variant of which holds a refusal.
#[derive(Drop)]
enum Ended {
    Refused(Refusal),
    Io(io::Error),
}

impl From<Refusal> for Ended {
    fn from(refusal: Refusal) -> Ended {
        Ended::Refused(refusal)
    }
}

impl From<io::Error> for Ended {
    fn from(error: io::Error) -> Ended {
        Ended::Io(error)
    }
}

// Rule, severity, place text, cause, part, other.
fn write_finding(
    out: &mut impl Write,
    pack: &[u8],
    work: &mut [u32],
    text: &mut [u8],
    finding: &[u32; 8],
) -> Result<(), Ended> {
    let [rule, severity, cause, place, tree, item, part, other] = *finding;
    let severity = if severity == 1 { "error" } else { "warning" };
    let n = place_text(pack, work, place, tree, item, text)?;
    write!(out, "R{rule:02} {severity} ")?;
    out.write_all(&text[..n])?;
    writeln!(out, " {cause} {part} {other}")?;
    Ok(())
}

// Every finding, and how many there are.
fn report(
    out: &mut impl Write,
    pack: &[u8],
    work: &mut [u32],
    findings: &mut [u32],
    text: &mut [u8],
) -> Result<(), Ended> {
    let found = check(pack, work, findings)?;
    let (numbers, _) = findings.as_chunks::<8>();
    for finding in numbers.iter().take(found.findings) {
        write_finding(out, pack, work, text, finding)?;
    }
    writeln!(out, "findings {} errors {}", found.findings, found.errors)?;
    Ok(())
}

fn read_and_report(
    out: &mut impl Write,
    buf: &mut [u8],
    work: &mut [u32],
    findings: &mut [u32],
    text: &mut [u8],
) -> io::Result<()> {
    let Some(pack) = read_pack(buf) else {
        return writeln!(out, "too long");
    };
    match report(out, pack, work, findings, text) {
        Ok(()) => Ok(()),
        Err(Ended::Refused(refusal)) => writeln!(out, "{}", Refused(refusal)),
        Err(Ended::Io(error)) => Err(error),
    }
}

fn main() {
    let mut buf = [0u8; LONGEST];
    let mut work = [0u32; ROOM];
    let mut findings = [0u32; ROOM];
    let mut text = [0u8; TEXT];
    let mut out = Stdout::new();
    // A write that fails is passed over, so that there is nothing to tell.
    let _ = read_and_report(&mut out, &mut buf, &mut work, &mut findings, &mut text);
    let _ = out.flush();
}
