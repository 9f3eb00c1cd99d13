// Shows a walk in words: over a PGN of the pack on standard input, with the readings that the arguments give.
#![tactic(auto)]

mod arguments;
mod find;
mod passes;
mod show;

use arguments::{Arguments, ArgumentsError, read_arguments};
use listing::input::read_pack;
use listing::output::Stdout;
use std::alloc::Global;
use std::io::Write;
use std::{env, io};

fn usage(out: &mut impl Write) -> io::Result<()> {
    writeln!(out, "use: show_walk TREE PGN READING .. < PACK")?;
    writeln!(
        out,
        "TREE is 0 (NMEA 2000), 1 (J1939) or 2 (Quick); \
         PGN a number, for the first PGN of that number in the tree, \
         or, where there is none, an id; \
         there are at most 256 readings, numbers of 64 bits."
    )
}

// The name is empty where the argument is, or is too long.
fn read_and_show(
    out: &mut impl Write,
    buf: &mut [u8],
    alloc: Global,
    arguments: &Arguments<'_>,
) -> io::Result<()> {
    match read_pack(buf) {
        None => writeln!(out, "too long"),
        Some(_) if arguments.name.is_empty() => usage(out),
        Some(pack) => show::show(out, alloc, pack, arguments),
    }
}

// Not called with the array itself: the check runs out of stack over the bounds of a million bytes.
fn lend(
    out: &mut impl Write,
    buf: &mut [u8; 1_048_576],
    alloc: Global,
    arguments: &Arguments<'_>,
) -> io::Result<()> {
    read_and_show(out, buf, alloc, arguments)
}

// Room for a pack that `load` takes.
fn run(out: &mut impl Write, alloc: Global, arguments: &Arguments<'_>) -> io::Result<()> {
    let mut buf = [0u8; 1_048_576];
    lend(out, &mut buf, alloc, arguments)
}

fn main(rt: HostRuntime) -> io::Result<()> {
    let mut out = Stdout::new();
    let args: Vec<String> = env::args(&rt)?.collect(rt.alloc())?;
    match read_arguments(rt.alloc(), &args) {
        Ok(arguments) => run(&mut out, rt.alloc(), &arguments)?,
        Err(ArgumentsError::Usage) => usage(&mut out)?,
        Err(ArgumentsError::Io(error)) => return Err(error),
    }
    out.flush()
}
