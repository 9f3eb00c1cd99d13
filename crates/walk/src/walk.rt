// The calls `walk` and `held`.
ghost use Rattle.std.specs.Prelude.{◌≡◌, false, ℕ, length};
ghost use Rattle.std.specs.Prelude.{None};
ghost use Rattle.pack.specs.Loaded.{pgn_value};
ghost use Rattle.pack.specs.Meaning.{pack_of};
ghost use Rattle.walk.specs.Layout.{layout, stop_1};
ghost use Rattle.walk.specs.Naming.{Judges};
ghost use Rattle.walk.specs.State.{left_of, left_at, memory_of};
ghost use Rattle.walk.specs.StopParts.{Remembered};
ghost use Rattle.walk.specs.Traces.{Traced};
ghost use Rattle.walk.specs.Walk.{walk};
ghost use Rattle.walk.specs.WalkCall.{Walks, TellsHeld};

use crate::held::held_at;
use crate::known::Memory;
use crate::named::{FoundPgn, find_pgn, found_pgn};
use crate::orders::first_order;
use crate::passes::Passes;
use crate::sets::stop_1;
use crate::steps::{Stepping, run_on, step, used};
pub use crate::stops::Stop;
use crate::trace::Trace;
use pack::load::{Refusal, load};
use pack::loaded::Pack;

#[derive(Clone, Copy)]
pub enum End {
    Whole,
    UsedUp,
    Stop(Stop),
}

// How a walk ended, and how many visits were made.
#[derive(Clone, Copy)]
pub struct Ended {
    pub end: End,
    pub visits: usize,
}

// The walk past stop 1, with a memory of what is known of the fields. `settle` is called here alone, so that the compiler inlines it. The loop ends
// with the readings or the walk: no range says how many turns there are.
fn walk_on(found: &FoundPgn, memory: &mut Memory, passes: &mut Passes, trace: &mut Trace) -> End
    requires { record {
      remembered : Remembered (pack_of found.now.pgn.pack.bytes.now) (pgn_value found.now.pgn) memory.old;
      left : (k : ℕ) → left_of (left_at passes.old.numbers k) ≡ None;
      latest : (k : ℕ) → memory_of passes.old.numbers k ≡ 0;
      no_stop_1 : stop_1 (layout (pgn_value found.now.pgn)) ≡ false;
      none : trace.old.made ≡ 0;
    } }
    ensures { Traced (walk (pack_of found.now.pgn.pack.bytes.now) (pgn_value found.now.pgn) trace.old.readings.now) trace.old
        result trace.new }
{
    let sets = found.sets;
    let mut here = first_order();
    loop {
        let settling = passes.settle(sets, here);
        let ran = run_on(sets, memory, passes, settling, trace);
        let Some(reading) = trace.next() else {
            return used(ran);
        };
        match step(found, memory, passes, ran, reading) {
            Stepping::Ended(end) => return end,
            Stepping::Visited { field, next } => {
                trace.visit(field);
                here = next;
            }
        }
    }
}

// The walk over a PGN that is found, with a memory for as many fields as a pack can have, and for the readings of the first 128 of them.
fn walk_at(found: &FoundPgn, trace: &mut Trace) -> End
    requires { trace.old.made ≡ 0 }
    ensures { Traced (walk (pack_of found.now.pgn.pack.bytes.now) (pgn_value found.now.pgn) trace.old.readings.now) trace.old
        result trace.new }
{
    if stop_1(found.sets) {
        return End::Stop(Stop::SetMisplaced);
    }
    let mut memory = Memory {
        marks: [0u8; 32768],
        bad: [0u64; 512],
    };
    let mut passes = Passes {
        numbers: [0u64; 16],
    };
    walk_on(found, &mut memory, &mut passes, trace)
}

// "then 21, 23, 25": 25, and the walk.
fn walk_found(found: &FoundPgn, readings: &[u64], visits: &mut [u32]) -> Result<Ended, Refusal>
    ensures { Judges (walk (pack_of found.now.pgn.pack.bytes.now) (pgn_value found.now.pgn) readings.now) (length readings.now)
        visits.old visits.new result }
{
    let needed = readings.len();
    if visits.len() < needed {
        return Err(Refusal::Visits(needed));
    }
    let mut trace = Trace {
        readings,
        out: visits,
        made: 0,
    };
    let end = walk_at(found, &mut trace);
    Ok(Ended {
        end,
        visits: trace.made,
    })
}

// The call `walk`, by the C interface's numbers. It makes its `Pack` itself (see there).
pub fn walk(
    pack: &[u8],
    work: &mut [u32],
    tree: u32,
    pgn: u32,
    readings: &[u64],
    visits: &mut [u32],
) -> Result<Ended, Refusal>
    ensures { Walks pack.now tree pgn readings.now work.old visits.old
        work.new visits.new result }
{
    let index = load(pack, work)?;
    let pack = Pack {
        bytes: pack,
        work,
        index,
    };
    let pgn = find_pgn(&pack, tree, pgn)?;
    walk_found(&found_pgn(&pgn), readings, visits)
}

// The call `held`, likewise.
pub fn held(pack: &[u8], work: &mut [u32], tree: u32, pgn: u32) -> Result<bool, Refusal>
    ensures { TellsHeld pack.now tree pgn work.old work.new result }
{
    let index = load(pack, work)?;
    let pack = Pack {
        bytes: pack,
        work,
        index,
    };
    let pgn = find_pgn(&pack, tree, pgn)?;
    Ok(held_at(&found_pgn(&pgn)))
}
