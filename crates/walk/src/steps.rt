// One step of the walk, and several steps in a run.
ghost use Rattle.std.specs.Prelude.{◌≡◌, true, ℕ, suc, ◌≤◌, ◌<◌, List, length, if◌then◌else◌};
ghost use Rattle.std.specs.Prelude.{None};
ghost use Rattle.pack.specs.Loaded.{pgn_value};
ghost use Rattle.pack.specs.Meaning.{pack_of};
ghost use Rattle.walk.specs.ByPlace.{placed};
ghost use Rattle.walk.specs.Layout.{Layout, layout};
ghost use Rattle.walk.specs.SetsOf.{SetsAre};
ghost use Rattle.walk.specs.State.{place_of, memory_of, settled_of};
ghost use Rattle.walk.specs.Steps.{Run, one_step, used, step_of, next_of, Within};
ghost use Rattle.walk.specs.StopParts.{Remembered, lets_pass};
ghost use Rattle.walk.specs.Stops.{stop_at};
ghost use Rattle.walk.specs.Traces.{Later};
ghost use Rattle.walk.specs.Walk.{Stops, due};
ghost use Rattle.walk.specs.WalkCall.{ending};
ghost use Rattle.walk.specs.declared.passes.Settling.TheVariants.{Due};
ghost use Rattle.pack.specs.declared.protocol.FieldOrder.{FieldOrder};

use crate::known::Memory;
use crate::named::FoundPgn;
use crate::orders::{index_of, next_order};
use crate::passes::{Passes, Settling};
use crate::runs::run;
use crate::sets::Sets;
use crate::stops::Stop;
use crate::trace::Trace;
use crate::walk::End;
use pack::protocol::{FieldIndex, FieldOrder};

// With one reading: the walk ends, or a field is visited, and the walk goes on behind it.
#[derive(Clone, Copy)]
pub enum Stepping {
    Ended(End),
    Visited { field: FieldIndex, next: FieldOrder },
}

// At a due field, with its reading.
fn step_at(
    found: &FoundPgn,
    memory: &mut Memory,
    passes: &mut Passes,
    o: FieldOrder,
    reading: u64,
) -> Stepping
    requires { record {
      remembered : Remembered (pack_of found.now.pgn.pack.bytes.now) (pgn_value found.now.pgn) memory.old;
      first : 1 ≤ o.0;
      within : o.0 ≤ length (pgn_value found.now.pgn).fields;
    } }
    ensures { record {
      step : step_of (layout (pgn_value found.now.pgn)) result passes.new.numbers ≡ one_step (layout (pgn_value found.now.pgn))
          (stop_at (pack_of found.now.pgn.pack.bytes.now) (pgn_value found.now.pgn))
          (due (place_of o.0 passes.old.numbers) (memory_of passes.old.numbers)) reading;
      ahead : 1 ≤ next_of result;
      remembered : Remembered (pack_of found.now.pgn.pack.bytes.now) (pgn_value found.now.pgn) memory.new;
    } }
{
    let field = index_of(o);
    if let Some(stop) = memory.stop_at(found, field.0, reading) {
        return Stepping::Ended(End::Stop(stop));
    }
    passes.visit(found.sets, o, reading);
    let next = next_order(o);
    Stepping::Visited { field, next }
}

// One step of the walk over a PGN.
pub fn step(
    found: &FoundPgn,
    memory: &mut Memory,
    passes: &mut Passes,
    settling: Settling,
    reading: u64,
) -> Stepping
    requires { record {
      remembered : Remembered (pack_of found.now.pgn.pack.bytes.now) (pgn_value found.now.pgn) memory.old;
      within : Within (layout (pgn_value found.now.pgn)) (settled_of settling passes.old.numbers);
    } }
    ensures { record {
      step : step_of (layout (pgn_value found.now.pgn)) result passes.new.numbers ≡ one_step (layout (pgn_value found.now.pgn))
          (stop_at (pack_of found.now.pgn.pack.bytes.now) (pgn_value found.now.pgn)) (settled_of settling passes.old.numbers) reading;
      ahead : 1 ≤ next_of result;
      remembered : Remembered (pack_of found.now.pgn.pack.bytes.now) (pgn_value found.now.pgn) memory.new;
    } }
{
    match settling {
        Settling::Due(order) => step_at(found, memory, passes, order, reading),
        Settling::Halted => Stepping::Ended(End::Stop(Stop::CounterNotCurrent)),
        Settling::Past => Stepping::Ended(End::Whole),
    }
}

// With no reading left: the numbers of the passes do not matter.
pub fn used(settling: Settling) -> End
    ensures { (w : List ℕ) → result ≡ ending (used (settled_of settling w)) }
{
    match settling {
        Settling::Due(_) => End::UsedUp,
        Settling::Halted => End::Stop(Stop::CounterNotCurrent),
        Settling::Past => End::Whole,
    }
}

// A run from where the walk is.
pub fn run_on(
    sets: Sets,
    memory: &Memory,
    passes: &mut Passes,
    settling: Settling,
    trace: &mut Trace,
) -> Settling
    requires { record {
      due : (o : FieldOrder) → settling ≡ Due o → record { first : 1 ≤ o.0; within : o.0 ≤ sets.fields };
      small : sets.fields < 4294967295;
    } }
    ensures { record {
      later : Later trace.old trace.new;
      ran : (L : Layout) → SetsAre L sets → (stops : Stops)
          → ((k reading : ℕ) → lets_pass memory.now k reading ≡ true → stops (placed L (suc k)) k reading ≡ None)
          → Run L stops trace.old.readings.now trace.old.out.now trace.old.made (settled_of settling passes.old.numbers)
          trace.new.out.now trace.new.made (settled_of result passes.new.numbers);
    } }
{
    let Settling::Due(order) = settling else {
        return settling;
    };
    Settling::Due(run(sets, memory, passes, order, trace))
}
