// Runs: visits one after the other that need no field's record, within stretches and from a set's pass into the next.
ghost use Rattle.std.specs.Prelude.{◌≡◌, true, false, Some, ℕ, ◌+◌, ◌-◌, ◌≤◌, ◌<◌, get_or};
ghost use Rattle.walk.specs.Runs.{Sound, PassesOn, RunsTo, RunsAlong};
ghost use Rattle.walk.specs.StopParts.{lets_pass};
ghost use Rattle.walk.specs.Traces.{MakesAll, Later};

use crate::known::Memory;
use crate::orders::{index_of, later_order};
use crate::passes::Passes;
use crate::sets::Sets;
use crate::stretches::{Ending, Stretch, ahead, is_in, stretch_at};
use crate::trace::Trace;
use pack::protocol::{FieldOrder, same_order};

// At which order a run within one stretch ends: the run itself ends there, or a pass begins there, outside the stretch.
#[derive(Clone, Copy)]
pub enum StretchEnd {
    Ends(FieldOrder),
    Begins(FieldOrder),
}

// The visits from the order o to before another; and the order behind them. Of free orders the memory is not asked.
fn leap(memory: &Memory, free: bool, to: FieldOrder, o: FieldOrder, trace: &mut Trace) -> FieldOrder
    requires { record {
      first : 1 ≤ o.0;
      within : o.0 ≤ to.0;
      marked : free ≡ true → (x : ℕ) → o.0 ≤ x → x < to.0 → get_or memory.now.marks (x - 1) 0 ≡ 1;
    } }
    ensures { record {
      onward : o.0 ≤ result.0;
      within : result.0 ≤ to.0;
      makes : MakesAll trace.old (o.0 - 1) (result.0 - o.0) trace.new;
      passing : (j : ℕ) → j < result.0 - o.0
          → lets_pass memory.now (o.0 - 1 + j) (get_or trace.old.readings.now (trace.old.made + j) 0) ≡ true;
    } }
{
    let n = ahead(to, o, trace.left());
    let k = index_of(o);
    if free {
        trace.visit_all(k, n);
        return later_order(o, n);
    }
    later_order(o, trace.visit_passing(memory, k, n))
}

// At the order o: whether it is the one behind which set k ends, the visit there is known not to stop, and another pass of the set begins,
// which is counted then.
fn pass_on(
    memory: &Memory,
    passes: &mut Passes,
    to: FieldOrder,
    k: usize,
    o: FieldOrder,
    trace: &Trace,
) -> bool
    requires { record { first : 1 ≤ o.0; set : k < 4 } }
    ensures { record {
      kept : result ≡ false → passes.new.numbers ≡ passes.old.numbers;
      on : result ≡ true → PassesOn memory.now trace.now to.0 k o.0 passes.old.numbers passes.new.numbers;
    } }
{
    if !same_order(o, to) {
        return false;
    }
    let Some(reading) = trace.next() else {
        return false;
    };
    if !memory.lets_pass(index_of(o).0, reading) {
        return false;
    }
    passes.begins(k)
}

// From the beginning of a stretch that a set ends: its orders, and from the set's pass into the next as long as it begins among them. The order
// goes forth and back, so that no range gives it.
fn run_passes(
    memory: &Memory,
    passes: &mut Passes,
    stretch: Stretch,
    ending: Ending,
    trace: &mut Trace,
) -> StretchEnd
    requires { record { sound : Sound memory.now stretch; ends : stretch.ending ≡ Some ending } }
    ensures { RunsAlong memory.now trace.old stretch passes.old.numbers trace.new result passes.new.numbers }
{
    let from = stretch.from;
    let to = stretch.to;
    let free = stretch.free;
    let set = ending.set;
    let start = ending.start;
    let mut here = from;
    while is_in(from, to, here) {
        here = leap(memory, free, to, here, trace);
        if !pass_on(memory, passes, to, set, here, trace) {
            return StretchEnd::Ends(here);
        }
        trace.visit(index_of(here));
        here = start;
    }
    StretchEnd::Begins(here)
}

// From the beginning of a stretch.
fn run_stretch(
    memory: &Memory,
    passes: &mut Passes,
    stretch: Stretch,
    trace: &mut Trace,
) -> StretchEnd
    requires { Sound memory.now stretch }
    ensures { RunsAlong memory.now trace.old stretch passes.old.numbers trace.new result passes.new.numbers }
{
    if let Some(ending) = stretch.ending {
        return run_passes(memory, passes, stretch, ending, trace);
    }
    StretchEnd::Ends(leap(memory, stretch.free, stretch.to, stretch.from, trace))
}

// From the order that is due, stretch by stretch: which comes next is known where one ends, and no range gives it.
pub fn run(
    sets: Sets,
    memory: &Memory,
    passes: &mut Passes,
    order: FieldOrder,
    trace: &mut Trace,
) -> FieldOrder
    requires { record { first : 1 ≤ order.0; within : order.0 ≤ sets.fields; small : sets.fields < 4294967295 } }
    ensures { record {
      later : Later trace.old trace.new;
      runs : RunsTo sets memory.now trace.old order.0 passes.old.numbers trace.new result.0 passes.new.numbers;
    } }
{
    let mut here = order;
    loop {
        let stretch = stretch_at(sets, memory, here);
        match run_stretch(memory, passes, stretch, trace) {
            StretchEnd::Ends(end) => return end,
            StretchEnd::Begins(next) => here = next,
        }
    }
}
