// The passes of the sets: which pass ends, which set is arrived at, which field is due.
ghost use Rattle.std.specs.Prelude.{◌≡◌, true, false, not, ◌&&◌, ℕ, suc, ◌+◌, ◌*◌, ◌-◌, ◌≤◌, ◌<◌, List, length, set, ◌==◌, if◌then◌else◌};
ghost use Rattle.std.specs.Prelude.{None, Some};
ghost use Rattle.rules.specs.Search.{any_below};
ghost use Rattle.pack.specs.Meaning.{opt_order};
ghost use Rattle.walk.specs.ByPlace.{by_place, counts};
ghost use Rattle.walk.specs.Layout.{Layout, set_at, start, end};
ghost use Rattle.walk.specs.Passes.{passes, Place, present, turn, again, arrived, look, close, stand};
ghost use Rattle.walk.specs.Runs.{Turns};
ghost use Rattle.walk.specs.SetsOf.{IsSet, SetsAre, value_at, has_orders};
ghost use Rattle.walk.specs.State.{rest_of, left_of, left_at, with_numbers, with_left, place_of, memory_of, turn_of, stand_of, arrived_set};
ghost use Rattle.walk.specs.State.{arrival_of, settled_of, round_of, over_order};
ghost use Rattle.walk.specs.Walk.{arrive, counted, past, halted, due, settle, settled};

use crate::counts::unavailable;
use crate::orders::index_of;
use crate::sets::{Set, Sets, is_nonempty, placed};
use pack::protocol::{FieldOrder, same_order};

// What is left of each set, and the latest reading of its countField: four numbers a set (specs/State), since values with flags or arrays of four
// were measured, and slower (docs/DECISIONS.md 66, 68). Made once a walk, and lent: a value as large, copied at each step, would cost more than the
// step.
#[derive(Drop)]
pub struct Passes {
    pub numbers: [u64; 16],
}

// What is left of a set's passes after the present one: they never end, or so many. Of a set with no present pass it is an option.
#[derive(Clone, Copy)]
pub enum Further {
    Endless,
    More(u64),
}

// What comes of a set's pass.
#[derive(Clone, Copy)]
pub enum Turning {
    GoesOn,
    Leaves,
    Begins(Further),
}

// Where the walk stands before the next visit: at the start of another pass, on arriving at a set, at a field and no set's start, past the last
// order.
#[derive(Clone, Copy)]
pub enum Standing {
    Again { set: usize, start: FieldOrder },
    Arrived(usize),
    Ready,
    Beyond,
}

// On arriving at a set: stop 2, passed over, or entered.
#[derive(Clone, Copy)]
pub enum Arriving {
    NotCurrent,
    Over,
    Enter(Further),
}

// A field is due at the order; or it is stop 2, or else the last order is passed.
#[derive(Clone, Copy)]
pub enum Settling {
    Due(FieldOrder),
    Halted,
    Past,
}

// One round: settled, or a set is passed over, up to the order behind it.
#[derive(Clone, Copy)]
pub enum Round {
    Settled(Settling),
    Over(FieldOrder),
}

// What comes of a pass that ends.
fn after(further: Further) -> Turning
    ensures { turn_of result ≡ turn true (Some (rest_of further)) }
{
    match further {
        Further::Endless => Turning::Begins(further),
        Further::More(0) => Turning::Leaves,
        Further::More(more) => Turning::Begins(Further::More(more - 1)),
    }
}

// What comes of a set's pass at the order o, where it ends or not.
fn turn(left: Option<Further>, o: FieldOrder, end: FieldOrder) -> Turning
    ensures { turn_of result ≡ turn (o.0 == end.0) (left_of left) }
{
    if !same_order(o, end) {
        return Turning::GoesOn;
    }
    match left {
        None => Turning::GoesOn,
        Some(further) => after(further),
    }
}

// "An empty set is never arrived at."
fn arrives(set: Set, o: FieldOrder, left: Option<Further>) -> bool
    ensures { result ≡ (has_orders set && (set.start.0 == o.0) && not (present (left_of left))) }
{
    is_nonempty(set) && same_order(set.start, o) && left.is_none()
}

// The passes that the reading of a countField of so many bits gives: none where the count is not available.
fn counted_passes(bits: u32, count: u64) -> Arriving
    ensures { arrival_of result ≡ counted true (passes bits count) }
{
    if unavailable(bits, count) || count == 0 {
        return Arriving::Over;
    }
    Arriving::Enter(Further::More(count - 1))
}

// "stop 2 if not current"; "Without countField its passes never end."
fn arrive(sets: Sets, o: FieldOrder, set: Set, count: u64) -> Arriving
    ensures { (L : Layout) → SetsAre L sets → (k : ℕ) → IsSet L k set → (p : Place) → p.order ≡ o.0 → (g : ℕ → ℕ) → g k ≡ count
        → arrival_of result ≡ arrive L (by_place L) p g k (set_at L k).count_field }
{
    let Some(counter) = set.counter else {
        return Arriving::Enter(Further::Endless);
    };
    if counter.0 == 0 {
        return Arriving::NotCurrent;
    }
    if placed(sets, o, index_of(counter)) {
        return counted_passes(set.count_bits, count);
    }
    Arriving::NotCurrent
}

// Whether the field of the order o is the countField.
fn is_counter(counter: Option<FieldOrder>, o: FieldOrder) -> bool
    requires { 1 ≤ o.0 }
    ensures { result ≡ counts (opt_order counter) (o.0 - 1) }
{
    counter.is_some_and(|own| same_order(own, o))
}

// Whether it is a set's countField.
pub fn is_counted(sets: Sets, o: FieldOrder) -> bool
    requires { 1 ≤ o.0 }
    ensures { result ≡ any_below (λ k. counts (opt_order (value_at sets k).counter) (o.0 - 1)) 4 }
{
    for k in 0..4 {
        if is_counter(sets.sets[k].counter, o) {
            return true;
        }
    }
    false
}

impl Passes {
    // What is left of set k.
    pub fn left_at(&self, k: usize) -> Option<Further>
        requires { k < 4 }
        ensures { result ≡ left_at self.now.numbers k }
    {
        if self.numbers[4 * k] != 1 {
            return None;
        }
        if self.numbers[4 * k + 1] == 1 {
            return Some(Further::Endless);
        }
        Some(Further::More(self.numbers[4 * k + 2]))
    }

    fn put_numbers(&mut self, k: usize, present: u64, endless: u64, more: u64)
        requires { k < 4 }
        ensures { self.new.numbers ≡ with_numbers self.old.numbers k present endless more }
    {
        self.numbers[4 * k] = present;
        self.numbers[4 * k + 1] = endless;
        self.numbers[4 * k + 2] = more;
    }

    fn put_left(&mut self, k: usize, left: Option<Further>)
        requires { k < 4 }
        ensures { self.new.numbers ≡ with_left self.old.numbers k left }
    {
        match left {
            None => self.put_numbers(k, 0, 0, 0),
            Some(Further::Endless) => self.put_numbers(k, 1, 1, 0),
            Some(Further::More(more)) => self.put_numbers(k, 1, 0, more),
        }
    }

    // Where a pass of set k ends: whether another begins, which is counted then. One number is written, of endless ones none.
    pub fn begins(&mut self, k: usize) -> bool
        requires { k < 4 }
        ensures { record {
          kept : result ≡ false → self.new.numbers ≡ self.old.numbers;
          turns : result ≡ true → Turns self.old.numbers k self.new.numbers;
        } }
    {
        let Some(further) = self.left_at(k) else {
            return false;
        };
        let Further::More(more) = further else {
            return true;
        };
        if more == 0 {
            return false;
        }
        self.numbers[4 * k + 2] = more - 1;
        true
    }

    // The set that is arrived at.
    fn look(&self, sets: Sets, o: FieldOrder) -> Standing
        ensures { record {
          stands : (L : Layout) → SetsAre L sets → stand_of result o.0 self.now.numbers ≡ look L (length L.sets) (place_of o.0 self.now.numbers);
          few : arrived_set result < 4;
        } }
    {
        for k in (0..4).rev() {
            if arrives(sets.sets[k], o, self.left_at(k)) {
                return Standing::Arrived(k);
            }
        }
        Standing::Ready
    }

    // Set k's pass, if it ends here: whether another begins.
    fn close(&mut self, set: Set, o: FieldOrder, k: usize) -> bool
        requires { k < 4 }
        ensures { record {
          closes : (L : Layout) → set.start.0 ≡ start L k → set.end.0 ≡ end L k → close L (suc k) (place_of o.0 self.old.numbers)
              ≡ (if result then again k (place_of set.start.0 self.new.numbers) else close L k (place_of o.0 self.new.numbers));
          memory : memory_of self.new.numbers ≡ memory_of self.old.numbers;
        } }
    {
        match turn(self.left_at(k), o, set.end) {
            Turning::GoesOn => false,
            Turning::Leaves => {
                self.put_left(k, None);
                false
            }
            Turning::Begins(further) => {
                self.put_left(k, Some(further));
                true
            }
        }
    }

    // No pass ends here any more.
    fn closed(&self, sets: Sets, o: FieldOrder) -> Standing
        ensures { record {
          stands : (L : Layout) → SetsAre L sets → stand_of result o.0 self.now.numbers ≡ close L 0 (place_of o.0 self.now.numbers);
          few : arrived_set result < 4;
        } }
    {
        if sets.fields < o.0 {
            return Standing::Beyond;
        }
        self.look(sets, o)
    }

    // The passes that end here are closed, the innermost set (the last) first.
    fn stand(&mut self, sets: Sets, o: FieldOrder) -> Standing
        ensures { record {
          stands : (L : Layout) → SetsAre L sets → 1 ≤ o.0 → stand_of result o.0 self.new.numbers ≡ stand L (place_of o.0 self.old.numbers);
          few : arrived_set result < 4;
          memory : memory_of self.new.numbers ≡ memory_of self.old.numbers;
        } }
    {
        for k in (0..4).rev() {
            let set = sets.sets[k];
            if self.close(set, o, k) {
                return Standing::Again {
                    set: k,
                    start: set.start,
                };
            }
        }
        self.closed(sets, o)
    }

    // On arriving at set k.
    fn at_set(&mut self, sets: Sets, o: FieldOrder, k: usize) -> Round
        requires { k < 4 }
        ensures { record {
          round : (L : Layout) → SetsAre L sets → (n : ℕ) → round_of L n result self.new.numbers
              ≡ settle L (by_place L) (suc n) (arrived k (place_of o.0 self.old.numbers)) (memory_of self.old.numbers);
          memory : memory_of self.new.numbers ≡ memory_of self.old.numbers;
          end : 1 ≤ (value_at sets k).end.0 → 1 ≤ over_order result;
        } }
    {
        let set = sets.sets[k];
        match arrive(sets, o, set, self.numbers[4 * k + 3]) {
            Arriving::NotCurrent => Round::Settled(Settling::Halted),
            Arriving::Over => Round::Over(set.end),
            Arriving::Enter(further) => {
                self.put_left(k, Some(further));
                Round::Settled(Settling::Due(o))
            }
        }
    }

    fn settle_once(&mut self, sets: Sets, o: FieldOrder) -> Round
        ensures { record {
          round : (L : Layout) → SetsAre L sets → 1 ≤ o.0 → (n : ℕ) → round_of L n result self.new.numbers
              ≡ settle L (by_place L) (suc n) (stand L (place_of o.0 self.old.numbers)) (memory_of self.old.numbers);
          end : (L : Layout) → SetsAre L sets → 1 ≤ o.0 → 1 ≤ over_order result;
        } }
    {
        match self.stand(sets, o) {
            Standing::Again { set, start } => Round::Settled(Settling::Due(start)),
            Standing::Ready => Round::Settled(Settling::Due(o)),
            Standing::Arrived(k) => self.at_set(sets, o, k),
            Standing::Beyond => Round::Settled(Settling::Past),
        }
    }

    // Until a field is due. Each set that is passed over takes the order up, so that 1 + fields rounds are enough.
    pub fn settle(&mut self, sets: Sets, o: FieldOrder) -> Settling
        ensures { (L : Layout) → SetsAre L sets → 1 ≤ o.0 → settled_of result self.new.numbers
            ≡ settled L (by_place L) (place_of o.0 self.old.numbers) (memory_of self.old.numbers) }
    {
        let mut here = o;
        for _ in 0..sets.fields as u64 + 1 {
            match self.settle_once(sets, here) {
                Round::Settled(answer) => return answer,
                Round::Over(next) => here = next,
            }
        }
        Settling::Past
    }

    // The latest reading of set k's countField, after a visit at the order o.
    fn count(&mut self, k: usize, counter: Option<FieldOrder>, o: FieldOrder, reading: u64)
        requires { record { set : k < 4; first : 1 ≤ o.0 } }
        ensures { self.new.numbers
            ≡ (if counts (opt_order counter) (o.0 - 1) then set self.old.numbers (4 * k + 3) reading else self.old.numbers) }
    {
        if is_counter(counter, o) {
            self.numbers[4 * k + 3] = reading;
        }
    }

    // The field of the order o is visited, with this reading.
    pub fn visit(&mut self, sets: Sets, o: FieldOrder, reading: u64)
        requires { 1 ≤ o.0 }
        ensures { record {
          memory : (L : Layout) → SetsAre L sets → memory_of self.new.numbers ≡ (by_place L).visit (memory_of self.old.numbers) (o.0 - 1) reading;
          left : (j : ℕ) → left_at self.new.numbers j ≡ left_at self.old.numbers j;
        } }
    {
        for k in 0..4 {
            self.count(k, sets.sets[k].counter, o, reading);
        }
    }
}
