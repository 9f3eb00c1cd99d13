// Stretches: orders of which each leads to the next, so that visits there do not need the sets' passes.
ghost use Rattle.std.specs.Prelude.{◌≡◌, true, false, Some, None, ℕ, ◌+◌, ◌-◌, ◌≤◌, ◌<◌, get_or};
ghost use Rattle.pack.specs.Meaning.{opt_order};
ghost use Rattle.walk.specs.ByPlace.{counts};
ghost use Rattle.walk.specs.Runs.{edge, PlainAt, EndsBehind, Straight, Sound};

use crate::known::Memory;
use crate::orders::{index_of, later_order, next_order};
use crate::passes::is_counted;
use crate::sets::{Set, Sets};
use pack::protocol::{FieldIndex, FieldOrder, precedes, same_order};

// A set whose pass ends behind an order, and its first order.
#[derive(Clone, Copy)]
pub struct Ending {
    pub set: usize,
    pub start: FieldOrder,
}

// The orders from one to before another, whether their fields are known to stop at no reading, and the set that ends behind the other.
#[derive(Clone, Copy)]
pub struct Stretch {
    pub from: FieldOrder,
    pub to: FieldOrder,
    pub free: bool,
    pub ending: Option<Ending>,
}

// So many orders from o on, n at most, that none of them is x.
fn short_of(n: u32, o: FieldOrder, x: FieldOrder) -> u32
    ensures { record { fewer : result ≤ n; none : (j : ℕ) → j < result → o.0 + j ≡ x.0 → ⊥ } }
{
    if precedes(x, o) {
        return n;
    }
    n.min(x.0 - o.0)
}

// So many orders from `next` on that the set begins at none of them, nor ends before it.
fn short_of_edges(n: u32, next: FieldOrder, set: Set) -> u32
    ensures { record { fewer : result ≤ n; none : (j : ℕ) → j < result → edge set (next.0 + j) ≡ false } }
{
    let before = short_of(n, next, set.start);
    short_of(before, next, set.end)
}

// So many orders from o on that none of them is the countField's.
fn short_of_counter(n: u32, o: FieldOrder, counter: Option<FieldOrder>) -> u32
    requires { 1 ≤ o.0 }
    ensures { record { fewer : result ≤ n; none : (j : ℕ) → j < result → counts (opt_order counter) (o.0 + j - 1) ≡ false } }
{
    match counter {
        Some(own) => short_of(n, o, own),
        None => n,
    }
}

// Whether a set has start and end 0 and no countField, as those have that fill up the four.
fn is_void(set: Set) -> bool
    ensures { result ≡ true → record { start : set.start.0 ≡ 0; end : set.end.0 ≡ 0; counter : set.counter ≡ None } }
{
    set.start.0 == 0 && set.end.0 == 0 && set.counter.is_none()
}

// So many orders from o on that none of them is the countField's, and that the set begins behind none of them, nor ends there.
fn short_of_set(n: u32, o: FieldOrder, next: FieldOrder, set: Set) -> u32
    requires { record { first : 1 ≤ o.0; next : 1 ≤ next.0 } }
    ensures { record {
      fewer : result ≤ n;
      edges : (j : ℕ) → j < result → edge set (next.0 + j) ≡ false;
      uncounted : (j : ℕ) → j < result → counts (opt_order set.counter) (o.0 + j - 1) ≡ false;
    } }
{
    if is_void(set) {
        return n;
    }
    let before = short_of_edges(n, next, set);
    short_of_counter(before, o, set.counter)
}

// How many orders from o on lead each to the next.
fn plain_orders(sets: Sets, o: FieldOrder) -> u32
    requires { 1 ≤ o.0 }
    ensures { record { small : o.0 + result < 4294967296; plain : (j : ℕ) → j < result → PlainAt sets (o.0 + j) } }
{
    if sets.fields <= o.0 {
        return 0;
    }
    let next = next_order(o);
    let mut n = sets.fields - o.0;
    for k in 0..4 {
        n = short_of_set(n, o, next, sets.sets[k]);
    }
    n
}

// Whether n fields from k on are known to stop at no reading.
fn all_free(memory: &Memory, k: FieldIndex, n: u32) -> bool
    requires { k.0 + n < 4294967296 }
    ensures { result ≡ true → (j : ℕ) → j < n → get_or memory.now.marks (k.0 + j) 0 ≡ 1 }
{
    for j in 0..n {
        if !memory.is_free(k.0 + j) {
            return false;
        }
    }
    true
}

// Set k ends; none, if no field has its first order.
fn ending_of(k: usize, start: FieldOrder, fields: u32) -> Option<Ending>
    ensures { (x : Ending) → result ≡ Some x
        → record { set : x.set ≡ k; first : 1 ≤ start.0; within : start.0 ≤ fields; start : x.start.0 ≡ start.0 } }
{
    (start.0 != 0 && start.0 <= fields).then_some(Ending { set: k, start })
}

// The set that ends behind the order o, the innermost (the last) of several; none where the field there is a countField.
fn ending_behind(sets: Sets, o: FieldOrder) -> Option<Ending>
    requires { record { first : 1 ≤ o.0; small : o.0 < 4294967295 } }
    ensures { (x : Ending) → result ≡ Some x → EndsBehind sets o.0 x }
{
    if is_counted(sets, o) {
        return None;
    }
    let next = next_order(o);
    for k in (0..4).rev() {
        let set = sets.sets[k];
        if same_order(next, set.end) {
            return ending_of(k, set.start, sets.fields);
        }
    }
    None
}

// The stretch that begins at the order o.
pub fn stretch_at(sets: Sets, memory: &Memory, o: FieldOrder) -> Stretch
    requires { record { first : 1 ≤ o.0; within : o.0 ≤ sets.fields; small : sets.fields < 4294967295 } }
    ensures { record { from : result.from.0 ≡ o.0; straight : Straight sets result; sound : Sound memory.now result } }
{
    let n = plain_orders(sets, o);
    let free = all_free(memory, index_of(o), n);
    let to = later_order(o, n as usize);
    let ending = ending_behind(sets, to);
    Stretch {
        from: o,
        to,
        free,
        ending,
    }
}

// Whether the order o is from one to another.
pub fn is_in(from: FieldOrder, to: FieldOrder, o: FieldOrder) -> bool
    ensures { record {
      inside : result ≡ true → record { begun : from.0 ≤ o.0; within : o.0 ≤ to.0 };
      outside : result ≡ false → from.0 ≤ o.0 → o.0 ≤ to.0 → ⊥;
    } }
{
    !precedes(o, from) && !precedes(to, o)
}

// How many visits are made from o to before another order, with so many readings left.
pub fn ahead(to: FieldOrder, o: FieldOrder, readings: usize) -> usize
    requires { o.0 ≤ to.0 }
    ensures { record { read : result ≤ readings; within : o.0 + result ≤ to.0 } }
{
    readings.min((to.0 - o.0) as usize)
}
