// The passes of a PGN's sets, told from the visits. A pass begins with a visit of its set's start: past stop 1 a set's start lies in no
// set that is nested in it, so that no pass leaves its start out.
use pack::pgn::{PgnView, RepeatingView};
use pack::protocol::{FieldOrder, same_order};
use rules::continues::holds_order;
use std::io;
use std::io::Write;

// How many passes of the set at each place have begun, since the latest pass of a set before it.
#[derive(Clone, Copy)]
pub struct Passes {
    begun: [u64; 4],
}

fn begins(set: Option<RepeatingView>, order: FieldOrder) -> bool {
    set.is_some_and(|given| holds_order(set, order) && same_order(order, given.start))
}

fn counted_by(set: Option<RepeatingView>, order: FieldOrder) -> bool {
    set.is_some_and(|given| {
        given.count != 0
            && given
                .counter
                .is_some_and(|counter| same_order(counter, order))
    })
}

// Whether a nonempty set takes its passes from the field of that order.
pub fn counts_passes(view: &PgnView, order: FieldOrder) -> bool {
    view.sets.iter().any(|set| counted_by(*set, order))
}

// Once for each of the first n places whose set holds the order.
pub fn indent(out: &mut impl Write, view: &PgnView, order: FieldOrder, n: usize) -> io::Result<()> {
    for set in view.sets.iter().take(n) {
        if holds_order(*set, order) {
            write!(out, "  ")?;
        }
    }
    Ok(())
}

impl Passes {
    pub fn none() -> Passes {
        Passes { begun: [0; 4] }
    }

    // A pass of the set at place k has begun, and none of a later set since. Answers how many of its passes have.
    fn begin(&mut self, k: usize) -> u64 {
        let mut latest = 0;
        for (j, begun) in self.begun.iter_mut().enumerate() {
            if j == k {
                *begun = begun.saturating_add(1);
                latest = *begun;
            } else if k < j {
                *begun = 0;
            }
        }
        latest
    }

    // At a visit of the order; a pass that begins with it is said.
    pub fn at_visit(
        &mut self,
        out: &mut impl Write,
        view: &PgnView,
        order: FieldOrder,
    ) -> io::Result<()> {
        let sets = view.sets.iter().take(view.places as usize);
        for (k, set) in sets.enumerate() {
            if begins(*set, order) {
                indent(out, view, order, k)?;
                let pass = self.begin(k);
                return writeln!(out, "set {} pass {pass}", k + 1);
            }
        }
        Ok(())
    }
}
