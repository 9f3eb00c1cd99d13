// R05
ghost use Rattle.std.specs.Prelude.{◌≡◌, ◌&&◌, ◌+◌};
ghost use Rattle.pack.specs.Notation.{◌<ᵇ◌, ◌≤ᵇ◌};
ghost use Rattle.pack.specs.Loaded.{tree_of, pgn_value};
ghost use Rattle.pack.specs.Meaning.{opt_order, repeating_meaning, optional_repeating};
ghost use Rattle.rules.specs.Emit.{Emitted};
ghost use Rattle.rules.specs.Repeating.{none_or_below, set_bounds, set_count_field, set_nesting, check_set, check_repeating};

use crate::emit::{Findings, pgn_error};
use pack::loaded::PgnRef;
use pack::pgn::{RepeatingView, set_at};
use pack::protocol::{FieldOrder, precedes};

// No countField, or one before the order.
fn none_or_below(counter: Option<FieldOrder>, order: FieldOrder) -> bool
    ensures { result ≡ none_or_below (opt_order counter) order.0 }
{
    counter.is_none_or(|own| precedes(own, order))
}

// The number behind a set's last order.
fn set_end(set: RepeatingView) -> u64
    ensures { result ≡ set.start.0 + set.count }
{
    set.start.0 as u64 + set.count as u64
}

// A set that starts after the start of another and ends within it.
fn lies_inside(set: RepeatingView, outer: RepeatingView) -> bool
    ensures { result ≡ ((outer.start.0 <ᵇ set.start.0) && (set.start.0 + set.count ≤ᵇ outer.start.0 + outer.count)) }
{
    precedes(outer.start, set.start) && set_end(set) <= set_end(outer)
}

#[tactic(auto, unfolding(crate::specs::Repeating::set_bounds))]
fn set_bounds(out: &mut Findings, pgn: &PgnRef, part: u32, set: RepeatingView)
    ensures { Emitted out.old (set_bounds (tree_of pgn.now) pgn.now.item part pgn.now.view.fields (repeating_meaning set)) out.new }
{
    if set.start.0 == 0 {
        out.put(pgn_error(5, 1, pgn, part, 0));
        return;
    }
    let last = (set.start.0 - 1) as u64 + set.count as u64;
    out.put_if(
        (pgn.view.fields as u64) < last,
        pgn_error(5, 2, pgn, part, 0),
    );
}

#[tactic(auto, unfolding(crate::specs::Repeating::set_count_field))]
fn set_count_field(
    out: &mut Findings,
    pgn: &PgnRef,
    part: u32,
    start: FieldOrder,
    counter: Option<FieldOrder>,
)
    ensures { Emitted out.old (set_count_field (tree_of pgn.now) pgn.now.item part start.0 (opt_order counter)) out.new }
{
    let Some(counter) = counter else {
        return;
    };
    let misplaced = counter.0 == 0 || !precedes(counter, start);
    out.put_if(misplaced, pgn_error(5, 3, pgn, part, 0));
}

#[tactic(auto, unfolding(crate::specs::Repeating::set_nesting))]
fn set_nesting(
    out: &mut Findings,
    pgn: &PgnRef,
    part: u32,
    outer: Option<RepeatingView>,
    set: RepeatingView,
)
    ensures { Emitted out.old
        (set_nesting (tree_of pgn.now) pgn.now.item part (optional_repeating outer) (repeating_meaning set)) out.new }
{
    let Some(enclosing) = outer else {
        out.put(pgn_error(5, 5, pgn, part, 0));
        return;
    };
    if !lies_inside(set, enclosing) {
        out.put(pgn_error(5, 5, pgn, part, 0));
        return;
    }
    let counter = set.counter;
    let report = none_or_below(counter, enclosing.start);
    out.put_if(report, pgn_error(5, 4, pgn, part, 0));
}

// A PGN's set, beside the set that may enclose it.
#[tactic(auto, unfolding(crate::specs::Repeating::check_set))]
fn check_set(
    out: &mut Findings,
    pgn: &PgnRef,
    part: u32,
    outer: Option<RepeatingView>,
    set: Option<RepeatingView>,
)
    ensures { Emitted out.old
        (check_set (tree_of pgn.now) pgn.now.item part pgn.now.view.fields (optional_repeating outer) (optional_repeating set)) out.new }
{
    let Some(set) = set else {
        return;
    };
    if set.count == 0 {
        return;
    }
    let counter = set.counter;
    set_bounds(out, pgn, part, set);
    set_count_field(out, pgn, part, set.start, counter);
    if set.nested {
        set_nesting(out, pgn, part, outer, set);
    }
}

// R05: repeating sets are self-consistent, and a nested set lies wholly inside the one that encloses it. Nothing encloses the first.
#[tactic(auto, unfolding(crate::specs::Repeating::check_repeating))]
pub fn check_repeating(out: &mut Findings, pgn: &PgnRef)
    ensures { Emitted out.old (check_repeating (tree_of pgn.now) pgn.now.item (pgn_value pgn.now)) out.new }
{
    let mut outer = None;
    for k in 0..pgn.view.places {
        let set = set_at(pgn.view, k);
        check_set(out, pgn, k + 1, outer, set);
        outer = set;
    }
}
