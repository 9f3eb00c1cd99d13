// Findings put into a buffer one after the other. A finding is stored only where its eight numbers fit; all are counted.
ghost use Rattle.std.specs.Prelude.{◌≡◌, [], ◌∷◌, ◌+◌, ◌≤◌, length};
ghost use Rattle.std.proofs.lemmas.List.Edits.{sets};
ghost use Rattle.pack.specs.Loaded.{tree_of};
ghost use Rattle.pack.specs.Trees.{tree_number};
ghost use Rattle.rules.specs.Findings.{report_if, fieldtype_error, pgn_error, pgn_warning, lookup_error, lookup_warning, group_error};
ghost use Rattle.rules.specs.Emit.{numbers, stored, none_in, found_in, Emitted};

use crate::Finding;
use pack::loaded::{FieldRef, LookupRef, PgnRef};
use pack::protocol::Protocol;

// What was found so far: as many findings as fit, and how many there are. Offsets (pack) and bytes (TextOut) are counted likewise, each with a
// promise of its own: one over the three would ask a conversion.
#[derive(Drop)]
pub struct Findings<'a> {
    pub numbers: &'a mut [u32],
    pub count: usize,
}

fn write(out: &mut [u32], at: usize, f: Finding)
    requires { at + 8 ≤ length out.old }
    ensures { out.new ≡ sets out.old at (numbers f) }
{
    out[at..at + 8].copy_from_slice(&[
        f.rule, f.severity, f.cause, f.place, f.tree, f.item, f.part, f.other,
    ]);
}

// The finding behind n others. Not by `get_mut`, which promises nothing of the rest of the buffer.
#[tactic(auto, unfolding(crate::specs::Emit::stored))]
fn store(out: &mut [u32], n: usize, f: Finding)
    ensures { out.new ≡ stored out.old n f }
{
    if n < out.len() / 8 {
        write(out, 8 * n, f);
    }
}

impl<'a> Findings<'a> {
    pub fn new(numbers: &'a mut [u32]) -> Findings<'a>
        ensures same { result.numbers.ghost_name ≡ numbers.entry.ghost_name }
        ensures found { found_in result ≡ none_in numbers.old }
    {
        Findings { numbers, count: 0 }
    }

    #[tactic(auto, unfolding(crate::specs::Emit::put_one))]
    pub fn put(&mut self, f: Finding)
        ensures { Emitted self.old (f ∷ []) self.new }
    {
        store(self.numbers, self.count, f);
        self.count = self.count.saturating_add(1);
    }

    // The finding, if it is to be reported.
    pub fn put_if(&mut self, report: bool, f: Finding)
        ensures { Emitted self.old (report_if report f) self.new }
    {
        if report {
            self.put(f);
        }
    }
}

// An error at a place, with neither part nor other. Rule, cause and place are a finding's numbers.
fn error(rule: u32, cause: u32, place: u32, tree: u32, item: u32) -> Finding
    ensures { result ≡ (record { rule = rule; severity = 1; cause = cause; place = place; tree = tree; item = item; part = 0; other = 0 }) }
{
    Finding {
        rule,
        severity: 1,
        cause,
        place,
        tree,
        item,
        part: 0,
        other: 0,
    }
}

// An error at a field type.
pub fn fieldtype_error(rule: u32, cause: u32, item: u32) -> Finding
    ensures { result ≡ fieldtype_error rule cause item }
{
    error(rule, cause, 0, 0, item)
}

// An error at a PGN.
pub fn pgn_error(rule: u32, cause: u32, pgn: &PgnRef, part: u32, other: u32) -> Finding
    ensures { result ≡ pgn_error rule cause (tree_of pgn.now) pgn.now.item part other }
{
    Finding {
        part,
        other,
        ..error(rule, cause, 1, pgn.protocol.tree(), pgn.item)
    }
}

// An error at a field.
pub fn field_error(rule: u32, cause: u32, field: &FieldRef, other: u32) -> Finding
    ensures { result ≡ pgn_error rule cause (tree_of field.now.pgn.now) field.now.pgn.now.item field.now.index other }
{
    pgn_error(rule, cause, field.pgn, field.index, other)
}

// A warning at a PGN.
pub fn pgn_warning(rule: u32, cause: u32, pgn: &PgnRef, part: u32, other: u32) -> Finding
    ensures { result ≡ pgn_warning rule cause (tree_of pgn.now) pgn.now.item part other }
{
    Finding {
        severity: 0,
        ..pgn_error(rule, cause, pgn, part, other)
    }
}

// An error at a lookup.
pub fn lookup_error(rule: u32, cause: u32, lookup: &LookupRef, part: u32, other: u32) -> Finding
    ensures { result ≡ lookup_error rule cause lookup.now.item part other }
{
    Finding {
        part,
        other,
        ..error(rule, cause, 2, 0, lookup.item)
    }
}

// A warning at a lookup, by its number: who goes by marks has no more of it.
pub fn lookup_warning(rule: u32, cause: u32, item: u32) -> Finding
    ensures { result ≡ lookup_warning rule cause item 0 0 }
{
    Finding {
        severity: 0,
        ..error(rule, cause, 2, 0, item)
    }
}

// An error at the PGNs of a number.
pub fn group_error(rule: u32, cause: u32, protocol: Protocol, number: u32, other: u32) -> Finding
    ensures { result ≡ group_error rule cause (tree_number protocol) number other }
{
    Finding {
        other,
        ..error(rule, cause, 3, protocol.tree(), number)
    }
}
