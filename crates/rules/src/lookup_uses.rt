// R22: by a field of any tree, whatever the reference's kind, or by an entry of any fieldtype lookup, its own included. Each search ends
// at the first hit.
ghost use Rattle.std.specs.Prelude.{◌≡◌, false, not, ◌≤◌, length, get_or};
ghost use Rattle.pack.specs.Notation.{concat_below};
ghost use Rattle.pack.specs.Value.{lookup_at};
ghost use Rattle.pack.specs.Items.{bytes_of};
ghost use Rattle.pack.specs.Loaded.{lookup_value, pgn_value};
ghost use Rattle.pack.specs.Meaning.{optional_reference, pack_of};
ghost use Rattle.pack.specs.Trees.{tree_number};
ghost use Rattle.rules.specs.Emit.{Emitted};
ghost use Rattle.rules.specs.Findings.{report_if, lookup_warning};
ghost use Rattle.rules.specs.Marks.{Clear};
ghost use Rattle.rules.specs.Search.{any_below};
ghost use Rattle.rules.specs.LookupWiring.{ref_is, referenced_by_pgn, referenced_by_tree, referenced_by_lookup, referenced};

use crate::emit::{Findings, lookup_warning};
use crate::lookup_marks::mark_referenced;
use crate::lookups::has_fieldtypes;
use crate::model::is_text;
use pack::field::ReferenceView;
use pack::loaded::{LookupRef, Pack, PgnRef};
use pack::protocol::Protocol;
use pack::text::{Text, same_text};

// Whether a reference is given and names that.
fn ref_is(s: &[u8], r: Option<ReferenceView>, name: Text) -> bool
    ensures { result ≡ ref_is (optional_reference s.now r) (bytes_of s.now name) }
{
    r.is_some_and(|reference| same_text(s, reference.name, name))
}

// By a field of a PGN.
#[tactic(auto, using(crate::specs::SearchLaws::any_turn), unfolding(crate::specs::LookupWiring::referenced_by_pgn))]
fn referenced_by_pgn(pgn: &PgnRef, name: Text) -> bool
    ensures { result ≡ referenced_by_pgn (bytes_of pgn.now.pack.bytes.now name) (pgn_value pgn.now) }
{
    for k in 0..pgn.view.fields {
        let f = pgn.field(k);
        if ref_is(pgn.pack.bytes, f.links.reference, name) {
            return true;
        }
    }
    false
}

// By a PGN of a tree.
fn referenced_by_tree(pack: &Pack, protocol: Protocol, name: Text) -> bool
    ensures { result ≡ referenced_by_tree (pack_of pack.now.bytes.now) (bytes_of pack.now.bytes.now name) (tree_number protocol) }
{
    for pgn in pack.pgns(protocol) {
        if referenced_by_pgn(&pgn, name) {
            return true;
        }
    }
    false
}

// By a tree.
fn referenced_by_trees(pack: &Pack, name: Text) -> bool
    ensures { result ≡ any_below (λ t. referenced_by_tree (pack_of pack.now.bytes.now) (bytes_of pack.now.bytes.now name) t) 3 }
{
    for protocol in Protocol::ALL {
        if referenced_by_tree(pack, protocol, name) {
            return true;
        }
    }
    false
}

// By an entry of a lookup.
fn referenced_by_lookup(lookup: &LookupRef, name: Text) -> bool
    ensures { result ≡ referenced_by_lookup (bytes_of lookup.now.pack.bytes.now name) (lookup_value lookup.now) }
{
    if !has_fieldtypes(lookup) {
        return false;
    }
    for e in 0..lookup.view.entries {
        let entry = lookup.entry(e);
        if is_text(lookup.pack.bytes, entry.nested, name) {
            return true;
        }
    }
    false
}

// By a lookup.
fn referenced_by_lookups(pack: &Pack, name: Text) -> bool
    ensures { result ≡ any_below
        (λ l. referenced_by_lookup (bytes_of pack.now.bytes.now name) (lookup_at (pack_of pack.now.bytes.now).lookups l))
        (length (pack_of pack.now.bytes.now).lookups) }
{
    for lookup in pack.lookups() {
        if referenced_by_lookup(&lookup, name) {
            return true;
        }
    }
    false
}

// By anything.
#[tactic(auto, unfolding(crate::specs::LookupWiring::referenced))]
fn referenced(pack: &Pack, name: Text) -> bool
    ensures { result ≡ referenced (pack_of pack.now.bytes.now) (bytes_of pack.now.bytes.now name) }
{
    referenced_by_trees(pack, name) || referenced_by_lookups(pack, name)
}

// Each lookup searched for.
fn check_by_search(out: &mut Findings, pack: &Pack)
    ensures { Emitted out.old
        (concat_below
        (λ l. report_if (not (referenced (pack_of pack.now.bytes.now) (lookup_at (pack_of pack.now.bytes.now).lookups l).name))
        (lookup_warning 22 1 l 0 0)) (length (pack_of pack.now.bytes.now).lookups)) out.new }
{
    for lookup in pack.lookups() {
        let used = referenced(pack, lookup.view.name);
        out.put_if(!used, lookup_warning(22, 1, lookup.item));
    }
}

// The lookups without a mark.
fn report_unmarked(out: &mut Findings, marks: &[bool], count: u32)
    requires { count ≤ length marks.now }
    ensures { Emitted out.old
        (concat_below (λ l. report_if (not (get_or marks.now l false)) (lookup_warning 22 1 l 0 0)) count) out.new }
{
    for l in 0..count {
        let used = marks[l as usize];
        out.put_if(!used, lookup_warning(22, 1, l));
    }
}

// All lookups by one pass over the references, with marks that are clear.
fn check_by_marks(out: &mut Findings, marks: &mut [bool], pack: &Pack)
    requires { record {
      clear : Clear marks.old;
      marks : length (pack_of pack.now.bytes.now).lookups ≤ length marks.old;
    } }
    ensures { Emitted out.old
        (concat_below
        (λ l. report_if (not (referenced (pack_of pack.now.bytes.now) (lookup_at (pack_of pack.now.bytes.now).lookups l).name))
        (lookup_warning 22 1 l 0 0)) (length (pack_of pack.now.bytes.now).lookups)) out.new }
{
    mark_referenced(marks, pack);
    report_unmarked(out, marks, pack.index.lookups.count);
}

// R22: every lookup is referenced somewhere. A search for each is slow, so it is left to packs with more lookups than there are marks.
pub fn check_lookup_uses(out: &mut Findings, pack: &Pack)
    ensures { Emitted out.old
        (concat_below
        (λ l. report_if (not (referenced (pack_of pack.now.bytes.now) (lookup_at (pack_of pack.now.bytes.now).lookups l).name))
        (lookup_warning 22 1 l 0 0)) (length (pack_of pack.now.bytes.now).lookups)) out.new }
{
    if 4096 < pack.index.lookups.count {
        check_by_search(out, pack);
        return;
    }
    let mut marks = [false; 4096];
    check_by_marks(out, &mut marks, pack);
}
