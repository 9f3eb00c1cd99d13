// R22: a mark at each lookup that is referenced, in one pass over the references.
ghost use Rattle.std.specs.Prelude.{◌≡◌, length};
ghost use Rattle.pack.specs.Notation.{◌≐◌};
ghost use Rattle.pack.specs.Value.{lookup_at};
ghost use Rattle.pack.specs.Items.{bytes_of};
ghost use Rattle.pack.specs.Loaded.{lookup_value, pgn_value};
ghost use Rattle.pack.specs.Meaning.{optional_bytes, optional_reference, pack_of};
ghost use Rattle.pack.specs.Trees.{tree_number};
ghost use Rattle.rules.specs.Marks.{marked_at, Marked};
ghost use Rattle.rules.specs.Model.{is_text};
ghost use Rattle.rules.specs.Search.{any_below};
ghost use Rattle.rules.specs.LookupWiring.{ref_is, referenced_by_pgn, referenced_by_tree, referenced_by_lookup, referenced};

use crate::lookups::has_fieldtypes;
use pack::field::ReferenceView;
use pack::loaded::{LookupRef, Pack, PgnRef};
use pack::protocol::Protocol;
use pack::text::{Text, same_text};

// A mark at lookup i, where there is room for one. Not by `get_mut`, which promises nothing of the rest.
#[tactic(auto, unfolding(crate::specs::Marks::marked_at))]
fn mark_at(marks: &mut [bool], i: usize, mark: bool)
    ensures { marks.new ≡ marked_at marks.old i mark }
{
    if i < marks.len() {
        marks[i] |= mark;
    }
}

// Every lookup of that name: that there is one at most is not used.
fn mark(marks: &mut [bool], pack: &Pack, name: Text)
    ensures { Marked (pack_of pack.now.bytes.now) marks.old (λ n. bytes_of pack.now.bytes.now name ≐ n) marks.new }
{
    for lookup in pack.lookups() {
        mark_at(
            marks,
            lookup.item as usize,
            same_text(pack.bytes, name, lookup.view.name),
        );
    }
}

// What a field refers to, if it does.
fn mark_reference(marks: &mut [bool], pack: &Pack, r: Option<ReferenceView>)
    ensures { Marked (pack_of pack.now.bytes.now) marks.old (λ n. ref_is (optional_reference pack.now.bytes.now r) n) marks.new }
{
    if let Some(reference) = r {
        mark(marks, pack, reference.name);
    }
}

// What an entry nests, if it does.
fn mark_nested(marks: &mut [bool], pack: &Pack, o: Option<Text>)
    ensures { Marked (pack_of pack.now.bytes.now) marks.old (λ n. is_text (optional_bytes pack.now.bytes.now o) n) marks.new }
{
    if let Some(name) = o {
        mark(marks, pack, name);
    }
}

// By the fields of a PGN.
fn mark_by_pgn(marks: &mut [bool], pgn: &PgnRef)
    ensures { Marked (pack_of pgn.now.pack.bytes.now) marks.old (λ n. referenced_by_pgn n (pgn_value pgn.now)) marks.new }
{
    for k in 0..pgn.view.fields {
        let f = pgn.field(k);
        mark_reference(marks, &pgn.pack, f.links.reference);
    }
}

// By the PGNs of a tree.
fn mark_by_tree(marks: &mut [bool], pack: &Pack, protocol: Protocol)
    ensures { Marked (pack_of pack.now.bytes.now) marks.old
        (λ n. referenced_by_tree (pack_of pack.now.bytes.now) n (tree_number protocol)) marks.new }
{
    for pgn in pack.pgns(protocol) {
        mark_by_pgn(marks, &pgn);
    }
}

// By the trees.
fn mark_by_trees(marks: &mut [bool], pack: &Pack)
    ensures { Marked (pack_of pack.now.bytes.now) marks.old
        (λ n. any_below (λ t. referenced_by_tree (pack_of pack.now.bytes.now) n t) 3) marks.new }
{
    for protocol in Protocol::ALL {
        mark_by_tree(marks, pack, protocol);
    }
}

// By the entries of a lookup.
fn mark_by_lookup(marks: &mut [bool], lookup: &LookupRef)
    ensures { Marked (pack_of lookup.now.pack.bytes.now) marks.old (λ n. referenced_by_lookup n (lookup_value lookup.now)) marks.new }
{
    if !has_fieldtypes(lookup) {
        return;
    }
    for e in 0..lookup.view.entries {
        let entry = lookup.entry(e);
        mark_nested(marks, &lookup.pack, entry.nested);
    }
}

// By the lookups.
fn mark_by_lookups(marks: &mut [bool], pack: &Pack)
    ensures { Marked (pack_of pack.now.bytes.now) marks.old
        (λ n. any_below (λ l. referenced_by_lookup n (lookup_at (pack_of pack.now.bytes.now).lookups l))
        (length (pack_of pack.now.bytes.now).lookups)) marks.new }
{
    for lookup in pack.lookups() {
        mark_by_lookup(marks, &lookup);
    }
}

// Every lookup that anything references.
pub fn mark_referenced(marks: &mut [bool], pack: &Pack)
    ensures { Marked (pack_of pack.now.bytes.now) marks.old (λ n. referenced (pack_of pack.now.bytes.now) n) marks.new }
{
    mark_by_trees(marks, pack);
    mark_by_lookups(marks, pack);
}
