// R08 and R22
ghost use Rattle.std.specs.Prelude.{◌≡◌, not, ◌&&◌, length, ◌==◌};
ghost use Rattle.pack.specs.Kinds.{kind_number};
ghost use Rattle.pack.specs.Notation.{concat_below};
ghost use Rattle.pack.specs.Value.{pgns_of, pgn_at, field_at};
ghost use Rattle.pack.specs.Loaded.{lookup_value, pgn_value, tree_of};
ghost use Rattle.pack.specs.Meaning.{pack_of};
ghost use Rattle.pack.specs.Trees.{tree_number};
ghost use Rattle.rules.specs.Emit.{Emitted};
ghost use Rattle.rules.specs.LookupWiring.{beyond_width, unreachable, lookup_width_at, lookup_ref_at, check_lookup_refs};
ghost use Rattle.rules.specs.LookupWiring.{check_lookup_wiring};

use crate::emit::{Findings, field_error, pgn_warning};
use crate::field_rules::{FieldRule, check_fields};
use crate::lookup_uses::check_lookup_uses;
use crate::lookups::find_lookup;
use crate::model::value_bits;
use crate::nested_refs::check_all_nested_refs;
use crate::widths::exceeds;
use pack::kinds::LookupKind;
use pack::loaded::{FieldRef, LookupRef, Pack, PgnRef};
use pack::protocol::Protocol;

// A field of this width can't have the value: a bit's position counts from 0.
#[tactic(auto, unfolding(crate::specs::LookupWiring::beyond_width))]
fn beyond_width(kind: LookupKind, width: u64, value: u64) -> bool
    ensures { result ≡ beyond_width (kind_number kind) width value }
{
    if kind == LookupKind::Bit {
        return width <= value;
    }
    width < 64 && exceeds(width as u32, value)
}

// Whether some value of the lookup is beyond the width.
#[tactic(auto, using(crate::specs::SearchLaws::any_turn), unfolding(crate::specs::LookupWiring::unreachable))]
fn unreachable(lookup: &LookupRef, width: u64) -> bool
    ensures { result ≡ unreachable (lookup_value lookup.now) width }
{
    for e in 0..lookup.view.entries {
        let entry = lookup.entry(e);
        if beyond_width(lookup.view.kind, width, entry.value) {
            return true;
        }
    }
    false
}

// Whether an unreachable value is reported: bit positions out of the width are let pass in a shared bit lookup.
fn is_finding(unreachable: bool, kind: LookupKind, allowed: bool) -> bool
    ensures { result ≡ (unreachable && not ((kind_number kind == 2) && allowed)) }
{
    unreachable && !(kind == LookupKind::Bit && allowed)
}

// Causes 3 to 5, of a field and the lookup of its reference.
#[tactic(auto, unfolding(crate::specs::LookupWiring::lookup_width_at))]
fn lookup_width_at(out: &mut Findings, field: &FieldRef, lookup: &LookupRef)
    ensures { Emitted out.old
        (lookup_width_at (tree_of field.now.pgn.now) field.now.pgn.now.item field.now.index (field_at (pgn_value field.now.pgn.now) field.now.index)
        lookup.now.item (lookup_value lookup.now)) out.new }
{
    let pgn = field.pgn;
    let width = value_bits(field);
    let allowed = field.view.flags.mismatch;
    let unreachable = unreachable(lookup, width);
    if is_finding(unreachable, lookup.view.kind, allowed) {
        out.put(field_error(8, 3, field, lookup.item));
        return;
    }
    if width != lookup.view.bits as u64 {
        out.put_if(!allowed, field_error(8, 4, field, lookup.item));
        return;
    }
    out.put_if(allowed, pgn_warning(8, 5, pgn, field.index, lookup.item));
}

struct LookupRefs;

impl FieldRule for LookupRefs {
    ghost findings = { λ g k. lookup_ref_at (pack_of g.pack.bytes.now).lookups (tree_of g) g.item k (field_at (pgn_value g) k)
        (field_at (pgn_value g) k).reference };

    #[tactic(auto, unfolding(crate::specs::LookupWiring::lookup_ref_at, crate::specs::LookupWiring::lookup_found_at))]
    fn at(out: &mut Findings, field: &FieldRef) {
        let Some(reference) = field.view.links.reference else {
            return;
        };
        let Some(lookup) = find_lookup(&field.pgn.pack, reference.name) else {
            out.put(field_error(8, 1, field, 0));
            return;
        };
        let other = lookup.view.kind != reference.kind;
        out.put_if(other, field_error(8, 2, field, lookup.item));
        lookup_width_at(out, field, &lookup);
    }
}

// The fields of a PGN.
#[tactic(auto, unfolding(crate::specs::LookupWiring::check_lookup_refs))]
fn check_lookup_refs(out: &mut Findings, pgn: &PgnRef)
    ensures { Emitted out.old
        (check_lookup_refs (pack_of pgn.now.pack.bytes.now).lookups (tree_of pgn.now) pgn.now.item (pgn_value pgn.now)) out.new }
{
    check_fields::<LookupRefs>(out, pgn);
}

// The PGNs of a tree.
fn check_tree_refs(out: &mut Findings, pack: &Pack, protocol: Protocol)
    ensures { Emitted out.old
        (concat_below
        (λ i. check_lookup_refs (pack_of pack.now.bytes.now).lookups (tree_number protocol) i
        (pgn_at (pack_of pack.now.bytes.now) (tree_number protocol) i))
        (length (pgns_of (pack_of pack.now.bytes.now) (tree_number protocol)))) out.new }
{
    for pgn in pack.pgns(protocol) {
        check_lookup_refs(out, &pgn);
    }
}

// The three trees.
fn check_all_refs(out: &mut Findings, pack: &Pack)
    ensures { Emitted out.old
        (concat_below
        (λ t. concat_below
        (λ i. check_lookup_refs (pack_of pack.now.bytes.now).lookups t i (pgn_at (pack_of pack.now.bytes.now) t i))
        (length (pgns_of (pack_of pack.now.bytes.now) t))) 3) out.new }
{
    for protocol in Protocol::ALL {
        check_tree_refs(out, pack, protocol);
    }
}

// R08, every reference resolves with the right kind and bit width; R22, every lookup is referenced somewhere.
pub fn check_lookup_wiring(out: &mut Findings, pack: &Pack)
    ensures { Emitted out.old (check_lookup_wiring (pack_of pack.now.bytes.now)) out.new }
{
    check_all_refs(out, pack);
    check_all_nested_refs(out, pack);
    check_lookup_uses(out, pack);
}
