// R24 cause 2
ghost use Rattle.std.specs.Prelude.{is_some, ◌≡◌, true, ◌+◌, length, get_or, Some};
ghost use Rattle.pack.specs.Notation.{◌≐◌};
ghost use Rattle.pack.specs.Value.{field_at, no_pgn, pgns_of};
ghost use Rattle.pack.specs.Items.{bytes_of};
ghost use Rattle.pack.specs.Loaded.{tree_of, pgn_value};
ghost use Rattle.pack.specs.Meaning.{pack_of};
ghost use Rattle.rules.specs.Emit.{Emitted};
ghost use Rattle.rules.specs.PlaceText.{pgn_loc};
ghost use Rattle.rules.specs.Search.{sum_below};
ghost use Rattle.rules.specs.SpnNames.{is_number, spn_field, spn_pgn, spn_name, earlier_spn, clash_at, clash_of, spn_from, least_spn_in, least_spn};
ghost use Rattle.rules.specs.SpnNames.{check_spn_names};
ghost use Rattle.rules.specs.Namers.{NamesAmong, comes_after, candidate_at, candidate_in, candidate};

use crate::emit::{Findings, pgn_error};
use crate::searches::{larger, smaller};
use crate::spn_clashes::may_clash;
use pack::loaded::{FieldRef, Pack, PgnRef};
use pack::protocol::Protocol;
use pack::text::{Text, same_text, text_is};

// A field that carries an SPN, by its PGN and its index there. No `FieldRef`: the search lets the PGN go on its way.
#[derive(Clone, Copy)]
pub(crate) struct Carrier<'a> {
    pub pgn: PgnRef<'a>,
    pub field: u32,
}

// Whether a number is given, and is v.
pub(crate) fn is_number(n: Option<u32>, v: u32) -> bool
    ensures { result ≡ is_number n v }
{
    n == Some(v)
}

// The first field of a PGN that carries the SPN.
#[tactic(auto, using(crate::specs::SearchLaws::first_turn), unfolding(crate::specs::SpnNames::spn_field))]
pub fn spn_field(pgn: &PgnRef, spn: u32) -> Option<u32>
    ensures { result ≡ spn_field (pgn_value pgn.now) spn }
{
    for k in 0..pgn.view.fields {
        let f = pgn.field(k);
        if is_number(f.authored.spn, spn) {
            return Some(k);
        }
    }
    None
}

// Whether a PGN of that number comes after the best so far.
fn comes_after(best: &Option<Carrier>, number: u32) -> bool
    ensures { result ≡ comes_after best.now number }
{
    best.is_some_and(|namer| namer.pgn.view.pgn <= number)
}

// The best so far, when a PGN of the J1939 tree is tried.
fn better<'a>(best: &Option<Carrier<'a>>, pgn: &PgnRef<'a>, spn: u32) -> Option<Carrier<'a>>
    requires { record { tree : tree_of pgn.now ≡ 1; names : NamesAmong pgn.now.pack.bytes.now spn pgn.now.item best.now } }
    ensures { NamesAmong pgn.now.pack.bytes.now spn (pgn.now.item + 1) result }
{
    if comes_after(best, pgn.view.pgn) {
        return *best;
    }
    let Some(field) = spn_field(pgn, spn) else {
        return *best;
    };
    Some(Carrier { pgn: *pgn, field })
}

// The PGN that names the SPN: of those that carry it the one of the least number, the first of equals.
fn spn_pgn<'a>(pack: &Pack<'a>, spn: u32) -> Option<Carrier<'a>>
    ensures { NamesAmong pack.now.bytes.now spn (length (pack_of pack.now.bytes.now).pgns_j1939) result }
{
    let mut best = None;
    for pgn in pack.pgns(Protocol::J1939) {
        best = better(&best, &pgn, spn);
    }
    best
}

// Whether an SPN that a field carries has that name.
fn has_name(pack: &Pack, spn: u32, name: Text) -> bool
    requires { is_some (spn_pgn (pack_of pack.now.bytes.now).pgns_j1939 spn) ≡ true }
    ensures { result ≡ (spn_name (pack_of pack.now.bytes.now).pgns_j1939 spn ≐ bytes_of pack.now.bytes.now name) }
{
    let Some(namer) = spn_pgn(pack, spn) else {
        unreachable!()
    };
    let own = namer.pgn.field_name(namer.field);
    same_text(pack.bytes, own, name)
}

// The SPN that a field carries, if it is below b and under that name.
fn candidate_at(field: &FieldRef, b: u32, name: Text) -> Option<u32>
    ensures { let g = field.now.pgn.now in let f = field_at (pgn_value g) field.now.index in
        result ≡ candidate_at (bytes_of g.pack.bytes.now name) b f.name f.spn }
{
    let pgn = field.pgn;
    let own = field.view.names.name;
    let spn = field.view.authored.spn;
    spn.filter(|spn| *spn < b && same_text(pgn.pack.bytes, own, name))
}

// The largest SPN below b that a field of a PGN carries under that name.
#[tactic(auto, using(crate::specs::SearchLaws::max_turn), unfolding(crate::specs::Namers::candidate_in))]
fn candidate_in(pgn: &PgnRef, b: u32, name: Text) -> Option<u32>
    ensures { result ≡
        candidate_in (pgns_of (pack_of pgn.now.pack.bytes.now) (tree_of pgn.now)) (bytes_of pgn.now.pack.bytes.now name) b pgn.now.item }
{
    let mut found = None;
    for k in 0..pgn.view.fields {
        let one = candidate_at(&pgn.field_ref(k), b, name);
        found = larger(found, one);
    }
    found
}

// The largest SPN below b that a field carries under that name.
#[tactic(auto, unfolding(crate::specs::Namers::candidate))]
fn candidate(pack: &Pack, b: u32, name: Text) -> Option<u32>
    ensures { result ≡ candidate (pack_of pack.now.bytes.now).pgns_j1939 (bytes_of pack.now.bytes.now name) b }
{
    let mut found = None;
    for pgn in pack.pgns(Protocol::J1939) {
        let one = candidate_in(&pgn, b, name);
        found = larger(found, one);
    }
    found
}

// The largest SPN below this one of its name. Another field may name a candidate: then one below it is looked for, so that no range
// says how many turns there are.
fn earlier_spn(pack: &Pack, spn: u32, name: Text) -> Option<u32>
    requires { bytes_of pack.now.bytes.now name ≡ spn_name (pack_of pack.now.bytes.now).pgns_j1939 spn }
    ensures { result ≡ earlier_spn (pack_of pack.now.bytes.now).pgns_j1939 spn }
{
    let mut b = spn;
    loop {
        let found = candidate(pack, b, name)?;
        if has_name(pack, found, name) {
            return Some(found);
        }
        b = found;
    }
}

// Whether two PGNs of the J1939 tree have one place text: exactly if they have one number and one id, whatever
// else a derive would compare.
fn same_place(a: &PgnRef, b: &PgnRef) -> bool
    ensures { result ≡ (pgn_loc 1 (pgn_value a.now) ≐ pgn_loc 1 (pgn_value b.now)) }
{
    a.view.pgn == b.view.pgn && text_is(a.pack.bytes, a.view.id, b.pack.text(b.view.id))
}

// The earlier SPN is named in PGN `other` of the same pack, this one in `pgn`.
#[tactic(auto, unfolding(crate::specs::SpnNames::clash_at))]
fn clash_at(out: &mut Findings, earlier: u32, spn: u32, other: &PgnRef, pgn: &PgnRef)
    requires { record {
      bytes : other.now.pack.bytes.now ≡ pgn.now.pack.bytes.now;
      other : tree_of other.now ≡ 1;
      tree : tree_of pgn.now ≡ 1;
    } }
    ensures { Emitted out.old (clash_at (pack_of pgn.now.pack.bytes.now).pgns_j1939 earlier spn other.now.item pgn.now.item) out.new }
{
    out.put(pgn_error(24, 2, other, earlier, spn));
    let one = same_place(other, pgn);
    out.put_if(!one, pgn_error(24, 2, pgn, earlier, spn));
}

// An SPN that a field carries, and the one before it of its name.
fn clash_of(out: &mut Findings, pack: &Pack, spn: u32)
    requires { is_some (spn_pgn (pack_of pack.now.bytes.now).pgns_j1939 spn) ≡ true }
    ensures { Emitted out.old (clash_of (pack_of pack.now.bytes.now).pgns_j1939 (Some spn)) out.new }
{
    let Some(namer) = spn_pgn(pack, spn) else {
        unreachable!()
    };
    let name = namer.pgn.field_name(namer.field);
    let Some(earlier) = earlier_spn(pack, spn, name) else {
        return;
    };
    let Some(other) = spn_pgn(pack, earlier) else {
        unreachable!()
    };
    clash_at(out, earlier, spn, &other.pgn, &namer.pgn);
}

// An SPN that is not below b.
fn spn_from(b: u64, spn: Option<u32>) -> Option<u32>
    ensures { result ≡ spn_from b spn }
{
    spn.filter(|own| b <= *own as u64)
}

// The least SPN from b on that a field of a PGN carries. The loops are those of `candidate_in` and `candidate` with `smaller`: one over a closure
// would be told by the closure's contract what these say by `max_turn` and `min_turn`.
#[tactic(auto, using(crate::specs::SearchLaws::min_turn), unfolding(crate::specs::SpnNames::least_spn_in))]
fn least_spn_in(pgn: &PgnRef, b: u64) -> Option<u32>
    ensures { result ≡ least_spn_in (pgns_of (pack_of pgn.now.pack.bytes.now) (tree_of pgn.now)) b pgn.now.item }
{
    let mut found = None;
    for k in 0..pgn.view.fields {
        let f = pgn.field(k);
        let one = spn_from(b, f.authored.spn);
        found = smaller(found, one);
    }
    found
}

// The least SPN from b on. b is wide, since it is one above an SPN.
#[tactic(auto, unfolding(crate::specs::SpnNames::least_spn))]
fn least_spn(pack: &Pack, b: u64) -> Option<u32>
    ensures { result ≡ least_spn (pack_of pack.now.bytes.now).pgns_j1939 b }
{
    let mut found = None;
    for pgn in pack.pgns(Protocol::J1939) {
        let one = least_spn_in(&pgn, b);
        found = smaller(found, one);
    }
    found
}

// The number of fields of the tree: there are no more SPNs.
fn field_total(pack: &Pack) -> u32
    ensures { result ≡
        sum_below (λ i. length (get_or (pack_of pack.now.bytes.now).pgns_j1939 i no_pgn).fields) (length (pack_of pack.now.bytes.now).pgns_j1939) }
{
    let mut total: u32 = 0;
    for pgn in pack.pgns(Protocol::J1939) {
        total += pgn.view.fields;
    }
    total
}

// The findings of the SPNs in rising order, until there is none.
#[tactic(auto, unfolding(crate::specs::SpnNames::check_spn_names))]
fn spn_clashes(out: &mut Findings, pack: &Pack)
    ensures { Emitted out.old (check_spn_names (pack_of pack.now.bytes.now).pgns_j1939) out.new }
{
    let total = field_total(pack);
    let mut b: u64 = 0;
    for rank in 0..total {
        let Some(spn) = least_spn(pack, b) else {
            return;
        };
        clash_of(out, pack, spn);
        b = spn as u64 + 1;
    }
}

// R24, cause 2: no two SPNs have one name. The test before it spares the search for each SPN where there is nothing to find.
pub fn check_spn_names(out: &mut Findings, pack: &Pack)
    ensures { Emitted out.old (check_spn_names (pack_of pack.now.bytes.now).pgns_j1939) out.new }
{
    if may_clash(pack) {
        spn_clashes(out, pack);
    }
}
