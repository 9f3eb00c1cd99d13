// For R24 cause 2: whether two fields have one name and different SPNs
ghost use Rattle.std.specs.Prelude.{◌≡◌, ◌+◌, ◌<◌};
ghost use Rattle.pack.specs.Items.{bytes_of};
ghost use Rattle.pack.specs.Loaded.{tree_of, pgn_value};
ghost use Rattle.pack.specs.Meaning.{pack_of};
ghost use Rattle.pack.specs.Value.{field_at, pgns_of};
ghost use Rattle.rules.specs.SpnClashes.{differs, other_spn, other_in, other_among, clash_from, may_clash};

use pack::loaded::{Pack, PgnRef};
use pack::protocol::Protocol;
use pack::text::{Text, same_text};

// Whether an SPN is given, and is not that one.
fn differs(n: Option<u32>, spn: u32) -> bool
    ensures { result ≡ differs n spn }
{
    n.is_some_and(|own| own != spn)
}

// Whether field h has that name, of the same pack, and carries another SPN. Few have the name: only of these more is read.
fn other_spn(pgn: &PgnRef, h: u32, name: Text, spn: u32) -> bool
    requires { h < pgn.now.view.fields }
    ensures { result ≡ other_spn (bytes_of pgn.now.pack.bytes.now name) spn (field_at (pgn_value pgn.now) h).name (field_at (pgn_value pgn.now) h).spn }
{
    let own = pgn.field_name(h);
    if !same_text(pgn.pack.bytes, own, name) {
        return false;
    }
    let f = pgn.field(h);
    differs(f.authored.spn, spn)
}

// Whether a field of the PGN does.
#[tactic(auto, using(crate::specs::SearchLaws::any_turn), unfolding(crate::specs::SpnClashes::other_in))]
fn other_in(pgn: &PgnRef, name: Text, spn: u32) -> bool
    ensures { result ≡ other_in (bytes_of pgn.now.pack.bytes.now name) spn (pgn_value pgn.now) }
{
    for h in 0..pgn.view.fields {
        if other_spn(pgn, h, name, spn) {
            return true;
        }
    }
    false
}

// Whether a field of the PGNs up to that one does, if that SPN is given.
#[tactic(auto, using(crate::specs::SearchLaws::any_turn))]
fn other_among(pgn: &PgnRef, name: Text, spn: Option<u32>) -> bool
    ensures { result ≡
        other_among (pgns_of (pack_of pgn.now.pack.bytes.now) (tree_of pgn.now)) (pgn.now.item + 1) (bytes_of pgn.now.pack.bytes.now name) spn }
{
    let Some(spn) = spn else {
        return false;
    };
    for earlier in pgn.pack.pgns(pgn.protocol) {
        if other_in(&earlier, name, spn) {
            return true;
        }
        if earlier.item == pgn.item {
            return false;
        }
    }
    false
}

// Whether a field of the PGN has one up to there.
#[tactic(auto, using(crate::specs::SearchLaws::any_turn), unfolding(crate::specs::SpnClashes::clash_from))]
fn clash_from(pgn: &PgnRef) -> bool
    ensures { result ≡ clash_from (pgns_of (pack_of pgn.now.pack.bytes.now) (tree_of pgn.now)) pgn.now.item }
{
    for k in 0..pgn.view.fields {
        let f = pgn.field(k);
        if other_among(pgn, f.names.name, f.authored.spn) {
            return true;
        }
    }
    false
}

// Whether two fields have one name and different SPNs: else no two SPNs have one name.
#[tactic(auto, unfolding(crate::specs::SpnClashes::may_clash))]
pub fn may_clash(pack: &Pack) -> bool
    ensures { result ≡ may_clash (pack_of pack.now.bytes.now).pgns_j1939 }
{
    for pgn in pack.pgns(Protocol::J1939) {
        if clash_from(&pgn) {
            return true;
        }
    }
    false
}
