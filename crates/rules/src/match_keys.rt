// The keys of PGNs' matches, as streams of bytes: no buffer holds one. Each is read with a `,` before it, so that all pieces are alike.
ghost use Rattle.std.specs.Prelude.{◌≡◌, IfSome, ◌-◌, ◌≤◌, ◌<◌, length};
ghost use Rattle.pack.specs.Notation.{◌≐◌};
ghost use Rattle.rules.specs.MatchKeys.{pieces_from, to_come, first_and, KeyHolds, Begun, Before};
ghost use Rattle.rules.specs.Variants.{has_match, duplicates};
ghost use Rattle.pack.specs.Loaded.{pgn_value};

use itoa::write_digits;
use pack::loaded::PgnRef;
use pack::text::Text;

// What is still to come of a key: the head from `at` on, the text, and the fields from `field` on.
#[derive(Clone, Copy)]
pub struct MatchKey {
    pub field: u32,
    pub head: [u8; 11],
    pub at: usize,
    pub text: Text,
}

// A byte, and what comes after it.
#[derive(Clone, Copy)]
pub struct KeyByte {
    pub byte: u8,
    pub after: MatchKey,
}

// Whether a field of the PGN has a match.
#[tactic(auto, using(crate::specs::SearchLaws::any_turn), unfolding(crate::specs::Variants::has_match))]
pub fn has_match(pgn: &PgnRef) -> bool
    ensures { result ≡ has_match (pgn_value pgn.now) (length (pgn_value pgn.now).fields) }
{
    for k in 0..pgn.view.fields {
        let f = pgn.field(k);
        if f.authored.matched.is_some() {
            return true;
        }
    }
    false
}

// The `,` of field k's piece, then its index, `=` and its match text.
fn begun(k: u32, text: Text) -> KeyByte
    requires { k < 4294967295 }
    ensures { Begun k text result }
{
    let mut head = [0u8; 11];
    head[10] = 61;
    let at = write_digits(k as u64, &mut head, 10);
    let after = MatchKey {
        field: k + 1,
        head,
        at,
        text,
    };
    KeyByte { byte: 44, after }
}

// Nothing to come before the fields from `field` on.
fn before(field: u32) -> MatchKey
    ensures { Before field result }
{
    let text = Text { start: 0, len: 0 };
    let head = [0u8; 11];
    MatchKey {
        field,
        head,
        at: 11,
        text,
    }
}

// The first byte of what fields from `from` on bring.
fn next_piece(pgn: &PgnRef, from: u32) -> Option<KeyByte>
    requires { from ≤ pgn.now.view.fields }
    ensures { record {
      came : pieces_from (pgn_value pgn.now) from (pgn.now.view.fields - from) ≡ first_and pgn.now.pack.bytes.now (pgn_value pgn.now) result;
      next : IfSome result (λ b. KeyHolds b.after pgn.now.view.fields);
    } }
{
    for k in from..pgn.view.fields {
        let f = pgn.field(k);
        if let Some(text) = f.authored.matched {
            return Some(begun(k, text));
        }
    }
    None
}

// The text without its first byte, which comes, or the next piece where it is empty.
#[inline(always)]
fn next_of_text(pgn: &PgnRef, key: MatchKey) -> Option<KeyByte>
    requires { record {
      field : key.field ≤ pgn.now.view.fields;
      written : 11 ≤ key.at;
    } }
    ensures { record {
      came : to_come pgn.now.pack.bytes.now (pgn_value pgn.now) key ≡ first_and pgn.now.pack.bytes.now (pgn_value pgn.now) result;
      next : IfSome result (λ b. KeyHolds b.after pgn.now.view.fields);
    } }
{
    let b = pgn.pack.text(key.text);
    if b.len() == 0 {
        return next_piece(pgn, key.field);
    }
    let byte = b[0];
    let text = Text {
        start: key.text.start + 1,
        len: key.text.len - 1,
    };
    let after = MatchKey { text, ..key };
    Some(KeyByte { byte, after })
}

// The next byte of the key.
#[inline(always)]
fn next(pgn: &PgnRef, key: MatchKey) -> Option<KeyByte>
    requires { record {
      field : key.field ≤ pgn.now.view.fields;
    } }
    ensures { record {
      came : to_come pgn.now.pack.bytes.now (pgn_value pgn.now) key ≡ first_and pgn.now.pack.bytes.now (pgn_value pgn.now) result;
      next : IfSome result (λ b. KeyHolds b.after pgn.now.view.fields);
    } }
{
    let at = key.at;
    if 11 <= at {
        return next_of_text(pgn, key);
    }
    let byte = key.head[at];
    let after = MatchKey { at: at + 1, ..key };
    Some(KeyByte { byte, after })
}

// Whether the two keys are the same bytes, each with its `,` before it. The loop goes step by step in both: there is no range of so many turns, and
// an iterator of bytes would be made for it alone.
fn same_key(pgn: &PgnRef, other: &PgnRef) -> bool
    ensures { result ≡
        (pieces_from (pgn_value pgn.now) 0 (length (pgn_value pgn.now).fields) ≐ pieces_from (pgn_value other.now) 0 (length (pgn_value other.now).fields)) }
{
    let mut a = before(0);
    let mut b = before(0);
    loop {
        let Some(x) = next(pgn, a) else {
            return next(other, b).is_none();
        };
        let Some(y) = next(other, b) else {
            return false;
        };
        if x.byte != y.byte {
            return false;
        }
        a = x.after;
        b = y.after;
    }
}

// Two variants, each with a match, that the matches do not tell apart.
#[tactic(auto, using(crate::proofs::MatchKeys::same_keys), unfolding(crate::specs::Variants::duplicates))]
pub fn duplicates(pgn: &PgnRef, other: &PgnRef) -> bool
    ensures { result ≡ duplicates (pgn_value pgn.now) (pgn_value other.now) }
{
    has_match(pgn) && has_match(other) && same_key(pgn, other)
}
