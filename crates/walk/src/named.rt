// The PGN that a call names.
ghost use Rattle.std.specs.Prelude.{◌≡◌};
ghost use Rattle.std.specs.Result.{result_map_both};
ghost use Rattle.pack.specs.Loaded.{pgn_spot, pgn_value};
ghost use Rattle.pack.specs.Meaning.{pack_of};
ghost use Rattle.walk.specs.Layout.{layout};
ghost use Rattle.walk.specs.Naming.{naming};
ghost use Rattle.walk.specs.SetsOf.{SetsAre};
ghost use Rattle.walk.specs.WalkCall.{in_pack};

use crate::sets::{Sets, sets_of};
use pack::load::Refusal;
use pack::loaded::{Pack, PgnRef};
use pack::protocol::Protocol;

// A PGN of an accepted pack, with its sets.
#[derive(Clone, Copy)]
pub struct FoundPgn<'a> {
    pub pgn: PgnRef<'a>,
    pub sets: Sets,
    pub ghost sets_are: { SetsAre (layout (pgn_value pgn)) sets },
}

// The PGN that is named, its tree by the C interface's number, if it is in the pack: 23.
pub fn find_pgn<'a>(pack: &Pack<'a>, tree: u32, pgn: u32) -> Result<PgnRef<'a>, Refusal>
    ensures { result_map_both pgn_spot (λ r. r) result ≡ naming (in_pack (pack_of pack.now.bytes.now) tree pgn)
        (record { bytes = pack.now.bytes.now; work = pack.now.work.now; tree = tree; item = pgn }) }
{
    let Some(protocol) = Protocol::from_number(tree) else {
        return Err(Refusal::Absent);
    };
    pack.pgn(protocol, pgn).ok_or(Refusal::Absent)
}

// The PGN that is there, with its sets.
#[inline(always)]
pub fn found_pgn<'a>(pgn: &PgnRef<'a>) -> FoundPgn<'a>
    ensures { result.pgn ≡ pgn.now }
{
    let sets = sets_of(pgn);
    FoundPgn { pgn: *pgn, sets }
}
