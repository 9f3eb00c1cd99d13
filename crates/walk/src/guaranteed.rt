// The guarantee against stops, over two calls on one pack.
ghost use Rattle.std.specs.Prelude.{length};
ghost use Rattle.rules.specs.Checked.{Checks};
ghost use Rattle.walk.specs.Demand3.{Demand3};
ghost use Rattle.walk.specs.Held.{held};
ghost use Rattle.walk.specs.HeldReadings.{held_widest};
ghost use Rattle.walk.specs.WalkCall.{Walks};

use crate::walk::{Ended, walk};
use pack::load::Refusal;
use rules::check::{Reported, check};

// The answers of the two calls.
#[derive(Clone, Copy)]
pub struct TwoAnswers {
    pub checked: Result<Reported, Refusal>,
    pub walked: Result<Ended, Refusal>,
}

// Check, then walk: only the pack bytes are common to both; `scratch` is the work buffer of walk. The claim is demand 3, for `held` and under
// the widest reading of what is held; the rest determines the answers and the buffers, so that no answer meets the claim emptily.
pub fn check_then_walk(
    pack: &[u8],
    work: &mut [u32],
    findings: &mut [u32],
    scratch: &mut [u32],
    tree: u32,
    pgn: u32,
    readings: &[u64],
    visits: &mut [u32],
) -> TwoAnswers
    ensures claim { Demand3 held pack.now tree pgn readings.now (length scratch.old)
        visits.old visits.new result.checked result.walked }
    ensures claim_widest { Demand3 held_widest pack.now tree pgn readings.now (length scratch.old)
        visits.old visits.new result.checked result.walked }
    ensures checks { Checks pack.now work.old findings.old work.new findings.new
        result.checked }
    ensures walks { Walks pack.now tree pgn readings.now scratch.old visits.old
        scratch.new visits.new result.walked }
{
    let checked = check(pack, work, findings);
    let walked = walk(pack, scratch, tree, pgn, readings, visits);
    TwoAnswers { checked, walked }
}
