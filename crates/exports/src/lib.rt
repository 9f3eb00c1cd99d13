// The calls as a Rust or C program makes them: numbers and slices alone. Each answers 01's refusal number, 0 where there is none.
#![tactic(auto)]

ghost use Rattle.std.specs.Prelude.{◌≡◌, length};
ghost use Rattle.pack.specs.Load.{load_tells, work_after};
ghost use Rattle.exports.specs.Answers.{filled};
ghost use Rattle.rules.specs.Checked.{check_tells, findings_after};
ghost use Rattle.rules.specs.PlaceCall.{place_tells, text_after};
ghost use Rattle.walk.specs.WalkCall.{walk_tells, visits_after, held_tells};

use crate::answers::tell;
use pack::load::load;
use rules::check::check;
use rules::place_text::place_text;
use walk::walk::{held, walk};

mod answers;

// The eleven numbers are the detail and zeros where the pack is refused; else the number of records, then for field types, lookups and the
// three trees in turn the count and the work position of the first.
pub fn sarwymp_load(pack: &[u8], work: &mut [u32], answer: &mut [u64; 11]) -> u32
    ensures number { result ≡ (load_tells pack.now (length work.old)).number }
    ensures numbers { answer.new ≡ filled 11 (load_tells pack.now (length work.old)).values }
    ensures work { work.new ≡ work_after pack.now work.old }
{
    tell(load(pack, work), answer)
}

// The two numbers are the detail and 0 where the call is refused; else the number of findings and of errors.
pub fn sarwymp_check(
    pack: &[u8],
    work: &mut [u32],
    findings: &mut [u32],
    answer: &mut [u64; 2],
) -> u32
    ensures number { result ≡ (check_tells pack.now (length work.old) (length findings.old)).number }
    ensures numbers { answer.new ≡ filled 2
        (check_tells pack.now (length work.old) (length findings.old)).values }
    ensures work { work.new ≡ work_after pack.now work.old }
    ensures findings { findings.new ≡ findings_after pack.now (length work.old) findings.old }
{
    tell(check(pack, work, findings), answer)
}

// The number is the detail where the call is refused; else the length of the text.
pub fn sarwymp_place_text(
    pack: &[u8],
    work: &mut [u32],
    place: u32,
    tree: u32,
    item: u32,
    text: &mut [u8],
    answer: &mut [u64; 1],
) -> u32
    ensures number { result ≡ (place_tells pack.now (length work.old) place tree item (length text.old)).number }
    ensures numbers { answer.new ≡ filled 1
        (place_tells pack.now (length work.old) place tree item (length text.old)).values }
    ensures work { work.new ≡ work_after pack.now work.old }
    ensures text { text.new ≡ text_after pack.now (length work.old) place tree item text.old }
{
    tell(place_text(pack, work, place, tree, item, text), answer)
}

// The two numbers are the detail and 0 where the call is refused; else the end (0 whole, 1 to 9 the stop, 10 used up) and the number of
// visits, with which the visit buffer begins.
pub fn sarwymp_walk(
    pack: &[u8],
    work: &mut [u32],
    tree: u32,
    pgn: u32,
    readings: &[u64],
    visits: &mut [u32],
    answer: &mut [u64; 2],
) -> u32
    ensures number { result ≡ (walk_tells pack.now (length work.old) tree pgn readings.now
        (length visits.old)).number }
    ensures numbers { answer.new ≡ filled 2
        (walk_tells pack.now (length work.old) tree pgn readings.now (length visits.old)
        ).values }
    ensures work { work.new ≡ work_after pack.now work.old }
    ensures visits { visits.new ≡ visits_after pack.now (length work.old) tree pgn
        readings.now visits.old }
{
    tell(walk(pack, work, tree, pgn, readings, visits), answer)
}

// The number is the detail where the call is refused; else 1 where the PGN is held, 0 where it is not.
pub fn sarwymp_held(
    pack: &[u8],
    work: &mut [u32],
    tree: u32,
    pgn: u32,
    answer: &mut [u64; 1],
) -> u32
    ensures number { result ≡ (held_tells pack.now (length work.old) tree pgn).number }
    ensures numbers { answer.new ≡ filled 1 (held_tells pack.now (length work.old) tree pgn).values }
    ensures work { work.new ≡ work_after pack.now work.old }
{
    tell(held(pack, work, tree, pgn), answer)
}
