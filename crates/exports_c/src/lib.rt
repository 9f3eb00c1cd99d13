// The calls of exports for C, in the static library: each calls the function of its name, and promises what that promises.
#![tactic(auto)]

ghost use Rattle.std.specs.Prelude.{◌≡◌, length};
ghost use Rattle.pack.specs.Load.{load_tells, work_after};
ghost use Rattle.exports.specs.Answers.{filled};
ghost use Rattle.rules.specs.Checked.{check_tells, findings_after};
ghost use Rattle.rules.specs.PlaceCall.{place_tells, text_after};
ghost use Rattle.walk.specs.WalkCall.{walk_tells, visits_after, held_tells};

#[unsafe(no_mangle)]
pub extern "C" fn sarwymp_load(pack: &[u8], work: &mut [u32], answer: &mut [u64; 11]) -> u32
    ensures number { result ≡ (load_tells pack.now (length work.old)).number }
    ensures numbers { answer.new ≡ filled 11 (load_tells pack.now (length work.old)).values }
    ensures work { work.new ≡ work_after pack.now work.old }
{
    exports::sarwymp_load(pack, work, answer)
}

#[unsafe(no_mangle)]
pub extern "C" fn sarwymp_check(
    pack: &[u8],
    work: &mut [u32],
    findings: &mut [u32],
    answer: &mut [u64; 2],
) -> u32
    ensures number { result ≡ (check_tells pack.now (length work.old) (length findings.old)).number }
    ensures numbers { answer.new ≡ filled 2
        (check_tells pack.now (length work.old) (length findings.old)).values }
    ensures work { work.new ≡ work_after pack.now work.old }
    ensures findings { findings.new ≡ findings_after pack.now (length work.old) findings.old }
{
    exports::sarwymp_check(pack, work, findings, answer)
}

#[unsafe(no_mangle)]
pub extern "C" fn sarwymp_place_text(
    pack: &[u8],
    work: &mut [u32],
    place: u32,
    tree: u32,
    item: u32,
    text: &mut [u8],
    answer: &mut [u64; 1],
) -> u32
    ensures number { result ≡ (place_tells pack.now (length work.old) place tree item (length text.old)).number }
    ensures numbers { answer.new ≡ filled 1
        (place_tells pack.now (length work.old) place tree item (length text.old)).values }
    ensures work { work.new ≡ work_after pack.now work.old }
    ensures text { text.new ≡ text_after pack.now (length work.old) place tree item text.old }
{
    exports::sarwymp_place_text(pack, work, place, tree, item, text, answer)
}

#[unsafe(no_mangle)]
pub extern "C" fn sarwymp_walk(
    pack: &[u8],
    work: &mut [u32],
    tree: u32,
    pgn: u32,
    readings: &[u64],
    visits: &mut [u32],
    answer: &mut [u64; 2],
) -> u32
    ensures number { result ≡ (walk_tells pack.now (length work.old) tree pgn readings.now
        (length visits.old)).number }
    ensures numbers { answer.new ≡ filled 2
        (walk_tells pack.now (length work.old) tree pgn readings.now (length visits.old)
        ).values }
    ensures work { work.new ≡ work_after pack.now work.old }
    ensures visits { visits.new ≡ visits_after pack.now (length work.old) tree pgn
        readings.now visits.old }
{
    exports::sarwymp_walk(pack, work, tree, pgn, readings, visits, answer)
}

#[unsafe(no_mangle)]
pub extern "C" fn sarwymp_held(
    pack: &[u8],
    work: &mut [u32],
    tree: u32,
    pgn: u32,
    answer: &mut [u64; 1],
) -> u32
    ensures number { result ≡ (held_tells pack.now (length work.old) tree pgn).number }
    ensures numbers { answer.new ≡ filled 1 (held_tells pack.now (length work.old) tree pgn).values }
    ensures work { work.new ≡ work_after pack.now work.old }
{
    exports::sarwymp_held(pack, work, tree, pgn, answer)
}
