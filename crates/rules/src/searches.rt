// Answers of searches that go on to the end.
ghost use Rattle.std.specs.Bool.{then_some};
ghost use Rattle.std.specs.Prelude.{◌≡◌, ◌+◌, ◌<◌, if◌then◌else◌};
ghost use Rattle.std.specs.Option.{option_or};
ghost use Rattle.rules.specs.Search.{larger, smaller};

// One more, at a hit.
pub fn counted(count: u32, hit: bool) -> u32
    requires { count < 4294967295 }
    ensures { result ≡ (if hit then count + 1 else count) }
{
    count + u32::from(hit)
}

// The latest hit, when index j is tried.
pub fn latest(hit: bool, j: u32, earlier: Option<u32>) -> Option<u32>
    ensures { result ≡ option_or (then_some hit j) earlier }
{
    hit.then_some(j).or(earlier)
}

// The larger of two, where there are any. Four lines twice: a closure would make the calls longer.
#[tactic(auto, using(crate::proofs::Extremes::max_is_larger))]
pub fn larger(found: Option<u32>, one: Option<u32>) -> Option<u32>
    ensures { result ≡ larger found one }
{
    match (found, one) {
        (Some(a), Some(b)) => Some(a.max(b)),
        _ => found.or(one),
    }
}

// The smaller of two, where there are any.
#[tactic(auto, using(crate::proofs::Extremes::min_is_smaller))]
pub fn smaller(found: Option<u32>, one: Option<u32>) -> Option<u32>
    ensures { result ≡ smaller found one }
{
    match (found, one) {
        (Some(a), Some(b)) => Some(a.min(b)),
        _ => found.or(one),
    }
}
