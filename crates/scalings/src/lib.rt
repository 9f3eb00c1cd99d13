// What a report says of the J1939 fields that carry one SPN, over the call `check`.
#![tactic(auto)]

ghost use Rattle.std.specs.Prelude.{◌≡◌, ◌+◌, ◌*◌, ◌≤◌, length};
ghost use Rattle.pack.specs.Meaning.{pack_of};
ghost use Rattle.rules.specs.Checked.{Checks};
ghost use Rattle.scalings.specs.Report.{finding_is, reports, Room, silent, Says};

use pack::load::Refusal;
use rules::check::{Reported, check};

// check's answer, and whether it is a report in which R42 has no cause 3.
#[derive(Clone, Copy)]
pub struct CheckedAlike {
    pub checked: Result<Reported, Refusal>,
    pub alike: bool,
}

// Finding i has the rule and the cause, numbers as the report has them, by their indexes.
fn finding_is(findings: &[u32], i: usize, rule: u32, cause: u32) -> bool
    requires { 8 * i + 8 ≤ length findings.now }
    ensures { result ≡ finding_is rule cause findings.now i }
{
    if findings[8 * i] == rule {
        return findings[8 * i + 2] == cause;
    }
    false
}

// One of the first n findings has them.
fn reports(findings: &[u32], n: usize, rule: u32, cause: u32) -> bool
    requires { 8 * n ≤ length findings.now }
    ensures { result ≡ reports rule cause n findings.now }
{
    for i in 0..n {
        if finding_is(findings, i, rule, cause) {
            return true;
        }
    }
    false
}

// A report, no refusal, and R42 has no cause 3 in it.
fn silent(checked: Result<Reported, Refusal>, findings: &[u32]) -> bool
    requires { Room checked (length findings.now) }
    ensures { result ≡ silent checked findings.now }
{
    match checked {
        Err(_) => false,
        Ok(reported) => !reports(findings, reported.findings, 42, 3),
    }
}

// Check, then read its report: whether it is one, and every two J1939 fields of one SPN of at most 524,287 are scaled alike. What is read
// of the report determines the answer; the claim says what it means.
pub fn check_alike(pack: &[u8], work: &mut [u32], findings: &mut [u32]) -> CheckedAlike
    ensures read { result.alike ≡ silent result.checked findings.new }
    ensures claim { Says (pack_of pack.now) result.checked result.alike }
    ensures checks { Checks pack.now work.old findings.old work.new findings.new
        result.checked }
{
    let checked = check(pack, work, findings);
    let alike = silent(checked, findings);
    CheckedAlike { checked, alike }
}
