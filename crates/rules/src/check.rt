// The call `check`.
ghost use Rattle.std.specs.Prelude.{◌≡◌, ◌+◌, ◌*◌, ◌≤◌, length, get_or, take, ◌==◌};
ghost use Rattle.pack.specs.Load.{over, buffer_left};
ghost use Rattle.pack.specs.Meaning.{pack_of};
ghost use Rattle.rules.specs.Check.{check};
ghost use Rattle.rules.specs.Checked.{all_numbers, report_of, Checks};
ghost use Rattle.rules.specs.Emit.{none_in, put_all, Emitted};
ghost use Rattle.rules.specs.Search.{count_below};

use crate::emit::Findings;
use crate::fieldtypes::check_fieldtypes;
use crate::lookup_names::check_lookup_names;
use crate::lookup_wiring::check_lookup_wiring;
use crate::spn_names::check_spn_names;
use crate::spns::check_spns;
use crate::trees::{check_trees, check_trees_continues};
use pack::buffers::copy;
use pack::load::{Refusal, load};
use pack::loaded::Pack;

// How many findings, and how many of them have severity 1.
#[derive(Clone, Copy, PartialEq, Eq, Debug)]
pub struct Reported {
    pub findings: usize,
    pub errors: usize,
}

// Every finding, in the order in which the Rust reports.
fn check_all(out: &mut Findings, pack: &Pack)
    ensures { Emitted out.old (check (pack_of pack.now.bytes.now)) out.new }
{
    check_fieldtypes(out, pack);
    check_lookup_wiring(out, pack);
    check_spn_names(out, pack);
    check_lookup_names(out, pack);
    check_trees(out, pack);
    check_spns(out, pack);
    check_trees_continues(out, pack);
}

// Those that the buffer has room for, from its beginning; answers how many there are.
fn find_all(numbers: &mut [u32], pack: &Pack) -> usize
    ensures { record {
      count : result ≡ (put_all (none_in numbers.old) (check (pack_of pack.now.bytes.now))).count;
      numbers : numbers.new ≡ (put_all (none_in numbers.old) (check (pack_of pack.now.bytes.now))).numbers;
    } }
{
    let mut found = Findings::new(numbers);
    check_all(&mut found, pack);
    found.count
}

// How many of the first n findings of the buffer are errors. By the number's index, as the definitions count them.
#[tactic(auto, using(crate::specs::SearchLaws::count_turn))]
fn count_errors(findings: &[u32], n: usize) -> usize
    requires { 8 * n ≤ length findings.now }
    ensures { result ≡ count_below (λ i. get_or findings.now (8 * i + 1) 0 == 1) n }
{
    let mut errors = 0;
    for i in 0..n {
        if findings[8 * i + 1] == 1 {
            errors += 1;
        }
    }
    errors
}

// The findings into the buffer, which has room for them: those that the short list holds are copied, more are looked for again.
fn deliver(pack: &Pack, findings: &mut [u32], short: &[u32], count: usize)
    requires { record {
      counted : count ≡ length (check (pack_of pack.now.bytes.now));
      short : 8 * count ≤ length short.now → take (8 * count) short.now ≡ all_numbers (check (pack_of pack.now.bytes.now));
      room : 8 * count ≤ length findings.old;
    } }
    ensures { findings.new ≡ over (all_numbers (check (pack_of pack.now.bytes.now))) findings.old }
{
    let numbers = 8 * count;
    if numbers <= short.len() {
        copy(short, findings, numbers);
        return;
    }
    find_all(findings, pack);
}

// Into a short list first, since after 22 the buffer has not changed.
fn report(pack: &Pack, findings: &mut [u32]) -> Result<Reported, Refusal>
    ensures { record {
      answer : result ≡ report_of (check (pack_of pack.now.bytes.now)) (length findings.old);
      findings : findings.new ≡ buffer_left (report_of (check (pack_of pack.now.bytes.now)) (length findings.old))
          (all_numbers (check (pack_of pack.now.bytes.now))) findings.old;
    } }
{
    let mut short = [0u32; 8192];
    let count = find_all(&mut short, pack);
    let needed = 8 * count;
    if findings.len() < needed {
        return Err(Refusal::Findings(needed));
    }
    deliver(pack, findings, &short, count);
    let errors = count_errors(findings, count);
    Ok(Reported {
        findings: count,
        errors,
    })
}

// The call `check`. It makes its `Pack` itself (see there).
pub fn check(pack: &[u8], work: &mut [u32], findings: &mut [u32]) -> Result<Reported, Refusal>
    ensures { Checks pack.now work.old findings.old work.new findings.new result }
{
    let index = load(pack, work)?;
    let loaded = Pack {
        bytes: pack,
        work,
        index,
    };
    report(&loaded, findings)
}
