// A case: pack, length of the work buffer, length of the findings buffer. For each finding its eight numbers and its place text.
// What the call takes and answers is numbers: the C interface.
ghost use Rattle.std.specs.Prelude.{◌≤◌, length};

use crate::cases::{count, print_numbers, print_refused, read_pack, spaced, words};

// So many, as far as the buffer has them.
fn least(a: u64, b: usize) -> usize
    ensures { result ≤ b }
{
    b.min(a as usize)
}

fn print_place(pack: &[u8], work: &mut [u32], text: &mut [u8], place: u32, tree: u32, item: u32) {
    let mut answer = [0u64; 1];
    let refused = exports::sarwymp_place_text(pack, work, place, tree, item, text, &mut answer);
    if refused != 0 {
        print_refused(refused, answer[0]);
        return;
    }
    let n = least(answer[0], text.len());
    words(&text[..n]);
}

fn print_finding(pack: &[u8], work: &mut [u32], text: &mut [u8], f: &[u32; 8]) {
    io::print_decimal(1, u64::from(f[0]));
    print_numbers(&f[1..]);
    words(b" ");
    print_place(pack, work, text, f[3], f[4], f[5]);
    words(b"\n");
}

fn print_findings(pack: &[u8], work: &mut [u32], text: &mut [u8], findings: &[u32]) {
    let (findings, _) = findings.as_chunks::<8>();
    for finding in findings {
        print_finding(pack, work, text, finding);
    }
}

fn print_answer(
    pack: &[u8],
    work: &mut [u32],
    text: &mut [u8],
    findings: &[u32],
    refused: u32,
    answer: &[u64; 2],
) {
    if refused != 0 {
        print_refused(refused, answer[0]);
        return;
    }
    print_findings(pack, work, text, findings);
    words(b"findings");
    spaced(answer[0]);
    words(b" errors");
    spaced(answer[1]);
    words(b"\n");
}

fn replay(pack: &[u8], work: &mut [u32], findings: &mut [u32], text: &mut [u8]) {
    let mut answer = [0u64; 2];
    let refused = exports::sarwymp_check(pack, work, findings, &mut answer);
    let n = least(answer[0], findings.len() / 8);
    print_answer(pack, work, text, &findings[..8 * n], refused, &answer);
}

// What follows the length of the pack.
fn rest_of_case(pack: &mut [u8], work: &mut [u32], findings: &mut [u32], text: &mut [u8]) {
    read_pack(pack);
    let m = count(work.len());
    let k = count(findings.len());
    replay(pack, &mut work[..m], &mut findings[..k], text);
}

// A case in the first bytes and numbers of three buffers.
fn one_case(pack: &mut [u8], work: &mut [u32], findings: &mut [u32], text: &mut [u8]) {
    let n = count(pack.len());
    rest_of_case(&mut pack[..n], work, findings, text);
}

// Not called with the arrays themselves: the check runs out of stack over the bounds of a million bytes.
fn lend(
    pack: &mut [u8; 1_048_577],
    work: &mut [u32; 1024],
    findings: &mut [u32; 1024],
    text: &mut [u8; 32_768],
) {
    one_case(pack, work, findings, text);
}

pub fn next_case() {
    let mut pack = [0u8; 1_048_577];
    let mut work = [0u32; 1024];
    let mut findings = [0u32; 1024];
    let mut text = [0u8; 32_768];
    lend(&mut pack, &mut work, &mut findings, &mut text);
}
