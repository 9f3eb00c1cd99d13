// A case: length of the work buffer, pack. The work buffer holds 165 everywhere before the call.
// What the call takes and answers is numbers: the C interface.
use crate::cases::{count, print_numbers, print_refused, read_pack, words};

fn print_answer(refused: u32, answer: &[u64; 11]) {
    if refused != 0 {
        print_refused(refused, answer[0]);
    } else {
        words(b"records");
        print_numbers(answer);
        words(b"\n");
    }
}

fn replay(pack: &mut [u8], work: &mut [u32]) {
    read_pack(pack);
    let mut answer = [0u64; 11];
    let refused = exports::sarwymp_load(pack, work, &mut answer);
    print_answer(refused, &answer);
    words(b"work");
    print_numbers(work);
    words(b"\n");
}

// A case in the first bytes and numbers of two buffers.
fn one_case(pack: &mut [u8], work: &mut [u32]) {
    let m = count(work.len());
    let n = count(pack.len());
    replay(&mut pack[..n], &mut work[..m]);
}

// Not called with the arrays themselves: the check runs out of stack over the bounds of a million bytes.
fn lend(pack: &mut [u8; 1_048_577], work: &mut [u32; 1024]) {
    one_case(pack, work);
}

pub fn next_case() {
    let mut pack = [0u8; 1_048_577];
    let mut work = [165u32; 1024];
    lend(&mut pack, &mut work);
}
