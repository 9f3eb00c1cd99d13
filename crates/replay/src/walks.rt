// A case: pack, length of the work buffer, tree, index of the PGN, length of the visit buffer, number of readings, the readings. Before the
// call the work buffer holds 165 everywhere, the visit buffer 170. A call of `held` on the same PGN follows.
// What the call takes and answers is numbers: the C interface.
use crate::cases::{count, number, print_numbers, print_refused, read_pack, spaced, words};

// 8 bytes, lowest first.
fn reading() -> u64 {
    let low = number();
    let high = number();
    u64::from(high) << 32 | u64::from(low)
}

fn read_readings(readings: &mut [u64]) {
    for r in readings {
        *r = reading();
    }
}

// 0 whole, 1 to 9 the stop, 10 used up.
fn print_end(end: u64) {
    if end == 0 {
        words(b"whole");
    } else if end == 10 {
        words(b"used up");
    } else {
        words(b"stop");
        spaced(end);
    }
}

fn print_walked(refused: u32, answer: &[u64; 2]) {
    if refused != 0 {
        print_refused(refused, answer[0]);
        return;
    }
    print_end(answer[0]);
    spaced(answer[1]);
    words(b"\n");
}

fn print_held(refused: u32, answer: &[u64; 1]) {
    if refused != 0 {
        print_refused(refused, answer[0]);
    } else if answer[0] == 1 {
        words(b"held\n");
    } else {
        words(b"not held\n");
    }
}

fn replay(
    pack: &[u8],
    work: &mut [u32],
    tree: u32,
    pgn: u32,
    readings: &[u64],
    visits: &mut [u32],
) {
    let mut walked = [0u64; 2];
    let refused = exports::sarwymp_walk(pack, work, tree, pgn, readings, visits, &mut walked);
    print_walked(refused, &walked);
    let mut held = [0u64; 1];
    let refused = exports::sarwymp_held(pack, work, tree, pgn, &mut held);
    print_held(refused, &held);
    words(b"visits");
    print_numbers(visits);
    words(b"\n");
}

fn with_readings(
    pack: &[u8],
    work: &mut [u32],
    tree: u32,
    pgn: u32,
    readings: &mut [u64],
    visits: &mut [u32],
) {
    read_readings(readings);
    replay(pack, work, tree, pgn, readings, visits);
}

// What follows the length of the pack.
fn rest_of_case(pack: &mut [u8], work: &mut [u32], readings: &mut [u64], visits: &mut [u32]) {
    read_pack(pack);
    let m = count(work.len());
    let tree = number();
    let pgn = number();
    let k = count(visits.len());
    let r = count(readings.len());
    with_readings(
        pack,
        &mut work[..m],
        tree,
        pgn,
        &mut readings[..r],
        &mut visits[..k],
    );
}

// A case in the first bytes and numbers of four buffers.
fn one_case(pack: &mut [u8], work: &mut [u32], readings: &mut [u64], visits: &mut [u32]) {
    let n = count(pack.len());
    rest_of_case(&mut pack[..n], work, readings, visits);
}

pub fn next_case() {
    let mut pack = [0u8; 32_768];
    let mut work = [165u32; 1024];
    let mut readings = [0u64; 64];
    let mut visits = [170u32; 80];
    one_case(&mut pack, &mut work, &mut readings, &mut visits);
}
