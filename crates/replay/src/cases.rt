// What the recorded cases are made of. A number has 4 bytes, lowest first. A pack is its length and its bytes; of one above 65,536 bytes,
// which is zeros, only the length.
ghost use Rattle.std.specs.Prelude.{◌≤◌};

pub fn number() -> u32 {
    let mut b = [0u8; 4];
    io::read_full(0, &mut b);
    u32::from_le_bytes(b)
}

// A length of a part of a buffer.
pub fn count(most: usize) -> usize
    ensures { result ≤ most }
{
    most.min(number() as usize)
}

pub fn read_pack(pack: &mut [u8]) {
    if pack.len() <= 65_536 {
        io::read_full(0, pack);
    }
}

// Written by crate io: a writer would be handed through all that print, and each would answer a `Result`.
pub fn words(w: &[u8]) {
    io::write_all(1, w);
}

pub fn spaced(n: u64) {
    words(b" ");
    io::print_decimal(1, n);
}

pub fn print_numbers<T: Copy + Into<u64>>(numbers: &[T]) {
    for n in numbers {
        spaced((*n).into());
    }
}

pub fn print_refused(number: u32, detail: u64) {
    words(b"refused");
    spaced(u64::from(number));
    spaced(detail);
    words(b"\n");
}
