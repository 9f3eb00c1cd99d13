// The parts of a number in groups of seven bits.
ghost use Rattle.std.specs.Prelude.{◌≡◌, ◌≤◌, ◌<◌, length, IfSome};
ghost use Rattle.std.specs.Bool.{then_some};
ghost use Rattle.pack.specs.Notation.{◌<ᵇ◌};
ghost use Rattle.pack.specs.Items.{last_byte_at, groups, shortest, capped};

// Where the number that begins at `at` has its last byte.
pub(crate) fn last_byte(s: &[u8], at: usize) -> Option<usize>
    ensures { result ≡ then_some (last_byte_at s.now at <ᵇ length s.now) (last_byte_at s.now at) }
{
    for i in at..s.len() {
        if s[i] < 128 {
            return Some(i);
        }
    }
    None
}

// Whether the number from `at` to its last byte `e` is in shortest form.
pub(crate) fn is_shortest(s: &[u8], at: usize, e: usize) -> bool
    requires { e < length s.now }
    ensures { result ≡ shortest s.now at e }
{
    if at < e {
        return s[e] != 0;
    }
    true
}

// The value of the n groups before `end`, counted from the top.
pub(crate) fn decode(s: &[u8], end: usize, n: usize, most: u64) -> Option<u64>
    requires { record { enough : n ≤ end; within : end ≤ length s.now } }
    ensures is { result ≡ capped most (groups s.now end n) }
    ensures bound { IfSome result (λ v. v ≤ most) }
{
    let mut value: u64 = 0;
    for k in 0..n {
        value = value
            .checked_mul(128)?
            .checked_add((s[end - 1 - k] % 128) as u64)?;
    }
    (value <= most).then_some(value)
}
