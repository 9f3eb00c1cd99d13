// Numbers in decimal.
ghost use Rattle.std.specs.Prelude.{◌≡◌, ◌-◌};
ghost use Rattle.std.specs.Bool.{then_some};
ghost use Rattle.numerals.specs.Numerals.{is_digit, parse_digits, parse_u64};

// The value of a digit.
fn digit(c: u8) -> Option<u8>
    ensures { result ≡ then_some (is_digit c) (c - 48) }
{
    match c {
        b'0'..=b'9' => Some(c - b'0'),
        _ => None,
    }
}

// The number that digits write, of which there is one at least.
#[tactic(auto, unfolding(crate::specs::Numerals::parse_digits))]
fn parse_digits(digits: &[u8]) -> Option<u64>
    ensures { result ≡ parse_digits digits.now }
{
    if digits.is_empty() {
        return None;
    }
    let mut value: u64 = 0;
    for &c in digits {
        let digit = digit(c)?;
        value = value.checked_mul(10)?.checked_add(digit as u64)?;
    }
    Some(value)
}

// "digits, one leading + allowed"
#[tactic(auto, unfolding(crate::specs::Numerals::parse_u64))]
pub fn parse_u64(b: &[u8]) -> Option<u64>
    ensures { result ≡ parse_u64 b.now }
{
    match b.strip_prefix(b"+") {
        Some(digits) => parse_digits(digits),
        None => parse_digits(b),
    }
}
