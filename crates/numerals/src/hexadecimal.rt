// Numbers in hexadecimal, after 0x.
ghost use Rattle.std.specs.Prelude.{◌≡◌, ◌≤◌, length};
ghost use Rattle.std.specs.Bool.{then_some};
ghost use Rattle.numerals.specs.Numerals.{is_hex_digit, hex_digit, all_hex_digits, hexadecimal, parse_hex};

// The value of a digit.
fn hex_digit(c: u8) -> Option<u8>
    ensures { result ≡ then_some (is_hex_digit c) (hex_digit c) }
{
    match c {
        b'0'..=b'9' => Some(c - b'0'),
        b'A'..=b'F' => Some(c - b'A' + 10),
        b'a'..=b'f' => Some(c - b'a' + 10),
        _ => None,
    }
}

// The number that digits write; 16 of them have 64 bits. Apart from `parse_digits`, since 01 limits that one by the value and this by the digits.
fn number(digits: &[u8]) -> Option<u64>
    requires { length digits.now ≤ 16 }
    ensures { result ≡ then_some (all_hex_digits digits.now) (hexadecimal 0 digits.now) }
{
    let mut value: u64 = 0;
    for &c in digits {
        value = 16 * value + hex_digit(c)? as u64;
    }
    Some(value)
}

// How many digits there may be.
const FEWEST: usize = 1;

const MOST: usize = 16;

// "0x or 0X and 1 to 16 hexadecimal digits"
#[tactic(auto, unfolding(crate::specs::Numerals::parse_hex))]
pub fn parse_hex(b: &[u8]) -> Option<u64>
    ensures { result ≡ parse_hex b.now }
{
    let [b'0', b'x' | b'X', digits @ ..] = b else {
        return None;
    };
    if (FEWEST..=MOST).contains(&digits.len()) {
        number(digits)
    } else {
        None
    }
}
