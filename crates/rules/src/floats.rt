// Floats of the pack, compared as floats.
ghost use Rattle.std.specs.Prelude.{◌≡◌};
ghost use Rattle.rules.specs.Floats.{float_eq};

use pack::float::float;

// The patterns of 0.0 and 1.0.
pub const ZERO: u64 = 0;

pub const ONE: u64 = 0x3ff0_0000_0000_0000;

// Two patterns compared as floats.
pub fn float_eq(a: u64, b: u64) -> bool
    ensures { result ≡ float_eq a b }
{
    float(a) == float(b)
}
