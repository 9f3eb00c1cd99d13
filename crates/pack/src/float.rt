// A float's 64-bit pattern as an f64.
ghost use Rattle.std.specs.Prelude.{◌≡◌};
ghost use Rattle.std.specs.Float.Ieee.{of_bits};
ghost use Rattle.std.specs.Float.{binary64};

// The patterns of -0 and of the infinity. A pattern above the infinity's, but for the sign, is a NaN's.
const MINUS_ZERO: u64 = 0x8000_0000_0000_0000;

const INFINITY: u64 = 0x7ff0_0000_0000_0000;

// A NaN for each NaN's pattern, which `from_bits` does not take.
pub fn float(pattern: u64) -> f64
    ensures { result ≡ of_bits binary64 pattern }
{
    if INFINITY < pattern % MINUS_ZERO {
        let zero = 0.0;
        return zero / zero;
    }
    f64::from_bits(pattern)
}
