// A count that is not available, which gives no passes.
ghost use Rattle.std.specs.Prelude.{◌≡◌};
ghost use Rattle.walk.specs.Passes.{unavailable};

// "A countField reading equal to 2^bits − 1, for `res_bits` of 2 to 64"
pub fn unavailable(bits: u32, reading: u64) -> bool
    ensures { result ≡ unavailable bits reading }
{
    if bits < 2 || 64 < bits {
        return false;
    }
    reading == u64::MAX >> (64 - bits)
}
