// Values against widths.
ghost use Rattle.std.specs.Prelude.{◌≡◌, ◌&&◌, ◌^◌};
ghost use Rattle.pack.specs.Notation.{◌<ᵇ◌, ◌≤ᵇ◌};

// Whether a value does not fit in so many bits.
pub fn exceeds(width: u32, value: u64) -> bool
    ensures { result ≡ ((width <ᵇ 64) && (2 ^ width ≤ᵇ value)) }
{
    if width < 64 {
        return value >> width != 0;
    }
    false
}
