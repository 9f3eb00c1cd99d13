// Buffers of numbers.
ghost use Rattle.std.specs.Prelude.{◌≡◌, ◌≤◌, length, take};
ghost use Rattle.pack.specs.Load.{over};

// The first n numbers of a buffer, copied into another.
pub fn copy(from: &[u32], to: &mut [u32], n: usize)
    requires { record { from : n ≤ length from.now; to : n ≤ length to.old } }
    ensures { to.new ≡ over (take n from.now) to.old }
{
    to[..n].copy_from_slice(&from[..n]);
}
