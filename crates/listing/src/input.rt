// The pack on standard input.
ghost use Rattle.std.specs.Prelude.{◌≡◌, ◌≤◌, length, IfOk, IfSome};
ghost use Rattle.std.specs.Result.{result_map_both};
ghost use Rattle.pack.specs.Load.{loaded, work_after};

use pack::load::{Refusal, load};
use pack::loaded::Pack;

// Standard input, as the system numbers it.
const STDIN: i32 = 0;

// The whole input, if the buffer has room for it.
pub fn read_pack(buf: &mut [u8]) -> Option<&[u8]>
    ensures { IfSome result (λ pack. length pack.now ≤ length buf.old) }
{
    let n = io::read_full(STDIN, buf);
    let mut more = [0u8; 1];
    if n == buf.len() && io::read_full(STDIN, &mut more) == 1 {
        return None;
    }
    Some(&buf[..n])
}

// The pack that the bytes are, with a work buffer for it.
pub fn load_pack<'a>(bytes: &'a [u8], work: &'a mut [u32]) -> Result<Pack<'a>, Refusal>
    ensures answer { result_map_both (λ p. p.index) (λ r. r) result ≡ loaded bytes.now (length work.old) }
    ensures bytes { IfOk result (λ p. p.bytes.now ≡ bytes.now) }
    ensures work { IfOk result (λ p. p.work.now ≡ work_after bytes.now work.old) }
{
    let index = load(bytes, work)?;
    Ok(Pack { bytes, work, index })
}
