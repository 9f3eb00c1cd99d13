// Standard output by crate io, on the C library's write alone.
ghost use Rattle.std.specs.Prelude.{◌≡◌};

use std::io::{Result, Write};

// Standard output, as the system numbers it.
const STDOUT: i32 = 1;

// What goes to standard output, some bytes at a time. A write that fails is passed over. What is still held goes out by `flush`.
#[derive(Drop)]
pub struct Stdout {
    pub bytes: [u8; 4096],
    pub used: usize,
}

impl Stdout {
    // Nothing is held.
    pub fn new() -> Stdout
        ensures { result.used ≡ 0 }
    {
        Stdout {
            bytes: [0; 4096],
            used: 0,
        }
    }

    fn send(&mut self)
        ensures { self.new.used ≡ 0 }
    {
        let bytes = self.bytes;
        let n = self.used.min(bytes.len());
        io::write_all(STDOUT, &bytes[..n]);
        self.used = 0;
    }

    fn put(&mut self, b: u8) {
        if self.bytes.len() <= self.used {
            self.send();
        }
        self.bytes[self.used] = b;
        self.used += 1;
    }
}

impl Write for Stdout {
    fn write(&mut self, buf: &[u8]) -> Result<usize> {
        for b in buf {
            self.put(*b);
        }
        Ok(buf.len())
    }

    fn flush(&mut self) -> Result<()> {
        self.send();
        Ok(())
    }
}
