// A text put into a buffer byte by byte. A byte is stored only where the buffer has its place; all are counted, so over an empty buffer the
// text is measured.
ghost use Rattle.std.specs.Prelude.{◌≡◌, [], ◌∷◌};
ghost use Rattle.rules.specs.Digits.{six_digits};
ghost use Rattle.rules.specs.TextOut.{nothing_in, written_in, Puts};

// What was put so far: as many bytes as fit, and how many there are.
#[derive(Drop)]
pub struct TextOut<'a> {
    pub bytes: &'a mut [u8],
    pub count: usize,
}

impl<'a> TextOut<'a> {
    pub fn new(bytes: &'a mut [u8]) -> TextOut<'a>
        ensures same { result.bytes.ghost_name ≡ bytes.entry.ghost_name }
        ensures text { written_in result ≡ nothing_in bytes.old }
    {
        TextOut { bytes, count: 0 }
    }

    // Not by `get_mut`, which promises nothing of the rest of the buffer.
    #[tactic(auto, unfolding(crate::specs::TextOut::put_byte))]
    fn put_byte(&mut self, b: u8)
        ensures { Puts self.old (b ∷ []) self.new }
    {
        if self.count < self.bytes.len() {
            self.bytes[self.count] = b;
        }
        self.count = self.count.saturating_add(1);
    }

    pub fn put_bytes(&mut self, bytes: &[u8])
        ensures { Puts self.old bytes.now self.new }
    {
        for b in bytes {
            self.put_byte(*b);
        }
    }

    // The Rust's `{:06}`, the highest digit first.
    pub fn put_six_digits(&mut self, n: u32)
        ensures { Puts self.old (six_digits n) self.new }
    {
        let places = (n.max(1).ilog10() + 1).max(6);
        for i in 0..places {
            let place = places - 1 - i;
            self.put_byte(b'0' + (n / 10u32.pow(place) % 10) as u8);
        }
    }
}
