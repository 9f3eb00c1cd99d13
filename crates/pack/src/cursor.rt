// The pack cursor: a value whose methods answer an item with the next cursor, of any bytes at any offset. A refused cursor stands at the
// offending item and stays there, so the first offending item decides; each item that is read from it is empty.
ghost use Rattle.std.specs.Prelude.{◌≡◌, ◌≤◌, ◌<◌, ◌+◌, true, false, length};
ghost use Rattle.pack.specs.Items.{fresh, refuse, optional, finish, read_wide, read_number, read_code, read_version, read_index, read_sum};
ghost use Rattle.pack.specs.Items.{read_bytes, read_mark, read_text, read_name, read_float};
ghost use Rattle.pack.specs.Cursors.{StandsAt, item_read};

use crate::items::{self, Float, Length, Number, Sum, Words};
use crate::reader::{InputRefusal, Reader};
use crate::text::Text;

#[derive(Clone, Copy)]
pub struct Cursor {
    pub at: usize,
    // 01's number of the refusal, 0 where there is none; as wide as `at`, so that there is no padding to copy
    pub refused: usize,
}

// What was read, and the cursor behind it.
#[derive(Clone, Copy)]
pub struct Item<T> {
    pub value: T,
    pub next: Cursor,
}

// The text of an item that was refused, or that is not there.
pub(crate) const NO_TEXT: Text = Text { start: 0, len: 0 };

// A cursor with nothing refused.
pub(crate) fn fresh(at: usize) -> Cursor
    ensures { result ≡ fresh at }
{
    Cursor { at, refused: 0 }
}

// What the reader that stands at a cursor answered, an empty item where it refused.
fn as_item<T: Copy>(read: Result<(T, Reader), InputRefusal>, empty: T) -> Item<T>
    ensures { result ≡ item_read read.entry empty }
{
    match read {
        Ok((value, next)) => Item {
            value,
            next: fresh(next.at),
        },
        Err(refusal) => Item {
            value: empty,
            next: Cursor {
                at: refusal.offset,
                refused: refusal.fault as usize,
            },
        },
    }
}

impl Cursor {
    pub fn refuse(self, number: usize) -> Cursor
        ensures { result ≡ refuse self number }
    {
        Cursor {
            at: self.at,
            refused: number,
        }
    }

    // The reader here; or the cursor behind any item, where nothing is read: a refused one, or one behind the end of the bytes.
    fn reader<'a>(self, s: &'a [u8]) -> Result<Reader<'a>, Cursor>
        ensures { StandsAt self s.now result }
    {
        if self.refused != 0 {
            return Err(self);
        }
        if s.len() < self.at {
            return Err(self.refuse(1));
        }
        Ok(Reader {
            bytes: s,
            at: self.at,
        })
    }

    // A number up to `most`.
    pub fn wide(self, s: &[u8], most: u64) -> Item<u64>
        ensures { record {
          is : result ≡ read_wide most s.now self;
          bound : result.value ≤ most;
        } }
    {
        match self.reader(s) {
            Ok(reader) => as_item(reader.wide(most), 0),
            Err(next) => Item { value: 0, next },
        }
    }

    pub fn number(self, s: &[u8]) -> Item<u32>
        ensures { result ≡ read_number s.now self }
    {
        match self.reader(s) {
            Ok(reader) => as_item(reader.number(), 0),
            Err(next) => Item { value: 0, next },
        }
    }

    // A code, mark or flags.
    pub fn code(self, s: &[u8], most: u32) -> Item<u32>
        ensures { result ≡ read_code most s.now self }
    {
        match self.reader(s) {
            Ok(reader) => as_item(reader.code(most), 0),
            Err(next) => Item { value: 0, next },
        }
    }

    pub fn version(self, s: &[u8]) -> Item<u32>
        ensures { result ≡ read_version s.now self }
    {
        match self.reader(s) {
            Ok(reader) => as_item(reader.version(), 0),
            Err(next) => Item { value: 0, next },
        }
    }

    // An index below `count`.
    pub fn index(self, s: &[u8], count: u64) -> Item<u32>
        ensures { result ≡ read_index count s.now self }
    {
        match self.reader(s) {
            Ok(reader) => as_item(reader.index(count), 0),
            Err(next) => Item { value: 0, next },
        }
    }

    // A number that completes a sum whose other part is `other`.
    pub fn sum(self, s: &[u8], other: u32) -> Item<u32>
        ensures { record {
          is : result ≡ read_sum other s.now self;
          bound : other + result.value ≤ 4294967295;
        } }
    {
        match self.reader(s) {
            Ok(reader) => as_item(reader.sum(other), 0),
            Err(next) => Item { value: 0, next },
        }
    }

    // A length in bytes whose bits are counted in 32 bits.
    pub fn bytes(self, s: &[u8]) -> Item<u32>
        ensures { result ≡ read_bytes s.now self }
    {
        match self.reader(s) {
            Ok(reader) => as_item(reader.length(), 0),
            Err(next) => Item { value: 0, next },
        }
    }

    pub fn mark(self, s: &[u8]) -> Item<bool>
        ensures { result ≡ read_mark s.now self }
    {
        match self.reader(s) {
            Ok(reader) => as_item(reader.mark(), false),
            Err(next) => Item { value: false, next },
        }
    }

    pub fn text(self, s: &[u8]) -> Item<Text>
        ensures { result ≡ read_text s.now self }
    {
        match self.reader(s) {
            Ok(reader) => as_item(reader.text(), NO_TEXT),
            Err(next) => Item {
                value: NO_TEXT,
                next,
            },
        }
    }

    // A lookup's name, which is above the one before it.
    pub fn name(self, s: &[u8], before: Option<Text>) -> Item<Text>
        ensures { result ≡ read_name before s.now self }
    {
        match self.reader(s) {
            Ok(reader) => as_item(reader.name(before), NO_TEXT),
            Err(next) => Item {
                value: NO_TEXT,
                next,
            },
        }
    }

    // A float, by its 64-bit pattern.
    pub fn float(self, s: &[u8]) -> Item<u64>
        ensures { result ≡ read_float s.now self }
    {
        match self.reader(s) {
            Ok(reader) => as_item(reader.float(), 0),
            Err(next) => Item { value: 0, next },
        }
    }

    // Whether the mark that stands here says that nothing follows.
    fn absent(self, s: &[u8]) -> bool
        ensures { record {
          inside : result ≡ true → self.at < length s.now;
          mark : result ≡ true → read_mark s.now self ≡ record { value = false; next = fresh (self.at + 1) };
        } }
    {
        let at = self.at;
        if self.refused == 0 {
            if at < s.len() {
                return s[at] == 0;
            }
        }
        false
    }

    // A mark, 0 or 1, then the item if 1. An absent one is answered at its mark.
    pub(crate) fn optional<I: items::Item>(self, s: &[u8], item: I) -> Item<Option<I::Value>>
        ensures { result ≡ optional (I.form item) s.now self }
    {
        if self.absent(s) {
            let next = fresh(self.at + 1);
            return Item { value: None, next };
        }
        self.optional_long(s, item)
    }

    fn optional_long<I: items::Item>(self, s: &[u8], item: I) -> Item<Option<I::Value>>
        ensures { result ≡ optional (I.form item) s.now self }
    {
        let there = self.mark(s);
        if there.value {
            let given = item.read_at(there.next, s);
            return Item {
                value: Some(given.value),
                next: given.next,
            };
        }
        Item {
            value: None,
            next: there.next,
        }
    }

    pub fn opt_text(self, s: &[u8]) -> Item<Option<Text>>
        ensures { result ≡ optional read_text s.now self }
    {
        self.optional(s, Words)
    }

    pub fn opt_number(self, s: &[u8]) -> Item<Option<u32>>
        ensures { result ≡ optional read_number s.now self }
    {
        self.optional(s, Number)
    }

    // An optional length in bytes whose bits are counted in 32 bits.
    pub fn opt_bytes(self, s: &[u8]) -> Item<Option<u32>>
        ensures { result ≡ optional read_bytes s.now self }
    {
        self.optional(s, Length)
    }

    // An optional number that completes a sum whose other part is `other`.
    pub fn opt_sum(self, s: &[u8], other: u32) -> Item<Option<u32>>
        ensures { result ≡ optional (read_sum other) s.now self }
    {
        self.optional(s, Sum(other))
    }

    // An optional float, by its 64-bit pattern.
    pub fn opt_float(self, s: &[u8]) -> Item<Option<u64>>
        ensures { result ≡ optional read_float s.now self }
    {
        self.optional(s, Float)
    }

    // The end of the pack: refused where bytes are left.
    pub fn finish(self, s: &[u8]) -> Cursor
        ensures { result ≡ finish s.now self }
    {
        if self.refused != 0 {
            return self;
        }
        if self.at < s.len() {
            return self.refuse(8);
        }
        self
    }
}
