// The items of a pack, one method each.
ghost use Rattle.std.specs.Prelude.{◌≡◌, ◌+◌, ◌≤◌, IfOk};
ghost use Rattle.pack.specs.Items.{Form, optional, read_wide, read_number, read_code, read_version, read_index, read_sum, read_bytes, read_mark};
ghost use Rattle.pack.specs.Items.{read_text, read_name, read_float};
ghost use Rattle.pack.specs.Reads.{Gives, Ends, refuse_unless};

use crate::cursor::{self, Cursor};
use crate::number::{decode, is_shortest, last_byte};
use crate::reader::{Fault, InputRefusal, Reader};
use crate::text::{Text, text_precedes};

impl<'a> Reader<'a> {
    // The next reader of the same bytes, of which only the offset is taken: its own bytes come out of an answer, whose parts were just stored.
    #[inline(always)]
    pub(crate) fn go_on(self, next: Reader<'a>) -> Reader<'a>
        requires { next.bytes.now ≡ self.bytes.now }
        ensures { record { bytes : result.bytes.now ≡ next.entry.bytes.now; at : result.at ≡ next.entry.at } }
    {
        Reader {
            bytes: self.bytes,
            at: next.at,
        }
    }

    // The offending item begins here.
    #[inline(always)]
    fn refusal(self, fault: Fault) -> InputRefusal
        ensures { result ≡ (record { fault = fault; offset = self.entry.at }) }
    {
        InputRefusal {
            fault,
            offset: self.at,
        }
    }

    // The item that was read here, where it is good.
    #[inline(always)]
    fn refuse_unless(
        self,
        value: u32,
        good: bool,
        fault: Fault,
        next: Reader<'a>,
    ) -> Result<(u32, Self), InputRefusal>
        ensures { result ≡ refuse_unless self.entry value good fault next.entry }
    {
        if good {
            return Ok((value, next));
        }
        Err(self.refusal(fault))
    }

    // A number, most often of one byte.
    #[inline(always)]
    pub(crate) fn wide(self, most: u64) -> Result<(u64, Self), InputRefusal>
        ensures read { Gives self.entry (read_wide most) result }
        ensures bound { IfOk result (λ x. x.0 ≤ most) }
    {
        let at = self.at;
        if at < self.bytes.len() {
            let b = self.bytes[at] as u64;
            if b < 128 {
                if b <= most {
                    let next = Reader {
                        bytes: self.bytes,
                        at: at + 1,
                    };
                    return Ok((b, next));
                }
            }
        }
        self.wide_long(most)
    }

    // A number of any length.
    fn wide_long(self, most: u64) -> Result<(u64, Self), InputRefusal>
        ensures read { Gives self.entry (read_wide most) result }
        ensures bound { IfOk result (λ x. x.0 ≤ most) }
    {
        let offset = self.at;
        let Some(end) = last_byte(self.bytes, offset) else {
            return Err(self.refusal(Fault::CutShort));
        };
        if !is_shortest(self.bytes, offset, end) {
            return Err(self.refusal(Fault::Number));
        }
        let Some(value) = decode(self.bytes, end + 1, end + 1 - offset, most) else {
            return Err(self.refusal(Fault::Number));
        };
        let next = Reader {
            bytes: self.bytes,
            at: end + 1,
        };
        Ok((value, next))
    }

    #[inline(always)]
    pub(crate) fn number(self) -> Result<(u32, Self), InputRefusal>
        ensures { Gives self.entry read_number result }
    {
        let (n, next) = self.wide(u32::MAX as u64)?;
        Ok((n as u32, next))
    }

    // A code, mark or flags.
    #[inline(always)]
    pub(crate) fn code(self, most: u32) -> Result<(u32, Self), InputRefusal>
        ensures { Gives self.entry (read_code most) result }
    {
        let (n, next) = self.number()?;
        self.refuse_unless(n, n <= most, Fault::Code, next)
    }

    #[inline(always)]
    pub(crate) fn version(self) -> Result<(u32, Self), InputRefusal>
        ensures { Gives self.entry read_version result }
    {
        let (n, next) = self.number()?;
        self.refuse_unless(n, n == 1, Fault::Version, next)
    }

    // An index below `count`.
    #[inline(always)]
    pub(crate) fn index(self, count: u64) -> Result<(u32, Self), InputRefusal>
        ensures { Gives self.entry (read_index count) result }
    {
        let (n, next) = self.number()?;
        self.refuse_unless(n, (n as u64) < count, Fault::TypeIndex, next)
    }

    // A number that completes a sum whose other part is `other`.
    #[inline(always)]
    pub(crate) fn sum(self, other: u32) -> Result<(u32, Self), InputRefusal>
        ensures { Gives self.entry (read_sum other) result }
    {
        let (n, next) = self.number()?;
        self.refuse_unless(n, other.checked_add(n).is_some(), Fault::Sum, next)
    }

    // A length in bytes whose bits are counted in 32 bits.
    #[inline(always)]
    pub(crate) fn length(self) -> Result<(u32, Self), InputRefusal>
        ensures { Gives self.entry read_bytes result }
    {
        let (n, next) = self.number()?;
        self.refuse_unless(n, n.checked_mul(8).is_some(), Fault::Sum, next)
    }

    #[inline(always)]
    pub(crate) fn mark(self) -> Result<(bool, Self), InputRefusal>
        ensures { Gives self.entry read_mark result }
    {
        let (n, next) = self.code(1)?;
        Ok((n == 1, next))
    }

    #[inline(always)]
    pub(crate) fn text(self) -> Result<(Text, Self), InputRefusal>
        ensures { Gives self.entry read_text result }
    {
        let (n, after) = self.number()?;
        let len = n as usize;
        let start = after.at;
        if len <= self.bytes.len() - start {
            let next = Reader {
                bytes: self.bytes,
                at: start + len,
            };
            return Ok((Text { start, len }, next));
        }
        Err(self.refusal(Fault::CutShort))
    }

    // A lookup's name, which is above the one before it.
    #[inline(always)]
    pub(crate) fn name(self, before: Option<Text>) -> Result<(Text, Self), InputRefusal>
        ensures { Gives self.entry (read_name before) result }
    {
        let (name, next) = self.text()?;
        let Some(earlier) = before else {
            return Ok((name, next));
        };
        if text_precedes(self.bytes, earlier, name) {
            return Ok((name, next));
        }
        Err(self.refusal(Fault::NameOrder))
    }

    // A float, by its 64-bit pattern.
    #[inline(always)]
    pub(crate) fn float(self) -> Result<(u64, Self), InputRefusal>
        ensures { Gives self.entry read_float result }
    {
        let offset = self.at;
        let Some(bytes) = self.bytes[offset..].first_chunk::<8>() else {
            return Err(self.refusal(Fault::CutShort));
        };
        let next = Reader {
            bytes: self.bytes,
            at: offset + 8,
        };
        Ok((u64::from_le_bytes(*bytes), next))
    }

    // A mark, 0 or 1, then the item if 1.
    #[inline(always)]
    pub(crate) fn optional<I: Item>(self, item: I) -> Result<(Option<I::Value>, Self), InputRefusal>
        ensures { Gives self.entry (optional (I.form item)) result }
    {
        let (there, next) = self.mark()?;
        if there {
            let (value, next) = item.read(next)?;
            return Ok((Some(value), next));
        }
        Ok((None, next))
    }

    // The end of the pack.
    pub(crate) fn finish(self) -> Result<(), InputRefusal>
        ensures { Ends self.entry result }
    {
        if self.at < self.bytes.len() {
            return Err(self.refusal(Fault::BytesLeft));
        }
        Ok(())
    }
}

// What may be left out: how it is read where it is there, by a reader and by a cursor. Each item of the format that may be has an impl, as it
// has a method above.
pub(crate) trait Item: Drop {
    type Value;

    ghost form: { Self → Form Self.Value };

    fn read<'a>(self, reader: Reader<'a>) -> Result<(Self::Value, Reader<'a>), InputRefusal>
        ensures { Gives reader.entry (form self) result };

    fn read_at(self, cursor: Cursor, s: &[u8]) -> cursor::Item<Self::Value>
        ensures { result ≡ form self s.now cursor };
}

#[derive(Drop)]
pub(crate) struct Number;

impl Item for Number {
    type Value = u32;

    ghost form = { λ _. read_number };

    fn read<'a>(self, reader: Reader<'a>) -> Result<(u32, Reader<'a>), InputRefusal> {
        reader.number()
    }

    fn read_at(self, cursor: Cursor, s: &[u8]) -> cursor::Item<u32> {
        cursor.number(s)
    }
}

// A number that completes a sum, whose other part this is.
#[derive(Drop)]
pub(crate) struct Sum(pub u32);

impl Item for Sum {
    type Value = u32;

    ghost form = { λ it. read_sum it.0 };

    fn read<'a>(self, reader: Reader<'a>) -> Result<(u32, Reader<'a>), InputRefusal> {
        reader.sum(self.0)
    }

    fn read_at(self, cursor: Cursor, s: &[u8]) -> cursor::Item<u32> {
        cursor.sum(s, self.0)
    }
}

#[derive(Drop)]
pub(crate) struct Length;

impl Item for Length {
    type Value = u32;

    ghost form = { λ _. read_bytes };

    fn read<'a>(self, reader: Reader<'a>) -> Result<(u32, Reader<'a>), InputRefusal> {
        reader.length()
    }

    fn read_at(self, cursor: Cursor, s: &[u8]) -> cursor::Item<u32> {
        cursor.bytes(s)
    }
}

#[derive(Drop)]
pub(crate) struct Words;

impl Item for Words {
    type Value = Text;

    ghost form = { λ _. read_text };

    fn read<'a>(self, reader: Reader<'a>) -> Result<(Text, Reader<'a>), InputRefusal> {
        reader.text()
    }

    fn read_at(self, cursor: Cursor, s: &[u8]) -> cursor::Item<Text> {
        cursor.text(s)
    }
}

#[derive(Drop)]
pub(crate) struct Float;

impl Item for Float {
    type Value = u64;

    ghost form = { λ _. read_float };

    fn read<'a>(self, reader: Reader<'a>) -> Result<(u64, Reader<'a>), InputRefusal> {
        reader.float()
    }

    fn read_at(self, cursor: Cursor, s: &[u8]) -> cursor::Item<u64> {
        cursor.float(s)
    }
}
