// A PGN and its sets, read item by item in 01's order, up to its fields.
ghost use Rattle.std.specs.Prelude.{◌≡◌, ◌<◌, get_or};
ghost use Rattle.std.specs.Prelude.{None};
ghost use Rattle.pack.specs.Reads.{Gives};
ghost use Rattle.pack.specs.Records.{order_of, pgn_flags_of, read_repeating, read_pgn};

use crate::cursor::{self, Cursor};
use crate::items::{Item, Length, Number};
use crate::kinds::MessageType;
use crate::protocol::FieldOrder;
use crate::reader::{InputRefusal, Reader};
use crate::text::Text;

#[derive(Clone, Copy)]
pub struct RepeatingView {
    pub count: u32,
    pub start: FieldOrder,
    pub counter: Option<FieldOrder>,
    pub nested: bool,
}

#[derive(Clone, Copy)]
pub struct PgnFlags {
    pub fallback: bool,
    pub variable: bool,
    pub incomplete: bool,
}

// A PGN without its fields, which follow it. Room for four sets, of which the first `places` are the PGN's; in version 1 two. A count
// beside an array, since a view holds no reference and the libraries no heap.
#[derive(Clone, Copy)]
pub struct PgnView {
    pub pgn: u32,
    pub id: Text,
    pub kind: MessageType,
    pub flags: PgnFlags,
    pub length: u32,
    pub minimum: Option<u32>,
    pub sets: [Option<RepeatingView>; 4],
    pub places: u32,
    pub fields: u32,
}

// The set at place k.
pub fn set_at(g: PgnView, k: u32) -> Option<RepeatingView>
    requires { k < 4 }
    ensures { result ≡ get_or g.sets k None }
{
    g.sets[k as usize]
}

fn order_of(number: Option<u32>) -> Option<FieldOrder>
    ensures { result ≡ order_of number }
{
    number.map(FieldOrder)
}

fn pgn_flags(n: u32) -> PgnFlags
    ensures { result ≡ pgn_flags_of n }
{
    PgnFlags {
        fallback: n % 2 == 1,
        variable: n / 2 % 2 == 1,
        incomplete: n / 4 % 2 == 1,
    }
}

impl<'a> Reader<'a> {
    fn repeating(self) -> Result<(RepeatingView, Self), InputRefusal>
        ensures { Gives self.entry read_repeating result }
    {
        let (count, next) = self.number()?;
        let (start, next) = next.sum(count)?;
        let (counter, next) = next.optional(Number)?;
        let (nested, next) = next.mark()?;
        let view = RepeatingView {
            count,
            start: FieldOrder(start),
            counter: order_of(counter),
            nested,
        };
        Ok((view, next))
    }

    // A PGN up to its fields.
    #[inline(always)]
    pub(crate) fn pgn(self) -> Result<(PgnView, Self), InputRefusal>
        ensures { Gives self.entry read_pgn result }
    {
        let (pgn, next) = self.number()?;
        let (id, next) = next.text()?;
        let (kind, next) = next.code(3)?;
        let kind = MessageType::of(kind);
        let (flags, next) = next.code(7)?;
        let (length, next) = next.number()?;
        let (minimum, next) = next.optional(Length)?;
        let (first, next) = next.optional(Repeating)?;
        let (second, next) = next.optional(Repeating)?;
        let (fields, next) = next.number()?;
        let view = PgnView {
            pgn,
            id,
            kind,
            flags: pgn_flags(flags),
            length,
            minimum,
            sets: [first, second, None, None],
            places: 2,
            fields,
        };
        Ok((view, next))
    }
}

impl Cursor {
    fn repeating(self, s: &[u8]) -> cursor::Item<RepeatingView>
        ensures { result ≡ read_repeating s.now self }
    {
        let count = self.number(s);
        let start = count.next.sum(s, count.value);
        let counter = start.next.opt_number(s);
        let nested = counter.next.mark(s);
        cursor::Item {
            value: RepeatingView {
                count: count.value,
                start: FieldOrder(start.value),
                counter: order_of(counter.value),
                nested: nested.value,
            },
            next: nested.next,
        }
    }

    // A PGN up to its fields.
    pub fn pgn(self, s: &[u8]) -> cursor::Item<PgnView>
        ensures { result ≡ read_pgn s.now self }
    {
        let pgn = self.number(s);
        let id = pgn.next.text(s);
        let kind = id.next.code(s, 3);
        let flags = kind.next.code(s, 7);
        let length = flags.next.number(s);
        let minimum = length.next.opt_bytes(s);
        let first = minimum.next.optional(s, Repeating);
        let second = first.next.optional(s, Repeating);
        let fields = second.next.number(s);
        cursor::Item {
            value: PgnView {
                pgn: pgn.value,
                id: id.value,
                kind: MessageType::of(kind.value),
                flags: pgn_flags(flags.value),
                length: length.value,
                minimum: minimum.value,
                sets: [first.value, second.value, None, None],
                places: 2,
                fields: fields.value,
            },
            next: fields.next,
        }
    }
}

#[derive(Drop)]
struct Repeating;

impl Item for Repeating {
    type Value = RepeatingView;

    ghost form = { λ _. read_repeating };

    fn read<'a>(self, reader: Reader<'a>) -> Result<(RepeatingView, Reader<'a>), InputRefusal> {
        reader.repeating()
    }

    fn read_at(self, cursor: Cursor, s: &[u8]) -> cursor::Item<RepeatingView> {
        cursor.repeating(s)
    }
}
