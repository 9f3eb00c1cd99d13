// A lookup, read item by item in 01's order, up to its entries.
ghost use Rattle.std.specs.Prelude.{◌≡◌};
ghost use Rattle.pack.specs.Reads.{Gives};
ghost use Rattle.pack.specs.Records.{read_lookup};

use crate::cursor::{Cursor, Item};
use crate::kinds::LookupKind;
use crate::reader::{InputRefusal, Reader};
use crate::text::Text;

// A lookup without its entries, which follow it.
#[derive(Clone, Copy)]
pub struct LookupView {
    pub name: Text,
    pub kind: LookupKind,
    pub bits: u32,
    pub entries: u32,
}

impl<'a> Reader<'a> {
    // A lookup up to its entries, its name above the one before it.
    #[inline(always)]
    pub(crate) fn lookup(self, before: Option<Text>) -> Result<(LookupView, Self), InputRefusal>
        ensures { Gives self.entry (read_lookup before) result }
    {
        let (name, next) = self.name(before)?;
        let (kind, next) = next.code(3)?;
        let (bits, next) = next.number()?;
        let (entries, next) = next.number()?;
        let view = LookupView {
            name,
            kind: LookupKind::of(kind),
            bits,
            entries,
        };
        Ok((view, next))
    }
}

impl Cursor {
    // A lookup up to its entries, its name above the one before it.
    pub fn lookup(self, s: &[u8], before: Option<Text>) -> Item<LookupView>
        ensures { result ≡ read_lookup before s.now self }
    {
        let name = self.name(s, before);
        let kind = name.next.code(s, 3);
        let bits = kind.next.number(s);
        let entries = bits.next.number(s);
        Item {
            value: LookupView {
                name: name.value,
                kind: LookupKind::of(kind.value),
                bits: bits.value,
                entries: entries.value,
            },
            next: entries.next,
        }
    }
}
