// An entry of a lookup, read item by item in 01's order.
ghost use Rattle.std.specs.Prelude.{◌≡◌};
ghost use Rattle.pack.specs.Reads.{Gives};
ghost use Rattle.pack.specs.Kinds.{entries_of};
ghost use Rattle.pack.specs.Records.{read_first, read_kind_part, read_entry};

use crate::cursor::{Cursor, Item, NO_TEXT};
use crate::items::Words;
use crate::kinds::LookupKind;
use crate::reader::{InputRefusal, Reader};
use crate::text::Text;

// An entry of a lookup; what its kind does not have is 0 or empty.
#[derive(Clone, Copy)]
pub struct EntryView {
    pub first: u64,
    pub value: u64,
    pub name: Text,
    pub fieldtype: Text,
    pub nested: Option<Text>,
}

// What a fieldtype entry has besides value and name.
#[derive(Clone, Copy)]
pub struct KindPart {
    pub fieldtype: Text,
    pub nested: Option<Text>,
}

impl<'a> Reader<'a> {
    // A triplet's first value, which stands before its second.
    #[inline(always)]
    fn first(self, kind: LookupKind) -> Result<(u64, Self), InputRefusal>
        ensures { Gives self.entry (read_first kind) result }
    {
        match kind {
            LookupKind::Triplet => self.wide(u64::MAX),
            _ => Ok((0, self)),
        }
    }

    #[inline(always)]
    fn kind_part(self, kind: LookupKind) -> Result<(KindPart, Self), InputRefusal>
        ensures { Gives self.entry (read_kind_part kind) result }
    {
        match kind {
            LookupKind::Fieldtype => {
                let (fieldtype, next) = self.text()?;
                let (nested, next) = next.optional(Words)?;
                Ok((KindPart { fieldtype, nested }, next))
            }
            _ => {
                let none = KindPart {
                    fieldtype: Text { start: 0, len: 0 },
                    nested: None,
                };
                Ok((none, self))
            }
        }
    }

    // An entry of a lookup of that kind.
    #[inline(always)]
    pub(crate) fn entry(self, kind: LookupKind) -> Result<(EntryView, Self), InputRefusal>
        ensures { Gives self.entry (read_entry kind) result }
    {
        let (first, next) = self.first(kind)?;
        let (value, next) = next.wide(u64::MAX)?;
        let (name, next) = next.text()?;
        let (rest, next) = next.kind_part(kind)?;
        let view = EntryView {
            first,
            value,
            name,
            fieldtype: rest.fieldtype,
            nested: rest.nested,
        };
        Ok((view, next))
    }
}

impl Cursor {
    // A triplet's first value, which stands before its second.
    fn first(self, s: &[u8], kind: LookupKind) -> Item<u64>
        ensures { result ≡ read_first kind s.now self }
    {
        match kind {
            LookupKind::Triplet => self.wide(s, u64::MAX),
            _ => Item {
                value: 0,
                next: self,
            },
        }
    }

    fn kind_part(self, s: &[u8], kind: LookupKind) -> Item<KindPart>
        ensures { result ≡ read_kind_part kind s.now self }
    {
        match kind {
            LookupKind::Fieldtype => {
                let fieldtype = self.text(s);
                let nested = fieldtype.next.opt_text(s);
                Item {
                    value: KindPart {
                        fieldtype: fieldtype.value,
                        nested: nested.value,
                    },
                    next: nested.next,
                }
            }
            _ => Item {
                value: KindPart {
                    fieldtype: NO_TEXT,
                    nested: None,
                },
                next: self,
            },
        }
    }

    // An entry of a lookup whose kind has that number. Any number goes: what no kind has is read as a pair.
    pub fn entry(self, s: &[u8], kind: u32) -> Item<EntryView>
        ensures { result ≡ read_entry (entries_of kind) s.now self }
    {
        self.entry_of(s, LookupKind::of_entries(kind))
    }

    fn entry_of(self, s: &[u8], kind: LookupKind) -> Item<EntryView>
        ensures { result ≡ read_entry kind s.now self }
    {
        let first = self.first(s, kind);
        let value = first.next.wide(s, u64::MAX);
        let name = value.next.text(s);
        let rest = name.next.kind_part(s, kind);
        Item {
            value: EntryView {
                first: first.value,
                value: value.value,
                name: name.value,
                fieldtype: rest.value.fieldtype,
                nested: rest.value.nested,
            },
            next: rest.next,
        }
    }
}
