// A field type, read item by item in 01's order. A view holds numbers, float patterns, and texts as parts of the pack.
ghost use Rattle.std.specs.Prelude.{◌≡◌};
ghost use Rattle.pack.specs.Reads.{Gives};
ghost use Rattle.pack.specs.Records.{read_type};

use crate::cursor::{Cursor, Item};
use crate::reader::{InputRefusal, Reader};
use crate::text::Text;

#[derive(Clone, Copy)]
pub struct FieldTypeView {
    pub name: Text,
    pub base: bool,
    pub print: bool,
    pub signed: bool,
    pub size: u32,
    pub resolution: u64,
    pub root: Text,
}

impl<'a> Reader<'a> {
    #[inline(always)]
    pub(crate) fn field_type(self) -> Result<(FieldTypeView, Self), InputRefusal>
        ensures { Gives self.entry read_type result }
    {
        let (name, next) = self.text()?;
        let (flags, next) = next.code(7)?;
        let (size, next) = next.number()?;
        let (resolution, next) = next.float()?;
        let (root, next) = next.text()?;
        let view = FieldTypeView {
            name,
            base: flags % 2 == 1,
            print: flags / 2 % 2 == 1,
            signed: flags / 4 % 2 == 1,
            size,
            resolution,
            root,
        };
        Ok((view, next))
    }
}

impl Cursor {
    pub fn field_type(self, s: &[u8]) -> Item<FieldTypeView>
        ensures { result ≡ read_type s.now self }
    {
        let name = self.text(s);
        let flags = name.next.code(s, 7);
        let size = flags.next.number(s);
        let resolution = size.next.float(s);
        let root = resolution.next.text(s);
        Item {
            value: FieldTypeView {
                name: name.value,
                base: flags.value % 2 == 1,
                print: flags.value / 2 % 2 == 1,
                signed: flags.value / 4 % 2 == 1,
                size: size.value,
                resolution: resolution.value,
                root: root.value,
            },
            next: root.next,
        }
    }
}
