// A field, read item by item in 01's order.
ghost use Rattle.std.specs.Prelude.{◌≡◌, ◌+◌, ◌≤◌};
ghost use Rattle.pack.specs.Reads.{Gives};
ghost use Rattle.pack.specs.Records.{read_names, field_flags_of, read_scaling, read_authored, read_reference, read_links, read_field};

use crate::cursor::{self, Cursor};
use crate::items::{Float, Item, Number, Sum, Words};
use crate::kinds::LookupKind;
use crate::reader::{InputRefusal, Reader};
use crate::text::Text;

// What a field is called.
#[derive(Clone, Copy)]
pub struct NamesView {
    pub id: Text,
    pub name: Text,
    pub kind: Text,
}

#[derive(Clone, Copy)]
pub struct FieldFlags {
    pub bits: bool,
    pub unit: bool,
    pub proprietary: bool,
    pub mismatch: bool,
    pub dynamic: bool,
    pub overhead: bool,
}

// How a field is scaled.
#[derive(Clone, Copy)]
pub struct ScalingView {
    pub bits: u32,
    pub resolution: u64,
    pub offset: u64,
    pub unit: Option<Text>,
}

// What the author wrote.
#[derive(Clone, Copy)]
pub struct AuthoredView {
    pub resolution: Option<u64>,
    pub offset: Option<u64>,
    pub spn: Option<u32>,
    pub continues: Option<Text>,
    pub matched: Option<Text>,
}

#[derive(Clone, Copy)]
pub struct ReferenceView {
    pub kind: LookupKind,
    pub name: Text,
}

// What a field refers to.
#[derive(Clone, Copy)]
pub struct LinksView {
    pub reference: Option<ReferenceView>,
    pub special: Option<u32>,
    pub length: Option<Text>,
    pub trailing: Option<Text>,
    pub continuation: Option<u32>,
}

#[derive(Clone, Copy)]
pub struct FieldView {
    pub names: NamesView,
    pub ft: u32,
    pub flags: FieldFlags,
    pub scaling: ScalingView,
    pub authored: AuthoredView,
    pub links: LinksView,
}

fn field_flags(n: u32) -> FieldFlags
    ensures { result ≡ field_flags_of n }
{
    FieldFlags {
        bits: n % 2 == 1,
        unit: n / 2 % 2 == 1,
        proprietary: n / 4 % 2 == 1,
        mismatch: n / 8 % 2 == 1,
        dynamic: n / 16 % 2 == 1,
        overhead: n / 32 % 2 == 1,
    }
}

impl<'a> Reader<'a> {
    fn names(self) -> Result<(NamesView, Self), InputRefusal>
        ensures { Gives self.entry read_names result }
    {
        let (id, next) = self.text()?;
        let (name, next) = next.text()?;
        let (kind, next) = next.text()?;
        let view = NamesView { id, name, kind };
        Ok((view, next))
    }

    // The scaling of a field, in a PGN whose fields before it have `total` bits.
    fn scaling(self, total: u32) -> Result<(ScalingView, Self), InputRefusal>
        ensures { Gives self.entry (read_scaling total) result }
    {
        let (bits, next) = self.sum(total)?;
        let (resolution, next) = next.float()?;
        let (offset, next) = next.float()?;
        let (unit, next) = next.optional(Words)?;
        let view = ScalingView {
            bits,
            resolution,
            offset,
            unit,
        };
        Ok((view, next))
    }

    fn authored(self) -> Result<(AuthoredView, Self), InputRefusal>
        ensures { Gives self.entry read_authored result }
    {
        let (resolution, next) = self.optional(Float)?;
        let (offset, next) = next.optional(Float)?;
        let (spn, next) = next.optional(Number)?;
        let (continues, next) = next.optional(Words)?;
        let (matched, next) = next.optional(Words)?;
        let view = AuthoredView {
            resolution,
            offset,
            spn,
            continues,
            matched,
        };
        Ok((view, next))
    }

    fn reference(self) -> Result<(ReferenceView, Self), InputRefusal>
        ensures { Gives self.entry read_reference result }
    {
        let (kind, next) = self.code(3)?;
        let (name, next) = next.text()?;
        let view = ReferenceView {
            kind: LookupKind::of(kind),
            name,
        };
        Ok((view, next))
    }

    // What a field of `bits` bits refers to.
    fn links(self, bits: u32) -> Result<(LinksView, Self), InputRefusal>
        ensures { Gives self.entry (read_links bits) result }
    {
        let (reference, next) = self.optional(Reference)?;
        let (special, next) = next.optional(Number)?;
        let (length, next) = next.optional(Words)?;
        let (trailing, next) = next.optional(Words)?;
        let (continuation, next) = next.optional(Sum(bits))?;
        let view = LinksView {
            reference,
            special,
            length,
            trailing,
            continuation,
        };
        Ok((view, next))
    }

    // A field, in a pack of `types` field types and a PGN whose fields before it have `total` bits.
    pub(crate) fn field(self, types: u64, total: u32) -> Result<(FieldView, Self), InputRefusal>
        ensures { Gives self.entry (read_field types total) result }
    {
        let (names, next) = self.names()?;
        let (ft, next) = next.index(types)?;
        let (flags, next) = next.code(63)?;
        let (scaling, next) = next.scaling(total)?;
        let (authored, next) = next.authored()?;
        let (links, next) = next.links(scaling.bits)?;
        let view = FieldView {
            names,
            ft,
            flags: field_flags(flags),
            scaling,
            authored,
            links,
        };
        Ok((view, next))
    }
}

impl Cursor {
    fn names(self, s: &[u8]) -> cursor::Item<NamesView>
        ensures { result ≡ read_names s.now self }
    {
        let id = self.text(s);
        let name = id.next.text(s);
        let kind = name.next.text(s);
        cursor::Item {
            value: NamesView {
                id: id.value,
                name: name.value,
                kind: kind.value,
            },
            next: kind.next,
        }
    }

    // The scaling of a field, in a PGN whose fields before it have `total` bits.
    fn scaling(self, s: &[u8], total: u32) -> cursor::Item<ScalingView>
        ensures { record {
          is : result ≡ read_scaling total s.now self;
          bound : total + result.value.bits ≤ 4294967295;
        } }
    {
        let bits = self.sum(s, total);
        let resolution = bits.next.float(s);
        let offset = resolution.next.float(s);
        let unit = offset.next.opt_text(s);
        cursor::Item {
            value: ScalingView {
                bits: bits.value,
                resolution: resolution.value,
                offset: offset.value,
                unit: unit.value,
            },
            next: unit.next,
        }
    }

    fn authored(self, s: &[u8]) -> cursor::Item<AuthoredView>
        ensures { result ≡ read_authored s.now self }
    {
        let resolution = self.opt_float(s);
        let offset = resolution.next.opt_float(s);
        let spn = offset.next.opt_number(s);
        let continues = spn.next.opt_text(s);
        let matched = continues.next.opt_text(s);
        cursor::Item {
            value: AuthoredView {
                resolution: resolution.value,
                offset: offset.value,
                spn: spn.value,
                continues: continues.value,
                matched: matched.value,
            },
            next: matched.next,
        }
    }

    fn reference(self, s: &[u8]) -> cursor::Item<ReferenceView>
        ensures { result ≡ read_reference s.now self }
    {
        let kind = self.code(s, 3);
        let name = kind.next.text(s);
        cursor::Item {
            value: ReferenceView {
                kind: LookupKind::of(kind.value),
                name: name.value,
            },
            next: name.next,
        }
    }

    // What a field of `bits` bits refers to.
    fn links(self, s: &[u8], bits: u32) -> cursor::Item<LinksView>
        ensures { result ≡ read_links bits s.now self }
    {
        let reference = self.optional(s, Reference);
        let special = reference.next.opt_number(s);
        let length = special.next.opt_text(s);
        let trailing = length.next.opt_text(s);
        let continuation = trailing.next.opt_sum(s, bits);
        cursor::Item {
            value: LinksView {
                reference: reference.value,
                special: special.value,
                length: length.value,
                trailing: trailing.value,
                continuation: continuation.value,
            },
            next: continuation.next,
        }
    }

    // A field, in a pack of `types` field types and a PGN whose fields before it have `total` bits.
    pub fn field(self, s: &[u8], types: u64, total: u32) -> cursor::Item<FieldView>
        ensures { record {
          is : result ≡ read_field types total s.now self;
          bound : total + result.value.scaling.bits ≤ 4294967295;
        } }
    {
        let names = self.names(s);
        let ft = names.next.index(s, types);
        let flags = ft.next.code(s, 63);
        let scaling = flags.next.scaling(s, total);
        let authored = scaling.next.authored(s);
        let links = authored.next.links(s, scaling.value.bits);
        cursor::Item {
            value: FieldView {
                names: names.value,
                ft: ft.value,
                flags: field_flags(flags.value),
                scaling: scaling.value,
                authored: authored.value,
                links: links.value,
            },
            next: links.next,
        }
    }
}

#[derive(Drop)]
struct Reference;

impl Item for Reference {
    type Value = ReferenceView;

    ghost form = { λ _. read_reference };

    fn read<'a>(self, reader: Reader<'a>) -> Result<(ReferenceView, Reader<'a>), InputRefusal> {
        reader.reference()
    }

    fn read_at(self, cursor: Cursor, s: &[u8]) -> cursor::Item<ReferenceView> {
        cursor.reference(s)
    }
}
