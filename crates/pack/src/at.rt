// Readers at an offset, total: what stands there, read as a record of that kind.
ghost use Rattle.std.specs.Prelude.{◌≡◌, None};
ghost use Rattle.pack.specs.Items.{fresh, read_number, read_text};
ghost use Rattle.pack.specs.Kinds.{entries_of};
ghost use Rattle.pack.specs.Records.{read_type, read_entry, read_lookup, read_pgn, read_field};

use crate::cursor::fresh;
use crate::entry::EntryView;
use crate::field::FieldView;
use crate::field_type::FieldTypeView;
use crate::lookup::LookupView;
use crate::pgn::PgnView;
use crate::text::Text;

// The number that a record begins with: a PGN's.
pub fn number_at(s: &[u8], at: usize) -> u32
    ensures { result ≡ (read_number s.now (fresh at)).value }
{
    fresh(at).number(s).value
}

// The text that a record begins with: a field type's or lookup's name, a field's id.
pub fn text_at(s: &[u8], at: usize) -> Text
    ensures { result ≡ (read_text s.now (fresh at)).value }
{
    fresh(at).text(s).value
}

pub fn type_at(s: &[u8], at: usize) -> FieldTypeView
    ensures { result ≡ (read_type s.now (fresh at)).value }
{
    fresh(at).field_type(s).value
}

// A lookup without a name before it.
pub fn lookup_at(s: &[u8], at: usize) -> LookupView
    ensures { result ≡ (read_lookup None s.now (fresh at)).value }
{
    fresh(at).lookup(s, None).value
}

// An entry of a lookup whose kind has that number.
pub fn entry_at(s: &[u8], at: usize, kind: u32) -> EntryView
    ensures { result ≡ (read_entry (entries_of kind) s.now (fresh at)).value }
{
    fresh(at).entry(s, kind).value
}

pub fn pgn_at(s: &[u8], at: usize) -> PgnView
    ensures { result ≡ (read_pgn s.now (fresh at)).value }
{
    fresh(at).pgn(s).value
}

// A field with no limit on its field type index, and no fields before it.
pub fn field_at(s: &[u8], at: usize) -> FieldView
    ensures { result ≡ (read_field 4294967296 0 s.now (fresh at)).value }
{
    fresh(at).field(s, 0x1_0000_0000, 0).value
}
