// For the layers above: the records by their work positions, said of the pack's value. A caller proves that a position is the record's own, where
// `loaded` has types that carry that. Where in the pack a view's texts stand is left free: only what a view means is promised.
ghost use Rattle.std.specs.Prelude.{◌≡◌, ◌+◌, ◌≤◌, ◌<◌, length, get_or};
ghost use Rattle.pack.specs.Items.{bytes_of, fresh, read_text};
ghost use Rattle.pack.specs.Kinds.{kind_number};
ghost use Rattle.pack.specs.Meaning.{type_meaning, entry_meaning, field_meaning, pack_of};
ghost use Rattle.pack.specs.Reads.{outcome};
ghost use Rattle.pack.specs.Ready.{Ready, LookupAt, PgnAt, LookupIs, PgnIs, Stands};
ghost use Rattle.pack.specs.Records.{read_entry, read_field, read_second_text, read_type};
ghost use Rattle.pack.specs.Value.{no_field_type, no_entry, pgn_at, field_at, lookup_at};

use crate::entry::EntryView;
use crate::field::FieldView;
use crate::field_type::FieldTypeView;
use crate::kinds::LookupKind;
use crate::lookup::LookupView;
use crate::pgn::PgnView;
use crate::reader::{InputRefusal, Reader};
use crate::text::Text;

// The text behind the one that a record begins with: a field's name.
fn second_text(reader: Reader) -> Result<Text, InputRefusal>
    ensures { result ≡ outcome (read_second_text reader.entry.bytes.now (fresh reader.entry.at)) }
{
    let (_, next) = reader.text()?;
    let (text, _) = next.text()?;
    Ok(text)
}

// A reader at the record of the offset that the work list has at p.
#[inline(always)]
fn reader<'a>(s: &'a [u8], work: &[u32], p: usize) -> Reader<'a>
    requires { record { place : p < length work.now; inside : get_or work.now p 0 ≤ length s.now } }
    ensures { record { bytes : result.bytes.now ≡ s.now; at : result.at ≡ get_or work.now p 0 } }
{
    Reader {
        bytes: s,
        at: work[p] as usize,
    }
}

// A reader at field type i.
#[inline(always)]
fn type_reader<'a>(s: &'a [u8], work: &[u32], i: u32) -> Reader<'a>
    requires { record { ready : Ready s.now work.now; type : i < length (pack_of s.now).fieldtypes } }
    ensures { record {
      bytes : result.bytes.now ≡ s.now;
      at : result.at ≡ get_or work.now i 0;
      stands : Stands s.now work.now i (λ c. (read_type s.now c).next);
    } }
{
    reader(s, work, i as usize)
}

// A reader at entry j of lookup i, at p, which is of that kind.
#[inline(always)]
fn entry_reader<'a>(
    s: &'a [u8],
    work: &[u32],
    i: u32,
    p: usize,
    kind: LookupKind,
    j: u32,
) -> Reader<'a>
    requires { record {
      at : LookupAt s.now work.now i p;
      kind : kind_number kind ≡ (lookup_at (pack_of s.now).lookups i).kind;
      entry : j < length (lookup_at (pack_of s.now).lookups i).entries;
    } }
    ensures { record {
      bytes : result.bytes.now ≡ s.now;
      at : result.at ≡ get_or work.now (p + 1 + j) 0;
      stands : Stands s.now work.now (p + 1 + j) (λ c. (read_entry kind s.now c).next);
    } }
{
    reader(s, work, p + 1 + j as usize)
}

// A reader at field j of PGN i of tree t, which is at p, for the whole of it, its id, or its name.
#[inline(always)]
fn field_reader<'a>(s: &'a [u8], work: &[u32], t: u32, i: u32, p: usize, j: u32) -> Reader<'a>
    requires { record { at : PgnAt s.now work.now t i p; field : j < length (pgn_at (pack_of s.now) t i).fields } }
    ensures { record {
      bytes : result.bytes.now ≡ s.now;
      at : result.at ≡ get_or work.now (p + 1 + j) 0;
      whole : Stands s.now work.now (p + 1 + j) (λ c. (read_field 4294967296 0 s.now c).next);
      id : Stands s.now work.now (p + 1 + j) (λ c. (read_text s.now c).next);
      name : Stands s.now work.now (p + 1 + j) (λ c. (read_second_text s.now c).next);
    } }
{
    reader(s, work, p + 1 + j as usize)
}

// Field type i.
#[inline(always)]
pub fn type_of(s: &[u8], work: &[u32], i: u32) -> FieldTypeView
    requires { record { ready : Ready s.now work.now; type : i < length (pack_of s.now).fieldtypes } }
    ensures { type_meaning s.now result ≡ get_or (pack_of s.now).fieldtypes i no_field_type }
{
    let Ok((field_type, _)) = type_reader(s, work, i).field_type() else {
        unreachable!()
    };
    field_type
}

// Lookup i, at p.
#[inline(always)]
pub fn lookup_of(s: &[u8], work: &[u32], i: u32, p: usize) -> LookupView
    requires { LookupAt s.now work.now i p }
    ensures { LookupIs s.now (lookup_at (pack_of s.now).lookups i) result }
{
    let Ok((lookup, _)) = reader(s, work, p).lookup(None) else {
        unreachable!()
    };
    lookup
}

// The name of lookup i, at p.
#[inline(always)]
pub fn lookup_name_of(s: &[u8], work: &[u32], i: u32, p: usize) -> Text
    requires { LookupAt s.now work.now i p }
    ensures { bytes_of s.now result ≡ (lookup_at (pack_of s.now).lookups i).name }
{
    let Ok((name, _)) = reader(s, work, p).text() else {
        unreachable!()
    };
    name
}

// Entry j of lookup i, at p, which is of that kind.
#[inline(always)]
pub fn entry_of(s: &[u8], work: &[u32], i: u32, p: usize, kind: LookupKind, j: u32) -> EntryView
    requires { record {
      at : LookupAt s.now work.now i p;
      kind : kind_number kind ≡ (lookup_at (pack_of s.now).lookups i).kind;
      entry : j < length (lookup_at (pack_of s.now).lookups i).entries;
    } }
    ensures { entry_meaning s.now result ≡ get_or (lookup_at (pack_of s.now).lookups i).entries j no_entry }
{
    let Ok((entry, _)) = entry_reader(s, work, i, p, kind, j).entry(kind) else {
        unreachable!()
    };
    entry
}

// PGN i of tree t, at p. Not inlined: it is read in many loops, and its answer has no parts to copy.
pub fn pgn_of(s: &[u8], work: &[u32], t: u32, i: u32, p: usize) -> PgnView
    requires { PgnAt s.now work.now t i p }
    ensures { PgnIs s.now (pgn_at (pack_of s.now) t i) result }
{
    let Ok((pgn, _)) = reader(s, work, p).pgn() else {
        unreachable!()
    };
    pgn
}

// Field j of PGN i of tree t, which is at p.
#[inline(always)]
pub fn field_of(s: &[u8], work: &[u32], t: u32, i: u32, p: usize, j: u32) -> FieldView
    requires { record { at : PgnAt s.now work.now t i p; field : j < length (pgn_at (pack_of s.now) t i).fields } }
    ensures { field_meaning s.now result ≡ field_at (pgn_at (pack_of s.now) t i) j }
{
    let Ok((field, _)) = field_reader(s, work, t, i, p, j).field(0x1_0000_0000, 0) else {
        unreachable!()
    };
    field
}

// The id of field j of PGN i of tree t, which is at p.
#[inline(always)]
pub fn field_id_of(s: &[u8], work: &[u32], t: u32, i: u32, p: usize, j: u32) -> Text
    requires { record { at : PgnAt s.now work.now t i p; field : j < length (pgn_at (pack_of s.now) t i).fields } }
    ensures { bytes_of s.now result ≡ (field_at (pgn_at (pack_of s.now) t i) j).id }
{
    let Ok((id, _)) = field_reader(s, work, t, i, p, j).text() else {
        unreachable!()
    };
    id
}

// Its name.
#[inline(always)]
pub fn field_name_of(s: &[u8], work: &[u32], t: u32, i: u32, p: usize, j: u32) -> Text
    requires { record { at : PgnAt s.now work.now t i p; field : j < length (pgn_at (pack_of s.now) t i).fields } }
    ensures { bytes_of s.now result ≡ (field_at (pgn_at (pack_of s.now) t i) j).name }
{
    let Ok(name) = second_text(field_reader(s, work, t, i, p, j)) else {
        unreachable!()
    };
    name
}
