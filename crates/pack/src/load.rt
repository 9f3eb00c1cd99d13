// `load`: every input refusal, then the offset of each record into the work buffer. One walk over the pack serves both: it judges, counts
// and places the offsets in a list on the stack, from which they are copied.
ghost use Rattle.std.specs.Prelude.{◌≡◌, ◌≤◌, ℕ, List, [], ◌∷◌, length};
ghost use Rattle.pack.specs.Items.{Cursor};
ghost use Rattle.pack.specs.Format.{type_next, entry_next, lookups, lookup_offsets, fields, field_offsets, pgn_next, pgn_records};
ghost use Rattle.pack.specs.Load.{refusal_number, refusal_detail, most_bytes, Loads};
ghost use Rattle.pack.specs.Placing.{Put, PlacesRecords, Stays, alone, PlacesList, PlacesLookup, PlacesTree, PlacesAll};
ghost use Rattle.pack.specs.declared.load.Refusal.TheVariants.{Input};

use crate::buffers::copy;
use crate::kinds::LookupKind;
use crate::reader::Reader;
pub use crate::reader::{Fault, InputRefusal};
use crate::text::Text;

const MOST_BYTES: usize = 1_048_576;
// Up to so many bytes 512 offsets are held on the stack, else 4,096.
const SHORT_BYTES: usize = 8192;

// A list of records: how many, and the work position at which it begins.
#[derive(Clone, Copy)]
pub struct Section {
    pub count: u32,
    pub place: usize,
}

#[derive(Clone, Copy)]
pub struct Index {
    pub types: Section,
    pub lookups: Section,
    pub nmea2000: Section,
    pub j1939: Section,
    pub quick: Section,
    pub records: usize,
}

// Every refusal of every call.
#[derive(Clone, Copy, PartialEq, Eq, Debug)]
pub enum Refusal {
    // 1 to 8
    Input(InputRefusal),
    // 9
    TooLong,
    // 21
    Work(usize),
    // 22
    Findings(usize),
    // 23
    Absent,
    // 24
    Place(usize),
    // 25
    Visits(usize),
}

// "A refusal gives its number and a detail."
impl Refusal {
    pub fn number(self) -> u32
        ensures { result ≡ refusal_number self }
    {
        match self {
            Refusal::Input(input) => input.fault as u32,
            Refusal::TooLong => 9,
            Refusal::Work(_) => 21,
            Refusal::Findings(_) => 22,
            Refusal::Absent => 23,
            Refusal::Place(_) => 24,
            Refusal::Visits(_) => 25,
        }
    }

    pub fn detail(self) -> usize
        ensures { result ≡ refusal_detail self }
    {
        match self {
            Refusal::Input(input) => input.offset,
            Refusal::TooLong => 0,
            Refusal::Work(n) => n,
            Refusal::Findings(n) => n,
            Refusal::Absent => 0,
            Refusal::Place(n) => n,
            Refusal::Visits(n) => n,
        }
    }
}

impl From<InputRefusal> for Refusal {
    ghost from_gives = { λ input r. r ≡ Input input };

    fn from(input: InputRefusal) -> Refusal {
        Refusal::Input(input)
    }
}

// The offsets of the records placed so far: as many as the buffer has room for, and how many there are.
#[derive(Drop)]
pub(crate) struct Offsets<'a> {
    pub(crate) work: &'a mut [u32],
    pub(crate) count: usize,
}

impl<'a> Offsets<'a> {
    // Not by `get_mut`, which promises nothing of the rest of the buffer.
    #[tactic(auto, unfolding(crate::specs::Placing::put_one))]
    fn put(&mut self, at: usize)
        ensures { Put self.old (at ∷ []) self.new }
    {
        if self.count < self.work.len() {
            self.work[self.count] = (at % 4_294_967_296) as u32;
        }
        self.count = self.count.saturating_add(1);
    }
}

// A record that is placed with those within it, and without a look at the one before it.
trait Listed: Copy {
    // where it ends
    ghost end: { Self → List ℕ → Cursor → Cursor };

    // where it and those within it begin
    ghost starts: { Self → List ℕ → Cursor → List ℕ };

    fn place<'a>(self, reader: Reader<'a>, out: &mut Offsets) -> Result<Reader<'a>, InputRefusal>
        ensures { PlacesRecords (end self) (starts self) reader.entry out.old result out.new };
}

// n such records, one after the other.
fn place_list<'a, R: Listed>(
    reader: Reader<'a>,
    offsets: &mut Offsets,
    each: R,
    n: u32,
) -> Result<Reader<'a>, InputRefusal>
    requires { Stays (R.end each) }
    ensures { PlacesList (R.end each) (R.starts each) n reader.entry offsets.old result offsets.new }
{
    let mut next = reader;
    for _i in 0..n {
        next = each.place(next, offsets)?;
    }
    Ok(next)
}

#[derive(Clone, Copy)]
struct TypeRecord;

impl Listed for TypeRecord {
    ghost end = { λ _. type_next };

    ghost starts = { λ _. alone };

    fn place<'a>(self, reader: Reader<'a>, out: &mut Offsets) -> Result<Reader<'a>, InputRefusal> {
        out.put(reader.at);
        let (_, next) = reader.field_type()?;
        Ok(next)
    }
}

// An entry of a lookup of that kind.
#[derive(Clone, Copy)]
struct EntryRecord(LookupKind);

impl Listed for EntryRecord {
    ghost end = { λ it. entry_next it.0 };

    ghost starts = { λ _. alone };

    fn place<'a>(self, reader: Reader<'a>, out: &mut Offsets) -> Result<Reader<'a>, InputRefusal> {
        out.put(reader.at);
        let (_, next) = reader.entry(self.0)?;
        Ok(next)
    }
}

// A PGN and its fields, in a pack of that many field types.
#[derive(Clone, Copy)]
struct PgnRecord(u32);

impl Listed for PgnRecord {
    ghost end = { λ it. pgn_next it.0 };

    ghost starts = { λ it. pgn_records it.0 };

    fn place<'a>(self, reader: Reader<'a>, out: &mut Offsets) -> Result<Reader<'a>, InputRefusal> {
        out.put(reader.at);
        let (pgn, next) = reader.pgn()?;
        place_fields(next, out, self.0, pgn.fields)
    }
}

// A lookup whose name is above the one before it, and its entries; and its name.
fn place_lookup<'a>(
    reader: Reader<'a>,
    offsets: &mut Offsets,
    before: Option<Text>,
) -> Result<(Text, Reader<'a>), InputRefusal>
    ensures { PlacesLookup before reader.entry offsets.old result offsets.new }
{
    offsets.put(reader.at);
    let (lookup, next) = reader.lookup(before)?;
    let next = place_list(next, offsets, EntryRecord(lookup.kind), lookup.entries)?;
    Ok((lookup.name, next))
}

// Each lookup is told the name of the one before it, so that they are not `Listed`.
fn place_lookups<'a>(
    reader: Reader<'a>,
    offsets: &mut Offsets,
    n: u32,
) -> Result<Reader<'a>, InputRefusal>
    ensures { PlacesRecords (λ s c. (lookups s c n).next) (λ s c. lookup_offsets s c n) reader.entry offsets.old result offsets.new }
{
    let mut next = reader;
    let mut before = None;
    for _i in 0..n {
        let (name, after) = place_lookup(next, offsets, before)?;
        next = after;
        before = Some(name);
    }
    Ok(next)
}

// The fields of a PGN, in a pack of `types` field types. Each is told the bits of those before it, so that they are not `Listed`.
fn place_fields<'a>(
    reader: Reader<'a>,
    offsets: &mut Offsets,
    types: u32,
    n: u32,
) -> Result<Reader<'a>, InputRefusal>
    ensures { PlacesRecords (λ s c. (fields types s c n).next) (λ s c. field_offsets types s c n) reader.entry offsets.old result offsets.new }
{
    let mut next = reader;
    let mut total: u32 = 0;
    for _i in 0..n {
        offsets.put(next.at);
        let (field, after) = next.field(types as u64, total)?;
        next = reader.go_on(after);
        total += field.scaling.bits;
    }
    Ok(next)
}

// A tree: the count of its PGNs, and them.
fn place_tree<'a>(
    reader: Reader<'a>,
    offsets: &mut Offsets,
    types: u32,
) -> Result<(Section, Reader<'a>), InputRefusal>
    ensures { PlacesTree types reader.entry offsets.old result offsets.new }
{
    let place = offsets.count;
    let (count, next) = reader.number()?;
    let next = place_list(next, offsets, PgnRecord(types), count)?;
    Ok((Section { count, place }, next))
}

// The offsets of all records, from the beginning of a buffer on, as far as it has room; and the index.
fn place_all(pack: &[u8], work: &mut [u32]) -> Result<Index, InputRefusal>
    requires { length pack.now ≤ most_bytes }
    ensures { PlacesAll pack.now work.old result work.new }
{
    let reader = Reader { bytes: pack, at: 0 };
    let mut offsets = Offsets { work, count: 0 };
    let (_, next) = reader.version()?;
    let (types, next) = next.number()?;
    let next = place_list(next, &mut offsets, TypeRecord, types)?;
    let (lookups, next) = next.number()?;
    let lookups_at = offsets.count;
    let next = place_lookups(next, &mut offsets, lookups)?;
    let (nmea2000, next) = place_tree(next, &mut offsets, types)?;
    let (j1939, next) = place_tree(next, &mut offsets, types)?;
    let (quick, next) = place_tree(next, &mut offsets, types)?;
    next.finish()?;
    Ok(Index {
        types: Section {
            count: types,
            place: 0,
        },
        lookups: Section {
            count: lookups,
            place: lookups_at,
        },
        nmea2000,
        j1939,
        quick,
        records: offsets.count,
    })
}

// `load` by way of `short`, since after a refusal the work buffer has not changed: the offsets that `short` holds are copied, more are placed
// again.
fn load_by(pack: &[u8], work: &mut [u32], short: &mut [u32]) -> Result<Index, Refusal>
    requires { length pack.now ≤ most_bytes }
    ensures { Loads pack.now work.old work.new result }
{
    let index = place_all(pack, short)?;
    let n = index.records;
    if work.len() < n {
        return Err(Refusal::Work(n));
    }
    if n <= short.len() {
        copy(short, work, n);
    } else {
        place_all(pack, work)?;
    }
    Ok(index)
}

// With room for N offsets on the stack.
fn load_with<const N: usize>(pack: &[u8], work: &mut [u32]) -> Result<Index, Refusal>
    requires { record { few : N ≤ 4096; bytes : length pack.now ≤ most_bytes } }
    ensures { Loads pack.now work.old work.new result }
{
    let mut short = [0u32; N];
    load_by(pack, work, &mut short)
}

pub fn load(pack: &[u8], work: &mut [u32]) -> Result<Index, Refusal>
    ensures { Loads pack.now work.old work.new result }
{
    if MOST_BYTES < pack.len() {
        return Err(Refusal::TooLong);
    }
    if pack.len() <= SHORT_BYTES {
        return load_with::<512>(pack, work);
    }
    load_with::<4096>(pack, work)
}
