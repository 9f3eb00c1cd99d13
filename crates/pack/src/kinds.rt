// The kinds that 01 gives by a number: two tables of data, which a common trait would not shorten.
ghost use Rattle.std.specs.Prelude.{◌≡◌};
ghost use Rattle.pack.specs.Kinds.{kind_of, entries_of, message_type_of};

// A lookup's kind, also a reference's.
#[derive(Clone, Copy, PartialEq, Eq, Debug)]
pub enum LookupKind {
    Pair,
    Triplet,
    Bit,
    Fieldtype,
}

impl LookupKind {
    // Of its number, below 4.
    pub(crate) fn of(number: u32) -> LookupKind
        ensures { result ≡ kind_of number }
    {
        match number {
            0 => LookupKind::Pair,
            1 => LookupKind::Triplet,
            2 => LookupKind::Bit,
            _ => LookupKind::Fieldtype,
        }
    }

    // As whose an entry is read, by any number.
    pub(crate) fn of_entries(number: u32) -> LookupKind
        ensures { result ≡ entries_of number }
    {
        match number {
            1 => LookupKind::Triplet,
            3 => LookupKind::Fieldtype,
            _ => LookupKind::Pair,
        }
    }
}

// How a PGN is sent: its type.
#[derive(Clone, Copy, PartialEq, Eq, Debug)]
pub enum MessageType {
    Single,
    Fast,
    Iso,
    Mixed,
}

impl MessageType {
    // Of its number, below 4.
    pub(crate) fn of(number: u32) -> MessageType
        ensures { result ≡ message_type_of number }
    {
        match number {
            0 => MessageType::Single,
            1 => MessageType::Fast,
            2 => MessageType::Iso,
            _ => MessageType::Mixed,
        }
    }
}
