// Words for what a pack holds, and its texts.
ghost use Rattle.std.specs.Prelude.{◌≡◌, ◌++◌, OnOk};
ghost use Rattle.std.specs.Io.KnownBytes.{Appends};
ghost use Rattle.listing.specs.Words.{kind_name, protocol_name, set_flags};

use pack::kinds::LookupKind;
use pack::load::Refusal;
use pack::protocol::Protocol;
use std::io::Write;
use std::{fmt, io};

// So many, with the word for one or for any other number of them.
#[derive(Clone, Copy)]
pub struct Counted<'a> {
    pub count: usize,
    pub one: &'a str,
    pub many: &'a str,
}

impl<'a> fmt::Display for Counted<'a> {
    ghost use Rattle.std.specs.Prelude.{Some};
    ghost use Rattle.listing.specs.Words.{counted};

    ghost output = { λ c. Some (counted c) };

    fn fmt<W: fmt::Write>(&self, f: &mut fmt::Formatter<W>) -> fmt::Result {
        let count = self.count;
        let word = if count == 1 { self.one } else { self.many };
        write!(f, "{count} {word}")
    }
}

// A text of the pack behind some words. It may have any bytes, so that it goes out as it is.
pub fn text<W: Write>(out: &mut W, words: &str, text: &[u8]) -> io::Result<()>
    ensures { OnOk result (Appends (W.contents out.old) (W.contents out.new) (words.now ++ text.now)) }
{
    out.write_all(words.as_bytes())?;
    out.write_all(text)
}

// The words of those flags that are set.
pub fn flags<W: Write>(out: &mut W, flags: &[(bool, &str)]) -> io::Result<()>
    ensures { OnOk result (Appends (W.contents out.old) (W.contents out.new) (set_flags flags.now)) }
{
    for (set, words) in flags {
        if *set {
            write!(out, ", {words}")?;
        }
    }
    Ok(())
}

// What a tree's protocol is called.
pub fn protocol_name(protocol: Protocol) -> &'static str
    ensures { result.now ≡ protocol_name protocol }
{
    match protocol {
        Protocol::Nmea2000 => "NMEA 2000",
        Protocol::J1939 => "J1939",
        Protocol::Quick => "Quick",
    }
}

// What a lookup's kind is called, also a reference's.
pub fn kind_name(kind: LookupKind) -> &'static str
    ensures { result.now ≡ kind_name kind }
{
    match kind {
        LookupKind::Pair => "pair",
        LookupKind::Triplet => "triplet",
        LookupKind::Bit => "bit",
        LookupKind::Fieldtype => "fieldtype",
    }
}

// A refusal by its number and detail.
#[derive(Clone, Copy)]
pub struct Refused(pub Refusal);

impl fmt::Display for Refused {
    ghost use Rattle.std.specs.Prelude.{Some};
    ghost use Rattle.listing.specs.Words.{refused};

    ghost output = { λ r. Some (refused r) };

    fn fmt<W: fmt::Write>(&self, f: &mut fmt::Formatter<W>) -> fmt::Result {
        write!(f, "refused {} {}", self.0.number(), self.0.detail())
    }
}
