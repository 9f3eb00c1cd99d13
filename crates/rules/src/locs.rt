// Place texts: the Rust's `pgn_loc` and its like.
ghost use Rattle.std.specs.Prelude.{◌++◌};
ghost use Rattle.pack.specs.Items.{bytes_of};
ghost use Rattle.pack.specs.Trees.{tree_number};
ghost use Rattle.rules.specs.Digits.{six_digits};
ghost use Rattle.rules.specs.Locs.{pgn_text, loc_text};
ghost use Rattle.rules.specs.PlaceText.{check_prefix, group_loc, lookup_loc};
ghost use Rattle.rules.specs.TextOut.{Puts};
ghost use Rattle.rules.specs.Texts.{bytes};

use crate::text_out::TextOut;
use pack::protocol::Protocol;
use pack::text::{Text, part};

// What a place text is made of.
#[derive(Clone, Copy)]
pub enum Loc {
    FieldTypes,
    Pgn {
        protocol: Protocol,
        number: u32,
        id: Text,
    },
    Lookup(Text),
    Group {
        protocol: Protocol,
        number: u32,
    },
}

// What stands before the id of a PGN.
fn put_number(out: &mut TextOut, protocol: Protocol, number: u32)
    ensures { Puts out.old (check_prefix (tree_number protocol) ++ bytes "pgns/" ++ six_digits number) out.new }
{
    out.put_bytes(Protocol::prefix(protocol));
    out.put_bytes(b"pgns/");
    out.put_six_digits(number);
}

fn put_pgn(out: &mut TextOut, s: &[u8], protocol: Protocol, number: u32, id: Text)
    ensures { Puts out.old (pgn_text (tree_number protocol) number (bytes_of s.now id)) out.new }
{
    put_number(out, protocol, number);
    out.put_bytes(b"-");
    out.put_bytes(part(s, id));
    out.put_bytes(b".yaml");
}

fn put_group(out: &mut TextOut, protocol: Protocol, number: u32)
    ensures { Puts out.old (group_loc (tree_number protocol) number) out.new }
{
    put_number(out, protocol, number);
    out.put_bytes(b"-*.yaml");
}

fn put_lookup(out: &mut TextOut, s: &[u8], name: Text)
    ensures { Puts out.old (lookup_loc (bytes_of s.now name)) out.new }
{
    out.put_bytes(b"lookups/");
    out.put_bytes(part(s, name));
    out.put_bytes(b".yaml");
}

impl Loc {
    // Its text, where s is the pack.
    pub fn put(self, out: &mut TextOut, s: &[u8])
        ensures { Puts out.old (loc_text s.now self) out.new }
    {
        match self {
            Loc::FieldTypes => out.put_bytes(b"fieldtypes.yaml"),
            Loc::Pgn {
                protocol,
                number,
                id,
            } => put_pgn(out, s, protocol, number, id),
            Loc::Lookup(name) => put_lookup(out, s, name),
            Loc::Group { protocol, number } => put_group(out, protocol, number),
        }
    }
}
