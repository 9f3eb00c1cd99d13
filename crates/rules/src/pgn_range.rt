// R02
ghost use Rattle.std.specs.Option.{option_map};
ghost use Rattle.std.specs.Prelude.{◌≡◌, not, ◌&&◌, ◌||◌, ◌%◌, map, ◌==◌};
ghost use Rattle.pack.specs.Kinds.{message_type_number};
ghost use Rattle.pack.specs.Loaded.{tree_of, pgn_value};
ghost use Rattle.pack.specs.Trees.{tree_number};
ghost use Rattle.rules.specs.Emit.{Emitted};
ghost use Rattle.rules.specs.Pdu1.{pdu1, range_of};
ghost use Rattle.rules.specs.PgnRange.{ranges_of, find_range, quick_range, found_range, check_pgn_range};

use crate::emit::{Findings, pgn_error};
use pack::kinds::MessageType;
use pack::loaded::PgnRef;
use pack::protocol::Protocol;

// The PGNs from start to end, and their packet type. Those of PDU1 go in steps of 256.
#[derive(Clone, Copy)]
pub struct Range {
    pub start: u32,
    pub end: u32,
    pub kind: MessageType,
}

// pgn.h pgnRange[]: data, a row each, as the rows behind it.
const PGN_RANGES: [Range; 8] = [
    Range {
        start: 0xe800,
        end: 0xee00,
        kind: MessageType::Single,
    },
    Range {
        start: 0xef00,
        end: 0xef00,
        kind: MessageType::Single,
    },
    Range {
        start: 0xf000,
        end: 0xfeff,
        kind: MessageType::Single,
    },
    Range {
        start: 0xff00,
        end: 0xffff,
        kind: MessageType::Single,
    },
    Range {
        start: 0x1ed00,
        end: 0x1ee00,
        kind: MessageType::Fast,
    },
    Range {
        start: 0x1ef00,
        end: 0x1ef00,
        kind: MessageType::Fast,
    },
    Range {
        start: 0x1f000,
        end: 0x1feff,
        kind: MessageType::Mixed,
    },
    Range {
        start: 0x1ff00,
        end: 0x1ffff,
        kind: MessageType::Fast,
    },
];

// pgn-j1939.h pgnRange[]
const J1939_PGN_RANGES: [Range; 10] = [
    Range {
        start: 0x0000,
        end: 0xe700,
        kind: MessageType::Iso,
    },
    Range {
        start: 0xe800,
        end: 0xee00,
        kind: MessageType::Single,
    },
    Range {
        start: 0xef00,
        end: 0xef00,
        kind: MessageType::Single,
    },
    Range {
        start: 0xf000,
        end: 0xfeff,
        kind: MessageType::Single,
    },
    Range {
        start: 0xff00,
        end: 0xffff,
        kind: MessageType::Single,
    },
    Range {
        start: 0x10000,
        end: 0x1ec00,
        kind: MessageType::Iso,
    },
    Range {
        start: 0x1ed00,
        end: 0x1ee00,
        kind: MessageType::Iso,
    },
    Range {
        start: 0x1ef00,
        end: 0x1ef00,
        kind: MessageType::Iso,
    },
    Range {
        start: 0x1f000,
        end: 0x1feff,
        kind: MessageType::Iso,
    },
    Range {
        start: 0x1ff00,
        end: 0x1ffff,
        kind: MessageType::Iso,
    },
];

// The first of canboat's own pseudo-PGNs.
const ACTISENSE_BEM: u32 = 0x40000;

// The largest of Quick's message types: 11 bits.
const QUICK_MOST: u32 = 0x7ff;

// A tree's table. Quick goes by none.
#[tactic(auto, unfolding(crate::specs::Pdu1::pdu1))]
fn table(protocol: Protocol) -> &'static [Range]
    ensures { map range_of result.now ≡ ranges_of (tree_number protocol) }
{
    match protocol {
        Protocol::J1939 => &J1939_PGN_RANGES,
        Protocol::Nmea2000 | Protocol::Quick => &PGN_RANGES,
    }
}

// The first range that does not end below the number.
fn find_range(protocol: Protocol, pgn: u32) -> Option<Range>
    ensures { find_range (ranges_of (tree_number protocol)) pgn ≡ option_map range_of result }
{
    for range in table(protocol) {
        if pgn <= range.end {
            return Some(*range);
        }
    }
    None
}

// J1939-21's PDU1, by bits 8 to 15, and not ending in 0x00.
#[tactic(auto, unfolding(crate::specs::Pdu1::pdu1))]
fn pdu1_unended(pgn: u32) -> bool
    ensures { result ≡ (pdu1 pgn && not (pgn % 256 == 0)) }
{
    pgn / 256 % 256 < 240 && pgn % 256 != 0
}

// A packet type that does not agree with the range's.
fn disagrees(range: MessageType, kind: MessageType) -> bool
    ensures { result ≡ not ((message_type_number range == message_type_number kind) || (message_type_number range == 3) || (message_type_number kind == 2)) }
{
    range != kind && range != MessageType::Mixed && kind != MessageType::Iso
}

// Quick's "PGN" is an 11-bit CAN identifier, and one frame is the whole message.
#[tactic(auto, unfolding(crate::specs::PgnRange::quick_range))]
fn quick_range(out: &mut Findings, pgn: &PgnRef)
    ensures { Emitted out.old (quick_range (tree_of pgn.now) pgn.now.item (pgn_value pgn.now)) out.new }
{
    out.put_if(QUICK_MOST < pgn.view.pgn, pgn_error(2, 1, pgn, 0, 0));
    out.put_if(
        pgn.view.kind != MessageType::Single,
        pgn_error(2, 2, pgn, 0, 0),
    );
}

// A PGN beside the range that was found for it.
#[tactic(auto, unfolding(crate::specs::PgnRange::found_range))]
fn found_range(out: &mut Findings, pgn: &PgnRef, found: Option<Range>)
    requires { find_range (ranges_of (tree_of pgn.now)) pgn.now.view.pgn ≡ option_map range_of found }
    ensures { Emitted out.old
        (found_range (tree_of pgn.now) pgn.now.item (pgn_value pgn.now) (find_range (ranges_of (tree_of pgn.now)) pgn.now.view.pgn))
        out.new }
{
    let Some(range) = found else {
        out.put(pgn_error(2, 3, pgn, 0, 0));
        return;
    };
    if pgn.view.pgn < range.start {
        out.put(pgn_error(2, 4, pgn, 0, 0));
        return;
    }
    let unended = pdu1_unended(pgn.view.pgn);
    out.put_if(unended, pgn_error(2, 5, pgn, 0, 0));
    let other = disagrees(range.kind, pgn.view.kind);
    out.put_if(other, pgn_error(2, 6, pgn, 0, 0));
}

// R02: the number in a valid range; PDU1 PGNs end in 0x00; the packet type agrees with the range.
#[tactic(auto, unfolding(crate::specs::PgnRange::check_pgn_range))]
pub fn check_pgn_range(out: &mut Findings, pgn: &PgnRef)
    ensures { Emitted out.old (check_pgn_range (tree_of pgn.now) pgn.now.item (pgn_value pgn.now)) out.new }
{
    if ACTISENSE_BEM <= pgn.view.pgn {
        return;
    }
    if matches!(pgn.protocol, Protocol::Quick) {
        quick_range(out, pgn);
        return;
    }
    let found = find_range(pgn.protocol, pgn.view.pgn);
    found_range(out, pgn, found);
}
