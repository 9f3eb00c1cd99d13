#![tactic(auto)]

ghost use Rattle.std.specs.Prelude.{◌≡◌};
ghost use Rattle.rules.specs.Proprietary.{is_manufacturer_pgn};

mod bit_length_field;
pub mod check;
pub mod continues;
pub mod dynamic_length;
mod emit;
mod field_count;
mod field_rules;
mod field_type_overrides;
mod fieldtypes;
mod floats;
mod frame_length;
mod locs;
mod lookup_marks;
mod lookup_names;
mod lookup_uses;
mod lookup_wiring;
pub mod lookups;
mod match_keys;
mod match_values;
pub mod matches;
mod min_length;
pub mod model;
pub mod nested_refs;
pub mod of;
mod pgn_range;
pub mod place_text;
pub mod places;
mod proprietary;
mod repeating;
mod reserved_ids;
mod searches;
mod special_values;
mod spn_clashes;
mod spn_names;
mod spns;
pub mod targets;
mod text_out;
mod trailing_zero;
mod trees;
mod unique_ids;
mod variants;
pub mod widths;

// A finding's eight numbers. They are numbers and no enums, since they are what the C interface hands over.
#[derive(Clone, Copy)]
pub struct Finding {
    pub rule: u32,
    pub severity: u32,
    pub cause: u32,
    pub place: u32,
    pub tree: u32,
    pub item: u32,
    pub part: u32,
    pub other: u32,
}

// pgn.h IS_MANUFACTURER_PGN()
#[tactic(auto, unfolding(crate::specs::Proprietary::is_manufacturer_pgn))]
fn is_manufacturer_pgn(pgn: u32) -> bool
    ensures { result ≡ is_manufacturer_pgn pgn }
{
    matches!(pgn, 0xff00..=0xffff | 0x1ef00 | 0x1ff00..=0x1ffff)
}
