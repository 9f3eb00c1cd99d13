// The pack layer: document 01's byte format, its five kinds of record, and `load`.
#![tactic(auto)]

pub mod at;
pub mod buffers;
pub mod cursor;
pub mod entry;
pub mod field;
pub mod field_type;
pub mod float;
mod items;
pub mod kinds;
pub mod load;
pub mod loaded;
pub mod lookup;
mod number;
pub mod of;
pub mod pgn;
pub mod protocol;
mod reader;
pub mod text;
