// What the programs that show packs have in common.
#![tactic(auto)]

pub mod input;
pub mod output;
pub mod words;
