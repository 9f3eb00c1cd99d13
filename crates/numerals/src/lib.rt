#![tactic(auto)]

pub mod decimal;
pub mod hexadecimal;
