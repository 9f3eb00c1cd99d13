#![tactic(auto)]

pub mod counts;
pub mod guaranteed;
mod held;
mod known;
mod named;
mod orders;
mod passes;
mod runs;
mod sets;
mod steps;
mod stops;
mod stretches;
mod trace;
pub mod walk;
