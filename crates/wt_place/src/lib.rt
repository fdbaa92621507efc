//! Placement: each condition of a plan goes down to the lowest operand that has all its columns.
#![tactic(auto)]

mod condition;
mod laws;
mod placing;

pub use laws::{placing_keeps_measures, placing_keeps_rows};
pub use placing::{into_placed, place};
