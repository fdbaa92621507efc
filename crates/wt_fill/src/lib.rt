//! Filling in a side with what was found, putting a plan at a node of another, and testing what a rule asks of what was found.
#![tactic(auto)]

mod atoms;
mod filling;
mod given;
mod nodes;
mod same;

pub use atoms::are_known;
pub use filling::fill;
pub use given::{Blank, Given};
pub use nodes::{plan_at, put_at};
