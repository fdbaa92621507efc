//! Matches of a rule at the nodes of a plan, and applying them.
#![tactic(auto)]

mod applying;
mod asking;

pub use applying::{applied, match_at};
pub use asking::asked_atoms;
