//! `discover` by several workers: the rule file of bounds, written to a sink. It is the file that one thread writes.
#![tactic(auto)]

mod parts;
mod sharing;
mod stage;

pub use sharing::discover;
