//! Whether a plan is regular for a schema, told without taking memory.
#![tactic(auto)]

mod deciding;
mod kinds;
mod order;
mod predicate;
mod widths;

pub use deciding::regular;
