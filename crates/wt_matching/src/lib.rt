//! Matches of rules in plans: which they are, and that applying one keeps the plan's rows and lowers its cost.
#![tactic(auto)]

mod laws;

pub use laws::{matches_are_unique, matches_keep_rows, matches_lower_the_cost};
