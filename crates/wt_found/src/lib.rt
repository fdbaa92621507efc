//! A side of a rule and a plan walked together: the one assignment under which the side filled in can be the plan.
#![tactic(auto)]

mod columns;
mod walk;

pub use columns::{Shown, leaf_columns, list_columns, place};
pub use walk::{Found, anchor_of, find, is_shaped};
