//! The plan of a query and its first fault, as definitions, and the laws between a query and its plan.
#![tactic(auto)]

mod fault;
mod laws;

pub use fault::{BuildError, BuildFault};
pub use laws::built_plan_keeps_rows;
