//! The plan of a statement: one walk over the query finds its first fault, or builds the plan, which is then placed.
#![tactic(auto)]

mod build;
mod plan;

pub use plan::plan_of;
