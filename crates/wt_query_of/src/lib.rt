//! The query tree of a placed plan with names, which is built to the plan again.
#![tactic(auto)]

mod counting;
mod descent;
mod part;
mod query;
mod walk;

pub use query::query_of;
