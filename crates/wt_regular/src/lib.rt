//! Plans of queries are regular.
#![tactic(auto)]

mod laws;

pub use laws::plans_of_queries_are_regular;
