//! What the limits of a statement say of its query's parts.
#![tactic(auto)]

mod laws;

pub use laws::lawful_queries_are_small;
