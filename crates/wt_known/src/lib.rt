//! What is known of a plan's rows from its form and from the schema: columns without NULL, unique sets of columns, references.
#![tactic(auto)]

mod laws;

pub use laws::{known_facts_hold, regular_plans_fit};
