//! What a FROM clause brings, table by table and derived table by derived table.
#![tactic(auto)]

mod leaves;
mod sources;

pub use leaves::{Leaves, two_leaves};
pub use sources::{Built, Sources, derived_leaf, table_leaf};
