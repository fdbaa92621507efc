//! The rules of a pair by cores: least provable sets of its atoms, found from few atoms up.
#![tactic(auto)]

mod found;
mod laws;
mod ordered;
mod rules;
mod search;
mod sets;

pub use laws::{rules_are_cores, what_is_left_is_a_core};
pub use ordered::{insert, is_among};
pub use rules::{AtomSets, rules_of_pair};
