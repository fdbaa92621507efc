//! Rule files read with the search for proofs, and the names of their faults.
#![tactic(auto)]

mod name;
mod read;

pub use name::rules_name;
pub use read::{read_rules, rules_that_are_read_hold};
pub use wt_rule_file::{RuleError, RuleFault};
