//! Rules of the bytes of a rule file, each proved again as its line is read.
#![tactic(auto)]

mod ending;
mod fault;
mod head;
mod laws;
mod lines;
mod read;
mod rule;

pub use fault::RuleError;
pub use laws::{one_answer, rules_that_are_read_are_good};
pub use read::read_rules;
pub use wt_rule_line::RuleFault;
