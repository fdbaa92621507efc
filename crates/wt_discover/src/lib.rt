//! The lines of the rules of pairs, as a rule file has them.
#![tactic(auto)]

mod laws;
mod lines;

pub use laws::{first_pairs_begin_the_rule_file, one_rule_file};
pub use lines::{RuleLines, lines_of_pairs, rule_lines};
