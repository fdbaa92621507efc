//! Rules of the lines of a rule file.
#![tactic(auto)]

mod atoms;
mod fault;
mod line;
mod pair;
mod symbols;

pub use fault::{RuleFault, RuleLineError};
pub use line::{
    a_line_has_one_fault, a_line_states_one_rule, a_line_with_a_rule_is_not_refused, read_line,
};
pub use wt_rule_text::Version;
