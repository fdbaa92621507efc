//! Worked rows: the forms of sides, operator by operator; and for each step between forms and each part of
//! congruence a pair that it relates, and the nearest ones that it must not relate.
//!
//! The rows are laws: functions with empty bodies whose contracts say which terms a step relates, and by
//! `→ ⊥` which it does not. A step is a relation, so there is nothing to run.
#![tactic(auto)]

mod congruent;
mod drops;
mod forms;
mod joins;
mod nested;

pub use congruent::{congruent_conditions, congruent_pieces, congruent_ranges};
pub use drops::{
    compared_nulls, false_not_ins, ins_by_joins, ins_by_references, repeated_conditions, self_joins,
};
pub use forms::worked_forms;
pub use joins::{joins_become_ins, merged_variables, rewritten_expressions, split_terms};
pub use nested::{opened_variables, twin_terms};
