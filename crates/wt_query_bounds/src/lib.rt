//! How wide the plan of a query is, and how large.
#![tactic(auto)]

mod laws;

pub use laws::{
    built_plans_are_as_wide_as_the_output, built_plans_are_narrow, built_plans_are_small,
    built_plans_fit, clauses_have_few_columns,
};
