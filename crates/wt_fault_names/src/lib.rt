//! The names of faults in printed lines: those of the variants.
#![tactic(auto)]

mod fault_names;

pub use fault_names::{build_name, lexical_name, query_name, schema_name};
