//! A FROM clause as its items and as a comma list of operands, and what follows for the plan of its query.
#![tactic(auto)]

mod laws;

pub use laws::{
    clauses_are_comma_lists, clauses_have_their_items, joins_are_operands, parts_are_seen,
};
