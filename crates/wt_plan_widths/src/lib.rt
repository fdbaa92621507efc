//! Widths of plans while they are walked: which columns of a join are its left operand's, and what the others are in the right one.
#![tactic(auto)]

mod widths;

pub use widths::{behind, has_column, operand_widths, wide};
