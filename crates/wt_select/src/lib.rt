//! The select list of a query: its output names, the kinds of its columns, and their places among the columns in scope.
#![tactic(auto)]

mod list;

pub use list::{Selected, select, upto};
