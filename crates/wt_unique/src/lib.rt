//! Whether columns of a plan are known to tell its rows apart. Each node of the plan is visited once, with all sets of columns that
//! are asked of it, so that the time is a polynomial of the plan's size.
#![tactic(auto)]

mod answers;
mod joining;
mod sets;
mod walk;

pub use sets::{all_below, is_in, listed_at};
pub use walk::is_unique;
use wt_value::{Cols, Seq};

/// Sets of columns.
type Sets = Seq<Cols>;

/// A yes or no for each set.
type Answers = Seq<bool>;
