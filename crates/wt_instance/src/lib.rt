//! Instances of a pair, the rows of a side on one, and whether it meets a set of constraints.
#![tactic(auto)]

mod evaluate;
mod instance;
mod laws;
mod meeting;
mod named;
mod operator;
mod picked;

pub use evaluate::bag;
pub use instance::{ColsList, Instance, RowsList, Widths, is_instance};
pub use laws::{
    dedup_rows_are_distinct_rows, left_join_adds_unmatched_rows, rows_have_columns,
    sides_depend_on_tables_as_bags,
};
pub use meeting::meets;
pub use named::{Cell, Column};
pub use std::alloc::AllocError as WantOfMemory;

fn may_be_shared<T: Send + Sync>() {}

/// A statement to the compiler: threads may share these types, and hand them over.
pub fn threads_share_instances() {
    may_be_shared::<Instance>();
}
