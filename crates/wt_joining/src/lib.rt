//! Steps that rest on a Join: it becomes an In, two variables become one, or one expression is
//! written for another.
#![tactic(auto)]

mod changes;
mod ends;
mod places;
mod to_in;
mod to_one;
mod writing;

pub use changes::{Change, changed_conds, changed_expr, changed_pieces, is_before, same_written};
pub use std::alloc::AllocError as WantOfMemory;
pub use to_in::push_joins_to_in;
pub use to_one::push_merged;
pub use writing::push_rewritten;
