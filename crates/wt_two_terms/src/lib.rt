//! Steps over two terms: twins, and a term split by an In and a NotIn of the same values.
#![tactic(auto)]

mod pairs;
mod splits;

pub use pairs::push_pairs;
pub use std::alloc::AllocError as WantOfMemory;
