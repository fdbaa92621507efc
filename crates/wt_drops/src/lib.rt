//! Steps that drop a condition or a term.
#![tactic(auto)]

mod dropping;
mod truths;

pub use dropping::drops;
pub use std::alloc::AllocError as WantOfMemory;
