//! The step that opens a variable over the distinct rows of one term.
#![tactic(auto)]

mod opening;
mod parts;
mod places;

pub use places::push_opened;
pub use std::alloc::AllocError as WantOfMemory;
