//! The rows of a form on an instance.
#![tactic(auto)]

mod choices;
mod conds;
mod distinct;
mod rows;
mod values;

pub use rows::rows_of;
pub use std::alloc::AllocError as WantOfMemory;
