//! Every form that one step gives.
#![tactic(auto)]

mod every;
mod inside;
mod joins;
mod once;
mod rows;

pub use every::steps;
pub use once::is_among;
pub use std::alloc::AllocError as WantOfMemory;
