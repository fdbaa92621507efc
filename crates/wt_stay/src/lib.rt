//! What every step between forms keeps: variables exist, and no form grows.
#![tactic(auto)]

mod laws;

pub use laws::steps_stay;
pub use std::alloc::AllocError as WantOfMemory;
