//! Which expressions of a term are never NULL, and the leaves of its variables.
#![tactic(auto)]

mod exprs;

pub use exprs::{first_list, is_null, leaf_at, never_null};
pub use std::alloc::AllocError as WantOfMemory;
