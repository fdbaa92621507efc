//! Which variables of a term are determined.
#![tactic(auto)]

mod alone;
mod closing;
mod laws;
mod linked;
mod pieces;

pub use alone::is_determined_alone;
pub use closing::{are_all_determined, determined, range_count};
pub use laws::held_is_determined;
pub use pieces::{has_list_over, has_part, holds_parts};
pub use std::alloc::AllocError as WantOfMemory;
