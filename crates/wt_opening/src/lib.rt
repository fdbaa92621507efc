//! Expressions of a term where a variable over distinct rows is opened.
#![tactic(auto)]

mod laws;
mod opened;
mod raised;

pub use laws::opened_by_each;
pub use opened::{Opening, can_open, can_open_conds, can_open_pieces, opened_conds, opened_pieces};
pub use raised::{raised_conds, raised_pieces};
pub use std::alloc::AllocError as WantOfMemory;
