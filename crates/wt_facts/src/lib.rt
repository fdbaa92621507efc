//! What a set of atoms says of leaves, lists and predicates, computed once for all that asks for it.
#![tactic(auto)]

mod facts;
mod kept;
mod sames;

pub use facts::{Facts, LeafList, Reference};
pub use kept::Kept;
pub use sames::Sames;
pub use std::alloc::AllocError as WantOfMemory;

fn may_be_shared<T: Send + Sync>() {}

/// A statement to the compiler: threads may share what is known, and hand it over.
pub fn threads_share_facts() {
    may_be_shared::<Facts>();
}
