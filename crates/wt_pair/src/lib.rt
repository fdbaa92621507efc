//! The lawful pairs of given bounds, in lots.
#![tactic(auto)]

mod anchoring;
mod bounds;
mod dest;
mod lot;
mod pairs;
mod source;
mod walk;

pub use bounds::Bounds;
pub use lot::Lot;
pub use pairs::Pairs;
pub use std::alloc::AllocError as WantOfMemory;
pub use walk::PairList;

fn may_be_shared<T: Send + Sync>() {}

/// A statement to the compiler: threads may share these types, and hand them over.
pub fn threads_share_lots() {
    may_be_shared::<Bounds>();
    may_be_shared::<Lot>();
    may_be_shared::<Pairs>();
}
