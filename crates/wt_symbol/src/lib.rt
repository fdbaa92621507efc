//! Sides of a rule with their symbols, the pairs that are lawful, and the heads of sides.
#![tactic(auto)]

mod fault;
mod head;
mod side;

pub use fault::{MOST_OPERATORS, PairFault, first_fault, pair_fault};
pub use head::{Part, PartCols, Parts, segments, visible};
pub use side::{Anchors, Pair, Side};
pub use std::alloc::AllocError as WantOfMemory;

fn may_be_shared<T: Send + Sync>() {}

/// A statement to the compiler: threads may share these types, and hand them over.
pub fn threads_share_pairs() {
    may_be_shared::<Pair>();
    may_be_shared::<Parts>();
    may_be_shared::<PairFault>();
}
