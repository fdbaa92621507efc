//! The atoms of a pair, sets of them, and the symbols that a set makes the same.
#![tactic(auto)]

mod atom;
mod same;
mod set;

pub use atom::{Atom, Atoms, Kind, atoms_of};
pub use same::{same_attr, same_pred, same_rel};
pub use set::{AtomSet, contains, full, has, without};
pub use std::alloc::AllocError as WantOfMemory;

fn may_be_shared<T: Send + Sync>() {}

/// A statement to the compiler: threads may share these types, and hand them over.
pub fn threads_share_atoms() {
    may_be_shared::<Atoms>();
    may_be_shared::<AtomSet>();
}
