//! Plans over tables by places: their width, their cost, and their rows on a database.
#![tactic(auto)]

mod evaluate;
mod measures;
mod operator;
mod plan;

pub use plan::{Named, Plan};
pub use std::alloc::AllocError as WantOfMemory;

fn may_be_shared<T: Send + Sync>() {}

/// A statement to the compiler: threads may share these types, and hand them over.
pub fn threads_share_plans() {
    may_be_shared::<Plan>();
    may_be_shared::<Named>();
}
