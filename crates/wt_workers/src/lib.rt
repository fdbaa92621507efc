//! The rules of a lot, found by several workers: a board of verdicts for each pair, each under a lock of its own.
#![tactic(auto)]

mod books;
mod desk;
mod finish;
mod gather;
mod lines;
mod report;
mod settle;
mod verdict;
mod work;
mod workers;

pub use books::{BoardShare, Books, OwnShare};
pub use desk::{Desk, NotPosted};
pub use lines::lines_of_rules;
pub use report::{Counts, LotReport};
pub use std::alloc::AllocError as WantOfMemory;
pub use workers::discover_lot;
