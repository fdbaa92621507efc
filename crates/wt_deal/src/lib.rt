//! Numbers that are dealt: each is taken once, by the owner of the deal or by a thief in another thread.
#![tactic(auto)]

mod dealer;
mod rule;
#[cfg(test)]
mod tests;

pub use dealer::{Dealer, Thief, deal};
pub use std::alloc::AllocError as WantOfMemory;
