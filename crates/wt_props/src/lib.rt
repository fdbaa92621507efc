//! What is known of plans over a schema: the answers to the questions of `Facts`.
#![tactic(auto)]

mod known;
mod not_null;
mod origins;
mod references;
mod rejecting;

pub use known::Known;
