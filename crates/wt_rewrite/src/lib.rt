//! Rewriting a plan by a list of rules until no rule matches.
#![tactic(auto)]

mod book;
mod first;
mod rewriting;
mod runs;

pub use book::Book;
pub use rewriting::{Rewritten, rewrite};
pub use runs::Run;
