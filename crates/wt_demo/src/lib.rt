//! `demo`: so many generated statements, rewritten by five rules, and what that saved.
#![tactic(auto)]

mod demonstrating;
mod statements;
mod tally;

pub use demonstrating::demo;
pub use tally::Tally;
