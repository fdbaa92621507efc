//! Predicates over a row by column number, in three-valued logic.
#![tactic(auto)]

mod columns;
mod eval;
mod logic;
mod nulls;
mod renumber;
mod tree;

pub use tree::{Cmp, Operand, Pred, Preds};

fn may_be_shared<T: Send + Sync>() {}

/// A statement to the compiler: threads may share these types, and hand them over.
pub fn threads_share_predicates() {
    may_be_shared::<Pred>();
    may_be_shared::<Preds>();
}
