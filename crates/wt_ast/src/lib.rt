//! The tree of a query, with the offset of each of its parts in the statement's file.
#![tactic(auto)]

mod condition;
mod laws;
mod marks;
mod tree;

pub use laws::what_conjuncts_are;
pub use marks::{Mark, Marked, Marks};
pub use tree::{
    CmpWord, ColumnName, ColumnNames, CondKind, Condition, Conditions, FromPart, Item, Items,
    Query, Scalar,
};

fn may_be_shared<T: Send + Sync>() {}

/// A statement to the compiler: threads may share these types, and hand them over.
pub fn threads_share_trees() {
    may_be_shared::<Query>();
    may_be_shared::<FromPart>();
    may_be_shared::<Condition>();
    may_be_shared::<Conditions>();
}
