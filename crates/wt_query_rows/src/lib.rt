//! The columns that a FROM clause has in scope, and the rows of a query on a database, from its tree alone.
//!
//! The definitions stand in `specs/`. They take no plan and no place: a row of a FROM clause has the
//! name of its column at each value.
#![tactic(auto)]

mod scope;

pub use scope::ScopeColumn;

fn may_be_shared<T: Send + Sync>() {}

/// A statement to the compiler: threads may share these types, and hand them over.
pub fn threads_share_columns() {
    may_be_shared::<ScopeColumn>();
}
