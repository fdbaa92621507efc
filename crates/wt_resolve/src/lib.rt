//! Names of columns become places among the columns in scope, and conditions without a subquery predicates over them.
#![tactic(auto)]

mod conditions;
mod enclosing;
mod lookup;

pub use conditions::{kind_at, predicate, same_kind};
pub use enclosing::{alias_outside, seen_outside};
pub use lookup::{Scope, ScopeItem, column};
