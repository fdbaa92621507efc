//! Operands of joins and comma lists, the conjuncts of WHERE and ON, and the plan of a query from them. The walk over a query
//! stands above.
#![tactic(auto)]

mod conditions;
mod finish;
mod lists;
mod scopes;

pub use conditions::{enclosing, places, push_member, push_test};
pub use finish::finished;
pub use lists::{join_list, leaf_list, longer, padded, single};
pub use scopes::split;
