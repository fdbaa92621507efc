//! Reads SELECT statements: from the bytes of a file the tree of each statement, or the first reason to refuse it.
#![tactic(auto)]

mod queries;
mod statements;

pub use statements::{Queries, read_queries, threads_share_queries};
pub use wt_front::QueryError;
pub use wt_grammar::QueryFault;
