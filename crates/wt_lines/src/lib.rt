//! The lines that answer statements: the query that rules make of a statement, or why it is refused.
#![tactic(auto)]

mod laws;
mod line;

pub use laws::{
    rewritten_queries_are_one, rewritten_queries_have_no_match, rewritten_queries_keep_names,
    rewritten_queries_keep_rows, rewritten_queries_stay,
};
pub use line::{Line, statement_line};
