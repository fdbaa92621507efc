//! `rewrite` over three files: their statements rewritten by proved rules, each to a line; and `check` over a file of rules.
#![tactic(auto)]

mod checking;
mod making;
mod names;
mod putting;
mod rewriting;

pub use checking::check;
pub use names::Names;
pub use putting::{put_fault, put_line_fault};
pub use rewriting::{rewrite, rewrite_files};
