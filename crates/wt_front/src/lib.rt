//! The front of a statement's tokens: what stands there, as what it is refused, and what each token of a text is.
#![tactic(auto)]

mod error;
pub mod front;
pub mod lexemes;

pub use error::QueryError;
