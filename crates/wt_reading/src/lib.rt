//! The base of what reads tokens from left to right: tokens as a grammar sees them, how readings are put together, and how
//! the parts of a sentence are. The definitions stand in `specs/`, the laws that every reading has in `proofs/`.
#![tactic(auto)]

pub mod front;
mod lexeme;

pub use lexeme::{Kind, Lexeme, lexeme_of};
