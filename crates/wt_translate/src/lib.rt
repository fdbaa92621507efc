//! The form of a side.
#![tactic(auto)]

mod lists;
mod operators;
mod pieces;
mod terms;
mod translate;

pub use translate::form_of;
