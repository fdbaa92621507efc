//! What a statement is: how its tokens are read from left to right, with the first refusal that is met, and the grammar
//! as a relation beside it. The definitions stand in `specs/`; the types here are the words that they speak in.
#![tactic(auto)]

mod fault;
mod join;

pub use fault::QueryFault;
pub use join::JoinKind;
