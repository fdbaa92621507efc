//! The search for a proof of a pair: the forms that chains of steps reach, by rounds, and whether some
//! form that the source reaches is congruent to one that the destination reaches.
#![tactic(auto)]

mod found;
mod meet;
mod pieces;
mod reach;
mod search;

pub use meet::proves;
pub use reach::reached;
pub use search::Search;
