//! The placed form of a plan, which most plans have already: no condition stands over a join.
#![tactic(auto)]

mod settled;

pub use settled::placed_form;
