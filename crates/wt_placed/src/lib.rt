//! A placed plan stays as it is when it is placed.
#![tactic(auto)]

mod laws;

pub use laws::placed_plans_are_placed;
