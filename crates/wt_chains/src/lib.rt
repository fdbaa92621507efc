//! Chains of plans: each is the one before with the first match of a rule applied and each condition placed, until no rule has a match.
#![tactic(auto)]

mod applied;
mod laws;

pub use applied::Applied;
pub use laws::{
    chains_are_one, chains_end_without_a_match, chains_keep_rows, chains_lower_the_cost,
    chains_stay_regular,
};
