//! Rows of forms, and what a proof of a pair means: both sides give one bag on every instance that
//! meets the set.
//!
//! The laws are functions with empty bodies whose contracts are the laws. They compose: a side and
//! its form have one bag (translation); a step of a form that fits gives a form that fits and keeps
//! its rows; congruent forms have one bag; so where chains of steps from the forms of both sides end
//! in congruent forms, the sides have one bag.
#![tactic(auto)]

mod laws;
mod steps;

pub use laws::{
    congruent_forms_have_one_bag, fixed_constraints_are_said_twice, provable_sides_have_one_bag,
    sides_and_forms_have_one_bag, what_is_known_holds,
};
pub use steps::{each_step_keeps_rows, steps_keep_rows};
