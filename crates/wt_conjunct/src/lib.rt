//! Conjuncts over places: the pairs of a join, and conditions that stand over a plan.
#![tactic(auto)]

mod joins;
mod stack;

pub use joins::{Operands, has_pair, inner_plan, is_on_alone, left_plan, outer_fault, right_plan};
pub use stack::{
    Conjunct, Side, Sorted, are_on, at_places, columns_of, firsts_at, pair_of, seconds_at, some_on,
    sorted_by, stacked, stacked_right,
};
