//! Definitions and laws on lists as bags, for the layers above.
//!
//! Whatever compares two plans compares the rows that they give as bags. The definitions stand in
//! `specs/`, their laws in `proofs/`; there is no code to run.
#![tactic(auto)]

ghost use Rattle.std.specs.Prelude.{◌↔◌, List, Bool};
ghost use Rattle.wt_bag.specs.Bags.{OneBag, SameSums, DecidesEquality};

/// A law: two lists are one bag, counted by a test that decides equality, exactly where every sum over the two is equal.
pub fn one_bag_is_equal_sums<X>()
    ensures { (same : X → X → Bool) (decides : DecidesEquality same) (xs ys : List X) → (OneBag same xs ys ↔ SameSums xs ys) }
{}
