//! The law that no pair stands twice among the pairs of bounds. A law is the contract of a function that does nothing.
#![tactic(auto)]

ghost use Rattle.std.specs.Prelude.{ℕ};
ghost use Rattle.wt_bag.specs.Choices.{Apart};
ghost use Rattle.wt_pair.specs.declared.bounds.Bounds.{Bounds};
ghost use Rattle.wt_pair.specs.Candidates.{pairs_of};

/// No pair of the bounds is equal to a later one.
pub fn no_pair_stands_twice()
    ensures { (b : Bounds) → Apart (pairs_of b) }
{}
