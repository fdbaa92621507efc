//! What a prover of pairs answers.
ghost use Rattle.std.specs.Prelude.{◌≡◌, ◌↔◌, IsTrue, IfOk};
ghost use Rattle.wt_symbol.specs.Sides.{pair_of};
ghost use Rattle.wt_symbol.specs.Lawful.{IsLawful};
ghost use Rattle.wt_form.specs.Under.{Provable};
ghost use Rattle.wt_form.specs.Shrunk.{Shrunk};

use std::alloc::{AllocError, Global};
use wt_constraint::AtomSet;
use wt_symbol::Pair;

/// Decides which sets of a pair's atoms are provable.
pub trait Prover {
    /// Whether the pair is provable under the set by chains of at most so many steps.
    fn prove(
        &self,
        alloc: Global,
        pair: &Pair,
        set: AtomSet,
        steps: u32,
    ) -> Result<bool, AllocError>
        requires lawful { IsLawful (pair_of pair.now) }
        ensures exact { IfOk result (λ yes. IsTrue yes ↔ Provable (pair_of pair.now) set steps) };

    /// What is left of a provable set when its atoms are tried from the highest down, each left out
    /// wherever what remains is provable.
    fn shrink(
        &self,
        alloc: Global,
        pair: &Pair,
        set: AtomSet,
        steps: u32,
    ) -> Result<AtomSet, AllocError>
        requires lawful { IsLawful (pair_of pair.now) }
        requires provable { Provable (pair_of pair.now) set steps }
        ensures left { IfOk result (λ left. Shrunk (pair_of pair.now) steps 64 set left) };
}
