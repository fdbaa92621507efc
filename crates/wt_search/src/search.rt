//! The prover of pairs.
ghost use Rattle.std.specs.Prelude.{◌≡◌, ◌↔◌, ◌≤◌, IsTrue, IfOk};
ghost use Rattle.wt_symbol.specs.Sides.{pair_of};
ghost use Rattle.wt_symbol.specs.Lawful.{IsLawful};
ghost use Rattle.wt_constraint.specs.Atoms.{atoms_of_pair};
ghost use Rattle.wt_form.specs.FormOf.{form_of};
ghost use Rattle.wt_form.specs.Under.{Provable};
ghost use Rattle.wt_form.specs.Shrunk.{Shrunk};
ghost use Rattle.wt_form.specs.Views.{form_seen};
ghost use Rattle.wt_value.specs.Values.{IsOneBag};
ghost use Rattle.wt_instance.specs.declared.instance.Instance.{Instance};
ghost use Rattle.wt_instance.specs.Instances.{IsInstance};
ghost use Rattle.wt_instance.specs.Meeting.{Meets};
ghost use Rattle.wt_instance.specs.Rows as sides;
ghost use Rattle.wt_search.specs.Found.{IsReady};

use crate::meet::proves;
use std::alloc::{AllocError, Global};
use wt_constraint::{AtomSet, Atoms, atoms_of, has, without};
use wt_facts::Facts;
use wt_form::{Form, Prover};
use wt_symbol::Pair;
use wt_translate::form_of;

/// Decides which sets of a pair's atoms are provable by the forms that chains of steps reach.
pub struct Search {}

/// A pair's atoms and the forms of its sides, which stay the same from set to set.
#[derive(Drop)]
struct Ready {
    atoms: Atoms,
    source: Form,
    dest: Form,
}

impl Ready {
    fn of(alloc: Global, pair: &Pair) -> Result<Ready, AllocError>
        requires lawful { IsLawful (pair_of pair.now) }
        ensures { IfOk result (λ ready. IsReady (pair_of pair.now) ready) }
    {
        let atoms = atoms_of(alloc, pair)?;
        let source = form_of(alloc, &pair.source, &pair.anchors)?;
        let dest = form_of(alloc, &pair.dest, &pair.anchors)?;
        Ok(Ready {
            atoms,
            source,
            dest,
        })
    }

    /// Whether the pair is provable under a set.
    fn proves(
        &self,
        alloc: Global,
        pair: &Pair,
        set: AtomSet,
        steps: u32,
    ) -> Result<bool, AllocError>
        requires lawful { IsLawful (pair_of pair.now) }
        requires ready { IsReady (pair_of pair.now) self.now }
        ensures { IfOk result (λ yes. IsTrue yes ↔ Provable (pair_of pair.now) set steps) }
    {
        let facts = Facts::of(alloc, pair, &self.atoms, set)?;
        let proved = proves(alloc, &facts, &self.source, &self.dest, steps)?;
        Ok(proved)
    }

    /// What is left of a set when its atoms below a number are tried from the highest down.
    fn shrink(
        &self,
        alloc: Global,
        pair: &Pair,
        set: AtomSet,
        steps: u32,
        below: u32,
    ) -> Result<AtomSet, AllocError>
        requires lawful { IsLawful (pair_of pair.now) }
        requires ready { IsReady (pair_of pair.now) self.now }
        requires below { below ≤ 64 }
        ensures { IfOk result (λ left. Shrunk (pair_of pair.now) steps below set left) }
    {
        if below == 0 {
            return Ok(set);
        }
        let i = below - 1;
        if !has(set, i) {
            let left = self.shrink(alloc, pair, set, steps, i)?;
            return Ok(left);
        }
        let less = without(set, i);
        if self.proves(alloc, pair, less, steps)? {
            let left = self.shrink(alloc, pair, less, steps, i)?;
            return Ok(left);
        }
        let left = self.shrink(alloc, pair, set, steps, i)?;
        Ok(left)
    }
}

impl Search {
    /// Whether the pair is provable under the set by chains of at most so many steps. Where it is, both
    /// sides give one bag on every instance that meets the set.
    pub fn proves(alloc: Global, pair: &Pair, set: AtomSet, steps: u32) -> Result<bool, AllocError>
        requires lawful { IsLawful (pair_of pair.now) }
        ensures exact { IfOk result (λ yes. IsTrue yes ↔ Provable (pair_of pair.now) set steps) }
        ensures one_bag { IfOk result (λ yes. IsTrue yes → (I : Instance) → IsInstance (pair_of pair.now) I → Meets (pair_of pair.now) set I →
            IsOneBag (sides.rows_of (pair_of pair.now).source (pair_of pair.now).anchors I) (sides.rows_of (pair_of pair.now).dest (pair_of pair.now).anchors I)) }
    {
        let ready = Ready::of(alloc, pair)?;
        let proved = ready.proves(alloc, pair, set, steps)?;
        Ok(proved)
    }
}

impl Prover for Search {
    fn prove(
        &self,
        alloc: Global,
        pair: &Pair,
        set: AtomSet,
        steps: u32,
    ) -> Result<bool, AllocError> {
        let proved = Search::proves(alloc, pair, set, steps)?;
        Ok(proved)
    }

    fn shrink(
        &self,
        alloc: Global,
        pair: &Pair,
        set: AtomSet,
        steps: u32,
    ) -> Result<AtomSet, AllocError> {
        let ready = Ready::of(alloc, pair)?;
        let left = ready.shrink(alloc, pair, set, steps, 64)?;
        Ok(left)
    }
}
