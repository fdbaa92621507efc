//! The verdict on a set, by a prover.
ghost use Rattle.std.specs.Prelude.{ℕ, ◌≡◌, ◌<◌, ◌↔◌, ◌⊎◌, IsTrue, IfOk};
ghost use Rattle.wt_constraint.specs.Sets.{HasAtom};
ghost use Rattle.wt_symbol.specs.Sides.{pair_of};
ghost use Rattle.wt_symbol.specs.Lawful.{IsLawful};
ghost use Rattle.wt_form.specs.Under.{Provable};
ghost use Rattle.wt_cores.specs.Cores.{Within, IsCore, all_atoms};
ghost use Rattle.wt_workers.specs.Desks.{VerdictFor};
ghost use Rattle.wt_workers.specs.Tasks.{AreNeededBy, IsTask};
ghost use Rattle.wt_workers.specs.Shrinking.{Shrinks};

use crate::desk::Task;
use std::alloc::{AllocError, Global};
use wt_board::Verdict;
use wt_constraint::{AtomSet, has, without};
use wt_form::Prover;
use wt_symbol::Pair;

/// The number of atoms that a set may have.
const ATOMS: u32 = 64;

/// The set without the atom i, if it is provable without it and the atom is not among those that it needs.
fn shrunk_by<P: Prover>(
    prover: &P,
    alloc: Global,
    pair: &Pair,
    steps: u32,
    needed: AtomSet,
    set: AtomSet,
    i: u32,
) -> Result<AtomSet, AllocError>
    requires lawful { IsLawful (pair_of pair.now) }
    requires below { i < 64 }
    requires provable { Provable (pair_of pair.now) set steps }
    requires needed { AreNeededBy (pair_of pair.now) steps set needed }
    ensures { IfOk result (Shrinks (pair_of pair.now) steps i set) }
{
    if !has(set, i) {
        return Ok(set);
    }
    if has(needed, i) {
        return Ok(set);
    }
    let less = without(set, i);
    if prover.prove(alloc, pair, less, steps)? {
        return Ok(less);
    }
    Ok(set)
}

/// A core in a provable set, found by leaving out one atom after another that the set does not need.
fn core_in<P: Prover>(
    prover: &P,
    alloc: Global,
    pair: &Pair,
    steps: u32,
    needed: AtomSet,
    set: AtomSet,
) -> Result<AtomSet, AllocError>
    requires lawful { IsLawful (pair_of pair.now) }
    requires provable { Provable (pair_of pair.now) set steps }
    requires needed { AreNeededBy (pair_of pair.now) steps set needed }
    ensures within { IfOk result (λ core. Within core set) }
    ensures core { IfOk result (IsCore (pair_of pair.now) steps) }
{
    // so all of its atoms have numbers below 64
    prove!(set.0 <= u64::MAX);
    let mut core = set;
    for i in 0..ATOMS {
        core = shrunk_by(prover, alloc, pair, steps, needed, core, i)?;
    }
    Ok(core)
}

/// The set with the i-th atom.
fn with(set: AtomSet, i: u32) -> AtomSet
    requires { i < 64 }
    ensures { (j : ℕ) → HasAtom result j ↔ (HasAtom set j ⊎ (j ≡ i)) }
{
    AtomSet(set.0 | 1 << i)
}

/// The set with the atom i, where that is not provable either, else the set.
fn grown_by<P: Prover>(
    prover: &P,
    alloc: Global,
    pair: &Pair,
    steps: u32,
    all: AtomSet,
    set: AtomSet,
    i: u32,
) -> Result<AtomSet, AllocError>
    requires lawful { IsLawful (pair_of pair.now) }
    requires below { i < 64 }
    requires unprovable { Provable (pair_of pair.now) set steps → ⊥ }
    ensures around { IfOk result (λ larger. Within set larger) }
    ensures unprovable { IfOk result (λ larger. Provable (pair_of pair.now) larger steps → ⊥) }
{
    if !has(all, i) || has(set, i) {
        return Ok(set);
    }
    let larger = with(set, i);
    if prover.prove(alloc, pair, larger, steps)? {
        return Ok(set);
    }
    Ok(larger)
}

/// A set around an unprovable one that is not provable either, with as many atoms as can be added one after another.
fn grown<P: Prover>(
    prover: &P,
    alloc: Global,
    pair: &Pair,
    steps: u32,
    all: AtomSet,
    set: AtomSet,
) -> Result<AtomSet, AllocError>
    requires lawful { IsLawful (pair_of pair.now) }
    requires unprovable { Provable (pair_of pair.now) set steps → ⊥ }
    ensures around { IfOk result (λ larger. Within set larger) }
    ensures unprovable { IfOk result (λ larger. Provable (pair_of pair.now) larger steps → ⊥) }
{
    let mut larger = set;
    for i in 0..ATOMS {
        larger = grown_by(prover, alloc, pair, steps, all, larger, i)?;
    }
    Ok(larger)
}

/// The verdict on the task's set: a core in it where it is provable, else a set around it that is not provable either. The first
/// set of a board is the empty one: there all atoms are asked first, since where they do not prove the pair no set does.
pub(crate) fn decide<P: Prover>(
    prover: &P,
    alloc: Global,
    pair: &Pair,
    steps: u32,
    task: Task,
) -> Result<Verdict, AllocError>
    requires lawful { IsLawful (pair_of pair.now) }
    requires task { IsTask (pair_of pair.now) steps task }
    ensures { IfOk result (VerdictFor (pair_of pair.now) steps task.ticket.set) }
{
    let set = task.ticket.set;
    if set.0 == 0 && !prover.prove(alloc, pair, task.all, steps)? {
        return Ok(Verdict::Refused(task.all));
    }
    if prover.prove(alloc, pair, set, steps)? {
        let core = core_in(prover, alloc, pair, steps, task.needed, set)?;
        return Ok(Verdict::Proved(core));
    }
    let refused = grown(prover, alloc, pair, steps, task.all, set)?;
    Ok(Verdict::Refused(refused))
}
