//! What is found of a pair's sets, and whether a set is provable.
ghost use Rattle.std.specs.Prelude.{ℕ, ◌≡◌, ◌<◌, ◌⊎◌, ◌↔◌, List, IsTrue, IfOk, OnOk, IfSome, IfNone};
ghost use Rattle.wt_bag.specs.Choices.{Has};
ghost use Rattle.wt_symbol.specs.Sides.{pair_of};
ghost use Rattle.wt_symbol.specs.Lawful.{IsLawful};
ghost use Rattle.wt_constraint.specs.declared.set.AtomSet.{AtomSet};
ghost use Rattle.wt_form.specs.Under.{Provable};
ghost use Rattle.wt_form.specs.Relaxed.{LeavesOut, IsLeast};
ghost use Rattle.wt_cores.specs.Cores.{Within, IsCore, AreFound, IsNeeded};

use crate::sets::{ATOMS, lacks, with};
use std::alloc::{AllocError, Global};
use wt_constraint::{AtomSet, contains, has, without};
use wt_form::Prover;
use wt_symbol::Pair;

/// Cores of a pair, ascending, and sets that are not provable.
#[derive(Debug, Drop)]
pub struct Found {
    pub cores: Vec<AtomSet>,
    pub refused: Vec<AtomSet>,
}

/// Whether the set contains one of the cores.
fn has_core(cores: &[AtomSet], set: AtomSet) -> bool
    ensures { IsTrue result → (core : AtomSet) × Has core cores.now × Within core set }
{
    for core in cores {
        if contains(set, *core) {
            return true;
        }
    }
    false
}

/// One of the sets in which the set lies, if there is one.
fn around(refused: &[AtomSet], set: AtomSet) -> Option<AtomSet>
    ensures { IfSome result (λ other. Has other refused.now × Within set other) }
{
    for other in refused {
        if contains(*other, set) {
            return Some(*other);
        }
    }
    None
}

/// The set with the atom i where that is not provable either, else the set.
fn grown_by<P: Prover>(
    prover: &P,
    alloc: Global,
    pair: &Pair,
    steps: u32,
    all: AtomSet,
    cores: &[AtomSet],
    set: AtomSet,
    i: u32,
) -> Result<AtomSet, AllocError>
    requires lawful { IsLawful (pair_of pair.now) }
    requires below { i < 64 }
    requires unprovable { Provable (pair_of pair.now) set steps → ⊥ }
    ensures around { IfOk result (λ larger. Within set larger) }
    ensures unprovable { IfOk result (λ larger. Provable (pair_of pair.now) larger steps → ⊥) }
{
    if !lacks(all, set, i) {
        return Ok(set);
    }
    let larger = with(set, i);
    if has_core(cores, larger) {
        return Ok(set);
    }
    if prover.prove(alloc, pair, larger, steps)? {
        return Ok(set);
    }
    Ok(larger)
}

/// A set around an unprovable one that is not provable either, with as many atoms as can be added one
/// after another.
fn grown<P: Prover>(
    prover: &P,
    alloc: Global,
    pair: &Pair,
    steps: u32,
    all: AtomSet,
    cores: &[AtomSet],
    set: AtomSet,
) -> Result<AtomSet, AllocError>
    requires lawful { IsLawful (pair_of pair.now) }
    requires unprovable { Provable (pair_of pair.now) set steps → ⊥ }
    ensures around { IfOk result (λ larger. Within set larger) }
    ensures unprovable { IfOk result (λ larger. Provable (pair_of pair.now) larger steps → ⊥) }
{
    let mut larger = set;
    for i in 0..ATOMS {
        larger = grown_by(prover, alloc, pair, steps, all, cores, larger, i)?;
    }
    Ok(larger)
}

/// An unprovable set around this one, or none where the set is provable. What was found settles it
/// without a proof where it can.
pub fn refusal<P: Prover>(
    prover: &P,
    alloc: Global,
    pair: &Pair,
    steps: u32,
    all: AtomSet,
    found: &mut Found,
    set: AtomSet,
) -> Result<Option<AtomSet>, AllocError>
    requires lawful { IsLawful (pair_of pair.now) }
    requires before { AreFound (pair_of pair.now) steps found.old.cores.items found.old.refused.items }
    ensures found { OnOk result (AreFound (pair_of pair.now) steps found.new.cores.items found.new.refused.items) }
    ensures cores { OnOk result (found.new.cores.items ≡ found.old.cores.items) }
    ensures around { IfOk result (λ refused. IfSome refused (λ other. Within set other × (Provable (pair_of pair.now) other steps → ⊥))) }
    ensures none { IfOk result (λ refused. IfNone refused (Provable (pair_of pair.now) set steps)) }
{
    if let Some(other) = around(&found.refused, set) {
        return Ok(Some(other));
    }
    if has_core(&found.cores, set) {
        return Ok(None);
    }
    if prover.prove(alloc, pair, set, steps)? {
        return Ok(None);
    }
    let larger = grown(prover, alloc, pair, steps, all, &found.cores, set)?;
    found.refused.push(larger)?;
    Ok(Some(larger))
}

/// Whether the set is not provable without its atom i, if it has it.
fn needs<P: Prover>(
    prover: &P,
    alloc: Global,
    pair: &Pair,
    steps: u32,
    all: AtomSet,
    found: &mut Found,
    set: AtomSet,
    i: u32,
) -> Result<bool, AllocError>
    requires lawful { IsLawful (pair_of pair.now) }
    requires below { i < 64 }
    requires before { AreFound (pair_of pair.now) steps found.old.cores.items found.old.refused.items }
    ensures found { OnOk result (AreFound (pair_of pair.now) steps found.new.cores.items found.new.refused.items) }
    ensures cores { OnOk result (found.new.cores.items ≡ found.old.cores.items) }
    ensures exact { IfOk result (λ yes. IsTrue yes ↔ IsNeeded (pair_of pair.now) steps set i) }
{
    if !has(set, i) {
        return Ok(true);
    }
    let less = without(set, i);
    let refused = refusal(prover, alloc, pair, steps, all, found, less)?;
    Ok(refused.is_some())
}

/// Whether none of the set's sets with one atom less is provable.
pub fn is_least<P: Prover>(
    prover: &P,
    alloc: Global,
    pair: &Pair,
    steps: u32,
    all: AtomSet,
    found: &mut Found,
    set: AtomSet,
) -> Result<bool, AllocError>
    requires lawful { IsLawful (pair_of pair.now) }
    requires before { AreFound (pair_of pair.now) steps found.old.cores.items found.old.refused.items }
    ensures found { OnOk result (AreFound (pair_of pair.now) steps found.new.cores.items found.new.refused.items) }
    ensures cores { OnOk result (found.new.cores.items ≡ found.old.cores.items) }
    ensures exact { IfOk result (λ yes. IsTrue yes ↔ IsLeast (pair_of pair.now) steps set) }
{
    // so all of its atoms have numbers below 64
    prove!(set.0 <= u64::MAX);
    for i in 0..ATOMS {
        if !needs(prover, alloc, pair, steps, all, found, set, i)? {
            return Ok(false);
        }
    }
    Ok(true)
}
