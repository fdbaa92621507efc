//! The search for all cores, from sets of few atoms up.
ghost use Rattle.std.specs.Prelude.{ℕ, ◌≡◌, ◌<◌, ◌+◌, ◌⊎◌, ◌↔◌, List, OnOk, IfOk};
ghost use Rattle.wt_bag.specs.Choices.{Has};
ghost use Rattle.wt_symbol.specs.Sides.{pair_of};
ghost use Rattle.wt_symbol.specs.Lawful.{IsLawful};
ghost use Rattle.wt_constraint.specs.declared.set.AtomSet.{AtomSet};
ghost use Rattle.wt_constraint.specs.Sets.{HasAtom};
ghost use Rattle.wt_form.specs.Under.{Provable};
ghost use Rattle.wt_form.specs.Relaxed.{IsLeast};
ghost use Rattle.wt_cores.specs.Cores.{Within, AreFound, AllBetween, AllWith, Given, all_atoms};

use crate::found::{Found, is_least, refusal};
use crate::ordered::insert;
use crate::sets::{ATOMS, lacks, shared, with};
use std::alloc::{AllocError, Global};
use wt_constraint::AtomSet;
use wt_form::Prover;
use wt_symbol::Pair;

/// Finds each core that has the atoms of a set and others of the free ones alone.
///
/// A core that is none of an unprovable set has an atom that this one lacks. So each of the free atoms
/// that it lacks is added in turn, and is free for those after it.
#[cycle(search)]
pub fn search<P: Prover>(
    prover: &P,
    alloc: Global,
    pair: &Pair,
    steps: u32,
    all: AtomSet,
    found: &mut Found,
    set: AtomSet,
    free: AtomSet,
) -> Result<(), AllocError>
    requires lawful { IsLawful (pair_of pair.now) }
    requires whole { all ≡ all_atoms (pair_of pair.now) }
    requires within { Within set all }
    requires free { Within free all }
    requires least { IsLeast (pair_of pair.now) steps set }
    requires before { AreFound (pair_of pair.now) steps found.old.cores.items found.old.refused.items }
    ensures found { OnOk result (AreFound (pair_of pair.now) steps found.new.cores.items found.new.refused.items) }
    ensures kept { OnOk result ((s : AtomSet) → Has s found.old.cores.items → Has s found.new.cores.items) }
    ensures all { OnOk result (AllBetween (pair_of pair.now) steps set free found.new.cores.items) }
{
    // so all of its atoms have numbers below 64
    prove!(set.0 <= u64::MAX);
    match refusal(prover, alloc, &*pair, steps, all, found, set)? {
        None => {
            insert(&mut found.cores, set)?;
            Ok(())
        }
        Some(refused) => {
            branch(prover, alloc, &*pair, steps, all, found, set, free, refused)?;
            Ok(())
        }
    }
}

/// The same where the set lies in an unprovable one.
#[cycle(search)]
fn branch<P: Prover>(
    prover: &P,
    alloc: Global,
    pair: &Pair,
    steps: u32,
    all: AtomSet,
    found: &mut Found,
    set: AtomSet,
    free: AtomSet,
    refused: AtomSet,
) -> Result<(), AllocError>
    requires lawful { IsLawful (pair_of pair.now) }
    requires whole { all ≡ all_atoms (pair_of pair.now) }
    requires within { Within set all }
    requires free { Within free all }
    requires around { Within set refused }
    requires unprovable { Provable (pair_of pair.now) refused steps → ⊥ }
    requires before { AreFound (pair_of pair.now) steps found.old.cores.items found.old.refused.items }
    ensures found { OnOk result (AreFound (pair_of pair.now) steps found.new.cores.items found.new.refused.items) }
    ensures kept { OnOk result ((s : AtomSet) → Has s found.old.cores.items → Has s found.new.cores.items) }
    ensures all { OnOk result (AllBetween (pair_of pair.now) steps set free found.new.cores.items) }
{
    // so all of its atoms have numbers below 64
    prove!(free.0 <= u64::MAX);
    let mut given = shared(free, refused);
    for i in 0..ATOMS {
        given = branch_by(
            prover, alloc, &*pair, steps, all, found, set, free, refused, given, i,
        )?;
    }
    Ok(())
}

/// Goes on to the atom i, if it is a free one that the unprovable set lacks, and gives it to those after it.
#[cycle(search)]
fn branch_by<P: Prover>(
    prover: &P,
    alloc: Global,
    pair: &Pair,
    steps: u32,
    all: AtomSet,
    found: &mut Found,
    set: AtomSet,
    free: AtomSet,
    refused: AtomSet,
    given: AtomSet,
    i: u32,
) -> Result<AtomSet, AllocError>
    requires lawful { IsLawful (pair_of pair.now) }
    requires whole { all ≡ all_atoms (pair_of pair.now) }
    requires within { Within set all }
    requires free { Within free all }
    requires around { Within set refused }
    requires below { i < 64 }
    requires given { Given free refused i given }
    requires between { AllBetween (pair_of pair.now) steps set given found.old.cores.items }
    requires before { AreFound (pair_of pair.now) steps found.old.cores.items found.old.refused.items }
    ensures found { OnOk result (AreFound (pair_of pair.now) steps found.new.cores.items found.new.refused.items) }
    ensures kept { OnOk result ((s : AtomSet) → Has s found.old.cores.items → Has s found.new.cores.items) }
    ensures given { IfOk result (λ next. Given free refused (i + 1) next) }
    ensures between { IfOk result (λ next. AllBetween (pair_of pair.now) steps set next found.new.cores.items) }
{
    if !lacks(free, refused, i) {
        return Ok(given);
    }
    branch_at(prover, alloc, &*pair, steps, all, found, set, given, i)?;
    Ok(with(given, i))
}

/// Finds those that have the atom i too.
#[cycle(search)]
fn branch_at<P: Prover>(
    prover: &P,
    alloc: Global,
    pair: &Pair,
    steps: u32,
    all: AtomSet,
    found: &mut Found,
    set: AtomSet,
    free: AtomSet,
    i: u32,
) -> Result<(), AllocError>
    requires lawful { IsLawful (pair_of pair.now) }
    requires whole { all ≡ all_atoms (pair_of pair.now) }
    requires within { Within set all }
    requires free { Within free all }
    requires below { i < 64 }
    requires there { HasAtom all i }
    requires new { HasAtom set i → ⊥ }
    requires before { AreFound (pair_of pair.now) steps found.old.cores.items found.old.refused.items }
    ensures found { OnOk result (AreFound (pair_of pair.now) steps found.new.cores.items found.new.refused.items) }
    ensures kept { OnOk result ((s : AtomSet) → Has s found.old.cores.items → Has s found.new.cores.items) }
    ensures all { OnOk result (AllWith (pair_of pair.now) steps set free i found.new.cores.items) }
{
    let larger = with(set, i);
    // so all of its atoms have numbers below 64
    prove!(larger.0 <= u64::MAX);
    if !is_least(prover, alloc, &*pair, steps, all, found, larger)? {
        return Ok(());
    }
    search(prover, alloc, &*pair, steps, all, found, larger, free)?;
    Ok(())
}
