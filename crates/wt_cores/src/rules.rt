//! The rules of a pair.
ghost use Rattle.std.specs.Prelude.{ℕ, ◌≡◌, ◌≤◌, ◌<◌, ◌^◌, ◌↔◌, ◌⊎◌, List, length, IsTrue, OnOk, IfOk};
ghost use Rattle.wt_bag.specs.Choices.{Has};
ghost use Rattle.wt_symbol.specs.Sides.{pair_of};
ghost use Rattle.wt_symbol.specs.Lawful.{IsLawful};
ghost use Rattle.wt_constraint.specs.declared.set.AtomSet.{AtomSet};
ghost use Rattle.wt_constraint.specs.Sets.{HasAtom};
ghost use Rattle.wt_constraint.specs.Atoms.{atoms_of_pair};
ghost use Rattle.wt_form.specs.Relaxed.{AreRules};
ghost use Rattle.wt_cores.specs.SetLists.{Ascending, Gains};
ghost use Rattle.wt_cores.specs.Cores.{Within, IsCore, IsCoreWithin, AreFound, all_atoms, missing};

use crate::found::Found;
use crate::ordered::insert;
use crate::search::search;
use crate::sets::{ATOMS, lacks};
use std::alloc::{AllocError, Global};
use wt_constraint::{AtomSet, atoms_of, full};
use wt_form::Prover;
use wt_symbol::Pair;
use wt_value::Seq;

/// Sets of a pair's atoms.
pub type AtomSets = Seq<AtomSet>;

/// How many of the atoms the set leaves out.
fn left_out(all: AtomSet, set: AtomSet) -> u32
    ensures { result ≡ missing 64 all set }
{
    let mut count = 0;
    for i in 0..ATOMS {
        if lacks(all, set, i) {
            count += 1;
        }
    }
    count
}

/// Adds the set, if it leaves out at most so many atoms.
fn push_within(
    all: AtomSet,
    depth: u32,
    set: AtomSet,
    rules: &mut Vec<AtomSet>,
) -> Result<(), AllocError>
    requires { Ascending rules.old.items }
    ensures gains { OnOk result (Gains rules.old.items rules.new.items (λ s. (s ≡ set) × (missing 64 all s ≤ depth))) }
    ensures ascending { OnOk result (Ascending rules.new.items) }
{
    if left_out(all, set) > depth {
        return Ok(());
    }
    insert(rules, set)?;
    Ok(())
}

/// Those of the sets that leave out at most so many atoms.
fn those_within(
    alloc: Global,
    all: AtomSet,
    depth: u32,
    sets: &[AtomSet],
) -> Result<Vec<AtomSet>, AllocError>
    ensures sets { IfOk result (λ rules. (s : AtomSet) → (Has s rules.items ↔ (Has s sets.now × (missing 64 all s ≤ depth)))) }
    ensures ascending { IfOk result (λ rules. Ascending rules.items) }
{
    let mut rules = Vec::new(alloc);
    for set in sets {
        push_within(all, depth, *set, &mut rules)?;
    }
    Ok(rules)
}

/// All cores of a pair.
fn find_cores<P: Prover>(
    prover: &P,
    alloc: Global,
    pair: &Pair,
    all: AtomSet,
    steps: u32,
) -> Result<Found, AllocError>
    requires lawful { IsLawful (pair_of pair.now) }
    requires whole { all ≡ all_atoms (pair_of pair.now) }
    ensures found { IfOk result (λ found. AreFound (pair_of pair.now) steps found.cores.items found.refused.items) }
    ensures all { IfOk result (λ found. (s : AtomSet) → IsCore (pair_of pair.now) steps s → Within s all → Has s found.cores.items) }
{
    let mut found = Found {
        cores: Vec::new(alloc),
        refused: Vec::new(alloc),
    };
    if !prover.prove(alloc, pair, all, steps)? {
        return Ok(found);
    }
    search(prover, alloc, pair, steps, all, &mut found, AtomSet(0), all)?;
    Ok(found)
}

/// The rules of a pair, ascending as numbers: the sets that are reached from the set of all atoms by
/// dropping at most `depth` of them, one after another, with the pair provable by at most `steps`
/// steps under each, and under none with one atom less.
pub fn rules_of_pair<P: Prover>(
    prover: &P,
    alloc: Global,
    pair: &Pair,
    depth: u32,
    steps: u32,
) -> Result<AtomSets, AllocError>
    requires lawful { IsLawful (pair_of pair.now) }
    ensures { IfOk result (λ rules. AreRules (pair_of pair.now) steps depth rules) }
{
    let atoms = atoms_of(alloc, pair)?;
    let all = full(&atoms);
    let found = find_cores(prover, alloc, pair, all, steps)?;
    let rules = those_within(alloc, all, depth, &found.cores)?;
    Ok(Seq::from_vec(rules))
}
