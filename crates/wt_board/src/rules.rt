//! The rules that a log tells.
ghost use Rattle.std.specs.Prelude.{◌≡◌, ◌≤◌, ◌++◌, ◌∷◌, [], map, IfOk, OnOk};
ghost use Rattle.wt_bag.specs.Choices.{Has};
ghost use Rattle.wt_symbol.specs.Sides.{pair_of};
ghost use Rattle.wt_symbol.specs.Lawful.{IsLawful};
ghost use Rattle.wt_cores.specs.Cores.{missing};
ghost use Rattle.wt_cores.specs.SetLists.{Ascending, Gains};
ghost use Rattle.wt_board.specs.Lots.{IsLot, lot_tree};
ghost use Rattle.wt_board.specs.Knowledge.{cores_of};
ghost use Rattle.wt_board.specs.Machine.{LogStands, Settles};
ghost use Rattle.wt_board.specs.Rules.{AreLotRules, rule_of};
ghost use Rattle.wt_board.specs.Telling.{AreNear, AddsRules};

use crate::near::left_out;
use crate::words::{Entry, Verdict};
use std::alloc::{AllocError, Global};
use wt_constraint::{AtomSet, atoms_of, full};
use wt_cores::insert;
use wt_pair::Lot;
use wt_rule::{Rule, Rules};
use wt_symbol::Pair;

/// Adds the core of the entry, if it is one of the pair and leaves out at most so many atoms.
fn add_core(
    cores: &mut Vec<AtomSet>,
    entry: Entry,
    pair: u32,
    all: AtomSet,
    depth: u32,
) -> Result<(), AllocError>
    requires { Ascending cores.old.items }
    ensures gains { OnOk result (Gains cores.old.items cores.new.items (λ s. Has s (cores_of pair (entry ∷ [])) × (missing 64 all s ≤ depth))) }
    ensures ascending { OnOk result (Ascending cores.new.items) }
{
    if entry.pair != pair {
        return Ok(());
    }
    let Verdict::Proved(core) = entry.verdict else {
        return Ok(());
    };
    if left_out(all, core) > depth {
        return Ok(());
    }
    insert(cores, core)?;
    Ok(())
}

/// The cores of the pair in the log that leave out at most so many atoms, ascending.
fn near_cores(
    alloc: Global,
    log: &[Entry],
    pair: u32,
    all: AtomSet,
    depth: u32,
) -> Result<Vec<AtomSet>, AllocError>
    ensures { IfOk result (λ cores. AreNear all depth (cores_of pair log.now) cores.items) }
{
    let mut cores = Vec::new(alloc);
    for e in log {
        add_core(&mut cores, *e, pair, all, depth)?;
    }
    Ok(cores)
}

/// Adds a rule of the pair with each of the sets.
fn push_rules(
    alloc: Global,
    rules: &mut Vec<Rule>,
    pair: &Pair,
    sets: &[AtomSet],
) -> Result<(), AllocError>
    ensures { OnOk result (map rule_of rules.new.items ≡ map rule_of rules.old.items ++ map (λ s. (pair_of pair.now, s)) sets.now) }
{
    for set in sets {
        rules.push(Rule {
            pair: pair.copy(alloc)?,
            set: *set,
        })?;
    }
    Ok(())
}

/// Adds the rules of a pair of the lot.
fn add_rules(
    alloc: Global,
    rules: &mut Vec<Rule>,
    log: &[Entry],
    number: u32,
    pair: &Pair,
    depth: u32,
) -> Result<(), AllocError>
    requires { IsLawful (pair_of pair.now) }
    ensures { OnOk result (AddsRules depth (cores_of number log.now) (pair_of pair.now) (map rule_of rules.old.items) (map rule_of rules.new.items)) }
{
    let atoms = atoms_of(alloc, pair)?;
    let sets = near_cores(alloc, log, number, full(&atoms), depth)?;
    push_rules(alloc, rules, pair, &sets)
}

/// The rules of a lot that the log settles.
pub(crate) fn rules_of_log(alloc: Global, lot: &Lot, log: &[Entry]) -> Result<Rules, AllocError>
    requires lot { IsLot (lot_tree lot.now) }
    requires stands { LogStands (lot_tree lot.now) log.now }
    requires settles { Settles (lot_tree lot.now) log.now }
    ensures { IfOk result (λ rules. AreLotRules (lot_tree lot.now) rules) }
{
    let pairs = lot.pairs.as_slice();
    let mut rules = Vec::new(alloc);
    for p in 0..pairs.len() as u32 {
        add_rules(
            alloc,
            &mut rules,
            log,
            p,
            &pairs[p as usize],
            lot.bounds.depth,
        )?;
    }
    Ok(Rules::from_vec(rules))
}
