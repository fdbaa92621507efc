//! What is told of a lot after the join.
ghost use Rattle.std.specs.Prelude.{◌≡◌, ◌+◌, ◌++◌, map, length, IfOk, OnOk};
ghost use Rattle.wt_symbol.specs.Sides.{pair_of};
ghost use Rattle.wt_board.specs.Lots.{LotTree};
ghost use Rattle.wt_board.specs.Rules.{rule_of};
ghost use Rattle.wt_workers.specs.Renumbering.{renumber};

use std::alloc::AllocError;
use wt_board::{Entries, Entry};
use wt_rule::{Rule, Rules};
use wt_value::Seq;

/// How many verdicts each worker posted.
pub type Counts = Seq<u64>;

/// The rules of a lot's pairs, the log of all verdicts with the pairs' numbers in the lot, how many each worker posted, how many
/// there are, and how many the caller added.
#[derive(Debug, Drop)]
pub struct LotReport {
    pub rules: Rules,
    pub log: Entries,
    pub posted: Counts,
    pub logged: u64,
    pub drained: u64,
}

/// Adds rules to others.
pub(crate) fn push_rules(rules: &mut Vec<Rule>, more: Rules) -> Result<(), AllocError>
    ensures { OnOk result (rules.new.items ≡ rules.old.items ++ more) }
{
    let mut more = more.into_vec();
    rules.append(&mut more)?;
    Ok(())
}

/// Adds entries to others, with another pair number.
pub(crate) fn push_entries(
    log: &mut Vec<Entry>,
    more: &[Entry],
    pair: u32,
) -> Result<(), AllocError>
    ensures { OnOk result (log.new.items ≡ log.old.items ++ map (renumber pair) more.now) }
{
    for e in more {
        log.push(Entry {
            pair,
            set: e.set,
            verdict: e.verdict,
        })?;
    }
    Ok(())
}
