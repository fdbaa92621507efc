//! A stage: the rules of a part, found by the workers, and beside them what comes before and after.
ghost use Rattle.std.specs.Prelude.{◌≡◌, ◌<◌, ◌≤◌, ◌^◌, All, length, IfOk};
ghost use Rattle.wt_board.specs.Lots.{lot_tree};
ghost use Rattle.wt_board.specs.Rules.{AreLotRules};
ghost use Rattle.wt_symbol.specs.Lawful.{IsLawful};
ghost use Rattle.wt_symbol.specs.Sides.{pair_of};
ghost use Rattle.wt_sharing.specs.Parts.{Gives};
ghost use Rattle.wt_sharing.specs.Stages.{AreLinesOf};

use crate::parts::next_part;
use std::alloc::{AllocError, Global};
use std::sync::Wait;
use std::thread::{Threads, join_mut};
use wt_discover::RuleLines;
use wt_form::Prover;
use wt_io::Gate;
use wt_pair::{Lot, Pairs};
use wt_rule::Rules;
use wt_workers::{discover_lot, lines_of_rules};

/// The lines of rules that were found before, and the next part.
#[derive(Drop)]
struct Made {
    lines: RuleLines,
    next: Option<Lot>,
}

/// The same with the rules of the part at hand.
#[derive(Drop)]
pub(crate) struct Stage {
    pub lines: RuleLines,
    pub found: Rules,
    pub next: Option<Lot>,
}

/// Makes the lines of the rules that were found before, and the next part.
fn make(alloc: Global, before: &Rules, pairs: &mut Pairs) -> Result<Made, AllocError>
    requires lawful { All (λ r. IsLawful (pair_of r.pair)) before.now }
    ensures lines { IfOk result (λ made. AreLinesOf before.now made.lines) }
    ensures next { IfOk result (λ made. Gives pairs.old pairs.new made.next) }
    ensures bounds { pairs.new.bounds ≡ pairs.old.bounds }
{
    let lines = lines_of_rules(alloc, before.as_slice())?;
    let next = next_part(pairs, alloc)?;
    Ok(Made { lines, next })
}

/// Finds the rules of a part by the workers. Beside them a thread makes the lines of the rules that were found before, and the next part.
pub(crate) fn run_stage<R: Threads + Wait + Sync, P: Prover + Sync, G: Gate + Sync>(
    rt: &R,
    prover: &P,
    alloc: Global,
    part: &Lot,
    workers: u32,
    gate: &G,
    before: &Rules,
    pairs: &mut Pairs,
) -> Result<Stage, AllocError>
    requires part { All (λ p. IsLawful (pair_of p)) part.now.pairs }
    requires few { length part.now.pairs < 2 ^ 32 }
    requires some { 0 < workers }
    requires most { workers ≤ 64 }
    requires before { All (λ r. IsLawful (pair_of r.pair)) before.now }
    ensures lines { IfOk result (λ stage. AreLinesOf before.now stage.lines) }
    ensures found { IfOk result (λ stage. AreLotRules (lot_tree part.now) stage.found) }
    ensures lawful { IfOk result (λ stage. All (λ r. IsLawful (pair_of r.pair)) stage.found) }
    ensures next { IfOk result (λ stage. Gives pairs.old pairs.new stage.next) }
    ensures bounds { pairs.new.bounds ≡ pairs.old.bounds }
{
    let (made, report) = join_mut(
        rt,
        &mut || make(alloc, before, pairs),
        &mut ||
            requires part { All (λ p. IsLawful (pair_of p)) part.now.pairs }
            requires few { length part.now.pairs < 2 ^ 32 }
            requires some { 0 < workers }
            requires most { workers ≤ 64 }
        { discover_lot(rt, alloc, part, prover, workers, gate) },
    );
    let made = made?;
    let report = report?;
    Ok(Stage {
        lines: made.lines,
        found: report.rules,
        next: made.next,
    })
}
