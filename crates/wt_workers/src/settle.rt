//! What the caller settles after the join.
ghost use Rattle.std.specs.Prelude.{◌≡◌, ◌+◌, ◌<◌, ◌≤◌, OnOk};
ghost use Rattle.wt_symbol.specs.Sides.{pair_of};
ghost use Rattle.wt_symbol.specs.Lawful.{IsLawful};
ghost use Rattle.wt_workers.specs.Reports.{IsSettledOf};

use crate::books::{Books, OwnShare};
use crate::desk::Desk;
use crate::verdict::decide;
use crate::work::book;
use std::alloc::{AllocError, Global};
use std::sync::Wait;
use std::sync::ledger::Ledger;
use wt_form::Prover;
use wt_pair::Bounds;
use wt_symbol::Pair;

/// Settles a desk: gives back what is still out, and proves what is pending. Where the desk is not of this pair and these bounds, or
/// no number is left for a claim, it goes on for good.
pub(crate) fn settle<A: Ledger, B: Ledger, R: Wait, P: Prover>(
    rt: &R,
    alloc: Global,
    desk: &mut Desk<A>,
    books: &mut Books<A, B>,
    prover: &P,
    pair: &Pair,
    bounds: &Bounds,
    own: &mut OwnShare<B>,
    drained: &mut u64,
) -> Result<(), AllocError>
    requires lawful { IsLawful (pair_of pair.now) }
    requires some { 0 < own.old.parts }
    requires drained { drained.old ≤ own.old.amount }
    ensures parts { own.new.parts ≡ own.old.parts }
    ensures drained { OnOk result (own.new.amount + drained.old ≡ own.old.amount + drained.new) }
    ensures settled { OnOk result (IsSettledOf (pair_of pair.now) bounds.now.steps bounds.now.depth desk.new.board) }
{
    for _ in rt.forever() {
        if desk.is_settled_for(pair, bounds) {
            return Ok(());
        }
        if let Some(ticket) = desk.one_out() {
            let _ = desk.give_back(ticket, books);
        } else if let Some(task) = desk.take(u32::MAX, pair, bounds.steps)? {
            let verdict = decide(prover, alloc, pair, bounds.steps, task)?;
            if book(desk, books, task.ticket, verdict, pair, bounds.steps, own) {
                *drained += 1;
            }
        }
    }
    unreachable!()
}
