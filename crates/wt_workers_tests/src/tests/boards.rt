//! Boards that one thread works at.
ghost use Rattle.std.specs.Prelude.{◌≡◌, Some, slice_get, IfOk};
ghost use Rattle.wt_board.specs.Lots.{lot_tree};
ghost use Rattle.wt_board.specs.Machine.{IsTrueOf, VerdictStands};
ghost use Rattle.wt_cores.specs.Cores.{Within, all_atoms};
ghost use Rattle.wt_symbol.specs.Sides.{PairTree, pair_of};
ghost use Rattle.wt_symbol.specs.Lawful.{IsLawful};

use super::five_cores::five_cores;
use super::joins;
use std::alloc::{AllocError, Global};
use std::test::*;
use wt_board::{Board, Entry, NotClaimed, Ticket, Verdict};
use wt_constraint::AtomSet;
use wt_form::Prover;
use wt_search::Search;
use wt_symbol::Pair;

/// The verdict on a set of a pair: what a provable set shrinks to, or that it is not provable.
fn verdict<P: Prover>(
    prover: &P,
    alloc: Global,
    pair: &Pair,
    set: AtomSet,
    steps: u32,
) -> Result<Verdict, AllocError>
    requires { IsLawful (pair_of pair.now) }
    ensures { IfOk result (IsTrueOf (pair_of pair.now) steps set) }
{
    if !prover.prove(alloc, pair, set, steps)? {
        return Ok(Verdict::Refused(set));
    }
    // so all of its atoms have numbers below 64
    prove!(set.0 <= u64::MAX);
    let core = prover.shrink(alloc, pair, set, steps)?;
    Ok(Verdict::Proved(core))
}

/// The verdict on a ticket's set.
fn verdict_on(alloc: Global, board: &Board, ticket: Ticket) -> Result<Verdict, AllocError>
    requires { (pair : PairTree) × (slice_get (lot_tree board.now.lot).pairs ticket.pair ≡ Some pair) × Within ticket.set (all_atoms pair) }
    ensures { IfOk result (VerdictStands (lot_tree board.now.lot) ticket.pair ticket.set) }
{
    board.stands();
    let lot = board.lot();
    let pair = &lot.pairs.as_slice()[ticket.pair as usize];
    verdict(&Search {}, alloc, pair, ticket.set, lot.bounds.steps)
}

/// Whether the first claim is posted once, and is then out no more.
fn posts_once(alloc: Global, board: &mut Board) -> Result<bool, AllocError> {
    let Some(ticket) = board.claim(0)? else {
        return Ok(false);
    };
    let verdict = verdict_on(alloc, board, ticket)?;
    let first = board.post(ticket, verdict);
    let again = board.post(ticket, verdict);
    let back = board.give_back(ticket);
    let entry = Entry {
        pair: ticket.pair,
        set: ticket.set,
        verdict,
    };
    let none = NotClaimed { number: 1 };
    Ok(
        first == Ok(())
            && again == Err(none)
            && back == Err(none)
            && board.log(alloc)?.as_slice() == [entry].as_slice(),
    )
}

#[test]
fn a_claim_is_posted_once(rt: HostRuntime) -> Result<(), Fail> {
    let mut board = Board::new(rt.alloc(), joins(rt.alloc())?)?;
    assert!(rt; posts_once(rt.alloc(), &mut board)?);
    Ok(())
}

/// Claims a set and posts the verdict on it, if one is pending.
fn turn(alloc: Global, board: &mut Board) -> Result<bool, AllocError> {
    let Some(ticket) = board.claim(0)? else {
        return Ok(false);
    };
    let verdict = verdict_on(alloc, board, ticket)?;
    Ok(board.post(ticket, verdict).is_ok())
}

/// Works until nothing is pending, for at most so many turns.
fn work(alloc: Global, board: &mut Board) -> Result<(), AllocError> {
    for _ in 0..1_000u32 {
        if !turn(alloc, board)? {
            return Ok(());
        }
    }
    Ok(())
}

/// Whether the board is settled, and its rules have these sets.
fn tells(alloc: Global, board: &Board, sets: &[u64]) -> Result<bool, AllocError> {
    if !board.is_settled() {
        return Ok(false);
    }
    let rules = board.rules(alloc)?;
    Ok(
        rules
            .as_slice()
            .iter()
            .map(|rule| rule.set.0)
            .eq(sets.iter().copied()),
    )
}

#[test]
fn a_board_finds_each_core_once(rt: HostRuntime) -> Result<(), Fail> {
    let mut board = Board::new(rt.alloc(), five_cores(rt.alloc())?)?;
    work(rt.alloc(), &mut board)?;
    assert_eq!(rt; board.proved(), 5);
    assert!(rt; tells(rt.alloc(), &board, &[21, 27, 39, 41, 64])?);
    Ok(())
}
