//! The value behind a pair's lock.
ghost use Rattle.std.specs.Prelude.{◌≡◌, ◌≢◌, ◌+◌, ◌^◌, ◌<◌, ◌≤◌, length, IfOk, MatchResult, Some, slice_get, IsTrue, ◌↔◌};
ghost use Rattle.wt_symbol.specs.Sides.{pair_of};
ghost use Rattle.wt_board.specs.Lots.{IsLot, lot_tree};
ghost use Rattle.wt_board.specs.Machine.{LogStands, Settled, Settles, find_ticket};
ghost use Rattle.wt_board.specs.Boards.{AreNeeded};
ghost use Rattle.wt_board.specs.Rules.{AreLotRules};
ghost use Rattle.wt_workers.specs.Desks.{DeskClaims, VerdictFor, Posts, GivesBack, IsOf, RefusesPost};
ghost use Rattle.wt_workers.specs.Reports.{IsSettledOf};
ghost use Rattle.wt_workers.specs.Tasks.{Hands};

use crate::books::{BoardShare, Books, OwnShare};
use std::alloc::{AllocError, Global};
use std::marker::Model;
use std::sync::ledger::Ledger;
use wt_board::{Board, Entries, Event, NotClaimed, Ticket, Verdict};
use wt_constraint::AtomSet;
use wt_pair::{Bounds, Lot};
use wt_rule::Rules;
use wt_symbol::Pair;

/// Why a verdict was not posted: no claim of the ticket's number is out; or the desk's lot has at the ticket's pair number no pair,
/// another pair, or other steps than those with which the verdict was found.
#[derive(Clone, Copy, Debug, PartialEq, Eq)]
pub enum NotPosted {
    NotClaimed(NotClaimed),
    OtherLot,
}

/// A claimed set, the atoms without which it is known refused, and all atoms of its pair.
#[derive(Clone, Copy)]
pub(crate) struct Task {
    pub ticket: Ticket,
    pub needed: AtomSet,
    pub all: AtomSet,
}

/// A board of one pair, the list of its events, and its share of the first ledger. Its type keeps that the events make the board
/// what it is, and that the share's amount is the number of its logged verdicts.
#[derive(Drop)]
pub struct Desk<A: Ledger> {
    board: Board,
    events: Vec<Event>,
    share: BoardShare<A>,
}

impl<A: Ledger> Model for Desk<A> {
    ghost use Rattle.std.specs.Prelude.{◌≡◌, ◌+◌, ◌≤◌, length, vec_len, vec_capacity};
    ghost use Rattle.wt_workers.specs.Desks.{DeskTree, IsDesk};
    ghost use Rattle.std.specs.Coded.{codes};
    ghost use Rattle.wt_symbol.specs.contracts.side.Side as sides;

    ghost Value = { DeskTree };

    ghost coded = { Prim.hlevel (codes, sides.the_row.coded) };

    ghost view = { λ d. record { board = d.board; events = d.events.items; amount = d.share.amount } };

    ghost invariant = { λ d. IsDesk (record { board = d.board; events = d.events.items; amount = d.share.amount }) × (d.share.parts ≡ 1) × (vec_len d.events + length d.board.state.out ≤ vec_capacity d.events) };
}

/// Whether the lot has this pair at the number, and these steps.
fn is_of(lot: &Lot, number: u32, pair: &Pair, steps: u32) -> bool
    ensures { IsTrue result ↔ ((slice_get (lot_tree lot.now).pairs number ≡ Some (pair_of pair.now)) × (lot.now.bounds.steps ≡ steps)) }
{
    match lot.pairs.as_slice().get(number as usize) {
        Some(found) => found.same(pair) && lot.bounds.steps == steps,
        None => false,
    }
}

impl<A: Ledger> Desk<A> {
    /// The desk of a lot of one pair.
    pub(crate) fn new(alloc: Global, lot: Lot, share: BoardShare<A>) -> Result<Desk<A>, AllocError>
        requires lot { IsLot (lot_tree lot) }
        requires one { length (lot_tree lot).pairs ≡ 1 }
        requires parts { share.parts ≡ 1 }
        requires amount { share.amount ≡ 0 }
    {
        Ok(Desk {
            board: Board::new(alloc, lot)?,
            events: Vec::new(alloc),
            share,
        })
    }

    /// Claims a set of the board for a worker. Room is reserved for this event and the one that ends it.
    pub fn claim(&mut self, worker: u32) -> Result<Option<Ticket>, AllocError>
        ensures { MatchResult result (DeskClaims self.old self.new worker) (λ _. self.new ≡ self.old) }
    {
        self.events.reserve(self.board.claims_out() + 2)?;
        match self.board.claim(worker)? {
            Some(ticket) => {
                self.events.push_reserved(Event::Claimed(ticket));
                Ok(Some(ticket))
            }
            None => Ok(None),
        }
    }

    /// Posts a verdict that was found for this pair with these steps, and books it. No memory is taken.
    pub fn post<B: Ledger>(
        &mut self,
        ticket: Ticket,
        verdict: Verdict,
        pair: &Pair,
        steps: u32,
        books: &mut Books<A, B>,
        own: &mut OwnShare<B>,
    ) -> Result<(), NotPosted>
        requires parts { 0 < own.old.parts }
        requires room { books.old.total + 1 < 2 ^ 64 }
        requires verdict { VerdictFor (pair_of pair.now) steps ticket.set verdict }
        ensures { MatchResult result
            (λ _. Posts self.old self.new ticket verdict × (own.new.parts ≡ own.old.parts) × (own.new.amount ≡ own.old.amount + 1) × (own.new.amount < 2 ^ 64) × (books.new.total ≡ books.old.total + 1))
            (λ e. (self.new ≡ self.old) × (own.new ≡ own.old) × (books.new ≡ books.old) × RefusesPost self.old ticket (pair_of pair.now) steps e) }
    {
        if !self.board.is_claimed(ticket.number) {
            return Err(NotPosted::NotClaimed(NotClaimed {
                number: ticket.number,
            }));
        }
        if !is_of(self.board.lot(), ticket.pair, pair, steps) {
            return Err(NotPosted::OtherLot);
        }
        let Ok(()) = self.board.post(ticket, verdict) else {
            unreachable!();
        };
        self.events.push_reserved(Event::Posted(ticket, verdict));
        books.post(&mut self.share, own);
        Ok(())
    }

    /// Gives a claim back. No memory is taken.
    pub fn give_back<B: Ledger>(
        &mut self,
        ticket: Ticket,
        books: &mut Books<A, B>,
    ) -> Result<(), NotClaimed>
        ensures { MatchResult result
            (λ _. GivesBack self.old self.new ticket × (books.new.total ≡ books.old.total))
            (λ e. (e.number ≡ ticket.number) × (self.new ≡ self.old) × (books.new ≡ books.old) × (find_ticket ticket.number self.old.board.state.out ≡ None)) }
    {
        self.board.give_back(ticket)?;
        self.events.push_reserved(Event::GivenBack(ticket));
        books.give_back();
        Ok(())
    }

    /// Claims a set for a worker, where the board is of this pair and has these steps.
    pub(crate) fn take(
        &mut self,
        worker: u32,
        pair: &Pair,
        steps: u32,
    ) -> Result<Option<Task>, AllocError>
        ensures { IfOk result (Hands (pair_of pair.now) steps) }
    {
        if !is_of(self.board.lot(), 0, pair, steps) {
            return Ok(None);
        }
        let Some(ticket) = self.claim(worker)? else {
            return Ok(None);
        };
        Ok(Some(self.task(ticket)))
    }

    /// What a worker is told with a ticket.
    fn task(&self, ticket: Ticket) -> Task
        requires pair { ticket.pair < length (lot_tree self.now.board.lot).pairs }
        ensures ticket { result.ticket ≡ ticket }
        ensures stands { LogStands (lot_tree self.now.board.lot) self.now.board.state.log }
        ensures needed { AreNeeded ticket.pair self.now.board.state.log ticket.set result.needed }
    {
        self.board.stands();
        Task {
            ticket,
            needed: self.board.needed(ticket.pair, ticket.set),
            all: self.board.atoms(ticket.pair),
        }
    }

    /// Whether no claim is out and nothing is pending.
    pub(crate) fn is_settled(&self) -> bool
        ensures { IsTrue result ↔ Settled (lot_tree self.now.board.lot) self.now.board.state }
    {
        self.board.is_settled()
    }

    /// Whether the board is settled, and is of this pair and these bounds.
    pub(crate) fn is_settled_for(&self, pair: &Pair, bounds: &Bounds) -> bool
        ensures { IsTrue result → IsSettledOf (pair_of pair.now) bounds.now.steps bounds.now.depth self.now.board }
    {
        let lot = self.board.lot();
        if !is_of(lot, 0, pair, bounds.steps) {
            return false;
        }
        if lot.bounds.depth != bounds.depth {
            return false;
        }
        self.board.is_settled()
    }

    /// A claim that is out, if there is one.
    pub(crate) fn one_out(&self) -> Option<Ticket> {
        self.board.one_out()
    }

    /// The rules of a settled board's pair.
    pub(crate) fn rules(&self, alloc: Global) -> Result<Rules, AllocError>
        requires settles { Settles (lot_tree self.now.board.lot) self.now.board.state.log }
        ensures { IfOk result (AreLotRules (lot_tree self.now.board.lot)) }
    {
        self.board.rules(alloc)
    }

    /// The log of the board.
    pub(crate) fn log(&self, alloc: Global) -> Result<Entries, AllocError>
        ensures stands { LogStands (lot_tree self.now.board.lot) self.now.board.state.log }
        ensures log { IfOk result (λ log. log ≡ self.now.board.state.log) }
    {
        self.board.stands();
        self.board.log(alloc)
    }

    /// The share of a desk that is no longer used.
    pub(crate) fn into_share(self) -> BoardShare<A>
        ensures parts { result.parts ≡ 1 }
        ensures amount { result.amount ≡ length self.board.state.log }
    {
        let Desk {
            board: _board,
            events: _events,
            share,
        } = self;
        share
    }
}
