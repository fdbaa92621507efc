//! The board of a lot.
ghost use Rattle.std.specs.Prelude.{◌≡◌, ◌<◌, ◌^◌, length, IfOk, MatchResult, IsTrue, ◌↔◌, is_some};
ghost use Rattle.wt_board.specs.declared.words.Event.TheVariants.{Posted, GivenBack};
ghost use Rattle.wt_board.specs.Lots.{IsLot, lot_tree};
ghost use Rattle.wt_board.specs.Machine.{LogStands, VerdictStands, Settled, Settles, start, find_ticket};
ghost use Rattle.wt_board.specs.Counts as spec;
ghost use Rattle.wt_board.specs.Boards.{Claims, EndsClaim, EndsNone, AreNeeded, first_out};
ghost use Rattle.wt_board.specs.Rules.{AreLotRules};

use crate::claims::{end_claim, is_claimed};
use crate::page::Page;
use crate::pages::{are_calm, choose, new_pages};
use crate::rules::rules_of_log;
use crate::words::{Entries, Entry, NotClaimed, Ticket, Verdict};
use std::alloc::{AllocError, Global};
use std::marker::Model;
use wt_constraint::AtomSet;
use wt_pair::Lot;
use wt_rule::Rules;

/// Which sets of a lot's pairs are still to be proved, which are with a worker, and what was found. Contracts see its lot and
/// the state of the machine.
#[derive(Drop)]
pub struct Board {
    lot: Lot,
    next: u64,
    out: Vec<Ticket>,
    log: Vec<Entry>,
    pages: Vec<Page>,
}

impl Model for Board {
    ghost use Rattle.std.specs.Prelude.{◌+◌, ◌^◌, ◌≤◌, vec_len, vec_capacity};
    ghost use Rattle.wt_board.specs.Lots.{IsLot, lot_tree};
    ghost use Rattle.wt_board.specs.Machine.{LogStands};
    ghost use Rattle.wt_board.specs.Keeping.{Keeps};
    ghost use Rattle.wt_board.specs.Boards.{BoardTree};
    ghost use Rattle.std.specs.Coded.{codes};
    ghost use Rattle.wt_symbol.specs.contracts.side.Side as sides;

    ghost Value = { BoardTree };

    ghost coded = { Prim.hlevel (codes, sides.the_row.coded) };

    ghost view = { λ b. record { lot = b.lot; state = record { next = b.next; out = b.out.items; log = b.log.items } } };

    ghost invariant = { λ b. IsLot (lot_tree b.lot) × LogStands (lot_tree b.lot) b.log.items × Keeps (lot_tree b.lot) b.log.items b.pages.items
        × (vec_len b.log + vec_len b.out ≤ vec_capacity b.log) × (b.next ≤ 2 ^ 63) };
}

impl Board {
    /// The board of a lot of which nothing was found yet: the set of all atoms of each pair is pending.
    pub fn new(alloc: Global, lot: Lot) -> Result<Board, AllocError>
        requires lot { IsLot (lot_tree lot) }
        ensures { IfOk result (λ board. board ≡ record { lot = lot; state = start }) }
    {
        let pages = new_pages(alloc, &lot)?;
        Ok(Board {
            lot,
            next: 1,
            out: Vec::new(alloc),
            log: Vec::new(alloc),
            pages,
        })
    }

    /// Hands a pending set out to a worker. None where nothing is pending, or where no number is left for a claim. Room is
    /// reserved for the verdict on the set.
    pub fn claim(&mut self, worker: u32) -> Result<Option<Ticket>, AllocError>
        ensures { MatchResult result (Claims self.old self.new worker) (λ _. self.new ≡ self.old) }
    {
        self.log.reserve(self.out.len() + 1)?;
        self.out.reserve(1)?;
        if self.next == 1 << 63 {
            return Ok(None);
        }
        match choose(&mut self.pages, &self.lot, &self.out, &self.log)? {
            Some((pair, set)) => {
                let ticket = Ticket {
                    number: self.next,
                    worker,
                    pair,
                    set,
                };
                self.next += 1;
                self.out.push_reserved(ticket);
                Ok(Some(ticket))
            }
            None => Ok(None),
        }
    }

    /// Logs the verdict on the ticket's set, and ends the claim of its number. No memory is taken.
    pub fn post(&mut self, ticket: Ticket, verdict: Verdict) -> Result<(), NotClaimed>
        requires verdict { VerdictStands (lot_tree self.old.lot) ticket.pair ticket.set verdict }
        ensures { MatchResult result (λ _. EndsClaim self.old self.new ticket.number (Posted ticket verdict)) (EndsNone self.old self.new ticket.number) }
    {
        let Some(_ended) = end_claim(&mut self.out, ticket.number) else {
            return Err(NotClaimed {
                number: ticket.number,
            });
        };
        self.log.push_reserved(Entry {
            pair: ticket.pair,
            set: ticket.set,
            verdict,
        });
        Ok(())
    }

    /// Ends the claim of the ticket's number; its set is pending again. No memory is taken.
    pub fn give_back(&mut self, ticket: Ticket) -> Result<(), NotClaimed>
        ensures { MatchResult result (λ _. EndsClaim self.old self.new ticket.number (GivenBack ticket)) (EndsNone self.old self.new ticket.number) }
    {
        let Some(_ended) = end_claim(&mut self.out, ticket.number) else {
            return Err(NotClaimed {
                number: ticket.number,
            });
        };
        Ok(())
    }

    /// Whether no claim is out and nothing is pending. No memory is taken.
    pub fn is_settled(&self) -> bool
        ensures { IsTrue result ↔ Settled (lot_tree self.now.lot) self.now.state }
    {
        self.out.is_empty() && are_calm(&self.pages, &self.lot, &self.out, &self.log)
    }

    /// The rules of the lot's pairs, pair after pair, where each set of their atoms is known.
    pub fn rules(&self, alloc: Global) -> Result<Rules, AllocError>
        requires settles { Settles (lot_tree self.now.lot) self.now.state.log }
        ensures { IfOk result (AreLotRules (lot_tree self.now.lot)) }
    {
        rules_of_log(alloc, &self.lot, &self.log)
    }

    /// The lot.
    pub fn lot(&self) -> &Lot
        ensures { result.now ≡ self.now.lot }
    {
        &self.lot
    }

    /// How many verdicts are in the log.
    pub fn logged(&self) -> u64
        ensures { result ≡ length self.now.state.log }
    {
        self.log.len() as u64
    }

    /// How many of them say that a set is proved.
    pub fn proved(&self) -> u64
        ensures { result ≡ spec.times_proved self.now.state.log }
    {
        count_proved(&self.log)
    }

    /// The log, in order.
    pub fn log(&self, alloc: Global) -> Result<Entries, AllocError>
        ensures { IfOk result (λ log. log ≡ self.now.state.log) }
    {
        Ok(Entries::from_vec(Vec::from_slice(alloc, &self.log)?))
    }

    /// The atoms of a set without which it is known refused, so that each of them is in every core that lies in it.
    pub fn needed(&self, pair: u32, set: AtomSet) -> AtomSet
        requires pair { pair < length (lot_tree self.now.lot).pairs }
        ensures { AreNeeded pair self.now.state.log set result }
    {
        self.pages[pair as usize].needed(&self.log, pair, set)
    }

    /// Whether a claim of this number is out.
    pub fn is_claimed(&self, number: u64) -> bool
        ensures { result ≡ is_some (find_ticket number self.now.state.out) }
    {
        is_claimed(&self.out, number)
    }

    /// How many claims are out.
    pub fn claims_out(&self) -> usize
        ensures { result ≡ length self.now.state.out }
    {
        self.out.len()
    }

    /// All atoms of a pair of the lot.
    pub fn atoms(&self, pair: u32) -> AtomSet
        requires pair { pair < length (lot_tree self.now.lot).pairs }
    {
        self.pages[pair as usize].atoms()
    }

    /// A claim that is out, if there is one.
    pub fn one_out(&self) -> Option<Ticket>
        ensures { result ≡ first_out self.now.state.out }
    {
        self.out.first().copied()
    }

    /// What the type keeps: the lot is one, and each logged verdict is true.
    pub fn stands(&self)
        ensures lot { IsLot (lot_tree self.now.lot) }
        ensures log { LogStands (lot_tree self.now.lot) self.now.state.log }
        ensures few { length self.now.state.log < 2 ^ 63 }
    {
        let _length = self.log.len();
    }
}

/// Whether the verdict says proved.
fn says_proved(verdict: Verdict) -> bool
    ensures { result ≡ spec.says_proved verdict }
{
    match verdict {
        Verdict::Proved(_) => true,
        Verdict::Refused(_) => false,
    }
}

/// How many of the entries say that a set is proved.
fn count_proved(log: &[Entry]) -> u64
    ensures { result ≡ spec.times_proved log.now }
{
    log.iter().filter(|e| says_proved(e.verdict)).count() as u64
}
