//! The books of two ledgers: what all boards logged, and what all workers posted.
ghost use Rattle.std.specs.Prelude.{◌≡◌, ◌+◌, ◌<◌, ◌^◌};

use std::sync::ledger::{Book, Ledger, Share};

/// A board's share of the first ledger: its amount is the number of the board's logged verdicts.
pub type BoardShare<A> = Share<A>;

/// A worker's share of the second ledger, or the caller's: its amount is the number of verdicts that its holder posted.
pub type OwnShare<B> = Share<B>;

/// Both books, whose totals are equal, and a count of the claims that ended, which wraps.
#[derive(Drop)]
pub struct Books<A: Ledger, B: Ledger> {
    boards: Book<A>,
    owns: Book<B>,
    total: u64,
    ended: u64,
    ghost same: { boards.total ≡ owns.total },
    ghost counted: { total ≡ boards.total },
}

impl<A: Ledger, B: Ledger> Books<A, B> {
    /// Two books of which nothing is booked yet.
    pub(crate) fn new(boards: Book<A>, owns: Book<B>) -> Books<A, B>
        requires boards { boards.total ≡ 0 }
        requires owns { owns.total ≡ 0 }
    {
        Books {
            boards,
            owns,
            total: 0,
            ended: 0,
        }
    }

    /// Books a verdict: one more of the board's share, of the worker's, and of both books; and one more claim has ended.
    pub fn post(&mut self, board: &mut BoardShare<A>, own: &mut OwnShare<B>)
        requires board { 0 < board.old.parts }
        requires own { 0 < own.old.parts }
        requires room { self.old.total + 1 < 2 ^ 64 }
        ensures total { self.new.total ≡ self.old.total + 1 }
        ensures board { (board.new.amount ≡ board.old.amount + 1) × (board.new.parts ≡ board.old.parts) }
        ensures own { (own.new.amount ≡ own.old.amount + 1) × (own.new.parts ≡ own.old.parts) }
        ensures bound { own.new.amount < 2 ^ 64 }
    {
        let Books {
            boards,
            owns,
            total,
            ended,
        } = self;
        boards.add(board, 1);
        owns.add(own, 1);
        owns.audit(own);
        *total += 1;
        *ended = ended.wrapping_add(1);
    }

    /// One more claim has ended, and nothing is booked.
    pub fn give_back(&mut self)
        ensures { self.new.total ≡ self.old.total }
    {
        self.ended = self.ended.wrapping_add(1);
    }

    /// The total of each book.
    pub fn total(&self) -> u64
        ensures { result ≡ self.now.total }
    {
        self.total
    }

    /// How many claims have ended. It wraps.
    pub fn ended(&self) -> u64 {
        self.ended
    }

    /// What all boards have together is what all workers have together.
    pub(crate) fn compare(&mut self, boards: &mut BoardShare<A>, owns: &mut OwnShare<B>)
        requires boards { boards.old.parts ≡ A.parts }
        requires owns { owns.old.parts ≡ B.parts }
        ensures equal { boards.old.amount ≡ owns.old.amount }
        ensures bound { boards.old.amount < 2 ^ 64 }
    {
        self.boards.audit(boards);
        self.owns.audit(owns);
        let _total = self.total;
    }
}
