//! What the caller does after the join.
ghost use Rattle.std.specs.Prelude.{All, ◌≡◌, ◌+◌, ◌<◌, ◌≤◌, ◌^◌, IfOk, OnOk, length, sum, vec_len};
ghost use Rattle.wt_symbol.specs.Sides.{pair_of};
ghost use Rattle.wt_symbol.specs.Lawful.{IsLawful};
ghost use Rattle.wt_board.specs.Lots.{lot_tree};
ghost use Rattle.wt_workers.specs.Reports.{AreOfFirst, Reported};

use crate::books::{BoardShare, Books, OwnShare};
use crate::desk::Desk;
use crate::report::{Counts, LotReport, push_entries, push_rules};
use crate::settle::settle;
use std::alloc::{AllocError, Global};
use std::sync::ledger::Ledger;
use std::sync::{Mutex, Wait};
use wt_board::{Entries, Entry};
use wt_form::Prover;
use wt_pair::Lot;
use wt_rule::{Rule, Rules};

/// The rules and the log of the first pairs, and how many verdicts the caller added.
#[derive(Drop)]
pub(crate) struct Told {
    pub rules: Vec<Rule>,
    pub log: Vec<Entry>,
    pub drained: u64,
}

/// Settles the desk of the pair of a number, and adds its rules and its log.
fn tell<A: Ledger, B: Ledger, R: Wait, P: Prover>(
    rt: &R,
    alloc: Global,
    lot: &Lot,
    k: u32,
    desk: Desk<A>,
    books: &mut Books<A, B>,
    prover: &P,
    boards: &mut BoardShare<A>,
    own: &mut OwnShare<B>,
    told: &mut Told,
) -> Result<(), AllocError>
    requires lawful { All (λ p. IsLawful (pair_of p)) lot.now.pairs }
    requires few { length lot.now.pairs < 2 ^ 32 }
    requires within { k < length lot.now.pairs }
    requires some { 0 < own.old.parts }
    requires logged { boards.old.amount ≡ length told.old.log.items }
    requires drained { told.old.drained ≤ own.old.amount }
    requires first { AreOfFirst (lot_tree lot.now) k told.old.rules.items told.old.log.items }
    ensures parts { own.new.parts ≡ own.old.parts }
    ensures boards { OnOk result (boards.new.parts ≡ boards.old.parts + 1) }
    ensures logged { OnOk result (boards.new.amount ≡ length told.new.log.items) }
    ensures drained { OnOk result (own.new.amount + told.old.drained ≡ own.old.amount + told.new.drained) }
    ensures first { OnOk result (AreOfFirst (lot_tree lot.now) (k + 1) told.new.rules.items told.new.log.items) }
{
    let mut desk = desk;
    let pair = &lot.pairs.as_slice()[k as usize];
    settle(
        rt,
        alloc,
        &mut desk,
        books,
        prover,
        pair,
        &lot.bounds,
        own,
        &mut told.drained,
    )?;
    let rules = desk.rules(alloc)?;
    push_rules(&mut told.rules, rules)?;
    let log = desk.log(alloc)?;
    push_entries(&mut told.log, log.as_slice(), k)?;
    boards.merge(desk.into_share());
    Ok(())
}

/// Settles all desks, and tells of them in the order of their pairs.
fn tell_all<A: Ledger, B: Ledger, R: Wait, P: Prover>(
    rt: &R,
    alloc: Global,
    lot: &Lot,
    desks: Vec<Mutex<Desk<A>>>,
    books: &mut Books<A, B>,
    prover: &P,
    boards: &mut BoardShare<A>,
    own: &mut OwnShare<B>,
) -> Result<Told, AllocError>
    requires lawful { All (λ p. IsLawful (pair_of p)) lot.now.pairs }
    requires few { length lot.now.pairs < 2 ^ 32 }
    requires many { vec_len desks ≡ length lot.now.pairs }
    requires some { 0 < own.old.parts }
    requires none { boards.old.amount ≡ 0 }
    ensures parts { own.new.parts ≡ own.old.parts }
    ensures boards { OnOk result (boards.new.parts ≡ boards.old.parts + length lot.now.pairs) }
    ensures logged { IfOk result (λ told. boards.new.amount ≡ length told.log.items) }
    ensures drained { IfOk result (λ told. own.new.amount ≡ own.old.amount + told.drained) }
    ensures all { IfOk result (λ told. AreOfFirst (lot_tree lot.now) (length lot.now.pairs) told.rules.items told.log.items) }
{
    let mut told = Told {
        rules: Vec::new(alloc),
        log: Vec::new(alloc),
        drained: 0,
    };
    let mut desks = desks;
    desks.reverse();
    let mut k = 0;
    while let Some(desk) = desks.pop() {
        tell(
            rt,
            alloc,
            lot,
            k,
            desk.into_inner(),
            books,
            prover,
            boards,
            own,
            &mut told,
        )?;
        k += 1;
    }
    Ok(told)
}

/// Settles what the workers left, and reports.
pub(crate) fn finish<A: Ledger, B: Ledger, R: Wait, P: Prover>(
    rt: &R,
    alloc: Global,
    lot: &Lot,
    desks: Vec<Mutex<Desk<A>>>,
    books: Books<A, B>,
    prover: &P,
    boards: BoardShare<A>,
    own: OwnShare<B>,
    posted: Vec<u64>,
) -> Result<LotReport, AllocError>
    requires lawful { All (λ p. IsLawful (pair_of p)) lot.now.pairs }
    requires few { length lot.now.pairs < 2 ^ 32 }
    requires many { vec_len desks ≡ length lot.now.pairs }
    requires board_parts { boards.parts + length lot.now.pairs ≡ A.parts }
    requires none { boards.amount ≡ 0 }
    requires own_parts { own.parts ≡ B.parts }
    requires some { 0 < own.parts }
    requires amount { own.amount ≡ sum posted.items }
    ensures { IfOk result (Reported (lot_tree lot.now) (vec_len posted)) }
{
    let mut books = books;
    let mut boards = boards;
    let mut own = own;
    let told = tell_all(
        rt,
        alloc,
        lot,
        desks,
        &mut books,
        prover,
        &mut boards,
        &mut own,
    )?;
    books.compare(&mut boards, &mut own);
    Ok(LotReport {
        logged: told.log.len() as u64,
        rules: Rules::from_vec(told.rules),
        log: Entries::from_vec(told.log),
        posted: Counts::from_vec(posted),
        drained: told.drained,
    })
}
