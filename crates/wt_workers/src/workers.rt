//! All workers of a lot.
ghost use Rattle.std.specs.Prelude.{◌≡◌, ◌+◌, ◌<◌, ◌≤◌, ◌^◌, ◌∷◌, [], All, IfOk, OnOk, length, sum, vec_len};
ghost use Rattle.wt_symbol.specs.Sides.{pair_of};
ghost use Rattle.wt_symbol.specs.Lawful.{IsLawful};
ghost use Rattle.wt_board.specs.Lots.{lot_tree};
ghost use Rattle.wt_workers.specs.Reports.{Reported};

use crate::books::{BoardShare, Books, OwnShare};
use crate::desk::Desk;
use crate::finish::finish;
use crate::gather::{gather, seats};
use crate::report::LotReport;
use crate::work::{Posted, work};
use std::alloc::{AllocError, Global};
use std::marker::Brand;
use std::sync::ledger::{Blank, Ledger};
use std::sync::{Condvar, Mutex, Wait};
use std::thread;
use std::thread::Threads;
use wt_deal::deal;
use wt_form::Prover;
use wt_io::Gate;
use wt_pair::{Lot, PairList};
use wt_symbol::Pair;

/// The lot of one pair of a lot.
fn lot_of_one(alloc: Global, lot: &Lot, pair: &Pair) -> Result<Lot, AllocError>
    ensures { IfOk result (λ one. lot_tree one ≡ record { bounds = lot.now.bounds; first = lot.now.first; pairs = pair_of pair.now ∷ [] }) }
{
    let mut pairs = PairList::new(alloc);
    pairs.push(pair.copy(alloc)?)?;
    Ok(Lot {
        bounds: lot.bounds,
        first: lot.first,
        pairs,
    })
}

/// The desk of a pair, with one part of the shares.
fn desk_of<A: Ledger>(
    alloc: Global,
    lot: &Lot,
    pair: &Pair,
    all: &mut BoardShare<A>,
) -> Result<Desk<A>, AllocError>
    requires lawful { IsLawful (pair_of pair.now) }
    requires parts { 1 < all.old.parts }
    requires amount { all.old.amount ≡ 0 }
    ensures parts { OnOk result (all.new.parts + 1 ≡ all.old.parts) }
    ensures amount { all.new.amount ≡ 0 }
{
    let one = lot_of_one(alloc, lot, pair)?;
    let share = all.split_off(1, 0);
    Desk::new(alloc, one, share)
}

/// A desk for each pair of the lot, under a lock of its own.
fn desks_of<A: Ledger>(
    alloc: Global,
    lot: &Lot,
    all: &mut BoardShare<A>,
) -> Result<Vec<Mutex<Desk<A>>>, AllocError>
    requires lawful { All (λ p. IsLawful (pair_of p)) lot.now.pairs }
    requires parts { all.old.parts ≡ length lot.now.pairs + 1 }
    requires amount { all.old.amount ≡ 0 }
    ensures len { IfOk result (λ desks. vec_len desks ≡ length lot.now.pairs) }
    ensures parts { OnOk result (all.new.parts ≡ 1) }
    ensures amount { all.new.amount ≡ 0 }
{
    let mut desks = Vec::new(alloc);
    for pair in lot.pairs.as_slice() {
        desks.push(Mutex::new(desk_of(alloc, lot, pair, all)?))?;
    }
    Ok(desks)
}

/// Lets the workers work, and waits for their end.
fn work_all<
    A: Ledger + Send + Sync,
    B: Ledger + Send + Sync,
    R: Threads + Wait + Sync,
    P: Prover + Sync,
    G: Gate + Sync,
>(
    rt: &R,
    alloc: Global,
    lot: &Lot,
    desks: &[Mutex<Desk<A>>],
    books: &Mutex<Books<A, B>>,
    prover: &P,
    workers: u32,
    gate: &G,
    all: &mut OwnShare<B>,
) -> Result<Vec<Posted<B>>, AllocError>
    requires lawful { All (λ p. IsLawful (pair_of p)) lot.now.pairs }
    requires few { length lot.now.pairs < 2 ^ 32 }
    requires parts { all.old.parts ≡ workers + 1 }
    requires amount { all.old.amount ≡ 0 }
    ensures len { IfOk result (λ ended. vec_len ended ≡ workers) }
    ensures parts { OnOk result (all.new.parts ≡ 1) }
    ensures amount { all.new.amount ≡ 0 }
{
    let changed = Condvar::new();
    let mut dealer = deal(alloc, lot.pairs.len() as u32)?;
    let seats = seats(alloc, &mut dealer, all, workers)?;
    let pairs = lot.pairs.as_slice();
    let steps = lot.bounds.steps;
    thread::map_vec(
        rt,
        seats,
        &|seat| {
            work(
                rt, alloc, desks, books, &changed, prover, gate, pairs, steps, seat,
            )
        },
    )
}

/// The rules of a lot, with the two ledgers of this call.
fn run<
    A: Ledger + Send + Sync,
    B: Ledger + Send + Sync,
    R: Threads + Wait + Sync,
    P: Prover + Sync,
    G: Gate + Sync,
>(
    rt: &R,
    alloc: Global,
    lot: &Lot,
    boards: Blank,
    owns: Blank,
    prover: &P,
    workers: u32,
    gate: &G,
) -> Result<LotReport, AllocError>
    requires lawful { All (λ p. IsLawful (pair_of p)) lot.now.pairs }
    requires few { length lot.now.pairs < 2 ^ 32 }
    requires board_name { boards.name ≡ A.name }
    requires board_parts { boards.parts ≡ A.parts }
    requires own_name { owns.name ≡ B.name }
    requires own_parts { owns.parts ≡ B.parts }
    requires boards { boards.parts ≡ length lot.now.pairs + 1 }
    requires owns { owns.parts ≡ workers + 1 }
    ensures { IfOk result (Reported (lot_tree lot.now) workers) }
{
    let (board_book, mut all_boards) = boards.open::<A>();
    let (own_book, mut all_owns) = owns.open::<B>();
    let books = Mutex::new(Books::new(board_book, own_book));
    let desks = desks_of(alloc, lot, &mut all_boards)?;
    let ended = work_all(
        rt,
        alloc,
        lot,
        &desks,
        &books,
        prover,
        workers,
        gate,
        &mut all_owns,
    )?;
    let posted = gather(alloc, &mut all_owns, ended)?;
    finish(
        rt,
        alloc,
        lot,
        desks,
        books.into_inner(),
        prover,
        all_boards,
        all_owns,
        posted,
    )
}

/// The rules of a lot, found by several workers at a board for each pair. Each worker takes pair numbers of a dealer and works at
/// their boards, and then helps at the others, until the lot is settled. A worker that is refused memory gives its claim back and
/// ends. What is pending after the join is settled by the caller. For every number of workers the rules are the same, in one order.
pub fn discover_lot<R: Threads + Wait + Sync, P: Prover + Sync, G: Gate + Sync>(
    rt: &R,
    alloc: Global,
    lot: &Lot,
    prover: &P,
    workers: u32,
    gate: &G,
) -> Result<LotReport, AllocError>
    requires lawful { All (λ p. IsLawful (pair_of p)) lot.now.pairs }
    requires few { length lot.now.pairs < 2 ^ 32 }
    requires some { 0 < workers }
    requires most { workers ≤ 64 }
    ensures reported { IfOk result (Reported (lot_tree lot.now) workers) }
    ensures lawful { IfOk result (λ report. All (λ r. IsLawful (pair_of r.pair)) report.rules) }
{
    run::<Brand, Brand, R, P, G>(
        rt,
        alloc,
        lot,
        Blank::new(lot.pairs.len() as u64 + 1),
        Blank::new(workers as u64 + 1),
        prover,
        workers,
        gate,
    )
}
