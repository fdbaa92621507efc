//! One worker.
ghost use Rattle.std.specs.Prelude.{◌≡◌, ◌+◌, ◌^◌, ◌<◌, All, MatchBool};
ghost use Rattle.wt_symbol.specs.Sides.{pair_of};
ghost use Rattle.wt_symbol.specs.Lawful.{IsLawful};
ghost use Rattle.wt_workers.specs.Desks.{VerdictFor};
ghost use Rattle.wt_workers.specs.Tasks.{IsTask, TurnSays};

use crate::books::{Books, OwnShare};
use crate::desk::{Desk, Task};
use crate::verdict::decide;
use std::alloc::Global;
use std::sync::ledger::Ledger;
use std::sync::{Condvar, Mutex, Wait};
use wt_board::{Ticket, Verdict};
use wt_deal::Thief;
use wt_form::Prover;
use wt_io::{Gate, Moment};
use wt_symbol::Pair;

/// A worker's number, its share, and the thief that takes its pair numbers, before it begins.
#[derive(Drop)]
pub(crate) struct Seat<B: Ledger> {
    pub number: u32,
    pub share: OwnShare<B>,
    pub thief: Thief,
    ghost one_part: { share.parts ≡ 1 },
    ghost nothing: { share.amount ≡ 0 },
}

/// How many verdicts a worker posted, and its share.
#[derive(Drop)]
pub(crate) struct Posted<B: Ledger> {
    pub count: u64,
    pub share: OwnShare<B>,
    ghost one_part: { share.parts ≡ 1 },
    ghost counted: { share.amount ≡ count },
}

/// What a worker found at a board: a set to prove; or that the board is settled; or that others are at what is left; or it was
/// refused memory.
pub(crate) enum Turn {
    Prove(Task),
    Settled,
    Busy,
    Stop,
}

/// How a worker left the boards: all are settled; or it posted a verdict; or it found nothing to do; or it was refused memory.
#[derive(Clone, Copy, PartialEq, Eq)]
pub(crate) enum Round {
    Settled,
    Posted,
    Idle,
    Stop,
}

/// Claims a set of the pair's board.
fn take_turn<A: Ledger, R: Wait>(
    rt: &R,
    desk: &Mutex<Desk<A>>,
    pair: &Pair,
    steps: u32,
    worker: u32,
) -> Turn
    ensures { TurnSays (pair_of pair.now) steps result }
{
    let mut guard = desk.lock(rt);
    match guard.take(worker, pair, steps) {
        Ok(Some(task)) => Turn::Prove(task),
        Ok(None) => {
            if guard.is_settled() {
                Turn::Settled
            } else {
                Turn::Busy
            }
        }
        Err(_) => Turn::Stop,
    }
}

/// Posts a verdict on the desk, if the books have room for it.
pub(crate) fn book<A: Ledger, B: Ledger>(
    desk: &mut Desk<A>,
    books: &mut Books<A, B>,
    ticket: Ticket,
    verdict: Verdict,
    pair: &Pair,
    steps: u32,
    own: &mut OwnShare<B>,
) -> bool
    requires parts { 0 < own.old.parts }
    requires verdict { VerdictFor (pair_of pair.now) steps ticket.set verdict }
    ensures parts { own.new.parts ≡ own.old.parts }
    ensures amount { MatchBool result ((own.new.amount ≡ own.old.amount + 1) × (own.new.amount < 2 ^ 64)) (own.new.amount ≡ own.old.amount) }
{
    if books.total() == u64::MAX {
        return false;
    }
    desk.post(ticket, verdict, pair, steps, books, own).is_ok()
}

/// Posts a verdict under the locks, and wakes those who wait.
fn post<A: Ledger, B: Ledger, R: Wait>(
    rt: &R,
    desk: &Mutex<Desk<A>>,
    books: &Mutex<Books<A, B>>,
    changed: &Condvar,
    ticket: Ticket,
    verdict: Verdict,
    pair: &Pair,
    steps: u32,
    own: &mut OwnShare<B>,
) -> bool
    requires parts { own.old.parts ≡ 1 }
    requires verdict { VerdictFor (pair_of pair.now) steps ticket.set verdict }
    ensures parts { own.new.parts ≡ 1 }
    ensures amount { MatchBool result ((own.new.amount ≡ own.old.amount + 1) × (own.new.amount < 2 ^ 64)) (own.new.amount ≡ own.old.amount) }
{
    let posted = {
        let mut desk = desk.lock(rt);
        let mut books = books.lock(rt);
        book(&mut desk, &mut books, ticket, verdict, pair, steps, own)
    };
    changed.notify_all();
    posted
}

/// Gives a claim back under the locks, and wakes those who wait.
fn give_back<A: Ledger, B: Ledger, R: Wait>(
    rt: &R,
    desk: &Mutex<Desk<A>>,
    books: &Mutex<Books<A, B>>,
    changed: &Condvar,
    ticket: Ticket,
) {
    {
        let mut desk = desk.lock(rt);
        let mut books = books.lock(rt);
        let _ = desk.give_back(ticket, &mut books);
    }
    changed.notify_all();
}

/// Proves the task's set, with no lock held, and posts the verdict. Where memory is refused, or the post, the claim is given back.
fn prove<A: Ledger, B: Ledger, R: Wait, P: Prover, G: Gate>(
    rt: &R,
    alloc: Global,
    desk: &Mutex<Desk<A>>,
    books: &Mutex<Books<A, B>>,
    changed: &Condvar,
    prover: &P,
    gate: &G,
    pair: &Pair,
    steps: u32,
    worker: u32,
    task: Task,
    own: &mut OwnShare<B>,
) -> bool
    requires lawful { IsLawful (pair_of pair.now) }
    requires task { IsTask (pair_of pair.now) steps task }
    requires parts { own.old.parts ≡ 1 }
    ensures parts { own.new.parts ≡ 1 }
    ensures amount { MatchBool result ((own.new.amount ≡ own.old.amount + 1) × (own.new.amount < 2 ^ 64)) (own.new.amount ≡ own.old.amount) }
{
    let ticket = task.ticket;
    gate.at(worker, Moment::Claimed);
    if let Ok(verdict) = decide(prover, alloc, pair, steps, task) {
        if post(rt, desk, books, changed, ticket, verdict, pair, steps, own) {
            gate.at(worker, Moment::Posted);
            return true;
        }
    }
    give_back(rt, desk, books, changed, ticket);
    gate.at(worker, Moment::GivenBack);
    false
}

/// Claims, proves and posts at one board until nothing is pending there.
fn work_at<A: Ledger, B: Ledger, R: Wait, P: Prover, G: Gate>(
    rt: &R,
    alloc: Global,
    desk: &Mutex<Desk<A>>,
    books: &Mutex<Books<A, B>>,
    changed: &Condvar,
    prover: &P,
    gate: &G,
    pair: &Pair,
    steps: u32,
    worker: u32,
    own: &mut OwnShare<B>,
    count: &mut u64,
) -> Round
    requires lawful { IsLawful (pair_of pair.now) }
    requires parts { own.old.parts ≡ 1 }
    requires counted { own.old.amount ≡ count.old }
    ensures parts { own.new.parts ≡ 1 }
    ensures counted { own.new.amount ≡ count.new }
{
    let before = *count;
    for _ in rt.forever() {
        match take_turn(rt, desk, pair, steps, worker) {
            Turn::Prove(task) => {
                if !prove(
                    rt, alloc, desk, books, changed, prover, gate, pair, steps, worker, task, own,
                ) {
                    return Round::Stop;
                }
                *count += 1;
            }
            Turn::Settled => return Round::Settled,
            Turn::Busy => return if *count == before {
                Round::Idle
            } else {
                Round::Posted
            },
            Turn::Stop => return Round::Stop,
        }
    }
    unreachable!()
}

/// The same at the board of a number.
fn work_of<A: Ledger, B: Ledger, R: Wait, P: Prover, G: Gate>(
    rt: &R,
    alloc: Global,
    desks: &[Mutex<Desk<A>>],
    books: &Mutex<Books<A, B>>,
    changed: &Condvar,
    prover: &P,
    gate: &G,
    pairs: &[Pair],
    steps: u32,
    worker: u32,
    k: usize,
    own: &mut OwnShare<B>,
    count: &mut u64,
) -> Round
    requires lawful { All (λ p. IsLawful (pair_of p)) pairs.now }
    requires parts { own.old.parts ≡ 1 }
    requires counted { own.old.amount ≡ count.old }
    ensures parts { own.new.parts ≡ 1 }
    ensures counted { own.new.amount ≡ count.new }
{
    let Some(desk) = desks.get(k) else {
        return Round::Settled;
    };
    let Some(pair) = pairs.get(k) else {
        return Round::Settled;
    };
    work_at(
        rt, alloc, desk, books, changed, prover, gate, pair, steps, worker, own, count,
    )
}

/// What two boards come to together.
fn both(a: Round, b: Round) -> Round {
    match (a, b) {
        (Round::Stop, _) | (_, Round::Stop) => Round::Stop,
        (Round::Posted, _) | (_, Round::Posted) => Round::Posted,
        (Round::Idle, _) | (_, Round::Idle) => Round::Idle,
        (Round::Settled, Round::Settled) => Round::Settled,
    }
}

/// Works at each board, in order.
fn go_round<A: Ledger, B: Ledger, R: Wait, P: Prover, G: Gate>(
    rt: &R,
    alloc: Global,
    desks: &[Mutex<Desk<A>>],
    books: &Mutex<Books<A, B>>,
    changed: &Condvar,
    prover: &P,
    gate: &G,
    pairs: &[Pair],
    steps: u32,
    worker: u32,
    own: &mut OwnShare<B>,
    count: &mut u64,
) -> Round
    requires lawful { All (λ p. IsLawful (pair_of p)) pairs.now }
    requires parts { own.old.parts ≡ 1 }
    requires counted { own.old.amount ≡ count.old }
    ensures parts { own.new.parts ≡ 1 }
    ensures counted { own.new.amount ≡ count.new }
{
    let mut round = Round::Settled;
    for k in 0..desks.len() {
        let here = work_of(
            rt, alloc, desks, books, changed, prover, gate, pairs, steps, worker, k, own, count,
        );
        if here == Round::Stop {
            return Round::Stop;
        }
        round = both(round, here);
    }
    round
}

/// Works at the boards whose numbers the thief takes.
fn take_boards<A: Ledger, B: Ledger, R: Wait, P: Prover, G: Gate>(
    rt: &R,
    alloc: Global,
    desks: &[Mutex<Desk<A>>],
    books: &Mutex<Books<A, B>>,
    changed: &Condvar,
    prover: &P,
    gate: &G,
    pairs: &[Pair],
    steps: u32,
    worker: u32,
    thief: &mut Thief,
    own: &mut OwnShare<B>,
    count: &mut u64,
) -> Round
    requires lawful { All (λ p. IsLawful (pair_of p)) pairs.now }
    requires parts { own.old.parts ≡ 1 }
    requires counted { own.old.amount ≡ count.old }
    ensures parts { own.new.parts ≡ 1 }
    ensures counted { own.new.amount ≡ count.new }
{
    for _ in rt.forever() {
        let Some(k) = thief.take(rt) else {
            return Round::Posted;
        };
        let round = work_of(
            rt, alloc, desks, books, changed, prover, gate, pairs, steps, worker, k as usize, own,
            count,
        );
        if round == Round::Stop {
            return Round::Stop;
        }
    }
    unreachable!()
}

/// How many claims have ended.
fn claims_ended<A: Ledger, B: Ledger, R: Wait>(rt: &R, books: &Mutex<Books<A, B>>) -> u64 {
    books.lock(rt).ended()
}

/// Waits while no more claims have ended than these.
fn wait_for_more<A: Ledger, B: Ledger, R: Wait>(
    rt: &R,
    books: &Mutex<Books<A, B>>,
    changed: &Condvar,
    seen: u64,
) {
    let guard = books.lock(rt);
    if guard.ended() == seen {
        let _guard = changed.wait(rt, guard);
    }
}

/// Goes round until all boards are settled or memory is refused. Where nothing was found, it waits for a claim to end.
fn help<A: Ledger, B: Ledger, R: Wait, P: Prover, G: Gate>(
    rt: &R,
    alloc: Global,
    desks: &[Mutex<Desk<A>>],
    books: &Mutex<Books<A, B>>,
    changed: &Condvar,
    prover: &P,
    gate: &G,
    pairs: &[Pair],
    steps: u32,
    worker: u32,
    own: &mut OwnShare<B>,
    count: &mut u64,
)
    requires lawful { All (λ p. IsLawful (pair_of p)) pairs.now }
    requires parts { own.old.parts ≡ 1 }
    requires counted { own.old.amount ≡ count.old }
    ensures parts { own.new.parts ≡ 1 }
    ensures counted { own.new.amount ≡ count.new }
{
    for _ in rt.forever() {
        let seen = claims_ended(rt, books);
        match go_round(
            rt, alloc, desks, books, changed, prover, gate, pairs, steps, worker, own, count,
        ) {
            Round::Settled | Round::Stop => return,
            Round::Posted => {}
            Round::Idle => {
                gate.at(worker, Moment::Idle);
                wait_for_more(rt, books, changed, seen);
            }
        }
    }
}

fn done<B: Ledger>(count: u64, share: OwnShare<B>) -> Posted<B>
    requires parts { share.parts ≡ 1 }
    requires amount { share.amount ≡ count }
{
    Posted { count, share }
}

/// Works until the lot is settled or memory is refused: first at the boards that the thief takes, and then at those that others took.
pub(crate) fn work<A: Ledger, B: Ledger, R: Wait, P: Prover, G: Gate>(
    rt: &R,
    alloc: Global,
    desks: &[Mutex<Desk<A>>],
    books: &Mutex<Books<A, B>>,
    changed: &Condvar,
    prover: &P,
    gate: &G,
    pairs: &[Pair],
    steps: u32,
    seat: Seat<B>,
) -> Posted<B>
    requires lawful { All (λ p. IsLawful (pair_of p)) pairs.now }
{
    let Seat {
        number,
        share,
        thief,
    } = seat;
    let mut own = share;
    let mut thief = thief;
    let mut count = 0;
    let round = take_boards(
        rt, alloc, desks, books, changed, prover, gate, pairs, steps, number, &mut thief, &mut own,
        &mut count,
    );
    if round != Round::Stop {
        help(
            rt, alloc, desks, books, changed, prover, gate, pairs, steps, number, &mut own,
            &mut count,
        );
    }
    done(count, own)
}
