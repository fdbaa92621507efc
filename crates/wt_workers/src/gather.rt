//! Shares that are dealt out before the workers begin, and put together after they ended.
ghost use Rattle.std.specs.Prelude.{◌≡◌, ◌+◌, ◌<◌, ◌≤◌, IfOk, OnOk, sum, vec_len};

use crate::books::OwnShare;
use crate::work::{Posted, Seat};
use std::alloc::{AllocError, Global};
use std::sync::ledger::Ledger;
use wt_deal::Dealer;

/// A seat with one part of the shares.
fn seat<B: Ledger>(
    dealer: &mut Dealer,
    all: &mut OwnShare<B>,
    number: u32,
) -> Result<Seat<B>, AllocError>
    requires parts { 1 < all.old.parts }
    requires amount { all.old.amount ≡ 0 }
    ensures parts { OnOk result (all.new.parts + 1 ≡ all.old.parts) }
    ensures amount { all.new.amount ≡ 0 }
{
    let thief = dealer.thief()?;
    let share = all.split_off(1, 0);
    Ok(Seat {
        number,
        share,
        thief,
    })
}

/// A seat for each worker.
pub(crate) fn seats<B: Ledger>(
    alloc: Global,
    dealer: &mut Dealer,
    all: &mut OwnShare<B>,
    workers: u32,
) -> Result<Vec<Seat<B>>, AllocError>
    requires parts { all.old.parts ≡ workers + 1 }
    requires amount { all.old.amount ≡ 0 }
    ensures len { IfOk result (λ seats. vec_len seats ≡ workers) }
    ensures amount { all.new.amount ≡ 0 }
    ensures parts { OnOk result (all.new.parts ≡ 1) }
{
    let mut seats = Vec::new(alloc);
    for number in 0..workers {
        seats.push(seat(dealer, all, number)?)?;
    }
    Ok(seats)
}

/// Puts the workers' shares together, and tells what each of them posted.
pub(crate) fn gather<B: Ledger>(
    alloc: Global,
    all: &mut OwnShare<B>,
    ended: Vec<Posted<B>>,
) -> Result<Vec<u64>, AllocError>
    requires amount { all.old.amount ≡ 0 }
    requires parts { 0 < all.old.parts }
    ensures parts { OnOk result (all.new.parts ≡ all.old.parts + vec_len ended) }
    ensures len { IfOk result (λ counts. vec_len counts ≡ vec_len ended) }
    ensures amount { IfOk result (λ counts. all.new.amount ≡ sum counts.items) }
{
    let mut counts = Vec::new(alloc);
    let mut ended = ended;
    ended.reverse();
    while let Some(worker) = ended.pop() {
        let Posted { count, share } = worker;
        all.merge(share);
        counts.push(count)?;
    }
    Ok(counts)
}
