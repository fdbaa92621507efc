//! A gate that holds each of two workers at its first claim until the other has been there.
use super::joins;
use std::alloc::{AllocError, Global};
use std::sync::Wait;
use std::sync::atomic::{AtomicU64, Ordering};
use std::test::*;
use std::thread;
use std::thread::Threads;
use wt_io::{Gate, Moment};
use wt_search::Search;
use wt_workers::{LotReport, discover_lot};

/// Who has claimed, by bits, and how often a wait ran out.
#[derive(Drop)]
struct Turnstile {
    claimed: AtomicU64,
    ran_out: AtomicU64,
}

impl Turnstile {
    /// Waits until both have claimed, for at most so many turns, and lets other threads go first in each.
    fn hold(&self) {
        for _ in 0..10_000_000u64 {
            if self.claimed.load(Ordering::SeqCst) == 3 {
                return;
            }
            thread::yield_now();
        }
        self.ran_out.fetch_add(1, Ordering::SeqCst);
    }
}

impl Gate for Turnstile {
    fn at(&self, worker: u32, moment: Moment) {
        if moment == Moment::Claimed && worker < 2 {
            let bit = if worker == 0 { 1 } else { 2 };
            self.claimed.fetch_or(bit, Ordering::SeqCst);
            self.hold();
        }
    }
}

/// Whether the report has the four rules of the joins, and both workers posted all verdicts.
fn is_shared(report: &LotReport) -> bool {
    let [first, second] = report.posted.as_slice() else {
        return false;
    };
    report.rules.len() == 4
        && *first > 0
        && *second > 0
        && report.drained == 0
        && report.log.len() as u64 == report.logged
}

fn two_workers_share<R: Threads + Wait + Sync>(
    rt: &R,
    alloc: Global,
    gate: &Turnstile,
) -> Result<bool, AllocError> {
    let lot = joins(alloc)?;
    let report = discover_lot(rt, alloc, &lot, &Search {}, 2, gate)?;
    Ok(is_shared(&report))
}

#[test]
fn two_workers_work_at_once(rt: HostRuntime) -> Result<(), Fail> {
    let gate = Turnstile {
        claimed: AtomicU64::new(0),
        ran_out: AtomicU64::new(0),
    };
    assert!(rt; two_workers_share(&rt, rt.alloc(), &gate)?);
    assert_eq!(rt; gate.ran_out.load(Ordering::SeqCst), 0);
    Ok(())
}
