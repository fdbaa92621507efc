//! Workers that are refused memory.
use super::joins;
use std::alloc::{AllocError, Global};
use std::sync::Wait;
use std::sync::atomic::{AtomicU64, Ordering};
use std::test::*;
use std::thread::Threads;
use wt_constraint::AtomSet;
use wt_form::Prover;
use wt_io::NoGate;
use wt_search::Search;
use wt_symbol::Pair;
use wt_workers::{LotReport, discover_lot};

/// A prover whose first three answers are want of memory.
#[derive(Drop)]
struct ThreeRefusals {
    calls: AtomicU64,
}

impl Prover for ThreeRefusals {
    fn prove(
        &self,
        alloc: Global,
        pair: &Pair,
        set: AtomSet,
        steps: u32,
    ) -> Result<bool, AllocError> {
        if self.calls.fetch_add(1, Ordering::SeqCst) < 3 {
            return Err(AllocError);
        }
        Search {}.prove(alloc, pair, set, steps)
    }

    fn shrink(
        &self,
        alloc: Global,
        pair: &Pair,
        set: AtomSet,
        steps: u32,
    ) -> Result<AtomSet, AllocError> {
        Search {}.shrink(alloc, pair, set, steps)
    }
}

/// Whether the report has the four rules of the joins, and all verdicts are the caller's.
fn is_drained(report: &LotReport) -> bool {
    report.rules.len() == 4
        && report.posted.as_slice() == [0, 0, 0].as_slice()
        && report.drained == report.logged
}

fn caller_settles<R: Threads + Wait + Sync>(rt: &R, alloc: Global) -> Result<bool, AllocError> {
    let prover = ThreeRefusals {
        calls: AtomicU64::new(0),
    };
    let lot = joins(alloc)?;
    let report = discover_lot(rt, alloc, &lot, &prover, 3, &NoGate)?;
    Ok(is_drained(&report))
}

#[test]
fn the_caller_settles_what_refused_workers_leave(rt: HostRuntime) -> Result<(), Fail> {
    assert!(rt; caller_settles(&rt, rt.alloc())?);
    Ok(())
}
