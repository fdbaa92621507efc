//! Any number of workers finds the lines of one thread.
ghost use Rattle.std.specs.Prelude.{◌≤◌, ◌<◌};
ghost use Rattle.wt_pair.specs.Candidates.{IsWithinLimits};

use super::{bounds, first_lot};
use std::alloc::{AllocError, Global};
use std::sync::Wait;
use std::test::*;
use std::thread::Threads;
use wt_discover::{RuleLines, lines_of_pairs};
use wt_io::NoGate;
use wt_pair::Bounds;
use wt_search::Search;
use wt_workers::{discover_lot, lines_of_rules};

/// The lines of the first lot, found on this thread.
fn alone(alloc: Global, bounds: Bounds) -> Result<RuleLines, AllocError>
    requires { IsWithinLimits bounds }
{
    let lot = first_lot(alloc, bounds)?;
    lines_of_pairs(
        &Search {},
        alloc,
        lot.pairs.as_slice(),
        bounds.depth,
        bounds.steps,
    )
}

/// The same by so many workers.
fn shared<R: Threads + Wait + Sync>(
    rt: &R,
    alloc: Global,
    bounds: Bounds,
    workers: u32,
) -> Result<RuleLines, AllocError>
    requires limits { IsWithinLimits bounds }
    requires some { 0 < workers }
    requires most { workers ≤ 64 }
{
    let lot = first_lot(alloc, bounds)?;
    let report = discover_lot(rt, alloc, &lot, &Search {}, workers, &NoGate)?;
    lines_of_rules(alloc, report.rules.as_slice())
}

/// Whether so many workers find the lines that one thread finds.
fn are_same<R: Threads + Wait + Sync>(
    rt: &R,
    alloc: Global,
    bounds: Bounds,
    workers: u32,
) -> Result<bool, AllocError>
    requires limits { IsWithinLimits bounds }
    requires some { 0 < workers }
    requires most { workers ≤ 64 }
{
    let alone = alone(alloc, bounds)?;
    let found = shared(rt, alloc, bounds, workers)?;
    Ok(found.text.as_slice() == alone.text.as_slice() && found.count == alone.count)
}

#[test]
fn one_worker_finds_the_lines_of_one_thread(rt: HostRuntime) -> Result<(), Fail> {
    assert!(rt; are_same(&rt, rt.alloc(), bounds(1, 1, 0b00_1100), 1)?);
    assert!(rt; are_same(&rt, rt.alloc(), bounds(2, 1, 0b10_0001), 1)?);
    Ok(())
}

#[test]
fn several_workers_find_the_lines_of_one_thread(rt: HostRuntime) -> Result<(), Fail> {
    assert!(rt; are_same(&rt, rt.alloc(), bounds(1, 1, 0b00_1100), 3)?);
    assert!(rt; are_same(&rt, rt.alloc(), bounds(2, 1, 0b10_0001), 2)?);
    assert!(rt; are_same(&rt, rt.alloc(), bounds(2, 1, 0b10_0001), 8)?);
    Ok(())
}

#[test]
fn a_lot_on_one_thread(rt: HostRuntime) -> Result<(), Fail> {
    assert!(rt; alone(rt.alloc(), bounds(2, 1, 0b00_0111))?.count > 0);
    Ok(())
}

#[test]
fn a_lot_by_one_worker(rt: HostRuntime) -> Result<(), Fail> {
    assert!(rt; shared(&rt, rt.alloc(), bounds(2, 1, 0b00_0111), 1)?.count > 0);
    Ok(())
}
