//! A pair whose five cores are known.
ghost use Rattle.std.specs.Prelude.{All, IfOk, ◌<◌, ◌^◌, length};
ghost use Rattle.wt_symbol.specs.Sides.{pair_of};
ghost use Rattle.wt_symbol.specs.Lawful.{IsLawful};

use super::bounds;
use std::alloc::{AllocError, Global};
use std::sync::Wait;
use std::test::*;
use std::thread::Threads;
use wt_io::NoGate;
use wt_pair::{Lot, PairList};
use wt_search::Search;
use wt_symbol::{Anchors, Pair, Side, pair_fault};
use wt_workers::{LotReport, discover_lot};

/// A Proj over a LeftJoin, and the Proj alone.
fn pair(alloc: Global) -> Result<Pair, AllocError> {
    let left = Box::new(alloc, Side::Input(0))?;
    let right = Box::new(alloc, Side::Input(1))?;
    let join = Box::new(alloc, Side::LeftJoin(1, 2, left, right))?;
    let mut anchors = Anchors::new(alloc);
    anchors.push(0)?;
    anchors.push(0)?;
    anchors.push(1)?;
    Ok(Pair {
        source: Side::Proj(0, join),
        dest: Side::Proj(0, Box::new(alloc, Side::Input(0))?),
        anchors,
    })
}

/// The pairs, with this one if it is lawful.
fn lawful(alloc: Global, pair: Pair) -> Result<PairList, AllocError>
    ensures lawful { IfOk result (λ pairs. All (λ p. IsLawful (pair_of p)) pairs) }
    ensures few { IfOk result (λ pairs. length pairs < 2 ^ 32) }
{
    let mut pairs = PairList::new(alloc);
    if pair_fault(alloc, &pair)?.is_none() {
        pairs.push(pair)?;
    }
    Ok(pairs)
}

/// The lot of this pair.
pub(super) fn five_cores(alloc: Global) -> Result<Lot, AllocError>
    ensures lawful { IfOk result (λ lot. All (λ p. IsLawful (pair_of p)) lot.pairs) }
    ensures few { IfOk result (λ lot. length lot.pairs < 2 ^ 32) }
{
    let pairs = lawful(alloc, pair(alloc)?)?;
    Ok(Lot {
        bounds: bounds(2, 1, 0b11_1111),
        first: 0,
        pairs,
    })
}

/// Whether the report has the five cores as its rules, and the workers left nothing.
fn has_five_cores(report: &LotReport) -> bool {
    let sets = report.rules.as_slice().iter().map(|rule| rule.set.0);
    sets.eq([21, 27, 39, 41, 64].iter().copied()) && report.drained == 0
}

/// Whether so many workers find them.
fn three_find_them<R: Threads + Wait + Sync>(rt: &R, alloc: Global) -> Result<bool, AllocError> {
    let lot = five_cores(alloc)?;
    let report = discover_lot(rt, alloc, &lot, &Search {}, 3, &NoGate)?;
    Ok(has_five_cores(&report))
}

#[test]
fn three_workers_find_the_five_cores(rt: HostRuntime) -> Result<(), Fail> {
    assert!(rt; three_find_them(&rt, rt.alloc())?);
    Ok(())
}
