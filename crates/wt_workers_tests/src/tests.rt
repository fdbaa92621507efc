//! Lots of small bounds.

mod boards;
mod five_cores;
mod gates;
mod refused_memory;
mod same_lines;

ghost use Rattle.std.specs.Prelude.{◌≤◌, ◌<◌, ◌^◌, All, IfOk, length};
ghost use Rattle.wt_pair.specs.Candidates.{IsWithinLimits};
ghost use Rattle.wt_symbol.specs.Sides.{pair_of};
ghost use Rattle.wt_symbol.specs.Lawful.{IsLawful};

use std::alloc::{AllocError, Global};
use wt_pair::{Bounds, Lot, PairList, Pairs};
use wt_template::Ops;

/// Bounds of these sizes and operators, as the program takes them by default.
fn bounds(src: u32, dst: u32, ops: u8) -> Bounds
    requires low { 1 ≤ src }
    requires high { src ≤ 4 }
    requires dst { dst ≤ 4 }
    ensures { IsWithinLimits result }
{
    Bounds {
        src,
        dst,
        ops: Ops(ops),
        depth: 64,
        steps: 8,
    }
}

/// The first lot of bounds.
fn first_lot(alloc: Global, bounds: Bounds) -> Result<Lot, AllocError>
    requires { IsWithinLimits bounds }
    ensures lawful { IfOk result (λ lot. All (λ p. IsLawful (pair_of p)) lot.pairs) }
    ensures few { IfOk result (λ lot. length lot.pairs < 2 ^ 32) }
{
    match Pairs::new(bounds).next_lot(alloc)? {
        Some(lot) => Ok(lot),
        None => Ok(Lot {
            bounds,
            first: 0,
            pairs: PairList::new(alloc),
        }),
    }
}

/// The lot of the joins of two tables: an inner join or a left join on either side.
fn joins(alloc: Global) -> Result<Lot, AllocError>
    ensures lawful { IfOk result (λ lot. All (λ p. IsLawful (pair_of p)) lot.pairs) }
    ensures few { IfOk result (λ lot. length lot.pairs < 2 ^ 32) }
{
    first_lot(alloc, bounds(1, 1, 0b00_1100))
}
