//! The lawful pairs of given bounds, in lots.
ghost use Rattle.std.specs.Prelude.{◌<◌, IfSome};
ghost use Rattle.wt_pair.specs.Candidates.{IsWithinLimits};

use std::alloc::{AllocError, Global};
use std::test::Fail;
use wt_pair::{Bounds, Lot, Pairs};
use wt_template::Ops;

fn bounds(src: u32, dst: u32, ops: u8) -> Option<Bounds>
    ensures { IfSome result IsWithinLimits }
{
    if src == 0 || src > 4 || dst > 4 {
        return None;
    }
    Some(Bounds {
        src,
        dst,
        ops: Ops(ops),
        depth: 64,
        steps: 8,
    })
}

/// How many pairs and how many lots there are; none where the bounds are past the limits.
fn counted(alloc: Global, src: u32, dst: u32, ops: u8) -> Result<(u64, u64), AllocError> {
    let Some(bounds) = bounds(src, dst, ops) else {
        return Ok((0, 0));
    };
    let mut pairs = Pairs::new(bounds);
    let mut count = 0;
    for lots in 0..1000 {
        match pairs.next_lot(alloc)? {
            Some(lot) => count = lot.first.saturating_add(lot.pairs.len() as u64),
            None => return Ok((count, lots)),
        }
    }
    Ok((0, 0))
}

#[test]
fn all_pairs_are_counted(rt: HostRuntime) -> Result<(), Fail> {
    for (src, dst, ops, count, lots) in [
        (2, 1, 0b10_0000, 3, 1),
        (4, 1, 0b10_0000, 7, 1),
        (1, 1, 0b1100, 6, 1),
        (1, 1, 0b11_1111, 20, 1),
        (2, 1, 0b11_1111, 1123, 1),
    ] {
        assert_eq!(rt;
            counted(rt.alloc(), src, dst, ops)?,
            (count, lots),
            "{src} {dst} {ops}"
        );
    }
    Ok(())
}

/// How many pairs and how many lists of pairs there are where so many are asked for at once; none where the bounds are past the limits.
fn counted_by(alloc: Global, most: usize) -> Result<(u64, u64), AllocError>
    requires { 0 < most }
{
    let Some(bounds) = bounds(1, 1, 0b11_1111) else {
        return Ok((0, 0));
    };
    let mut pairs = Pairs::new(bounds);
    let mut count = 0;
    for lists in 0..100 {
        match pairs.next_pairs(alloc, most)? {
            Some(lot) => {
                if lot.first != count {
                    return Ok((0, 0));
                }
                count = lot.first.saturating_add(lot.pairs.len() as u64);
            }
            None => return Ok((count, lists)),
        }
    }
    Ok((0, 0))
}

#[test]
fn pairs_are_given_as_many_as_are_asked_for(rt: HostRuntime) -> Result<(), Fail> {
    for (most, lists) in [(1, 20), (7, 3), (10, 2), (20, 1), (21, 1)] {
        assert_eq!(rt; counted_by(rt.alloc(), most)?, (20, lists), "{most}");
    }
    Ok(())
}

// The interpreter of `rt try` takes minutes here.
#[test]
fn many_pairs_are_counted(rt: HostRuntime) -> Result<(), Fail> {
    assert_eq!(rt; counted(rt.alloc(), 3, 1, 0b11_1111)?, (49353, 13));
    Ok(())
}

/// The destinations of the pairs of a lot that have this source, a line each.
fn dests_of(alloc: Global, lot: &Lot, source: &str) -> Result<String, AllocError> {
    let mut dests = String::new(alloc);
    for pair in lot.pairs.as_slice() {
        let found = format!(in alloc; "{:?}", pair.source)?;
        if found.as_str() == source {
            let dest = format!(in alloc; "{:?}\n", pair.dest)?;
            dests.push_str(&dest)?;
        }
    }
    Ok(dests)
}

fn dests(alloc: Global, source: &str) -> Result<Option<String>, AllocError> {
    let Some(bounds) = bounds(2, 2, 0b1_0010) else {
        return Ok(None);
    };
    let mut pairs = Pairs::new(bounds);
    match pairs.next_lot(alloc)? {
        Some(lot) => Ok(Some(dests_of(alloc, &lot, source)?)),
        None => Ok(None),
    }
}

fn has_dests(alloc: Global, source: &str, expected: &str) -> Result<bool, AllocError> {
    match dests(alloc, source)? {
        Some(found) => Ok(found.as_str() == expected),
        None => Ok(false),
    }
}

#[test]
fn destinations_stand_in_order(rt: HostRuntime) -> Result<(), Fail> {
    let expected =
        "Input(0)\nInput(1)\nFilter(0, 0, Input(0))\nFilter(0, 1, Input(0))\nInSub(0, Input(0), Input(1))\nInSub(1, Input(0), Input(1))\nFilter(0, 0, Filter(0, 0, Input(0)))\nFilter(0, 1, Filter(0, 0, Input(0)))\nFilter(0, 0, Filter(0, 1, Input(0)))\nFilter(0, 1, Filter(0, 1, Input(0)))\n";
    let source = "InSub(0, Filter(0, 1, Input(0)), Input(1))";
    assert!(rt; has_dests(rt.alloc(), source, expected)?);
    assert_eq!(rt; counted(rt.alloc(), 2, 2, 0b1_0010)?, (50, 1));
    Ok(())
}
