//! Which pairs are lawful, and the heads of sides.
ghost use Rattle.std.specs.Prelude.{◌≡◌, IfOk};
ghost use Rattle.wt_symbol.specs.Sides.{input, proj, inner_join, tree_of};

use crate::tests::{pair, side};
use std::alloc::{AllocError, Global};
use std::test::Fail;
use wt_symbol::{Anchors, Side, pair_fault, segments, visible};

/// A pair, and the first test that it fails.
static FAULTS: [(&str, &str); 11] = [
    ("r0 | r0 |", "Some(Weight)"),
    ("r1 | r0 |", "Some(Symbol)"),
    ("r0 r1 P2 I01 | r0 |01", "Some(Symbol)"),
    ("r0 r1 P2 I01 | r2 |011", "Some(Symbol)"),
    ("r0 r1 P2 I01 | r0 r0 S0 |011", "Some(Symbol)"),
    ("r0 r1 P2 I01 | r0 r1 P2 I01 |111", "Some(Anchor)"),
    ("r0 r1 P2 I01 | r0 r1 P2 I01 |091", "Some(Anchor)"),
    ("r0 r1 P2 I01 | r0 r1 P2 I01 |011", "Some(Weight)"),
    ("r0 r1 P2 I01 | r0 r1 S0 |011", "None"),
    ("r0 r1 P2 I01 | r0 P0 |011", "Some(Root)"),
    ("r0 P4 P3 P2 P1 P0 | r0 |00000", "Some(Size)"),
];

fn has_fault(alloc: Global, text: &str, expected: &str) -> Result<bool, AllocError> {
    let pair = pair(alloc, text)?;
    let fault = pair_fault(alloc, &pair)?;
    let found = format!(in alloc; "{fault:?}")?;
    Ok(found.as_str() == expected && pair.same(&pair.copy(alloc)?))
}

#[test]
fn tests_of_pairs_stand_in_order(rt: HostRuntime) -> Result<(), Fail> {
    for (text, expected) in &FAULTS {
        assert!(rt; has_fault(rt.alloc(), text, expected)?, "{text}");
    }
    Ok(())
}

fn input_of(alloc: Global, r: u8) -> Result<Box<Side>, AllocError>
    ensures { IfOk result (λ s. tree_of s.value ≡ input r) }
{
    Ok(Box::new(alloc, Side::Input(r))?)
}

/// A list of anchors.
fn anchored(alloc: Global, leaves: &[u8]) -> Result<Anchors, AllocError>
    ensures { IfOk result (λ anchors. anchors ≡ leaves.now) }
{
    Ok(Anchors::from_vec(Vec::from_slice(alloc, leaves)?))
}

/// A join of leaf 0 with a projection of leaf 1.
fn join(alloc: Global) -> Result<Side, AllocError>
    ensures { IfOk result (λ s. tree_of s ≡ inner_join 0 1 (input 0) (proj 2 (input 1))) }
{
    let right = Side::Proj(2, input_of(alloc, 1)?);
    Ok(Side::InnerJoin(0, 1, input_of(alloc, 0)?, Box::new(alloc, right)?))
}

/// Whether the join has its parts and its leaves.
fn a_join_has_two_parts(alloc: Global) -> Result<bool, AllocError> {
    let join = join(alloc)?;
    let anchors = anchored(alloc, &[0, 1, 1])?;
    let parts = segments(alloc, &join, &anchors)?;
    let text = format!(in alloc; "{:?}", parts.as_slice())?;
    Ok(
        text.as_str() == "[Part { leaf: 0, cols: Whole }, Part { leaf: 1, cols: List(2) }]"
            && visible(&join, &anchors) == 0b11,
    )
}

/// Whether the join has its size and weight, and is the same as its copy.
fn a_join_is_measured(alloc: Global) -> Result<bool, AllocError> {
    let join = side(alloc, "r0 r1 P2 I01")?;
    Ok(
        join.same(&join.copy(alloc)?)
            && !join.same(&side(alloc, "r0")?)
            && join.size() == 2
            && join.weight() == 7,
    )
}

#[test]
fn heads_have_parts(rt: HostRuntime) -> Result<(), Fail> {
    assert!(rt; a_join_has_two_parts(rt.alloc())?);
    assert!(rt; a_join_is_measured(rt.alloc())?);
    Ok(())
}
