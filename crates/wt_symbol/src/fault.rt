//! The first of the tests that a pair does not pass.
ghost use Rattle.std.specs.Prelude.{◌≡◌, ℕ, ◌<◌, ◌≤◌, ◌&&◌, ◌==◌, true, false, List, IfOk, IsNone, MatchOption, ◌↔◌};
ghost use Rattle.wt_symbol.specs.Sides.{input, proj, inner_join, tree_of, pair_of, leaves_of, lists_of, preds_of, size_of};
ghost use Rattle.wt_symbol.specs.Lawful.{occurs, counts_up, all_in, all_different, is_numbered, uses_symbols_of, has_lawful_symbols, has_lawful_sizes, has_lawful_anchors, has_lawful_weights, has_lawful_roots, is_proj, stands, visible_leaves, fault_of, IsLawful};
ghost use Rattle.wt_symbol.specs.Heads.{HasAnchors, HasSmallLeaves, IsMask};

use crate::side::{Anchors, Pair, Side};
use std::alloc::{AllocError, Global};

/// How many operators a side of a lawful pair has at most.
pub const MOST_OPERATORS: u32 = 4;

/// The test that a pair does not pass.
#[derive(Clone, Copy, Debug, PartialEq, Eq)]
pub enum PairFault {
    Symbol,
    Size,
    Anchor,
    Weight,
    Root,
}

/// The symbols of a side, each kind in preorder.
#[derive(Drop)]
struct Symbols {
    leaves: Vec<u8>,
    lists: Vec<u8>,
    preds: Vec<u8>,
}

fn symbols_of(alloc: Global, side: &Side) -> Result<Symbols, AllocError>
    ensures leaves { IfOk result (λ s. s.leaves.items ≡ leaves_of (tree_of side.now)) }
    ensures lists { IfOk result (λ s. s.lists.items ≡ lists_of (tree_of side.now)) }
    ensures preds { IfOk result (λ s. s.preds.items ≡ preds_of (tree_of side.now)) }
{
    let mut leaves = Vec::new(alloc);
    side.push_leaves(&mut leaves)?;
    let mut lists = Vec::new(alloc);
    side.push_lists(&mut lists)?;
    let mut preds = Vec::new(alloc);
    side.push_preds(&mut preds)?;
    Ok(Symbols {
        leaves,
        lists,
        preds,
    })
}

/// Whether the numbers are 0, 1, 2 and so on.
fn counts_from_zero(symbols: &[u8]) -> bool
    ensures { result ≡ counts_up 0 symbols.now }
{
    for (i, x) in symbols.iter().enumerate() {
        if usize::from(*x) != i {
            return false;
        }
    }
    true
}

/// Whether no number stands twice. One of the first 257 numbers does in a longer list, so this is
/// linear in its length.
fn are_different(symbols: &[u8]) -> bool
    ensures { result ≡ all_different symbols.now }
{
    for i in 0..symbols.len() {
        if symbols[i + 1..].contains(&symbols[i]) {
            return false;
        }
    }
    true
}

/// Whether each number is one of the others.
fn are_among(symbols: &[u8], others: &[u8]) -> bool
    ensures { result ≡ all_in others.now symbols.now }
{
    symbols.iter().all(|x| others.contains(x))
}

fn passes_symbols(
    alloc: Global,
    source: &Side,
    dest: &Side,
    anchors: &Anchors,
) -> Result<bool, AllocError>
    ensures { IfOk result (λ b. b ≡ has_lawful_symbols (record { source = tree_of source.now; dest = tree_of dest.now; anchors = anchors.now })) }
{
    let of = symbols_of(alloc, source)?;
    let used = symbols_of(alloc, dest)?;
    Ok(
        counts_from_zero(&of.leaves)
            && counts_from_zero(&of.lists)
            && counts_from_zero(&of.preds)
            && anchors.len() == of.lists.len()
            && are_among(&used.leaves, &of.leaves)
            && are_among(&used.lists, &of.lists)
            && are_among(&used.preds, &of.preds)
            && are_different(&used.leaves),
    )
}

/// Whether the root, with the Dedups at the top taken off, is a Proj.
fn has_proj_root(side: &Side) -> bool
    ensures { result ≡ is_proj (tree_of side.now) }
{
    match side {
        Side::Dedup(s) => has_proj_root(s),
        Side::Proj(_, _) => true,
        _ => false,
    }
}

/// Whether the mask has a list's anchor.
fn sees(mask: u8, anchor: u8) -> bool
    ensures small { result ≡ true → anchor < 8 }
    ensures seen { (leaves : List ℕ) → IsMask mask leaves → result ≡ occurs anchor leaves }
{
    anchor < 8 && mask >> anchor & 1 == 1
}

/// The mask of the leaves that can be seen above a side, or None where some list of the side does
/// not stand where its anchor can be seen.
fn standing(side: &Side, anchors: &Anchors) -> Option<u8>
    requires leaves { HasSmallLeaves (tree_of side.now) }
    requires lists { HasAnchors (tree_of side.now) anchors.now }
    ensures { MatchOption result (stands (tree_of side.now) anchors.now ≡ false)
        (λ mask. (stands (tree_of side.now) anchors.now ≡ true) × IsMask mask (visible_leaves (tree_of side.now) anchors.now)) }
{
    match side {
        Side::Input(r) => Some(1 << *r),
        Side::Proj(a, s) => {
            let anchor = anchors.as_slice()[*a as usize];
            let mask = standing(s, anchors)?;
            if sees(mask, anchor) {
                Some(1 << anchor)
            } else {
                None
            }
        }
        Side::Filter(_, a, s) => {
            let anchor = anchors.as_slice()[*a as usize];
            let mask = standing(s, anchors)?;
            if sees(mask, anchor) { Some(mask) } else { None }
        }
        Side::InnerJoin(a, b, s, t) | Side::LeftJoin(a, b, s, t) => {
            let (left, right) = (
                anchors.as_slice()[*a as usize],
                anchors.as_slice()[*b as usize],
            );
            let lefts = standing(s, anchors)?;
            let rights = standing(t, anchors)?;
            if sees(lefts, left) && sees(rights, right) {
                Some(lefts | rights)
            } else {
                None
            }
        }
        Side::InSub(a, s, t) => {
            let anchor = anchors.as_slice()[*a as usize];
            let mask = standing(s, anchors)?;
            standing(t, anchors)?;
            if sees(mask, anchor) { Some(mask) } else { None }
        }
        Side::Dedup(s) => standing(s, anchors),
    }
}

/// Whether each list of a side stands where its anchor can be seen.
fn is_standing(side: &Side, anchors: &Anchors) -> bool
    requires leaves { HasSmallLeaves (tree_of side.now) }
    requires lists { HasAnchors (tree_of side.now) anchors.now }
    ensures { result ≡ stands (tree_of side.now) anchors.now }
{
    standing(side, anchors).is_some()
}

/// The first test that a source and a destination do not pass; None exactly where they are a lawful pair.
pub fn first_fault(
    alloc: Global,
    source: &Side,
    dest: &Side,
    anchors: &Anchors,
) -> Result<Option<PairFault>, AllocError>
    ensures { IfOk result (λ fault. fault ≡ fault_of (record { source = tree_of source.now; dest = tree_of dest.now; anchors = anchors.now })) }
{
    if !passes_symbols(alloc, source, dest, anchors)? {
        return Ok(Some(PairFault::Symbol));
    }
    if source.size() > MOST_OPERATORS || dest.size() > MOST_OPERATORS {
        return Ok(Some(PairFault::Size));
    }
    if !is_standing(source, anchors) || !is_standing(dest, anchors) {
        return Ok(Some(PairFault::Anchor));
    }
    if dest.weight() >= source.weight() {
        return Ok(Some(PairFault::Weight));
    }
    if has_proj_root(source) != has_proj_root(dest) {
        return Ok(Some(PairFault::Root));
    }
    Ok(None)
}

/// The first test that the pair does not pass, in the order of the tests; None exactly where it is lawful.
pub fn pair_fault(alloc: Global, pair: &Pair) -> Result<Option<PairFault>, AllocError>
    ensures first { IfOk result (λ fault. fault ≡ fault_of (pair_of pair.now)) }
    ensures lawful { IfOk result (λ fault. IsNone fault ↔ IsLawful (pair_of pair.now)) }
{
    first_fault(alloc, &pair.source, &pair.dest, &pair.anchors)
}
