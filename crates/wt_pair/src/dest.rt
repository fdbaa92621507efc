//! The destinations of a source by number.
ghost use Rattle.std.specs.Prelude.{◌≡◌, ◌+◌, ◌*◌, ◌/◌, ◌%◌, ◌<◌, ◌≤◌, length, slice_get, Some, IfOk};
ghost use Rattle.std.specs.Option.{option_map};
ghost use Rattle.wt_symbol.specs.Sides.{tree_of};
ghost use Rattle.wt_pair.specs.Candidates.{destinations_over};
ghost use Rattle.wt_pair.specs.Dests.{destinations_of_size, variants_of, CountsDests};

use crate::source::Symbols;
use std::alloc::{AllocError, Global};
use wt_symbol::Side;
use wt_template::Ops;
use wt_template::place::{Place, Variants, locate};

/// How many variants each operator has over the symbols of a source.
fn variants(ops: Ops, symbols: &Symbols) -> Variants
    ensures { result ≡ variants_of ops.0 symbols.now.lists symbols.now.preds }
{
    let letters = ops.variants();
    let lists = u64::from(symbols.lists);
    let preds = u64::from(symbols.preds);
    Variants {
        proj: letters.proj * lists,
        filter: letters.filter * (preds * lists),
        inner_join: letters.inner_join * (lists * lists),
        left_join: letters.left_join * (lists * lists),
        in_sub: letters.in_sub * lists,
        dedup: letters.dedup,
    }
}

/// A variant as a symbol.
fn one_of(count: u8, variant: u64) -> u8
    requires { variant < count }
    ensures { result ≡ variant }
{
    variant as u8
}

/// Two symbols of a variant.
#[derive(Clone, Copy)]
struct TwoSymbols {
    first: u8,
    second: u8,
}

/// A variant as two symbols, the second counting faster.
fn two_of(firsts: u8, seconds: u8, variant: u64) -> TwoSymbols
    requires { variant < firsts * seconds }
    ensures first { result.first ≡ variant / seconds }
    ensures second { result.second ≡ variant % seconds }
{
    let seconds = u64::from(seconds);
    TwoSymbols {
        first: (variant / seconds) as u8,
        second: (variant % seconds) as u8,
    }
}

/// The k-th destination of one size, where `counts` has how many there are of each smaller size.
fn dest_of(
    alloc: Global,
    ops: Ops,
    symbols: &Symbols,
    counts: &[u64],
    size: usize,
    k: u64,
) -> Result<Side, AllocError>
    requires counted { CountsDests ops.0 symbols.now counts.now size }
    requires within { size ≤ length counts.now }
    requires exists { k < length (destinations_of_size ops.0 symbols.now size) }
    ensures { IfOk result (λ s. slice_get (destinations_of_size ops.0 symbols.now size) k ≡ Some (tree_of s)) }
{
    if size == 0 {
        return Ok(Side::Input(one_of(symbols.leaves, k)));
    }
    let n = size - 1;
    let lists = symbols.lists;
    match locate(&variants(ops, symbols), counts, n, k) {
        Ok(Place::Proj(o)) => {
            let a = one_of(lists, o.variant);
            let operand = dest_of(alloc, ops, symbols, counts, n, o.operand)?;
            Ok(Side::Proj(a, Box::new(alloc, operand)?))
        }
        Ok(Place::Filter(o)) => {
            let chosen = two_of(symbols.preds, lists, o.variant);
            let operand = dest_of(alloc, ops, symbols, counts, n, o.operand)?;
            Ok(Side::Filter(chosen.first, chosen.second, Box::new(alloc, operand)?))
        }
        Ok(Place::InnerJoin(o)) => {
            let chosen = two_of(lists, lists, o.variant);
            let left = Box::new(
                alloc,
                dest_of(alloc, ops, symbols, counts, o.left_size, o.left)?,
            )?;
            let right = dest_of(alloc, ops, symbols, counts, n - o.left_size, o.right)?;
            Ok(Side::InnerJoin(chosen.first, chosen.second, left, Box::new(alloc, right)?))
        }
        Ok(Place::LeftJoin(o)) => {
            let chosen = two_of(lists, lists, o.variant);
            let left = Box::new(
                alloc,
                dest_of(alloc, ops, symbols, counts, o.left_size, o.left)?,
            )?;
            let right = dest_of(alloc, ops, symbols, counts, n - o.left_size, o.right)?;
            Ok(Side::LeftJoin(chosen.first, chosen.second, left, Box::new(alloc, right)?))
        }
        Ok(Place::InSub(o)) => {
            let a = one_of(lists, o.variant);
            let left = Box::new(
                alloc,
                dest_of(alloc, ops, symbols, counts, o.left_size, o.left)?,
            )?;
            let right = dest_of(alloc, ops, symbols, counts, n - o.left_size, o.right)?;
            Ok(Side::InSub(a, left, Box::new(alloc, right)?))
        }
        Ok(Place::Dedup(o)) => {
            let operand = dest_of(alloc, ops, symbols, counts, n, o.operand)?;
            Ok(Side::Dedup(Box::new(alloc, operand)?))
        }
        Err(_) => unreachable!(),
    }
}

/// The k-th destination, from 0, of size 0 to `most` over the symbols of a source; None where there
/// are not so many.
pub fn nth_dest(
    alloc: Global,
    ops: Ops,
    symbols: &Symbols,
    most: u32,
    k: u64,
) -> Result<Option<Side>, AllocError>
    ensures { IfOk result (λ found. option_map tree_of found ≡ slice_get (destinations_over ops.0 most symbols.now.leaves symbols.now.lists symbols.now.preds) k) }
{
    let leaves = u64::from(symbols.leaves);
    if k < leaves {
        return Ok(Some(Side::Input(one_of(symbols.leaves, k))));
    }
    let variants = variants(ops, symbols);
    let mut counts = Vec::new(alloc);
    counts.push(leaves)?;
    let mut rest = k - leaves;
    for n in 0..most as usize {
        match locate(&variants, &counts, n, rest) {
            Ok(_) => return Ok(Some(dest_of(alloc, ops, symbols, &counts, n + 1, rest)?)),
            Err(after) => {
                counts.push(rest - after)?;
                rest = after;
            }
        }
    }
    Ok(None)
}
