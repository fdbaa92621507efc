//! The sides of a rule.
ghost use Rattle.std.specs.Prelude.{◌≡◌, ℕ, codes, IfOk};
ghost use Rattle.wt_rule_text.specs.Reading as spec;
ghost use Rattle.wt_rule_text.specs.Trees.{side_of, one, two};
ghost use Rattle.wt_rule_text.specs.Given.{Gives};

use crate::parsed::{Binary, LineError, Listed, ParsedSide, Unary};
use crate::scan::{after, symbol};
use std::alloc::{AllocError, Global};

/// The list symbol that stands here, with its anchor in a side that marks them.
fn listed(line: &[u8], at: usize, marked: bool) -> Option<(Listed, usize)>
    ensures { result ≡ spec.listed marked line.now at }
{
    let (list, at) = symbol(line, at, "a")?;
    if !marked {
        return Some((Listed { list, anchor: None }, at));
    }
    let at = after(line, at, "@")?;
    let (anchor, at) = symbol(line, at, "r")?;
    let anchor = Some(anchor);
    Some((Listed { list, anchor }, at))
}

/// The lists of a join.
fn two_listed(line: &[u8], at: usize, marked: bool) -> Option<(Listed, Listed, usize)>
    ensures { result ≡ spec.two_listed marked line.now at }
{
    let (left, at) = listed(line, at, marked)?;
    let at = after(line, at, ",")?;
    let (right, at) = listed(line, at, marked)?;
    Some((left, right, after(line, at, ">(")?))
}

fn proj(line: &[u8], at: usize, marked: bool) -> Option<(Unary, usize)>
    ensures { result ≡ spec.proj marked line.now at }
{
    let at = after(line, at, "Proj<")?;
    let (list, at) = listed(line, at, marked)?;
    Some((Unary::Proj(list), after(line, at, ">(")?))
}

fn filter(line: &[u8], at: usize, marked: bool) -> Option<(Unary, usize)>
    ensures { result ≡ spec.filter marked line.now at }
{
    let at = after(line, at, "Filter<")?;
    let (pred, at) = symbol(line, at, "p")?;
    let at = after(line, at, ",")?;
    let (list, at) = listed(line, at, marked)?;
    Some((Unary::Filter(pred, list), after(line, at, ">(")?))
}

fn dedup(line: &[u8], at: usize) -> Option<(Unary, usize)>
    ensures { result ≡ spec.dedup line.now at }
{
    Some((Unary::Dedup, after(line, at, "Dedup(")?))
}

/// The operator of one operand that stands here, up to its operand.
fn unary(line: &[u8], at: usize, marked: bool) -> Option<(Unary, usize)>
    ensures { result ≡ spec.unary marked line.now at }
{
    if let Some(found) = proj(line, at, marked) {
        return Some(found);
    }
    if let Some(found) = filter(line, at, marked) {
        return Some(found);
    }
    dedup(line, at)
}

fn inner_join(line: &[u8], at: usize, marked: bool) -> Option<(Binary, usize)>
    ensures { result ≡ spec.inner_join marked line.now at }
{
    let at = after(line, at, "InnerJoin<")?;
    let (left, right, at) = two_listed(line, at, marked)?;
    Some((Binary::InnerJoin(left, right), at))
}

fn left_join(line: &[u8], at: usize, marked: bool) -> Option<(Binary, usize)>
    ensures { result ≡ spec.left_join marked line.now at }
{
    let at = after(line, at, "LeftJoin<")?;
    let (left, right, at) = two_listed(line, at, marked)?;
    Some((Binary::LeftJoin(left, right), at))
}

fn in_sub(line: &[u8], at: usize, marked: bool) -> Option<(Binary, usize)>
    ensures { result ≡ spec.in_sub marked line.now at }
{
    let at = after(line, at, "InSub<")?;
    let (list, at) = listed(line, at, marked)?;
    Some((Binary::InSub(list), after(line, at, ">(")?))
}

/// The operator of two operands that stands here, up to its first operand.
fn binary(line: &[u8], at: usize, marked: bool) -> Option<(Binary, usize)>
    ensures { result ≡ spec.binary marked line.now at }
{
    if let Some(found) = inner_join(line, at, marked) {
        return Some(found);
    }
    if let Some(found) = left_join(line, at, marked) {
        return Some(found);
    }
    in_sub(line, at, marked)
}

fn over_one(alloc: Global, operator: Unary, operand: ParsedSide) -> Result<ParsedSide, AllocError>
    ensures { IfOk result (λ side. side_of side ≡ one operator (side_of operand)) }
{
    Ok(ParsedSide::One(operator, Box::new(alloc, operand)?))
}

fn over_two(
    alloc: Global,
    operator: Binary,
    left: ParsedSide,
    right: ParsedSide,
) -> Result<ParsedSide, AllocError>
    ensures { IfOk result (λ side. side_of side ≡ two operator (side_of left) (side_of right)) }
{
    let left = Box::new(alloc, left)?;
    Ok(ParsedSide::Two(operator, left, Box::new(alloc, right)?))
}

/// The word that has to stand here.
pub(crate) fn expect(line: &[u8], at: usize, word: &str) -> Result<usize, LineError>
    ensures { Gives (λ (n : ℕ). n) (spec.after line.now at word.now) result }
{
    after(line, at, word).ok_or(LineError::Syntax)
}

#[cycle(side)]
fn with_one(
    alloc: Global,
    line: &[u8],
    at: usize,
    marked: bool,
    depth: usize,
    operator: Unary,
) -> Result<(ParsedSide, usize), LineError>
    ensures { Gives (λ (s : ParsedSide × ℕ). (side_of s.0, s.1)) (spec.operand (spec.side depth marked line.now) operator line.now at) result }
{
    let (operand, at) = side(alloc, line, at, marked, depth)?;
    let at = expect(line, at, ")")?;
    Ok((over_one(alloc, operator, operand)?, at))
}

#[cycle(side)]
fn operands(
    alloc: Global,
    line: &[u8],
    at: usize,
    marked: bool,
    depth: usize,
) -> Result<(ParsedSide, ParsedSide, usize), LineError>
    ensures { Gives (λ (s : ParsedSide × ParsedSide × ℕ). (side_of s.0, side_of s.1, s.2)) (spec.two_operands (spec.side depth marked line.now) line.now at) result }
{
    let (left, at) = side(alloc, line, at, marked, depth)?;
    let at = expect(line, at, ",")?;
    let (right, at) = side(alloc, line, at, marked, depth)?;
    let at = expect(line, at, ")")?;
    Ok((left, right, at))
}

/// The side that stands here, with at most so many operands inside one another; in a source each
/// list is marked with its anchor.
#[cycle(side)]
pub(crate) fn side(
    alloc: Global,
    line: &[u8],
    at: usize,
    marked: bool,
    depth: usize,
) -> Result<(ParsedSide, usize), LineError>
    ensures { Gives (λ (s : ParsedSide × ℕ). (side_of s.0, s.1)) (spec.side depth marked line.now at) result }
{
    if depth == 0 {
        return Err(LineError::Syntax);
    }
    if let Some((leaf, at)) = symbol(line, at, "r") {
        return Ok((ParsedSide::Input(leaf), at));
    }
    if let Some((operator, at)) = unary(line, at, marked) {
        return with_one(alloc, line, at, marked, depth - 1, operator);
    }
    let (operator, at) = binary(line, at, marked).ok_or(LineError::Syntax)?;
    let (left, right, at) = operands(alloc, line, at, marked, depth - 1)?;
    Ok((over_two(alloc, operator, left, right)?, at))
}
