//! Sides and pairs written as text, for the tables of the tests.

mod atoms;
mod instances;
mod lots;
mod pairs;
mod proofs;
mod rules;
mod templates;
mod words;

ghost use Rattle.std.specs.Prelude.{IfOk, IfSome};
ghost use Rattle.wt_symbol.specs.Lawful.{IsLawful};
ghost use Rattle.wt_symbol.specs.Sides.{pair_of};

use std::alloc::{AllocError, Global};
use wt_symbol::{Anchors, Pair, Side, pair_fault};

/// The last of the sides, or leaf 0.
fn last(made: &mut Vec<Side>) -> Side {
    match made.pop() {
        Some(side) => side,
        None => Side::Input(0),
    }
}

fn operand(alloc: Global, made: &mut Vec<Side>) -> Result<Box<Side>, AllocError> {
    Ok(Box::new(alloc, last(made))?)
}

/// The digit at a place of a word, 0 past its end.
fn digit(word: &[u8], place: usize) -> u8 {
    if place < word.len() {
        word[place].saturating_sub(b'0')
    } else {
        0
    }
}

/// The side of one word, which takes its operands from those made before it.
fn side_of_word(alloc: Global, word: &[u8], made: &mut Vec<Side>) -> Result<Side, AllocError> {
    let (first, second) = (digit(word, 1), digit(word, 2));
    if word.starts_with(b"r") {
        return Ok(Side::Input(first));
    }
    let right = operand(alloc, made)?;
    if word.starts_with(b"P") {
        return Ok(Side::Proj(first, right));
    }
    if word.starts_with(b"F") {
        return Ok(Side::Filter(first, second, right));
    }
    if word.starts_with(b"D") {
        return Ok(Side::Dedup(right));
    }
    two_operands(alloc, word, right, made)
}

fn two_operands(
    alloc: Global,
    word: &[u8],
    right: Box<Side>,
    made: &mut Vec<Side>,
) -> Result<Side, AllocError> {
    let left = operand(alloc, made)?;
    let (first, second) = (digit(word, 1), digit(word, 2));
    if word.starts_with(b"I") {
        Ok(Side::InnerJoin(first, second, left, right))
    } else if word.starts_with(b"L") {
        Ok(Side::LeftJoin(first, second, left, right))
    } else {
        Ok(Side::InSub(first, left, right))
    }
}

/// A side written as words, operands first: `r0` is leaf 0, `P2` a Proj with list 2, `F01` a Filter
/// with predicate 0 and list 1, `D` a Dedup, `I01` and `L01` an InnerJoin and a LeftJoin with lists 0
/// and 1, `S0` an InSub with list 0.
fn side(alloc: Global, text: &str) -> Result<Side, AllocError> {
    let mut made = Vec::new(alloc);
    for word in text.split_whitespace() {
        let next = side_of_word(alloc, word.as_bytes(), &mut made)?;
        made.push(next)?;
    }
    Ok(last(&mut made))
}

/// The anchors of a pair, a digit each.
fn anchors(alloc: Global, text: &str) -> Result<Anchors, AllocError> {
    let mut anchors = Anchors::new(alloc);
    for byte in text.bytes() {
        anchors.push(byte.saturating_sub(b'0'))?;
    }
    Ok(anchors)
}

/// Source, destination and anchors, with bars between them.
fn pair(alloc: Global, text: &str) -> Result<Pair, AllocError> {
    let mut parts = text.split('|');
    Ok(Pair {
        source: side(alloc, parts.next().unwrap_or(""))?,
        dest: side(alloc, parts.next().unwrap_or(""))?,
        anchors: anchors(alloc, parts.next().unwrap_or(""))?,
    })
}

/// The pair, if it is lawful.
fn lawful(alloc: Global, text: &str) -> Result<Option<Pair>, AllocError>
    ensures { IfOk result (λ found. IfSome found (λ p. IsLawful (pair_of p))) }
{
    let pair = pair(alloc, text)?;
    if pair_fault(alloc, &pair)?.is_some() {
        return Ok(None);
    }
    Ok(Some(pair))
}
