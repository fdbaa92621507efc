//! Sides, pairs, instances and forms written as text, for the tables of the tests.

mod congruence;
mod forms;
mod times;

ghost use Rattle.std.specs.Prelude.{◌≡◌, IfOk, IfSome, IsTrue};
ghost use Rattle.wt_symbol.specs.Heads.{HasAnchors};
ghost use Rattle.wt_symbol.specs.Lawful.{IsLawful};
ghost use Rattle.wt_symbol.specs.Sides.{pair_of, tree_of};

use std::alloc::{AllocError, Global};
use wt_constraint::{AtomSet, Atoms};
use wt_form::Form;
use wt_instance::{ColsList, Instance, RowsList};
use wt_symbol::{Anchors, Pair, Side, pair_fault};
use wt_translate::form_of;
use wt_value::{Cols, Row, Rows, Value};

/// The last of the sides, or leaf 0.
fn last(made: &mut Vec<Side>) -> Side {
    match made.pop() {
        Some(side) => side,
        None => Side::Input(0),
    }
}

fn operand(alloc: Global, made: &mut Vec<Side>) -> Result<Box<Side>, AllocError> {
    Ok(Box::new(alloc, last(made))?)
}

/// The digit at a place of a word, 0 past its end.
fn digit(word: &[u8], place: usize) -> u8 {
    if place < word.len() {
        word[place].saturating_sub(b'0')
    } else {
        0
    }
}

/// The side of one word, which takes its operands from those made before it.
fn side_of_word(alloc: Global, word: &[u8], made: &mut Vec<Side>) -> Result<Side, AllocError> {
    let (first, second) = (digit(word, 1), digit(word, 2));
    if word.starts_with(b"r") {
        return Ok(Side::Input(first));
    }
    let right = operand(alloc, made)?;
    if word.starts_with(b"P") {
        return Ok(Side::Proj(first, right));
    }
    if word.starts_with(b"F") {
        return Ok(Side::Filter(first, second, right));
    }
    if word.starts_with(b"D") {
        return Ok(Side::Dedup(right));
    }
    two_operands(alloc, word, right, made)
}

fn two_operands(
    alloc: Global,
    word: &[u8],
    right: Box<Side>,
    made: &mut Vec<Side>,
) -> Result<Side, AllocError> {
    let left = operand(alloc, made)?;
    let (first, second) = (digit(word, 1), digit(word, 2));
    if word.starts_with(b"I") {
        Ok(Side::InnerJoin(first, second, left, right))
    } else if word.starts_with(b"L") {
        Ok(Side::LeftJoin(first, second, left, right))
    } else {
        Ok(Side::InSub(first, left, right))
    }
}

/// A side written as words, operands first: `r0` is leaf 0, `P2` a Proj with list 2, `F01` a Filter
/// with predicate 0 and list 1, `D` a Dedup, `I01` and `L01` an InnerJoin and a LeftJoin with lists 0
/// and 1, `S0` an InSub with list 0.
fn side(alloc: Global, text: &str) -> Result<Side, AllocError> {
    let mut made = Vec::new(alloc);
    for word in text.split_whitespace() {
        let next = side_of_word(alloc, word.as_bytes(), &mut made)?;
        made.push(next)?;
    }
    Ok(last(&mut made))
}

/// The anchors of a pair, a digit each.
fn anchors(alloc: Global, text: &str) -> Result<Anchors, AllocError> {
    let mut anchors = Anchors::new(alloc);
    for byte in text.bytes() {
        anchors.push(byte.saturating_sub(b'0'))?;
    }
    Ok(anchors)
}

/// Source, destination and anchors, with bars between them.
fn pair(alloc: Global, text: &str) -> Result<Pair, AllocError> {
    let mut parts = text.split('|');
    Ok(Pair {
        source: side(alloc, parts.next().unwrap_or(""))?,
        dest: side(alloc, parts.next().unwrap_or(""))?,
        anchors: anchors(alloc, parts.next().unwrap_or(""))?,
    })
}

/// The pair, if it is lawful.
fn lawful(alloc: Global, text: &str) -> Result<Option<Pair>, AllocError>
    ensures { IfOk result (λ found. IfSome found (λ p. IsLawful (pair_of p))) }
{
    let pair = pair(alloc, text)?;
    if pair_fault(alloc, &pair)?.is_some() {
        return Ok(None);
    }
    Ok(Some(pair))
}

/// The numbers of a text's digits.
fn digits(alloc: Global, text: &str) -> Result<Cols, AllocError> {
    let mut numbers = Cols::new(alloc);
    for byte in text.bytes() {
        numbers.push(u32::from(byte.saturating_sub(b'0')))?;
    }
    Ok(numbers)
}

/// A row: a digit for each value, and - for NULL.
fn row(alloc: Global, text: &str) -> Result<Row, AllocError> {
    let mut row = Row::new(alloc);
    for byte in text.bytes() {
        if byte == b'-' {
            row.push(Value::Null)?;
        } else {
            row.push(Value::Int(i64::from(byte.saturating_sub(b'0'))))?;
        }
    }
    Ok(row)
}

/// Rows with blanks between them.
fn rows(alloc: Global, text: &str) -> Result<Rows, AllocError> {
    let mut rows = Rows::new(alloc);
    for word in text.split_whitespace() {
        rows.push(row(alloc, word)?)?;
    }
    Ok(rows)
}

/// Lists of rows, each with a bar behind it.
fn tables(alloc: Global, text: &str) -> Result<RowsList, AllocError> {
    let mut tables = RowsList::new(alloc);
    let mut left = text;
    for _ in 0..text.len() {
        if let Some((table, more)) = left.split_once('|') {
            tables.push(rows(alloc, table)?)?;
            left = more;
        }
    }
    Ok(tables)
}

/// Lists of column numbers with blanks between them; a dot is an empty one.
fn lists(alloc: Global, text: &str) -> Result<ColsList, AllocError> {
    let mut lists = ColsList::new(alloc);
    for word in text.split_whitespace() {
        lists.push(digits(alloc, if word == "." { "" } else { word })?)?;
    }
    Ok(lists)
}

/// Widths, tables, lists of numbers, and the rows on which predicates are True.
type Parts = (&'static str, &'static str, &'static str, &'static str);

fn instance(alloc: Global, parts: &Parts) -> Result<Instance, AllocError> {
    Ok(Instance {
        widths: digits(alloc, parts.0)?,
        tables: tables(alloc, parts.1)?,
        lists: lists(alloc, parts.2)?,
        trues: tables(alloc, parts.3)?,
    })
}

/// The set of the atom that is written so, if it is one of these; the empty set for no text.
fn set_of(alloc: Global, atoms: &Atoms, text: &str) -> Result<Option<AtomSet>, AllocError> {
    if text.is_empty() {
        return Ok(Some(AtomSet(0)));
    }
    for (k, atom) in atoms.as_slice().iter().enumerate() {
        let found = format!(in alloc; "{atom:?}")?;
        if found.as_str() == text && k < 64 {
            return Ok(Some(AtomSet(1 << k)));
        }
    }
    Ok(None)
}

/// Whether each list of the side has an anchor.
fn is_anchored(side: &Side, anchors: &Anchors) -> bool
    ensures { IsTrue result → HasAnchors (tree_of side.now) anchors.now }
{
    match side {
        Side::Input(_) => true,
        Side::Proj(a, s) | Side::Filter(_, a, s) => {
            (*a as usize) < anchors.len() && is_anchored(s, anchors)
        }
        Side::InnerJoin(a, b, s, t) | Side::LeftJoin(a, b, s, t) => {
            (*a as usize) < anchors.len()
                && (*b as usize) < anchors.len()
                && is_anchored(s, anchors)
                && is_anchored(t, anchors)
        }
        Side::InSub(a, s, t) => {
            (*a as usize) < anchors.len() && is_anchored(s, anchors) && is_anchored(t, anchors)
        }
        Side::Dedup(s) => is_anchored(s, anchors),
    }
}

/// The form of a side that is written so, if its lists have anchors.
fn form(alloc: Global, text: &str, anchors: &Anchors) -> Result<Option<Form>, AllocError> {
    let side = side(alloc, text)?;
    if side.size() >= 1 << 31 || !is_anchored(&side, anchors) {
        return Ok(None);
    }
    Ok(Some(form_of(alloc, &side, anchors)?))
}
