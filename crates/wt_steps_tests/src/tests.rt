//! Sides and pairs written as text, for the table of the tests, and the forms that one step gives.

mod proofs;
mod rules;
mod steps;

ghost use Rattle.std.specs.Prelude.{◌≤◌, IfOk, IfSome, IsTrue};
ghost use Rattle.wt_symbol.specs.Heads.{HasAnchors};
ghost use Rattle.wt_symbol.specs.Lawful.{IsLawful};
ghost use Rattle.wt_symbol.specs.Sides.{pair_of, tree_of, size_of};

use std::alloc::{AllocError, Global};
use wt_constraint::{AtomSet, Atoms, atoms_of};
use wt_facts::Facts;
use wt_form::Form;
use wt_search::reached;
use wt_side_forms::forms_of_sides_have_room;
use wt_steps::steps;
use wt_symbol::{Anchors, Pair, Side, pair_fault};
use wt_translate::form_of;

/// The last of the sides, or leaf 0.
fn last(made: &mut Vec<Side>) -> Side {
    match made.pop() {
        Some(side) => side,
        None => Side::Input(0),
    }
}

/// The digit at a place of a word, 0 past its end.
fn digit(word: &[u8], place: usize) -> u8 {
    if place < word.len() {
        word[place].saturating_sub(b'0')
    } else {
        0
    }
}

/// The side of one word, which takes its operands from those made before it.
fn side_of_word(alloc: Global, word: &[u8], made: &mut Vec<Side>) -> Result<Side, AllocError> {
    let (first, second) = (digit(word, 1), digit(word, 2));
    if word.starts_with(b"r") {
        return Ok(Side::Input(first));
    }
    let right = Box::new(alloc, last(made))?;
    if word.starts_with(b"P") {
        return Ok(Side::Proj(first, right));
    }
    if word.starts_with(b"F") {
        return Ok(Side::Filter(first, second, right));
    }
    if word.starts_with(b"D") {
        return Ok(Side::Dedup(right));
    }
    two_operands(alloc, word, right, made)
}

fn two_operands(
    alloc: Global,
    word: &[u8],
    right: Box<Side>,
    made: &mut Vec<Side>,
) -> Result<Side, AllocError> {
    let left = Box::new(alloc, last(made))?;
    let (first, second) = (digit(word, 1), digit(word, 2));
    if word.starts_with(b"I") {
        Ok(Side::InnerJoin(first, second, left, right))
    } else if word.starts_with(b"L") {
        Ok(Side::LeftJoin(first, second, left, right))
    } else {
        Ok(Side::InSub(first, left, right))
    }
}

/// A side written as words, operands first: `r0` is leaf 0, `P2` a Proj with list 2, `F01` a Filter
/// with predicate 0 and list 1, `D` a Dedup, `I01` and `L01` an InnerJoin and a LeftJoin with lists 0
/// and 1, `S0` an InSub with list 0.
fn side(alloc: Global, text: &str) -> Result<Side, AllocError> {
    let mut made = Vec::new(alloc);
    for word in text.split_whitespace() {
        let next = side_of_word(alloc, word.as_bytes(), &mut made)?;
        made.push(next)?;
    }
    Ok(last(&mut made))
}

/// The anchors of a pair, a digit each.
fn anchors(alloc: Global, text: &str) -> Result<Anchors, AllocError> {
    let mut anchors = Anchors::new(alloc);
    for byte in text.bytes() {
        anchors.push(byte.saturating_sub(b'0'))?;
    }
    Ok(anchors)
}

/// The pair of two sides, if it is lawful.
fn lawful(alloc: Global, source: &str, dest: &str, leaves: &str) -> Result<Option<Pair>, AllocError>
    ensures { IfOk result (λ found. IfSome found (λ p. IsLawful (pair_of p))) }
{
    let pair = Pair {
        source: side(alloc, source)?,
        dest: side(alloc, dest)?,
        anchors: anchors(alloc, leaves)?,
    };
    if pair_fault(alloc, &pair)?.is_some() {
        return Ok(None);
    }
    Ok(Some(pair))
}

/// The number of the atom that is written so, if there is one.
fn atom_number(alloc: Global, atoms: &Atoms, text: &str) -> Result<Option<usize>, AllocError> {
    for (k, atom) in atoms.as_slice().iter().enumerate() {
        let found = format!(in alloc; "{atom:?}")?;
        if found.as_str() == text {
            return Ok(Some(k));
        }
    }
    Ok(None)
}

/// The set of the atoms that are written so, with semicolons between them, if each is there.
fn set_of(alloc: Global, atoms: &Atoms, text: &str) -> Result<Option<AtomSet>, AllocError> {
    let mut set = 0_u64;
    for word in text.split(';') {
        let word = word.trim();
        if !word.is_empty() {
            match atom_number(alloc, atoms, word)? {
                Some(k) if k < 64 => set = set | (1 << k),
                _ => return Ok(None),
            }
        }
    }
    Ok(Some(AtomSet(set)))
}

/// Whether each list of the side has an anchor.
fn is_anchored(side: &Side, anchors: &Anchors) -> bool
    ensures { IsTrue result → HasAnchors (tree_of side.now) anchors.now }
{
    match side {
        Side::Input(_) => true,
        Side::Proj(a, s) | Side::Filter(_, a, s) => {
            (*a as usize) < anchors.len() && is_anchored(s, anchors)
        }
        Side::InnerJoin(a, b, s, t) | Side::LeftJoin(a, b, s, t) => {
            (*a as usize) < anchors.len()
                && (*b as usize) < anchors.len()
                && is_anchored(s, anchors)
                && is_anchored(t, anchors)
        }
        Side::InSub(a, s, t) => {
            (*a as usize) < anchors.len() && is_anchored(s, anchors) && is_anchored(t, anchors)
        }
        Side::Dedup(s) => is_anchored(s, anchors),
    }
}

/// The form of a side that is written so, if its lists have anchors and its operators are few.
fn form(alloc: Global, text: &str, anchors: &Anchors) -> Result<Option<Form>, AllocError> {
    let side = side(alloc, text)?;
    if side.size() > 4 || !is_anchored(&side, anchors) {
        return Ok(None);
    }
    Ok(Some(form_of(alloc, &side, anchors)?))
}

/// The forms that one step gives from the form of a side.
fn stepped(
    alloc: Global,
    facts: &Facts,
    side: &Side,
    anchors: &Anchors,
) -> Result<Vec<Form>, AllocError>
    requires lists { HasAnchors (tree_of side.now) anchors.now }
    requires size { size_of (tree_of side.now) ≤ 4 }
{
    forms_of_sides_have_room();
    let form = form_of(alloc, side, anchors)?;
    steps(alloc, facts, &form)
}

/// How many forms chains of at most so many steps reach from the form of a side.
fn reached_by(
    alloc: Global,
    facts: &Facts,
    side: &Side,
    anchors: &Anchors,
    steps: u32,
) -> Result<usize, AllocError>
    requires lists { HasAnchors (tree_of side.now) anchors.now }
    requires size { size_of (tree_of side.now) ≤ 4 }
{
    forms_of_sides_have_room();
    let form = form_of(alloc, side, anchors)?;
    let forms = reached(alloc, facts, &form, steps)?;
    Ok(forms.len())
}

/// The same, if the side's lists have anchors and its operators are few.
fn reached_from(
    alloc: Global,
    facts: &Facts,
    text: &str,
    anchors: &Anchors,
    steps: u32,
) -> Result<Option<usize>, AllocError> {
    let side = side(alloc, text)?;
    if side.size() > 4 || !is_anchored(&side, anchors) {
        return Ok(None);
    }
    Ok(Some(reached_by(alloc, facts, &side, anchors, steps)?))
}

/// The forms that one step gives from that of a side, if the side's lists have anchors and its operators are few.
fn steps_from(
    alloc: Global,
    facts: &Facts,
    text: &str,
    anchors: &Anchors,
) -> Result<Option<Vec<Form>>, AllocError> {
    let side = side(alloc, text)?;
    if side.size() > 4 || !is_anchored(&side, anchors) {
        return Ok(None);
    }
    Ok(Some(stepped(alloc, facts, &side, anchors)?))
}

/// What is known under the set of some atoms of a pair, if each is one.
fn facts(alloc: Global, pair: &Pair, text: &str) -> Result<Option<Facts>, AllocError>
    requires { IsLawful (pair_of pair.now) }
{
    let atoms = atoms_of(alloc, pair)?;
    match set_of(alloc, &atoms, text)? {
        Some(set) => Ok(Some(Facts::of(alloc, pair, &atoms, set)?)),
        None => Ok(None),
    }
}
