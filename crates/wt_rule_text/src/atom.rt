//! The atoms of a rule.
ghost use Rattle.std.specs.Prelude.{◌≡◌, ◌++◌, codes, length, IfOk};
ghost use Rattle.wt_rule_text.specs.Reading as spec;
ghost use Rattle.wt_rule_text.specs.Given.{Gives};

use crate::parsed::{LineError, ParsedAtom};
use crate::scan::{after, symbol};
use std::alloc::{AllocError, Global};

/// Two symbols between the word of an atom and its parenthesis.
fn two_symbols(
    line: &[u8],
    at: usize,
    word: &str,
    first: &str,
    second: &str,
) -> Option<(u64, u64, usize)>
    ensures { result ≡ spec.two_symbols word.now first.now second.now line.now at }
{
    let at = after(line, at, word)?;
    let (x, at) = symbol(line, at, first)?;
    let at = after(line, at, ",")?;
    let (y, at) = symbol(line, at, second)?;
    Some((x, y, after(line, at, ")")?))
}

fn rel_eq(line: &[u8], at: usize) -> Option<(ParsedAtom, usize)>
    ensures { result ≡ spec.rel_eq line.now at }
{
    let (x, y, at) = two_symbols(line, at, "RelEq(", "r", "r")?;
    Some((ParsedAtom::RelEq(x, y), at))
}

fn attrs_eq(line: &[u8], at: usize) -> Option<(ParsedAtom, usize)>
    ensures { result ≡ spec.attrs_eq line.now at }
{
    let (x, y, at) = two_symbols(line, at, "AttrsEq(", "a", "a")?;
    Some((ParsedAtom::AttrsEq(x, y), at))
}

fn pred_eq(line: &[u8], at: usize) -> Option<(ParsedAtom, usize)>
    ensures { result ≡ spec.pred_eq line.now at }
{
    let (x, y, at) = two_symbols(line, at, "PredEq(", "p", "p")?;
    Some((ParsedAtom::PredEq(x, y), at))
}

fn unique(line: &[u8], at: usize) -> Option<(ParsedAtom, usize)>
    ensures { result ≡ spec.unique line.now at }
{
    let (r, a, at) = two_symbols(line, at, "Unique(", "r", "a")?;
    Some((ParsedAtom::Unique(r, a), at))
}

fn not_null(line: &[u8], at: usize) -> Option<(ParsedAtom, usize)>
    ensures { result ≡ spec.not_null line.now at }
{
    let (r, a, at) = two_symbols(line, at, "NotNull(", "r", "a")?;
    Some((ParsedAtom::NotNull(r, a), at))
}

/// A leaf and a list, as references have them.
fn leaf_and_list(line: &[u8], at: usize) -> Option<(u64, u64, usize)>
    ensures { result ≡ spec.leaf_and_list line.now at }
{
    let (r, at) = symbol(line, at, "r")?;
    let at = after(line, at, ",")?;
    let (a, at) = symbol(line, at, "a")?;
    Some((r, a, at))
}

fn ref_attrs(line: &[u8], at: usize) -> Option<(ParsedAtom, usize)>
    ensures { result ≡ spec.ref_attrs line.now at }
{
    let at = after(line, at, "RefAttrs(")?;
    let (r, a, at) = leaf_and_list(line, at)?;
    let at = after(line, at, ",")?;
    let (s, b, at) = leaf_and_list(line, at)?;
    Some((ParsedAtom::RefAttrs(r, a, s, b), after(line, at, ")")?))
}

/// The equality that stands here.
fn equality(line: &[u8], at: usize) -> Option<(ParsedAtom, usize)>
    ensures { result ≡ spec.equality line.now at }
{
    if let Some(found) = rel_eq(line, at) {
        return Some(found);
    }
    if let Some(found) = attrs_eq(line, at) {
        return Some(found);
    }
    pred_eq(line, at)
}

/// The atom on lists at their anchors that stands here.
fn property(line: &[u8], at: usize) -> Option<(ParsedAtom, usize)>
    ensures { result ≡ spec.property line.now at }
{
    if let Some(found) = unique(line, at) {
        return Some(found);
    }
    if let Some(found) = not_null(line, at) {
        return Some(found);
    }
    ref_attrs(line, at)
}

/// The atom that stands here.
fn atom(line: &[u8], at: usize) -> Option<(ParsedAtom, usize)>
    ensures { result ≡ spec.atom line.now at }
{
    if let Some(found) = equality(line, at) {
        return Some(found);
    }
    property(line, at)
}

/// The atom that stands behind a space here.
fn spaced_atom(line: &[u8], at: usize) -> Option<(ParsedAtom, usize)>
    ensures { result ≡ spec.spaced_atom line.now at }
{
    atom(line, after(line, at, " ")?)
}

/// Adds the atoms that follow, each behind a space; answers the place behind the last.
fn push_more(line: &[u8], from: usize, atoms: &mut Vec<ParsedAtom>) -> Result<usize, AllocError>
    ensures atoms { IfOk result (λ end. atoms.new.items ≡ atoms.old.items ++ (spec.more_atoms (length line.now) line.now from).0) }
    ensures end { IfOk result (λ end. end ≡ (spec.more_atoms (length line.now) line.now from).1) }
{
    let mut at = from;
    'atoms: for _ in 0..line.len() {
        let Some((atom, next)) = spaced_atom(line, at) else {
            return Ok(at);
        };
        atoms.push(atom)?;
        at = next;
    }
    Ok(at)
}

/// The first atom and those that follow.
fn some_atoms(alloc: Global, line: &[u8], at: usize) -> Result<(Vec<ParsedAtom>, usize), LineError>
    ensures { Gives (λ a. (a.0.items, a.1)) (spec.some_atoms line.now at) result }
{
    let (first, at) = atom(line, at).ok_or(LineError::Syntax)?;
    let mut atoms = Vec::new(alloc);
    atoms.push(first)?;
    let end = push_more(line, at, &mut atoms)?;
    Ok((atoms, end))
}

/// The atoms that stand here: a dash for none, or one after another with a space between.
pub(crate) fn atoms(
    alloc: Global,
    line: &[u8],
    at: usize,
) -> Result<(Vec<ParsedAtom>, usize), LineError>
    ensures { Gives (λ a. (a.0.items, a.1)) (spec.atoms line.now at) result }
{
    if let Some(at) = after(line, at, "-") {
        return Ok((Vec::new(alloc), at));
    }
    some_atoms(alloc, line, at)
}
