//! The set of atoms that a rule's line states.
ghost use Rattle.std.specs.Prelude.{◌≡◌, ◌≤◌, ◌<◌, ◌^◌, ◌↔◌, ℕ, map, length, IsTrue, IfOk, IfSome, MatchOption};
ghost use Rattle.wt_bag.specs.Bags.{Each};
ghost use Rattle.wt_bag.specs.Choices.{Apart, Has};
ghost use Rattle.wt_symbol.specs.Sides.{pair_of};
ghost use Rattle.wt_symbol.specs.Lawful.{IsLawful};
ghost use Rattle.wt_symbol.specs.Heads.{anchor};
ghost use Rattle.wt_constraint.specs.Atoms.{atoms_of_pair};
ghost use Rattle.wt_rule_line.specs.Sets.{as_written, picked, FindsSet};

use crate::fault::{RuleFault, RuleLineError};
use std::alloc::{AllocError, Global};
use wt_constraint::{Atom, AtomSet, atoms_of};
use wt_rule_text::ParsedAtom;
use wt_symbol::Pair;

/// The leaf that a list is anchored at.
fn leaf_of(anchors: &[u8], a: u8) -> u64
    ensures { result ≡ anchor anchors.now a }
{
    match anchors.get(usize::from(a)) {
        Some(r) => u64::from(*r),
        None => 0,
    }
}

/// An atom as a line has it.
fn written(anchors: &[u8], atom: Atom) -> ParsedAtom
    ensures { result ≡ as_written anchors.now atom }
{
    match atom {
        Atom::RelEq(x, y) => ParsedAtom::RelEq(u64::from(x), u64::from(y)),
        Atom::AttrsEq(x, y) => ParsedAtom::AttrsEq(u64::from(x), u64::from(y)),
        Atom::PredEq(x, y) => ParsedAtom::PredEq(u64::from(x), u64::from(y)),
        Atom::Unique(a) => ParsedAtom::Unique(leaf_of(anchors, a), u64::from(a)),
        Atom::NotNull(a) => ParsedAtom::NotNull(leaf_of(anchors, a), u64::from(a)),
        Atom::RefAttrs(a, b) => ParsedAtom::RefAttrs(
            leaf_of(anchors, a),
            u64::from(a),
            leaf_of(anchors, b),
            u64::from(b),
        ),
    }
}

/// Atoms as lines have them.
fn written_all(alloc: Global, anchors: &[u8], atoms: &[Atom]) -> Result<Vec<ParsedAtom>, AllocError>
    ensures { IfOk result (λ all. all.items ≡ map (as_written anchors.now) atoms.now) }
{
    let mut all = Vec::new(alloc);
    for atom in atoms {
        all.push(written(anchors, *atom))?;
    }
    Ok(all)
}

/// The atoms of a pair as lines have them.
fn written_atoms(alloc: Global, pair: &Pair) -> Result<Vec<ParsedAtom>, AllocError>
    requires lawful { IsLawful (pair_of pair.now) }
    ensures atoms { IfOk result (λ all. all.items ≡ map (as_written pair.now.anchors) (atoms_of_pair (pair_of pair.now))) }
    ensures few { IfOk result (λ all. length all.items ≤ 64) }
{
    let atoms = atoms_of(alloc, pair)?;
    written_all(alloc, pair.anchors.as_slice(), atoms.as_slice())
}

fn is_among(atom: ParsedAtom, all: &[ParsedAtom]) -> bool
    ensures { IsTrue result ↔ Has atom all.now }
{
    match all {
        [] => false,
        [first, others @ ..] => atom == *first || is_among(atom, others),
    }
}

/// Whether each atom is one of all.
fn are_among(atoms: &[ParsedAtom], all: &[ParsedAtom]) -> bool
    ensures { IsTrue result ↔ Each (λ a. Has a all.now) atoms.now }
{
    match atoms {
        [] => true,
        [first, others @ ..] => is_among(*first, all) && are_among(others, all),
    }
}

fn are_same(a: ParsedAtom, b: ParsedAtom) -> bool
    ensures { IsTrue result ↔ (a ≡ b) }
{
    a == b
}

/// The number of the set whose atoms these are in their order, the lowest bit being the first of all.
fn number_of(all: &[ParsedAtom], atoms: &[ParsedAtom]) -> Option<u64>
    requires apart { Apart all.now }
    requires few { length all.now ≤ 64 }
    ensures picked { MatchOption result ((n : ℕ) → picked n all.now ≡ atoms.now → ⊥) (λ n. picked n all.now ≡ atoms.now) }
    ensures small { IfSome result (λ n. n < 2 ^ length all.now) }
{
    let [first, others @ ..] = all else {
        return if atoms.is_empty() { Some(0) } else { None };
    };
    match atoms {
        [next, rest @ ..] if are_same(*next, *first) => {
            let higher = number_of(others, rest)?;
            Some(2 * higher + 1)
        }
        _ => {
            let higher = number_of(others, atoms)?;
            Some(2 * higher)
        }
    }
}

/// The set whose atoms these are in their order.
pub(crate) fn set_of(
    alloc: Global,
    pair: &Pair,
    atoms: &[ParsedAtom],
) -> Result<AtomSet, RuleLineError>
    requires lawful { IsLawful (pair_of pair.now) }
    ensures { FindsSet (pair_of pair.now) atoms.now result }
{
    let all = written_atoms(alloc, pair)?;
    if !are_among(atoms, &all) {
        return Err(RuleLineError::Fault(RuleFault::Atom));
    }
    match number_of(&all, atoms) {
        Some(number) => Ok(AtomSet(number)),
        None => Err(RuleLineError::Fault(RuleFault::Order)),
    }
}
