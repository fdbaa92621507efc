//! The rules of pairs, proofs with few steps, and forms by number.
use crate::tests::{facts, form, lawful, reached_from};
use std::alloc::{AllocError, Global};
use std::test::Fail;
use wt_constraint::AtomSet;
use wt_cores::rules_of_pair;
use wt_form::Prover;
use wt_form_table::FormTable;
use wt_search::Search;
use wt_symbol::Anchors;

/// A source, a destination, and the anchors of the source's lists.
type Sides = (&'static str, &'static str, &'static str);

/// A LeftJoin under a Proj of its left side.
const LEFT: Sides = ("r0 r1 L12 P0", "r0 P0", "001");

/// Sides, how many atoms may be left out, and the numbers of the sets.
static RULES: [(Sides, u32, &[u64]); 5] = [
    (LEFT, 64, &[21, 27, 39, 41, 64]),
    (LEFT, 8, &[21, 27, 39, 41]),
    (LEFT, 7, &[27, 39]),
    (LEFT, 0, &[]),
    (("r0 r1 L12 r2 S0", "r0 r1 I12 r2 S0", "101"), 64, &[0]),
];

/// Sides, a set, how many steps there may be, and whether there is a proof.
static PROOFS: [(Sides, u64, u32, bool); 3] = [
    (LEFT, 2047, 1, false),
    (LEFT, 2047, 2, true),
    (("r0 r1 L23 r2 I01", "r0 r1 I23 r2 I01", "1201"), 0, 1, true),
];

fn are_numbers(sets: &[AtomSet], numbers: &[u64]) -> bool {
    if sets.len() != numbers.len() {
        return false;
    }
    for (i, set) in sets.iter().enumerate() {
        if i < numbers.len() && set.0 != numbers[i] {
            return false;
        }
    }
    true
}

/// Whether the rules of the sides' pair are those of these numbers; None where it is not lawful.
fn are_rules(
    alloc: Global,
    sides: &Sides,
    depth: u32,
    numbers: &[u64],
) -> Result<Option<bool>, AllocError> {
    let Some(pair) = lawful(alloc, sides.0, sides.1, sides.2)? else {
        return Ok(None);
    };
    let rules = rules_of_pair(&Search {}, alloc, &pair, depth, 8)?;
    Ok(Some(are_numbers(rules.as_slice(), numbers)))
}

fn is_proved(
    alloc: Global,
    sides: &Sides,
    set: u64,
    steps: u32,
) -> Result<Option<bool>, AllocError> {
    let Some(pair) = lawful(alloc, sides.0, sides.1, sides.2)? else {
        return Ok(None);
    };
    Ok(Some(Search {}.prove(alloc, &pair, AtomSet(set), steps)?))
}

/// Whether the forms of two sides have one number in a table that has both.
fn have_one_number(alloc: Global, first: &str, second: &str) -> Result<Option<bool>, AllocError> {
    let anchors = Anchors::new(alloc);
    let Some(f) = form(alloc, first, &anchors)? else {
        return Ok(None);
    };
    let Some(g) = form(alloc, second, &anchors)? else {
        return Ok(None);
    };
    let mut table = FormTable::new(alloc);
    let number = table.intern(&f)?;
    let other = table.intern(&g)?;
    let again = table.intern(&f)?;
    Ok(Some(number == other && again == other))
}

#[test]
fn pairs_have_these_rules(rt: HostRuntime) -> Result<(), Fail> {
    for (sides, depth, numbers) in &RULES {
        assert!(rt;
            are_rules(rt.alloc(), sides, *depth, numbers)? == Some(true),
            "{depth}"
        );
    }
    Ok(())
}

#[test]
fn proofs_have_so_many_steps(rt: HostRuntime) -> Result<(), Fail> {
    for (sides, set, steps, proved) in &PROOFS {
        assert!(rt;
            is_proved(rt.alloc(), sides, *set, *steps)? == Some(*proved),
            "{set} {steps}"
        );
    }
    Ok(())
}

#[test]
fn equal_forms_have_one_number(rt: HostRuntime) -> Result<(), Fail> {
    for (first, second, same) in &[
        ("r0 D", "r0 D", true),
        ("r0 D", "r0 D D", false),
        ("r0", "r1", false),
    ] {
        assert!(rt;
            have_one_number(rt.alloc(), first, second)? == Some(*same),
            "{second}"
        );
    }
    Ok(())
}

/// How many forms are reached from two Dedups in so many steps, under no constraint.
fn reached_count(alloc: Global, steps: u32) -> Result<Option<usize>, AllocError> {
    let Some(pair) = lawful(alloc, "r0 D D", "r0 D", "")? else {
        return Ok(None);
    };
    let Some(known) = facts(alloc, &pair, "")? else {
        return Ok(None);
    };
    reached_from(alloc, &known, "r0 D D", &Anchors::new(alloc), steps)
}

#[test]
fn chains_reach_so_many_forms(rt: HostRuntime) -> Result<(), Fail> {
    for (steps, count) in &[(16, 2_usize), (0, 1)] {
        assert!(rt;
            reached_count(rt.alloc(), *steps)? == Some(*count),
            "{steps}"
        );
    }
    Ok(())
}
