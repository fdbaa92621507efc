//! What the prover proves, the rules of a pair, and their lines.
use crate::tests::lawful;
use std::alloc::{AllocError, Global};
use std::test::Fail;
use wt_constraint::{AtomSet, atoms_of, full};
use wt_cores::rules_of_pair;
use wt_discover::lines_of_pairs;
use wt_form::Prover;
use wt_search::Search;

/// Whether a pair is provable under the set of all its atoms, and under the empty one.
fn proved(alloc: Global, text: &str) -> Result<Option<(bool, bool)>, AllocError> {
    let Some(pair) = lawful(alloc, text)? else {
        return Ok(None);
    };
    let all = full(&atoms_of(alloc, &pair)?);
    let under_all = Search {}.prove(alloc, &pair, all, 8)?;
    let under_none = Search {}.prove(alloc, &pair, AtomSet(0), 8)?;
    Ok(Some((under_all, under_none)))
}

#[test]
fn pairs_are_proved_exactly_where_provable(rt: HostRuntime) -> Result<(), Fail> {
    for (text, under_all, under_none) in [
        ("r0 D D | r0 D |", true, true),
        ("r0 D | r0 |", false, false),
        ("r0 F11 F00 | r0 F10 |00", true, false),
        ("r0 F11 D F00 | r0 F10 D |00", false, false),
    ] {
        assert!(rt;
            proved(rt.alloc(), text)? == Some((under_all, under_none)),
            "{text}"
        );
    }
    Ok(())
}

fn has_rules(alloc: Global, text: &str, expected: &str) -> Result<bool, AllocError> {
    let Some(pair) = lawful(alloc, text)? else {
        return Ok(false);
    };
    let rules = rules_of_pair(&Search {}, alloc, &pair, 64, 8)?;
    let found = format!(in alloc; "{:?}", rules.as_slice())?;
    Ok(found.as_str() == expected)
}

#[test]
fn pairs_have_the_least_sets(rt: HostRuntime) -> Result<(), Fail> {
    for (text, expected) in [
        ("r0 F11 F00 | r0 F00 |00", "[AtomSet(3)]"),
        ("r0 F11 F00 | r0 F01 |00", "[AtomSet(3)]"),
        ("r0 F11 F00 | r0 F10 |00", "[AtomSet(3)]"),
        ("r0 F11 F00 | r0 F11 |00", "[AtomSet(3)]"),
        ("r0 D D | r0 D |", "[AtomSet(0)]"),
        ("r0 D | r0 |", "[]"),
    ] {
        assert!(rt; has_rules(rt.alloc(), text, expected)?, "{text}");
    }
    Ok(())
}

fn has_lines(alloc: Global, text: &str, expected: &str) -> Result<bool, AllocError> {
    let Some(pair) = lawful(alloc, text)? else {
        return Ok(false);
    };
    let pairs = [pair];
    let lines = lines_of_pairs(&Search {}, alloc, &pairs, 64, 8)?;
    let count = if expected.is_empty() { 0 } else { 1 };
    Ok(lines.text.as_slice() == expected.as_bytes() && lines.count == count)
}

#[test]
fn rules_have_lines(rt: HostRuntime) -> Result<(), Fail> {
    for (text, expected) in [
        (
            "r0 F11 F00 | r0 F01 |00",
            "Filter<p0,a0@r0>(Filter<p1,a1@r0>(r0)) => Filter<p0,a1>(r0) | AttrsEq(a0,a1) PredEq(p0,p1) | 2 1\n",
        ),
        (
            "r0 D D | r0 D |",
            "Dedup(Dedup(r0)) => Dedup(r0) | - | 6 3\n",
        ),
        ("r0 D | r0 |", ""),
    ] {
        assert!(rt; has_lines(rt.alloc(), text, expected)?, "{text}");
    }
    Ok(())
}
