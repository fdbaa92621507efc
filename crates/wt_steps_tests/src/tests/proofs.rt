//! Which pairs are provable under some of their atoms.
ghost use Rattle.wt_symbol.specs.Lawful.{IsLawful};
ghost use Rattle.wt_symbol.specs.Sides.{pair_of};

use crate::tests::{lawful, set_of};
use std::alloc::{AllocError, Global};
use std::test::Fail;
use wt_constraint::{AtomSet, atoms_of};
use wt_form::Prover;
use wt_search::Search;
use wt_symbol::Pair;

/// A source, a destination, the anchors of the source's lists, and atoms.
type Case = (&'static str, &'static str, &'static str, &'static str);

/// Whether the pair is provable under the set of the atoms by chains of at most eight steps; None where
/// it is not lawful or an atom is not there.
fn is_provable(alloc: Global, case: &Case) -> Result<Option<bool>, AllocError> {
    let Some(pair) = lawful(alloc, case.0, case.1, case.2)? else {
        return Ok(None);
    };
    let atoms = atoms_of(alloc, &pair)?;
    match set_of(alloc, &atoms, case.3)? {
        Some(set) => Ok(Some(Search {}.prove(alloc, &pair, set, 8)?)),
        None => Ok(None),
    }
}

/// Pairs that are provable, all but the first only where a Join is read either way round. In the first
/// a Join inside distinct rows becomes an In, and two terms become one.
static PROVABLE: [Case; 5] = [
    ("r0 r1 L12 P0 D", "r0 P0 D", "001", ""),
    (
        "r0 r1 I12 P0",
        "r1 P0",
        "101",
        "Unique(1); NotNull(2); RefAttrs(2, 1)",
    ),
    (
        "r0 r1 r2 L23 I01",
        "r0 r1 r2 I23 I02",
        "0112",
        "RelEq(0, 2); AttrsEq(0, 3); AttrsEq(1, 2)",
    ),
    (
        "r0 r1 I23 r2 L01",
        "r0 r1 I23 r2 I01",
        "0201",
        "RelEq(1, 2); AttrsEq(0, 2); AttrsEq(1, 3)",
    ),
    (
        "r0 r1 I23 r2 L01",
        "r2 r1 I13 r0 I12",
        "1201",
        "RelEq(0, 2); AttrsEq(0, 1); AttrsEq(1, 2); AttrsEq(1, 3); Unique(1)",
    ),
];

/// Pairs that are not, the first where another expression than the joined one would be rewritten.
static UNPROVABLE: [Case; 2] = [
    (
        "r0 r1 I12 P0",
        "r0 P1",
        "101",
        "AttrsEq(0, 2); Unique(2); NotNull(1); RefAttrs(1, 2)",
    ),
    ("r0 r1 I12 P0", "r1 P0", "101", "Unique(1); RefAttrs(2, 1)"),
];

/// What is left of a set of a lawful pair's atoms that is provable; None where it is not.
fn shrunk(alloc: Global, pair: &Pair, set: AtomSet) -> Result<Option<AtomSet>, AllocError>
    requires { IsLawful (pair_of pair.now) }
{
    if (Search {}).prove(alloc, pair, set, 8)? {
        let left = Search {}.shrink(alloc, pair, set, 8)?;
        return Ok(Some(left));
    }
    Ok(None)
}

/// Whether a provable set shrinks to the atoms that are written so; None where it is not provable.
fn shrinks_to(alloc: Global, case: &Case, left: &str) -> Result<Option<bool>, AllocError> {
    let Some(pair) = lawful(alloc, case.0, case.1, case.2)? else {
        return Ok(None);
    };
    let atoms = atoms_of(alloc, &pair)?;
    let Some(set) = set_of(alloc, &atoms, case.3)? else {
        return Ok(None);
    };
    let Some(wanted) = set_of(alloc, &atoms, left)? else {
        return Ok(None);
    };
    match shrunk(alloc, &pair, set)? {
        Some(found) => Ok(Some(found.0 == wanted.0)),
        None => Ok(None),
    }
}

/// Pairs with needed and needless atoms, and the needed ones. The second has all of its atoms.
static SHRUNK: [(Case, &str); 2] = [
    (
        (
            "r0 r1 I12 P0",
            "r1 P0",
            "101",
            "Unique(0); Unique(1); NotNull(1); NotNull(2); RefAttrs(1, 2); RefAttrs(2, 1)",
        ),
        "Unique(1); NotNull(2); RefAttrs(2, 1)",
    ),
    (
        (
            "r0 r1 L12 P0",
            "r0 P0",
            "001",
            "RelEq(0, 1); AttrsEq(0, 1); AttrsEq(0, 2); AttrsEq(1, 2); Unique(0); Unique(1); Unique(2); NotNull(0); NotNull(1); NotNull(2); RefAttrs(1, 2)",
        ),
        "RelEq(0, 1); AttrsEq(0, 2); Unique(0)",
    ),
];

#[test]
fn needless_atoms_go(rt: HostRuntime) -> Result<(), Fail> {
    for (case, left) in &SHRUNK {
        assert!(rt; shrinks_to(rt.alloc(), case, left)? == Some(true), "{left}");
    }
    Ok(())
}

#[test]
fn pairs_are_provable_or_not(rt: HostRuntime) -> Result<(), Fail> {
    for case in &PROVABLE {
        assert!(rt;
            is_provable(rt.alloc(), case)? == Some(true),
            "{}, {}",
            case.0,
            case.3
        );
    }
    for case in &UNPROVABLE {
        assert!(rt;
            is_provable(rt.alloc(), case)? == Some(false),
            "{}, {}",
            case.0,
            case.3
        );
    }
    Ok(())
}
