//! The constraints of a pair in their order, and sets of them.
use crate::tests::lawful;
use std::alloc::{AllocError, Global};
use std::test::Fail;
use wt_constraint::{
    AtomSet, Atoms, atoms_of, contains, full, has, same_attr, same_pred, same_rel, without,
};

/// A pair and its constraints.
static ATOMS: [(&str, &str); 3] = [
    (
        "r0 r1 I01 | r0 |01",
        "[RelEq(0, 1), AttrsEq(0, 1), Unique(0), Unique(1), NotNull(0), NotNull(1), RefAttrs(0, 1), RefAttrs(1, 0)]",
    ),
    (
        "r0 r1 L01 | r0 |01",
        "[RelEq(0, 1), AttrsEq(0, 1), Unique(0), Unique(1), NotNull(0), NotNull(1), RefAttrs(0, 1)]",
    ),
    (
        "r0 F01 r1 P2 S0 | r0 |001",
        "[RelEq(0, 1), AttrsEq(0, 1), AttrsEq(0, 2), AttrsEq(1, 2), Unique(0), Unique(2), NotNull(0), NotNull(2), RefAttrs(0, 2)]",
    ),
];

fn has_atoms(alloc: Global, text: &str, expected: &str) -> Result<bool, AllocError> {
    let Some(pair) = lawful(alloc, text)? else {
        return Ok(false);
    };
    let atoms = atoms_of(alloc, &pair)?;
    let found = format!(in alloc; "{:?}", atoms.as_slice())?;
    Ok(found.as_str() == expected)
}

#[test]
fn atoms_stand_in_order(rt: HostRuntime) -> Result<(), Fail> {
    for (text, expected) in &ATOMS {
        assert!(rt; has_atoms(rt.alloc(), text, expected)?, "{text}");
    }
    Ok(())
}

fn number_of_atoms(alloc: Global, text: &str) -> Result<usize, AllocError> {
    let Some(pair) = lawful(alloc, text)? else {
        return Ok(0);
    };
    Ok(atoms_of(alloc, &pair)?.len())
}

#[test]
fn four_joins_have_62_atoms(rt: HostRuntime) -> Result<(), Fail> {
    let joins = "r0 r1 I67 r2 I45 r3 I23 r4 I01 | r0 |04030201";
    assert_eq!(rt; number_of_atoms(rt.alloc(), joins)?, 62);
    Ok(())
}

// AttrsEq(a0,a1) is atom 1, AttrsEq(a1,a2) atom 3.
fn atoms_make_the_same(atoms: &Atoms) -> bool {
    let both = AtomSet(0b1010);
    same_attr(atoms, both, 2, 0)
        && same_attr(atoms, both, 1, 1)
        && !same_attr(atoms, without(both, 3), 2, 0)
        && same_attr(atoms, AtomSet(0), 9, 9)
        && same_rel(atoms, AtomSet(1), 1, 0)
        && !same_rel(atoms, both, 1, 0)
        && same_pred(atoms, both, 0, 0)
        && !same_pred(atoms, both, 0, 1)
}

fn sets_contain_atoms() -> bool {
    let both = AtomSet(0b1010);
    contains(both, without(both, 1))
        && !contains(without(both, 1), both)
        && has(both, 1)
        && !has(both, 0)
}

fn sets_make_the_same(alloc: Global) -> Result<bool, AllocError> {
    let Some(pair) = lawful(alloc, "r0 r1 L12 P0 | r0 P0 |001")? else {
        return Ok(false);
    };
    let atoms = atoms_of(alloc, &pair)?;
    Ok(atoms.len() == 11 && full(&atoms) == AtomSet(2047) && atoms_make_the_same(&atoms))
}

#[test]
fn sets_make_symbols_the_same(rt: HostRuntime) -> Result<(), Fail> {
    assert!(rt; sets_make_the_same(rt.alloc())? && sets_contain_atoms());
    Ok(())
}
