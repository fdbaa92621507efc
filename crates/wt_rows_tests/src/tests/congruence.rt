//! Forms of sides that are congruent under an atom, and that are not.
use crate::tests::{form, lawful, set_of};
use std::alloc::{AllocError, Global};
use std::test::Fail;
use wt_congruent::congruent;
use wt_constraint::atoms_of;

/// Two filters over a join, and the join. Lists a0, a1 and a2 are anchored at r0, a3 at r1.
const FILTERS: &str = "r0 r1 I23 F11 F00 | r0 r1 I23 |0001";

/// Whether the forms of two sides are congruent under the set of one atom or of none; None where the
/// sides have no form, or there is no such atom.
fn same_forms(
    alloc: Global,
    left: &str,
    right: &str,
    atom: &str,
) -> Result<Option<bool>, AllocError> {
    let Some(pair) = lawful(alloc, FILTERS)? else {
        return Ok(None);
    };
    let Some(f) = form(alloc, left, &pair.anchors)? else {
        return Ok(None);
    };
    let Some(g) = form(alloc, right, &pair.anchors)? else {
        return Ok(None);
    };
    let atoms = atoms_of(alloc, &pair)?;
    match set_of(alloc, &atoms, atom)? {
        Some(set) => Ok(Some(congruent(alloc, &pair, &atoms, &f, &g, set)?)),
        None => Ok(None),
    }
}

/// Two sides, the atom under which their forms are congruent, and whether they are so without it.
static FORMS: [(&str, &str, &str, bool); 12] = [
    ("r0 F00", "r0 F10", "PredEq(0, 1)", false),
    ("r0 F00", "r0 F01", "AttrsEq(0, 1)", false),
    ("r0", "r1", "RelEq(0, 1)", false),
    ("r0 D", "r1 D", "RelEq(0, 1)", false),
    ("r0 P0 D", "r0 P1 D", "AttrsEq(0, 1)", false),
    ("r0 r1 I23", "r0 r1 I13", "AttrsEq(1, 2)", false),
    ("r0 r1 L23", "r0 r1 L13", "AttrsEq(1, 2)", false),
    ("r0 r1 P3 S2", "r0 r1 P3 S0", "AttrsEq(0, 2)", false),
    ("r0 F00 F11", "r0 F10 F01", "PredEq(0, 1)", false),
    ("r0 F00 F11", "r0 F11 F00", "", true),
    ("r0 F00 P1", "r0 F00 P1", "", true),
    ("r0 r1 L23", "r0 r1 L23", "", true),
];

/// Two sides whose forms are congruent under no atom alone.
static OTHERS: [(&str, &str); 8] = [
    ("r0 F00", "r0"),
    ("r0 F00", "r0 F11"),
    ("r0 D", "r0"),
    ("r0 r1 I23", "r0 r1 L23"),
    ("r0 r1 I23", "r0 r1 P3 S2"),
    ("r0 r1 P3 S2", "r0 r0 P2 S2"),
    ("r0 P0 D", "r1 P3 D"),
    ("r0 r1 I23 D", "r0 r1 I23"),
];

#[test]
fn forms_are_congruent_or_not(rt: HostRuntime) -> Result<(), Fail> {
    for (left, right, atom, without) in &FORMS {
        assert!(rt;
            same_forms(rt.alloc(), left, right, atom)? == Some(true),
            "{left}, {right}"
        );
        assert!(rt;
            same_forms(rt.alloc(), left, right, "")? == Some(*without),
            "{left}, {right}"
        );
    }
    for (left, right) in &OTHERS {
        for atom in [
            "",
            "RelEq(0, 1)",
            "AttrsEq(0, 1)",
            "AttrsEq(2, 3)",
            "PredEq(0, 1)",
        ] {
            assert!(rt;
                same_forms(rt.alloc(), left, right, atom)? == Some(false),
                "{left}, {right}"
            );
        }
    }
    Ok(())
}
