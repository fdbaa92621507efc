//! Every form that one step gives from the forms of sides.
use crate::tests::{facts, form, lawful, steps_from};
use std::alloc::{AllocError, Global};
use std::test::Fail;
use wt_facts::Facts;
use wt_form::Form;
use wt_symbol::Anchors;

/// A Proj of two filters over a join, and of the join: a4 is anchored at r1, the other lists at r0.
const SOURCE: &str = "r0 r1 I34 F12 F01 P0";

const DEST: &str = "r0 r1 I34 P0";

const LEAVES: &str = "00001";

/// How many of the forms are the form of the side that is written so.
fn times_among(
    alloc: Global,
    forms: &[Form],
    text: &str,
    anchors: &Anchors,
) -> Result<usize, AllocError> {
    let Some(wanted) = form(alloc, text, anchors)? else {
        return Ok(0);
    };
    Ok(forms.iter().filter(|f| f.same(&wanted)).count())
}

/// Whether the forms are those of the sides that are written so, with bars between them, each once.
fn are_forms_of(
    alloc: Global,
    forms: &[Form],
    wanted: &str,
    anchors: &Anchors,
) -> Result<bool, AllocError> {
    let mut left = forms.len();
    for text in wanted.split('|') {
        if !text.is_empty() {
            if left == 0 || times_among(alloc, forms, text, anchors)? != 1 {
                return Ok(false);
            }
            left -= 1;
        }
    }
    Ok(left == 0)
}

/// Whether one step from the form of a side gives the forms of these sides and no other; None where a
/// side has no form.
fn gives(
    alloc: Global,
    known: &Facts,
    from: &str,
    wanted: &str,
    anchors: &Anchors,
) -> Result<Option<bool>, AllocError> {
    match steps_from(alloc, known, from, anchors)? {
        Some(forms) => Ok(Some(are_forms_of(alloc, &forms, wanted, anchors)?)),
        None => Ok(None),
    }
}

/// The same under the set of some atoms.
fn gives_under(
    alloc: Global,
    from: &str,
    atoms: &str,
    wanted: &str,
) -> Result<Option<bool>, AllocError> {
    let Some(pair) = lawful(alloc, SOURCE, DEST, LEAVES)? else {
        return Ok(None);
    };
    match facts(alloc, &pair, atoms)? {
        Some(known) => gives(alloc, &known, from, wanted, &pair.anchors),
        None => Ok(None),
    }
}

/// How many forms one step from the form of a side gives under the set of some atoms.
fn number_under(alloc: Global, from: &str, atoms: &str) -> Result<Option<usize>, AllocError> {
    let Some(pair) = lawful(alloc, SOURCE, DEST, LEAVES)? else {
        return Ok(None);
    };
    let Some(known) = facts(alloc, &pair, atoms)? else {
        return Ok(None);
    };
    match steps_from(alloc, &known, from, &pair.anchors)? {
        Some(forms) => Ok(Some(forms.len())),
        None => Ok(None),
    }
}

/// A side, atoms, and the sides whose forms one step gives.
static STEPS: [(&str, &str, &str); 24] = [
    ("r0 D D", "", "r0 D"),
    ("r0 D D D", "", "r0 D D"),
    ("r0 D", "", ""),
    ("r0 D", "Unique(0)", ""),
    ("r0 D", "Unique(0); NotNull(0)", "r0"),
    ("r0 D P0", "Unique(0); NotNull(0)", "r0 P0"),
    ("r0 P0 D", "Unique(0); NotNull(0)", "r0 P0"),
    ("r0 P1 D", "Unique(0); NotNull(0)", ""),
    ("r0 P0 D P1", "Unique(0); NotNull(0)", "r0 P0 P1"),
    ("r0 F12 D F01", "Unique(0); NotNull(0)", "r0 F01 F12"),
    ("r0 r1 D I34", "Unique(4); NotNull(4)", "r0 r1 I34"),
    ("r0 D r1 I34", "Unique(3); NotNull(3)", "r0 r1 I34"),
    ("r0 r1 I34 P0 D", "", "r0 r1 P4 S3 P0 D"),
    (
        "r0 r1 I34 P0 D",
        "Unique(0); NotNull(0)",
        "r0 r1 P4 S3 P0 D",
    ),
    (
        "r0 r1 I34 P0 D",
        "Unique(0); NotNull(0); Unique(4)",
        "r0 r1 P4 S3 P0 D|r0 r1 I34 P0",
    ),
    ("r0 F01 F01", "", "r0 F01"),
    ("r0 F01 F11", "", ""),
    ("r0 F01 F11", "PredEq(0, 1)", "r0 F01"),
    ("r0 r1 I34 P0", "", ""),
    ("r0 r1 I34 P0", "Unique(4)", "r0 r1 P4 S3 P0"),
    ("r0 r1 I34 F14", "", "r0 r1 I34 F13"),
    ("r0 r1 P4 S3", "RefAttrs(3, 4)", ""),
    ("r0 r1 P4 S3", "NotNull(3); RefAttrs(3, 4)", "r0"),
    ("r0 r1 L34", "NotNull(3); RefAttrs(3, 4)", "r0 r1 I34"),
];

/// A side, atoms, and how many forms one step gives, which need be of no side.
static NUMBERS: [(&str, &str, usize); 6] = [
    ("r0 r1 I34", "", 0),
    ("r0 r1 I34", "RelEq(0, 1); AttrsEq(3, 4)", 0),
    ("r0 r1 I34", "RelEq(0, 1); AttrsEq(3, 4); Unique(3)", 1),
    ("r0 r1 L34", "RelEq(0, 1); AttrsEq(3, 4); Unique(3)", 1),
    ("r0 r1 L34 P0 D", "", 1),
    ("r0 r1 I34 F14 F01", "PredEq(0, 1)", 1),
];

#[test]
fn one_step_gives_so_many_forms(rt: HostRuntime) -> Result<(), Fail> {
    for (from, atoms, wanted) in &NUMBERS {
        assert!(rt;
            number_under(rt.alloc(), from, atoms)? == Some(*wanted),
            "{from} under {atoms}"
        );
    }
    Ok(())
}

#[test]
fn one_step_gives_these_forms(rt: HostRuntime) -> Result<(), Fail> {
    for (from, atoms, wanted) in &STEPS {
        assert!(rt;
            gives_under(rt.alloc(), from, atoms, wanted)? == Some(true),
            "{from} under {atoms}"
        );
    }
    Ok(())
}
