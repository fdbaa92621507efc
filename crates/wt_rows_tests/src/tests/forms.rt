//! The rows of the forms of sides.
use crate::tests::{Parts, anchors, form, instance, rows};
use std::alloc::{AllocError, Global};
use std::test::Fail;
use wt_form_rows::rows_of;
use wt_value::same_bag;

/// Whether the form of a side has these rows, as a bag; None where the side has no form.
fn gives(
    alloc: Global,
    parts: &Parts,
    leaves: &str,
    text: &str,
    expected: &str,
) -> Result<Option<bool>, AllocError> {
    let Some(form) = form(alloc, text, &anchors(alloc, leaves)?)? else {
        return Ok(None);
    };
    let found = rows_of(alloc, &form, &instance(alloc, parts)?)?;
    Ok(Some(same_bag(&found, &rows(alloc, expected)?)))
}

/// Lists a0, a2, a4 and a5 are anchored at r0, a1 and a3 at r1; a4 is past the width, a5 has a
/// column twice.
static TWO_TABLES: Parts = ("22", "11 -2 11 -2 3-|15 16 -7 38|", "0 0 10 1 2 00", "1 -|");

static SIDES: [(&str, &str); 17] = [
    ("r0", "11 -2 11 -2 3-"),
    ("r0 P2", "11 2- 11 2- -3"),
    ("r0 P4", "- - - - -"),
    ("r0 P5", "11 -- 11 -- 33"),
    ("r0 F00", "11 -2 11 -2"),
    ("r0 P5 F00", "11 -- 11 --"),
    ("r0 D", "11 -2 3-"),
    ("r0 P0 D", "1 - 3"),
    ("r0 r1 I01", "1115 1116 1115 1116 3-38"),
    ("r0 r1 I01 D", "1115 1116 3-38"),
    ("r0 r1 L01", "1115 1116 -2-- 1115 1116 -2-- 3-38"),
    ("r0 r1 L01 P0", "1 1 - 1 1 - 3"),
    ("r0 r1 P1 I01", "111 111 111 111 3-3"),
    ("r0 r1 P1 L01", "111 111 -2- 111 111 -2- 3-3"),
    ("r0 r1 P1 S0", "11 11 3-"),
    ("r0 r1 S0", ""),
    ("r0 r0 P2 S2", "11 11"),
];

#[test]
fn forms_have_rows(rt: HostRuntime) -> Result<(), Fail> {
    for (text, expected) in &SIDES {
        assert!(rt;
            gives(rt.alloc(), &TWO_TABLES, "010100", text, expected)? == Some(true),
            "{text}"
        );
    }
    // A LeftJoin with a right row twice, and with a NULL on the left.
    let parts = ("11", "1 -|1 1|", "0 0", "");
    assert!(rt; gives(rt.alloc(), &parts, "01", "r0 r1 L01", "11 11 --")? == Some(true));
    // A list that the Proj below does not hold is read from the leaf's row.
    assert!(rt; gives(rt.alloc(), &TWO_TABLES, "010100", "r1 P3 F01", "5 6 7")? == Some(true));
    // As many rows, but one of them another.
    assert!(rt; gives(rt.alloc(), &parts, "01", "r0 r1 L01", "11 11 1-")? == Some(false));
    Ok(())
}
