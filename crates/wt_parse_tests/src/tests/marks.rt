//! FROM items, conjuncts and hidden queries of statements, and how many conjuncts a WHERE has.

use crate::tests::nth;
use std::alloc::{AllocError, Global};
use std::test::Fail;
use wt_ast::{Mark, Marked};

// A statement, the number of conjuncts of its WHERE, and where its FROM items, its conjuncts and its hidden queries stand.
struct Row {
    text: &'static str,
    conjuncts: u32,
    items: &'static [u32],
    marked: &'static [u32],
    hidden: &'static [u32],
}

static ROWS: [Row; 6] = [
    Row {
        text: "SELECT a FROM o WHERE a = 1",
        conjuncts: 1,
        items: &[14],
        marked: &[22],
        hidden: &[],
    },
    Row {
        text: "SELECT a FROM o WHERE (a = 1 AND b = 2) AND (c = 3 OR d = 4) AND NOT (e = 5 AND f = 6)",
        conjuncts: 4,
        items: &[14],
        marked: &[23, 33, 45, 65],
        hidden: &[],
    },
    Row {
        text: "SELECT a FROM o WHERE a = 1 OR b = 2",
        conjuncts: 1,
        items: &[14],
        marked: &[22],
        hidden: &[],
    },
    Row {
        text: "SELECT a FROM o WHERE a BETWEEN 1 AND 2 AND a IN (SELECT b FROM c WHERE b = 1)",
        conjuncts: 3,
        items: &[14, 64],
        marked: &[22, 22, 44, 72],
        hidden: &[],
    },
    Row {
        text: "SELECT a FROM o, c RIGHT JOIN e ON c.a = e.a AND c.b = e.b, (SELECT a FROM d) AS f WHERE a = 1",
        conjuncts: 1,
        items: &[14, 17, 30, 60, 75],
        marked: &[35, 49, 89],
        hidden: &[],
    },
    Row {
        text: "SELECT a FROM o JOIN c ON o.a = c.a LEFT JOIN e ON o.a = e.a WHERE a = 1",
        conjuncts: 1,
        items: &[14, 21, 46],
        marked: &[26, 51, 67],
        hidden: &[],
    },
];

// The marks of one kind stand there.
fn stand(marks: &[Mark], what: Marked, wanted: &[u32]) -> bool {
    let mut rest = wanted;
    for mark in marks {
        if mark.what == what {
            match rest {
                [at, others @ ..] if *at == mark.at => rest = others,
                _ => return false,
            }
        }
    }
    rest.is_empty()
}

fn row_holds(alloc: Global, row: &Row) -> Result<bool, AllocError> {
    let query = match nth(alloc, row.text.as_bytes(), 0) {
        Ok(query) => query,
        Err(_) => return Ok(false),
    };
    let conjuncts = match &query.filter {
        Some(c) => c.conjuncts(),
        None => 0,
    };
    let marks = query.marks(alloc)?;
    let marks = marks.as_slice();
    Ok(
        conjuncts == row.conjuncts
            && stand(marks, Marked::FromItem, row.items)
            && stand(marks, Marked::Conjunct, row.marked)
            && stand(marks, Marked::HiddenIn, row.hidden),
    )
}

#[test]
fn an_or_and_a_not_are_one_conjunct(rt: HostRuntime) -> Result<(), Fail> {
    for row in &ROWS {
        assert!(rt; row_holds(rt.alloc(), row)?, "{}", row.text);
    }
    Ok(())
}
