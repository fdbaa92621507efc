//! RIGHT JOIN and lists with commas: what is read, and a few refusals beside the stored ones of the examples.

use crate::tests::{nth, refusal};
use std::alloc::Global;
use wt_ast::{FromPart, Query};
use wt_parse::{QueryError, QueryFault};

static READ: [&str; 8] = [
    "SELECT o.k FROM o RIGHT JOIN c ON o.k = c.k",
    "SELECT o.k FROM o JOIN c ON o.k = c.k right outer JOIN e ON o.k = e.k WHERE o.k = 1",
    "SELECT o.k FROM o WHERE o.c IN (SELECT c.k FROM c RIGHT JOIN e ON c.k = e.k)",
    "SELECT o.k FROM o, c",
    "SELECT o.k FROM o JOIN c ON o.k = c.k, e p, (SELECT d.k FROM d, e) q WHERE o.k = 1",
    "SELECT o.k FROM o WHERE o.c IN (SELECT c.k FROM (SELECT o.k FROM o) AS d, c)",
    "SELECT o.k FROM (o RIGHT JOIN c ON o.k = c.k), (e)",
    "SELECT o.k FROM ((SELECT c.k FROM c, e) AS d JOIN o ON o.k = d.k)",
];

static REFUSED: [(&str, QueryFault, u32); 12] = [
    ("SELECT o.k FROM (o, c)", QueryFault::CommaJoin, 18),
    (
        "SELECT o.k FROM e, (o JOIN c ON o.k = c.k, d)",
        QueryFault::CommaJoin,
        41,
    ),
    (
        "SELECT o.k FROM (o RIGHT JOIN c, d ON o.k = c.k)",
        QueryFault::CommaJoin,
        31,
    ),
    ("SELECT o.k FROM o JOIN c, e", QueryFault::Syntax, 24),
    (
        "SELECT o.k FROM o, c JOIN e RIGHT JOIN d ON o.k = d.k",
        QueryFault::Syntax,
        28,
    ),
    ("SELECT o.k FROM o RIGHT c", QueryFault::Syntax, 24),
    ("SELECT o.k FROM o,", QueryFault::Syntax, 18),
    ("SELECT o.k FROM o, c FULL JOIN e", QueryFault::FullJoin, 21),
    (
        "SELECT o.k FROM o WHERE (o.a, o.b) = (1, 2)",
        QueryFault::Syntax,
        28,
    ),
    (
        "SELECT o.k FROM o WHERE (o.a, 5) IN (1)",
        QueryFault::Syntax,
        28,
    ),
    ("SELECT count(*) FROM o", QueryFault::Function, 12),
    ("SELECT o.k FROM o GROUP BY o.k", QueryFault::GroupBy, 18),
];

#[test]
fn right_joins_and_commas_are_read(rt: HostRuntime) {
    for text in &READ {
        assert_eq!(rt; refusal(rt.alloc(), text.as_bytes(), 0), None, "{text}");
    }
}

#[test]
fn refusals_stand_at_their_tokens(rt: HostRuntime) {
    for (text, fault, at) in &REFUSED {
        assert_eq!(rt;
            refusal(rt.alloc(), text.as_bytes(), 0),
            Some(QueryError::Refused(*fault, *at)),
            "{text}"
        );
    }
}

// `o, c RIGHT JOIN e ON .., d` at 16: a list of three, whose second element is a join.
fn list_holds(query: &Query) -> bool {
    match &query.from {
        FromPart::Comma {
            left,
            right,
            comma_at,
        } => *comma_at == 46 && is_table(right, 48) && first_two_hold(left),
        _ => false,
    }
}

fn first_two_hold(from: &FromPart) -> bool {
    match from {
        FromPart::Comma {
            left,
            right,
            comma_at,
        } => *comma_at == 17 && is_table(left, 16) && right_join_holds(right),
        _ => false,
    }
}

fn right_join_holds(from: &FromPart) -> bool {
    match from {
        FromPart::Right {
            left,
            right,
            on_at,
            ..
        } => *on_at == 34 && is_table(left, 19) && is_table(right, 32),
        _ => false,
    }
}

fn is_table(from: &FromPart, wanted: u32) -> bool {
    match from {
        FromPart::Table { at, .. } => *at == wanted,
        _ => false,
    }
}

fn is_list(alloc: Global, text: &str) -> bool {
    match nth(alloc, text.as_bytes(), 0) {
        Ok(query) => list_holds(&query),
        Err(_) => false,
    }
}

#[test]
fn a_list_is_nested_to_the_left(rt: HostRuntime) {
    assert!(rt;
        is_list(
            rt.alloc(),
            "SELECT o.k FROM o, c RIGHT JOIN e ON c.k = e.k, d"
        )
    );
}
