//! Trees of statements, part by part, with their offsets.

use crate::tests::nth;
use std::alloc::Global;
use wt_ast::{CmpWord, CondKind, Condition, Conditions, FromPart, Query, Scalar};

fn filter_of(query: &Query) -> Option<&Condition> {
    match &query.filter {
        Some(c) => Some(c),
        None => None,
    }
}

// The two parts of a run of two.
fn pair(parts: &Conditions) -> Option<(&Condition, &Condition)> {
    match parts {
        Conditions::Empty => None,
        Conditions::More(first, rest) => match &**rest {
            Conditions::Empty => None,
            Conditions::More(second, last) => match &**last {
                Conditions::Empty => Some((first, second)),
                Conditions::More(_, _) => None,
            },
        },
    }
}

fn all_of_two(c: &Condition) -> Option<(&Condition, &Condition)> {
    match &c.kind {
        CondKind::And(parts) => pair(parts),
        _ => None,
    }
}

fn any_of_two(c: &Condition) -> Option<(&Condition, &Condition)> {
    match &c.kind {
        CondKind::Or(parts) => pair(parts),
        _ => None,
    }
}

fn negated(c: &Condition) -> Option<&Condition> {
    match &c.kind {
        CondKind::Not(inner) => Some(inner),
        _ => None,
    }
}

fn is_compare(c: &Condition, at: u32, word: CmpWord, word_at: u32) -> bool {
    match &c.kind {
        CondKind::Compare(found, Scalar::Column(left), Scalar::Literal(_, _), found_at) => {
            c.at == at && *found == word && left.at == at && *found_at == word_at
        }
        _ => false,
    }
}

fn is_in_list(c: &Condition, at: u32, word_at: u32, len: usize) -> bool {
    match &c.kind {
        CondKind::InList(column, values, found_at) => {
            c.at == at && column.at == at && *found_at == word_at && values.len() == len
        }
        _ => false,
    }
}

fn is_in_query(c: &Condition, at: u32, word_at: u32, len: usize) -> bool {
    match &c.kind {
        CondKind::InQuery(columns, _, found_at) => {
            c.at == at && *found_at == word_at && columns.len() == len
        }
        _ => false,
    }
}

fn precedence_holds(query: &Query) -> Option<bool> {
    let whole = filter_of(query)?;
    let (first, second) = any_of_two(whole)?;
    let (left, right) = all_of_two(second)?;
    let inner = negated(right)?;
    Some(
        whole.at == 22
            && is_compare(first, 22, CmpWord::Eq, 23)
            && second.at == 29
            && is_compare(left, 29, CmpWord::Lt, 30)
            && right.at == 37
            && is_compare(inner, 41, CmpWord::Ge, 42),
    )
}

fn between_holds(query: &Query) -> Option<bool> {
    let whole = filter_of(query)?;
    let inner = negated(whole)?;
    let (low, high) = all_of_two(inner)?;
    Some(
        whole.at == 22
            && inner.at == 22
            && is_compare(low, 22, CmpWord::Ge, 28)
            && is_compare(high, 22, CmpWord::Le, 28),
    )
}

fn joins_hold(query: &Query) -> bool {
    match &query.from {
        FromPart::Inner {
            left,
            right,
            on_at,
            ..
        } => match (&**left, &**right) {
            (
                FromPart::Left {
                    left: first,
                    right: nested,
                    on_at: left_on,
                    ..
                },
                FromPart::Derived {
                    query: inside,
                    columns: Some(columns),
                    at,
                    alias_at,
                    ..
                },
            ) => match (&**first, &**nested) {
                (
                    FromPart::Table {
                        alias: Some(_),
                        at: table,
                        alias_at: named,
                        ..
                    },
                    FromPart::Inner {
                        on_at: nested_on,
                        ..
                    },
                ) => {
                    (*table, *named, *nested_on, *left_on, *on_at) == (14, 16, 38, 52, 111)
                        && (*at, *alias_at) == (70, 102)
                        && inside.distinct
                        && columns.len() == 2
                }
                _ => false,
            },
            _ => false,
        },
        _ => false,
    }
}

fn query_of(alloc: Global, text: &str) -> Option<Box<Query>> {
    nth(alloc, text.as_bytes(), 0).ok()
}

#[test]
fn trees_are_those_of_the_texts(rt: HostRuntime) {
    let alloc = rt.alloc();
    let precedence = query_of(alloc, "SELECT a FROM o WHERE a=1 OR b<2 AND NOT c>=3");
    assert!(rt; precedence.is_some_and(|q| precedence_holds(&q) == Some(true)));
    let between = query_of(alloc, "SELECT a FROM o WHERE a NOT BETWEEN 1 AND -2");
    assert!(rt; between.is_some_and(|q| between_holds(&q) == Some(true)));
    let list = query_of(alloc, "SELECT a FROM o WHERE a NOT IN (1, 'x', -3)");
    assert!(rt;
        list.is_some_and(|q| filter_of(&q)
            .and_then(negated)
            .is_some_and(|c| is_in_list(c, 22, 28, 3)))
    );
    let tuple = query_of(
        alloc,
        "SELECT a FROM o WHERE (a, o.b) IN (SELECT a, b FROM c)",
    );
    assert!(rt;
        tuple.is_some_and(|q| filter_of(&q).is_some_and(|c| is_in_query(c, 22, 31, 2)
            && c.conjuncts() == 1))
    );
    let joins = query_of(
        alloc,
        "SELECT * FROM o x LEFT JOIN (c JOIN e ON c.a = e.a) ON x.a = c.a JOIN (SELECT DISTINCT a b FROM o) AS d (k, l) ON d.k = 1",
    );
    assert!(rt; joins.is_some_and(|q| joins_hold(&q)));
}
