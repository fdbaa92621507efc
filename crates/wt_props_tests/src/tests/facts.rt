//! Each rule of what is known, where it holds and where it just does not.

use crate::tests::{SCHEMA, digits, plan};
use std::alloc::{AllocError, Global};
use std::test::Fail;
use wt_ddl::read_schema;
use wt_plan::Plan;
use wt_plan_facts::Facts;
use wt_props::Known;
use wt_schema::Schema;
use wt_value::Cols;

// Whether the rows of a statement are known to differ at columns, which are named by their digits. In order: a table with a key or
// not; a filter; an IN with a subquery; a list, of which each place has to be there; distinct rows; the three cases of an inner
// join, and what its pairs add to the columns, once; the three cases of a left join.
static UNIQUE: &str = "yes 0 SELECT * FROM o
yes 233 SELECT * FROM o
no 12 SELECT * FROM o
yes 312 SELECT * FROM cust
no 2 SELECT * FROM cust
no - SELECT * FROM cust
yes 0 SELECT * FROM o WHERE d = 1
no 2 SELECT * FROM o WHERE d = 1
yes 0 SELECT * FROM o WHERE c IN (SELECT id FROM cust)
no 1 SELECT * FROM o WHERE c IN (SELECT id FROM cust)
yes 1 SELECT d, id FROM o
no 0 SELECT d, id FROM o
no 12 SELECT d, id FROM o
yes 10 SELECT DISTINCT c, d FROM o
no 0 SELECT DISTINCT c, d FROM o
yes 0 SELECT DISTINCT id, d FROM o
yes 0 SELECT * FROM o JOIN cust ON o.c = cust.id
no 4 SELECT * FROM o JOIN cust ON o.c = cust.id
no 0 SELECT * FROM o JOIN cust ON o.d = cust.b
yes 4 SELECT * FROM o JOIN cust ON o.k = cust.a
no 4 SELECT * FROM o JOIN cust ON o.d = cust.a
yes 04 SELECT * FROM o JOIN cust ON o.d = cust.b
no 4 SELECT * FROM o JOIN cust ON o.d = cust.b
yes 35 SELECT * FROM cust JOIN o ON cust.a = o.id
no 35 SELECT * FROM cust LEFT JOIN o ON cust.a = o.id
no 42 SELECT * FROM cust JOIN o ON cust.e = o.id AND cust.b = o.id
yes 0 SELECT * FROM o LEFT JOIN cust ON o.c = cust.id
no 0 SELECT * FROM o LEFT JOIN cust ON o.d = cust.b
yes 4 SELECT * FROM o LEFT JOIN cust ON o.k = cust.a
no 4 SELECT * FROM o LEFT JOIN cust ON o.d = cust.a
yes 04 SELECT * FROM o LEFT JOIN cust ON o.d = cust.b
no 4 SELECT * FROM o LEFT JOIN cust ON o.d = cust.b";

// Whether columns are known to have no NULL. In order: a table; a list; distinct rows; a filter; an IN with a subquery; an inner
// join; a left join, on its right never.
static NOT_NULL: &str = "yes 02 SELECT * FROM o
no 1 SELECT * FROM o
no 3 SELECT * FROM o
no 03 SELECT * FROM o
no 4 SELECT * FROM o
yes - SELECT * FROM o
yes 1 SELECT k, d FROM o
no 0 SELECT k, d FROM o
no 2 SELECT k, d FROM o
yes 1 SELECT DISTINCT k, d FROM o
no 0 SELECT DISTINCT k, d FROM o
yes 3 SELECT * FROM o WHERE k = 1
no 1 SELECT * FROM o WHERE k = 1
yes 3 SELECT * FROM o WHERE k = 1 OR k > 5
no 3 SELECT * FROM o WHERE k = 1 OR c > 5
no 3 SELECT * FROM o WHERE k IS NULL
yes 13 SELECT * FROM o WHERE c < k
yes 3 SELECT * FROM o WHERE k IN (SELECT b FROM cust)
no 1 SELECT * FROM o WHERE k IN (SELECT b FROM cust)
yes 17 SELECT * FROM o JOIN cust ON o.c = cust.b
yes 246 SELECT * FROM o JOIN cust ON o.c = cust.b
no 3 SELECT * FROM o JOIN cust ON o.c = cust.b
no 5 SELECT * FROM o JOIN cust ON o.c = cust.b
yes 02 SELECT * FROM o LEFT JOIN cust ON o.c = cust.id
no 1 SELECT * FROM o LEFT JOIN cust ON o.c = cust.id
no 4 SELECT * FROM o LEFT JOIN cust ON o.c = cust.id
no 6 SELECT * FROM o LEFT JOIN cust ON o.c = cust.id";

// Whether columns of a statement are known to refer to columns of a target. In order: pairs of columns as the schema has them; the
// same columns of one table; columns that come from one table; a target that keeps each row of its table.
static REFERENCES: &str = "yes 1 0 SELECT * FROM o to SELECT * FROM cust
no 1 2 SELECT * FROM o to SELECT * FROM cust
no 2 2 SELECT * FROM o to SELECT * FROM cust
yes 32 32 SELECT * FROM o to SELECT * FROM cust
yes 232 232 SELECT * FROM o to SELECT * FROM cust
no 23 32 SELECT * FROM o to SELECT * FROM cust
no 11 0 SELECT * FROM o to SELECT * FROM cust
no - - SELECT * FROM o to SELECT * FROM cust
yes 21 21 SELECT * FROM o to SELECT * FROM o
no 21 12 SELECT * FROM o to SELECT * FROM o
yes 1 0 SELECT d, c FROM o WHERE k = 1 to SELECT * FROM cust
no 0 0 SELECT d, c FROM o to SELECT * FROM cust
yes 0 0 SELECT DISTINCT c FROM o WHERE c IN (SELECT k FROM o) to SELECT * FROM cust
yes 23 23 SELECT * FROM o JOIN cust ON o.d = cust.a to SELECT * FROM cust
yes 67 23 SELECT * FROM o LEFT JOIN cust ON o.d = cust.a to SELECT * FROM cust
no 27 23 SELECT * FROM o JOIN cust ON o.d = cust.a to SELECT * FROM cust
yes 1 1 SELECT * FROM o to SELECT a, id FROM cust
yes 1 0 SELECT * FROM o to SELECT DISTINCT id FROM cust
no 1 0 SELECT * FROM o to SELECT * FROM cust WHERE a = 1
no 1 0 SELECT * FROM o to SELECT * FROM cust WHERE a IN (SELECT c FROM o)
no 1 0 SELECT * FROM o to SELECT * FROM cust JOIN o ON cust.id = o.c
yes 1 0 SELECT * FROM o to SELECT * FROM cust LEFT JOIN o ON cust.id = o.c
no 1 4 SELECT * FROM o to SELECT * FROM o LEFT JOIN cust ON cust.id = o.c
yes 1 4 SELECT * FROM o to SELECT * FROM o RIGHT JOIN cust ON cust.id = o.c";

// An answer, columns, and a statement.
fn question(line: &str) -> Option<(bool, &str, &str)> {
    let (answer, rest) = line.split_once(' ')?;
    let (at, statement) = rest.split_once(' ')?;
    Some((answer == "yes", at, statement))
}

fn is_unique(alloc: Global, schema: &Schema, plan: &Plan, at: &str) -> Result<bool, AllocError> {
    Known::new(schema).known_unique(alloc, plan, &digits(alloc, at)?)
}

fn is_not_null(alloc: Global, schema: &Schema, plan: &Plan, at: &str) -> Result<bool, AllocError> {
    Ok(Known::new(schema).known_not_null(plan, &digits(alloc, at)?))
}

fn rows_differ(alloc: Global, schema: &Schema, line: &str) -> Result<bool, AllocError> {
    let Some((answer, at, statement)) = question(line) else {
        return Err(AllocError);
    };
    match plan(alloc, schema, statement) {
        Ok(plan) => Ok(is_unique(alloc, schema, &plan, at)? == answer),
        Err(_) => Err(AllocError),
    }
}

fn have_no_null(alloc: Global, schema: &Schema, line: &str) -> Result<bool, AllocError> {
    let Some((answer, at, statement)) = question(line) else {
        return Err(AllocError);
    };
    match plan(alloc, schema, statement) {
        Ok(plan) => Ok(is_not_null(alloc, schema, &plan, at)? == answer),
        Err(_) => Err(AllocError),
    }
}

// A plan and its columns.
#[derive(Drop)]
struct Side {
    plan: Plan,
    cols: Cols,
}

fn side_of(alloc: Global, schema: &Schema, statement: &str, at: &str) -> Result<Side, AllocError> {
    let cols = digits(alloc, at)?;
    match plan(alloc, schema, statement) {
        Ok(plan) => Ok(Side { plan, cols }),
        Err(_) => Err(AllocError),
    }
}

fn refers(alloc: Global, schema: &Schema, from: &Side, to: &Side) -> Result<bool, AllocError> {
    Known::new(schema).known_ref(alloc, &from.plan, &from.cols, &to.plan, &to.cols)
}

fn refers_to(
    alloc: Global,
    schema: &Schema,
    from: &Side,
    statement: &str,
    at: &str,
) -> Result<bool, AllocError> {
    refers(alloc, schema, from, &side_of(alloc, schema, statement, at)?)
}

// An answer, columns of the statement and of the target, and the two.
fn two_sides(line: &str) -> Option<(bool, &str, &str, &str, &str)> {
    let (answer, at, rest) = question(line)?;
    let (target_at, statements) = rest.split_once(' ')?;
    let (statement, target) = statements.split_once(" to ")?;
    Some((answer, at, target_at, statement, target))
}

fn columns_refer(alloc: Global, schema: &Schema, line: &str) -> Result<bool, AllocError> {
    let Some((answer, at, target_at, statement, target)) = two_sides(line) else {
        return Err(AllocError);
    };
    let from = side_of(alloc, schema, statement, at)?;
    Ok(refers_to(alloc, schema, &from, target, target_at)? == answer)
}

#[test]
fn columns_that_tell_rows_apart(rt: HostRuntime) -> Result<(), Fail> {
    let schema = read_schema(rt.alloc(), SCHEMA.as_bytes())?;
    for line in UNIQUE.lines() {
        assert!(rt; rows_differ(rt.alloc(), &schema, line)?, "{line}");
    }
    Ok(())
}

#[test]
fn columns_without_null(rt: HostRuntime) -> Result<(), Fail> {
    let schema = read_schema(rt.alloc(), SCHEMA.as_bytes())?;
    for line in NOT_NULL.lines() {
        assert!(rt; have_no_null(rt.alloc(), &schema, line)?, "{line}");
    }
    Ok(())
}

#[test]
fn columns_that_refer(rt: HostRuntime) -> Result<(), Fail> {
    let schema = read_schema(rt.alloc(), SCHEMA.as_bytes())?;
    for line in REFERENCES.lines() {
        assert!(rt; columns_refer(rt.alloc(), &schema, line)?, "{line}");
    }
    Ok(())
}
