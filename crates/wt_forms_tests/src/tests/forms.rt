//! The plans of all forms of statements.

use crate::tests::texts::text;
use crate::tests::{SCHEMA, planned};
use std::alloc::{AllocError, Global};
use std::test::Fail;
use wt_ddl::read_schema;
use wt_schema::{Database, RowsList, Schema};
use wt_value::{Row, Rows, Value};

// A statement, and its plan as text. In the schema cust (id, name) is table 0, and o (id, c, d, k) is table 1.
static PLANS: [(&str, &str); 41] = [
    ("SELECT * FROM o", "id c d k | t1/4"),
    (
        "SELECT DISTINCT k, o.id AS x FROM o",
        "k x | Dedup(Proj<3 0>(t1/4))",
    ),
    (
        "SELECT a.*, id FROM cust AS a",
        "id name id | Proj<0 1 0>(t0/2)",
    ),
    (
        "SELECT *, * FROM cust",
        "id name id name | Proj<0 1 0 1>(t0/2)",
    ),
    // Conditions of ON stand on the side that has their columns, or above an inner join.
    (
        "SELECT o.id, name FROM o INNER JOIN cust ON cust.id = o.c AND o.k > 1 AND name <> 'x' AND o.d = cust.id",
        "id name | Proj<0 5>(InnerJoin<1 2 = 0 0>(Filter<c0 > 1 over 3>(t1/4), Filter<c0 <> 'x' over 1>(t0/2)))",
    ),
    (
        "SELECT * FROM o JOIN cust ON o.c = cust.id AND o.k < cust.id",
        "id c d k id name | Filter<c0 < c1 over 3 4>(InnerJoin<1 = 0>(t1/4, t0/2))",
    ),
    (
        "SELECT o.id FROM o LEFT JOIN cust ON o.c = cust.id",
        "id | Proj<0>(LeftJoin<1 = 0>(t1/4, t0/2))",
    ),
    (
        "SELECT o.id FROM o LEFT JOIN cust ON o.c = cust.id AND cust.name = 'a' WHERE o.k = 1 AND cust.name IS NULL AND cust.id < o.d",
        "id | Proj<0>(Filter<c0 < c1 over 4 2>(Filter<c0 is null over 5>(LeftJoin<1 = 0>(Filter<c0 = 1 over 3>(t1/4), Filter<c0 = 'a' over 1>(t0/2)))))",
    ),
    (
        "SELECT a.id FROM o AS a LEFT JOIN cust ON a.c = cust.id LEFT JOIN o AS b ON b.id = a.d WHERE cust.name = 'x'",
        "id | Proj<0>(LeftJoin<2 = 0>(Filter<c0 = 'x' over 5>(LeftJoin<1 = 0>(t1/4, t0/2)), t1/4))",
    ),
    // A RIGHT JOIN keeps its right operand, and the columns stay in the order of the text.
    (
        "SELECT * FROM o RIGHT JOIN cust ON o.c = cust.id",
        "id c d k id name | Proj<2 3 4 5 0 1>(LeftJoin<0 = 1>(t0/2, t1/4))",
    ),
    (
        "SELECT cust.* FROM o RIGHT OUTER JOIN cust ON cust.id = o.c AND o.k IN (1, 2) WHERE name IS NOT NULL AND o.d = 3",
        "id name | Proj<0 1>(Filter<c0 = 3 over 4>(LeftJoin<0 = 1>(Filter<c0 is not null over 1>(t0/2), Filter<c0 in 1 2 over 3>(t1/4))))",
    ),
    (
        "SELECT * FROM cust INNER JOIN (o RIGHT JOIN cust AS e ON o.c = e.id) ON cust.id = o.d",
        "id name id c d k id name | Proj<0 1 4 5 6 7 2 3>(InnerJoin<0 = 4>(t0/2, LeftJoin<0 = 1>(t0/2, t1/4)))",
    ),
    (
        "SELECT a.id FROM o AS a LEFT JOIN (cust INNER JOIN o AS b ON b.d = cust.id) ON a.c = cust.id AND b.k = 5",
        "id | Proj<0>(LeftJoin<1 = 0>(t1/4, InnerJoin<0 = 2>(t0/2, Filter<c0 = 5 over 3>(t1/4))))",
    ),
    // Derived tables.
    (
        "SELECT e.y FROM (SELECT k, c FROM o WHERE k > 0) AS e (x, y) WHERE x = 7",
        "y | Proj<1>(Filter<c0 = 7 over 0>(Proj<3 1>(Filter<c0 > 0 over 3>(t1/4))))",
    ),
    (
        "SELECT * FROM (SELECT * FROM cust) AS d (i, j)",
        "i j | t0/2",
    ),
    (
        "SELECT d.name FROM (SELECT * FROM cust) AS d WHERE id IN (1)",
        "name | Proj<1>(Filter<c0 in 1 over 0>(t0/2))",
    ),
    (
        "SELECT * FROM (SELECT * FROM o INNER JOIN cust ON o.c = cust.id) AS d (a, b, e, f, g, h) WHERE g = 1 AND a = 2",
        "a b e f g h | InnerJoin<1 = 0>(Filter<c0 = 2 over 0>(t1/4), Filter<c0 = 1 over 0>(t0/2))",
    ),
    (
        "SELECT DISTINCT e.c FROM (SELECT DISTINCT c FROM o) AS e",
        "c | Dedup(Proj<0>(Dedup(Proj<1>(t1/4))))",
    ),
    (
        "SELECT * FROM (SELECT * FROM o RIGHT JOIN cust ON o.c = cust.id) AS d (a, b, e, f, g, h) WHERE a = 1",
        "a b e f g h | Filter<c0 = 1 over 0>(Proj<2 3 4 5 0 1>(LeftJoin<0 = 1>(t0/2, t1/4)))",
    ),
    (
        "SELECT d.*, o.k FROM o JOIN (SELECT name, id FROM cust) AS d ON d.id = o.d",
        "name id k | Proj<4 5 3>(InnerJoin<2 = 1>(t1/4, Proj<1 0>(t0/2)))",
    ),
    // Subqueries.
    (
        "SELECT id FROM o WHERE c IN (SELECT id FROM cust WHERE name = 'a')",
        "id | Proj<0>(InSub<1>(t1/4, Proj<0>(Filter<c0 = 'a' over 1>(t0/2))))",
    ),
    (
        "SELECT o.id FROM o INNER JOIN cust ON o.c = cust.id WHERE (o.k, cust.id) IN (SELECT d, c FROM o)",
        "id | Proj<0>(InSub<3 4>(InnerJoin<1 = 0>(t1/4, t0/2), Proj<2 1>(t1/4)))",
    ),
    (
        "SELECT o.id FROM o INNER JOIN cust ON o.c = cust.id WHERE (cust.name, cust.id) IN (SELECT name, id FROM cust)",
        "id | Proj<0>(InnerJoin<1 = 0>(t1/4, InSub<1 0>(t0/2, Proj<1 0>(t0/2))))",
    ),
    (
        "SELECT o.id FROM o LEFT JOIN cust ON o.c = cust.id AND cust.id IN (SELECT d FROM o)",
        "id | Proj<0>(LeftJoin<1 = 0>(t1/4, InSub<0>(t0/2, Proj<2>(t1/4))))",
    ),
    (
        "SELECT * FROM o RIGHT JOIN cust ON o.c = cust.id AND (o.k, o.d) IN (SELECT d, c FROM o)",
        "id c d k id name | Proj<2 3 4 5 0 1>(LeftJoin<0 = 1>(t0/2, InSub<3 2>(t1/4, Proj<2 1>(t1/4))))",
    ),
    (
        "SELECT name FROM cust WHERE id IN (SELECT DISTINCT a.c FROM o AS a, o AS b WHERE a.k = b.d)",
        "name | Proj<1>(InSub<0>(t0/2, Dedup(Proj<1>(InnerJoin<3 = 2>(t1/4, t1/4)))))",
    ),
    // Conditions.
    (
        "SELECT id FROM o WHERE k = 1 OR c = 2 AND (d = 3 OR NOT k IS NULL)",
        "id | Proj<0>(Filter<(c0 = 1 or (c1 = 2 and (c2 = 3 or not c0 is null))) over 3 1 2>(t1/4))",
    ),
    (
        "SELECT id FROM o WHERE (k = 1 AND c = 2) AND (d = 3 AND id = 4)",
        "id | Proj<0>(Filter<c0 = 4 over 0>(Filter<c0 = 3 over 2>(Filter<c0 = 2 over 1>(Filter<c0 = 1 over 3>(t1/4)))))",
    ),
    (
        "SELECT * FROM o WHERE k BETWEEN 1 AND c",
        "id c d k | Filter<c0 <= c1 over 3 1>(Filter<c0 >= 1 over 3>(t1/4))",
    ),
    (
        "SELECT * FROM o WHERE d NOT BETWEEN 2 AND 5 AND k NOT IN (1, -2)",
        "id c d k | Filter<not c0 in 1 -2 over 3>(Filter<not (c0 >= 2 and c0 <= 5) over 2>(t1/4))",
    ),
    (
        "SELECT * FROM o WHERE 1 < k AND d = d",
        "id c d k | Filter<c0 = c0 over 2>(Filter<1 < c0 over 3>(t1/4))",
    ),
    (
        "SELECT * FROM cust WHERE name IN ('a', 'it''s')",
        "id name | Filter<c0 in 'a' 'it's' over 1>(t0/2)",
    ),
    // Conditions that land at one place keep their order, those that come from further down first.
    (
        "SELECT o.id FROM o JOIN cust ON o.c = cust.id AND o.k > 1 WHERE o.d < 5 AND o.id = 2",
        "id | Proj<0>(InnerJoin<1 = 0>(Filter<c0 = 2 over 0>(Filter<c0 < 5 over 2>(Filter<c0 > 1 over 3>(t1/4))), t0/2))",
    ),
    // Lists with commas.
    (
        "SELECT o.id, cust.name FROM o, cust WHERE o.c = cust.id AND o.k = 1",
        "id name | Proj<0 5>(InnerJoin<1 = 0>(Filter<c0 = 1 over 3>(t1/4), t0/2))",
    ),
    (
        "SELECT cust.name FROM o, cust WHERE cust.id = o.c AND o.d = cust.id",
        "name | Proj<5>(InnerJoin<1 2 = 0 0>(t1/4, t0/2))",
    ),
    (
        "SELECT a.id FROM o AS a, cust, o AS b WHERE cust.id = b.c AND a.c = cust.id",
        "id | Proj<0>(InnerJoin<4 = 1>(InnerJoin<1 = 0>(t1/4, t0/2), t1/4))",
    ),
    (
        "SELECT a.id FROM o AS a, cust, o AS b WHERE b.k > cust.id AND a.d = b.id AND a.k = 1 AND a.c = cust.id AND cust.id = b.c",
        "id | Proj<0>(Filter<c0 > c1 over 9 4>(InnerJoin<2 4 = 0 1>(InnerJoin<1 = 0>(Filter<c0 = 1 over 3>(t1/4), t0/2), t1/4)))",
    ),
    (
        "SELECT o.id FROM o LEFT JOIN cust ON o.c = cust.id, cust AS e WHERE e.id = o.d AND cust.name = 'a'",
        "id | Proj<0>(InnerJoin<2 = 0>(Filter<c0 = 'a' over 5>(LeftJoin<1 = 0>(t1/4, t0/2)), t0/2))",
    ),
    (
        "SELECT a.id FROM o AS a INNER JOIN cust ON a.c = cust.id, o AS b WHERE a.d = cust.id AND b.c = cust.id",
        "id | Proj<0>(InnerJoin<4 = 1>(Filter<c0 = c1 over 2 4>(InnerJoin<1 = 0>(t1/4, t0/2)), t1/4))",
    ),
    (
        "SELECT * FROM cust AS e, o RIGHT JOIN cust ON o.c = cust.id WHERE e.id = o.k",
        "id name id c d k id name | Proj<0 1 4 5 6 7 2 3>(InnerJoin<0 = 5>(t0/2, LeftJoin<0 = 1>(t0/2, t1/4)))",
    ),
    (
        "SELECT d.z FROM (SELECT a.id FROM o AS a, cust WHERE a.c = cust.id) AS d (z), cust WHERE z = cust.id AND (z, name) IN (SELECT * FROM cust)",
        "z | Proj<0>(InSub<0 2>(InnerJoin<0 = 0>(Proj<0>(InnerJoin<1 = 0>(t1/4, t0/2)), t0/2), t0/2))",
    ),
];

/// The plan of a statement as text, nothing where it has none.
fn plan_text(alloc: Global, schema: &Schema, statement: &str) -> Result<String, AllocError> {
    match planned(alloc, schema, statement.as_bytes()) {
        Err(_) => Ok(String::new(alloc)),
        Ok(named) => text(alloc, &named),
    }
}

#[test]
fn statements_have_their_plans(rt: HostRuntime) -> Result<(), Fail> {
    let alloc = rt.alloc();
    let schema = read_schema(alloc, SCHEMA.as_bytes())?;
    for (statement, wanted) in &PLANS {
        let found = plan_text(alloc, &schema, statement)?;
        assert_eq!(rt; found.as_str(), *wanted, "in {statement}");
    }
    Ok(())
}

/// A row of numbers and NULLs.
fn row(alloc: Global, values: &[Option<i64>]) -> Result<Row, AllocError> {
    let mut row = Row::new(alloc);
    for value in values {
        match value {
            None => row.push(Value::Null)?,
            Some(n) => row.push(Value::Int(*n))?,
        }
    }
    Ok(row)
}

/// One row.
fn rows(alloc: Global, values: &[Option<i64>]) -> Result<Rows, AllocError> {
    let mut rows = Rows::new(alloc);
    rows.push(row(alloc, values)?)?;
    Ok(rows)
}

/// One customer, and one order that has it at its third column.
fn database(alloc: Global) -> Result<Database, AllocError> {
    let mut tables = RowsList::new(alloc);
    tables.push(rows(alloc, &[Some(5), None])?)?;
    tables.push(rows(alloc, &[Some(1), None, Some(5), None])?)?;
    Ok(Database { tables })
}

/// Whether the plan of a statement has this one row.
fn has_row(
    alloc: Global,
    schema: &Schema,
    statement: &str,
    wanted: &[Option<i64>],
) -> Result<bool, AllocError> {
    match planned(alloc, schema, statement.as_bytes()) {
        Err(_) => Ok(false),
        Ok(named) => Ok(named.plan.bag(alloc, &database(alloc)?)? == rows(alloc, wanted)?),
    }
}

#[test]
fn plans_of_statements_have_rows(rt: HostRuntime) -> Result<(), Fail> {
    let alloc = rt.alloc();
    let schema = read_schema(alloc, SCHEMA.as_bytes())?;
    for (statement, wanted) in [
        (
            "SELECT o.id FROM o LEFT JOIN cust ON o.c = cust.id",
            [Some(1)].as_slice(),
        ),
        (
            "SELECT o.id, cust.id FROM o LEFT JOIN cust ON o.c = cust.id",
            &[Some(1), None],
        ),
        (
            "SELECT * FROM o RIGHT JOIN cust ON o.d = cust.id",
            &[Some(1), None, Some(5), None, Some(5), None],
        ),
        (
            "SELECT o.k, cust.id FROM o, cust WHERE o.d = cust.id AND o.k IS NULL",
            &[None, Some(5)],
        ),
    ] {
        assert!(rt;
            has_row(alloc, &schema, statement, wanted)?,
            "in {statement}"
        );
    }
    Ok(())
}
