//! Each fault of a statement at its offset, also inside derived tables and subqueries.
//!
//! The tables: o (id, c, d, k) and cust (id, name), where name is a text and all else are numbers; w has 64 columns.

use crate::tests::{SCHEMA, fault, put};
use std::alloc::{AllocError, Global};
use std::test::Fail;
use wt_ddl::read_schema;
use wt_query_plan::{BuildError, BuildFault};
use wt_schema::Schema;

static FAULTS: [(BuildFault, u32, &str); 34] = [
    (BuildFault::UnknownTable, 17, "SELECT z.id FROM z"),
    (
        BuildFault::UnknownTable,
        34,
        "SELECT d.a FROM (SELECT y.id FROM y) AS d (a)",
    ),
    (
        BuildFault::DuplicateAlias,
        30,
        "SELECT o.id FROM o INNER JOIN o ON o.c = o.id",
    ),
    (
        BuildFault::DuplicateAlias,
        59,
        "SELECT a.id FROM o AS a INNER JOIN (SELECT * FROM cust) AS a ON a.c = a.id",
    ),
    (
        BuildFault::DuplicateAlias,
        72,
        "SELECT id FROM o WHERE c IN (SELECT b.id FROM cust AS b INNER JOIN o AS b ON b.id = b.c)",
    ),
    (
        BuildFault::ColumnListWidth,
        41,
        "SELECT d.a FROM (SELECT id, c FROM o) AS d (a)",
    ),
    (
        BuildFault::ColumnListWidth,
        71,
        "SELECT o.id FROM o WHERE c IN (SELECT e.a FROM (SELECT * FROM cust) AS e (a, b, c))",
    ),
    (BuildFault::UnknownColumn, 7, "SELECT o.x FROM o"),
    (BuildFault::UnknownColumn, 7, "SELECT x.* FROM o"),
    (
        BuildFault::UnknownColumn,
        41,
        "SELECT d.id FROM (SELECT id FROM o WHERE x = 1) AS d",
    ),
    (
        BuildFault::UnknownColumn,
        57,
        "SELECT o.id FROM o WHERE c IN (SELECT id FROM cust WHERE z = 1)",
    ),
    (
        BuildFault::CorrelatedColumn,
        57,
        "SELECT o.id FROM o WHERE c IN (SELECT id FROM cust WHERE k = 1)",
    ),
    (
        BuildFault::CorrelatedColumn,
        38,
        "SELECT o.id FROM o WHERE c IN (SELECT o.* FROM cust)",
    ),
    (
        BuildFault::CorrelatedColumn,
        90,
        "SELECT o.id FROM o WHERE c IN (SELECT d.id FROM (SELECT cust.id FROM cust WHERE cust.id = o.c) AS d)",
    ),
    (
        BuildFault::AmbiguousColumn,
        7,
        "SELECT id FROM o INNER JOIN cust ON o.c = cust.id",
    ),
    (
        BuildFault::AmbiguousColumn,
        7,
        "SELECT d.a FROM (SELECT id, c FROM o) AS d (a, a)",
    ),
    (
        BuildFault::AmbiguousColumn,
        38,
        "SELECT o.id FROM o WHERE c IN (SELECT id FROM cust INNER JOIN o ON cust.id = o.c)",
    ),
    (
        BuildFault::TypeMismatch,
        27,
        "SELECT o.id FROM o WHERE c = 'x'",
    ),
    (
        BuildFault::TypeMismatch,
        66,
        "SELECT o.id FROM o INNER JOIN cust ON o.c = cust.id AND cust.name IN (1, 'a')",
    ),
    (
        BuildFault::TypeMismatch,
        27,
        "SELECT o.id FROM o WHERE c IN (SELECT name FROM cust)",
    ),
    (
        BuildFault::TypeMismatch,
        49,
        "SELECT d.id FROM (SELECT id FROM cust WHERE name BETWEEN 1 AND 'b') AS d",
    ),
    (
        BuildFault::ConditionWithoutColumn,
        25,
        "SELECT o.id FROM o WHERE 1 = 1",
    ),
    (
        BuildFault::ConditionWithoutColumn,
        72,
        "SELECT o.id FROM o WHERE c IN (SELECT id FROM cust WHERE name = 'a' AND NOT 'a' = 'b')",
    ),
    (
        BuildFault::InWidth,
        32,
        "SELECT o.id FROM o WHERE (c, d) IN (SELECT id FROM cust)",
    ),
    (
        BuildFault::InWidth,
        43,
        "SELECT e.id FROM (SELECT id FROM o WHERE c IN (SELECT * FROM cust)) AS e",
    ),
    (
        BuildFault::OnLeftCondition,
        55,
        "SELECT o.id FROM o LEFT JOIN cust ON o.c = cust.id AND o.k > 1",
    ),
    (
        BuildFault::OnLeftCondition,
        56,
        "SELECT o.id FROM o RIGHT JOIN cust ON o.c = cust.id AND cust.name = 'x'",
    ),
    (
        BuildFault::OnLeftCondition,
        73,
        "SELECT e.id FROM (SELECT o.id FROM o LEFT JOIN cust ON o.c = cust.id AND o.k IS NULL) AS e",
    ),
    (
        BuildFault::OnMixedCondition,
        55,
        "SELECT o.id FROM o LEFT JOIN cust ON o.c = cust.id AND o.k > cust.id",
    ),
    (
        BuildFault::OnMixedCondition,
        91,
        "SELECT o.id FROM o WHERE c IN (SELECT cust.id FROM cust RIGHT JOIN o ON cust.id = o.c AND (cust.id = 1 OR o.k = 2))",
    ),
    (
        BuildFault::NoJoinEquality,
        35,
        "SELECT o.id FROM o INNER JOIN cust ON o.k > 1",
    ),
    (BuildFault::NoJoinEquality, 18, "SELECT o.id FROM o, cust"),
    (
        BuildFault::NoJoinEquality,
        52,
        "SELECT e.id FROM (SELECT o.id FROM o LEFT JOIN cust ON cust.name = 'a') AS e",
    ),
    (
        BuildFault::NoJoinEquality,
        31,
        "SELECT a.id FROM o AS a, o AS b, o AS e WHERE a.c = b.id AND a.k = 1",
    ),
];

static BUILT: [&str; 6] = [
    "SELECT o.id FROM o INNER JOIN cust ON o.c = cust.id AND o.k > 1 WHERE name = 'a'",
    "SELECT * FROM o LEFT JOIN cust ON o.c = cust.id AND name = 'a'",
    "SELECT DISTINCT e.x FROM (SELECT c, k FROM o) AS e (x, y) RIGHT JOIN cust ON x = id AND y > 1",
    "SELECT o.id FROM o WHERE (c, d) IN (SELECT id, id FROM cust) AND k BETWEEN 1 AND 2",
    "SELECT a.id FROM o AS a, cust, o AS b WHERE a.c = cust.id AND b.c = a.id",
    "SELECT cust.* FROM o, cust WHERE o.c = cust.id AND (o.k = 1 OR NOT name = 'b')",
];

#[test]
fn faults_stand_at_their_offsets(rt: HostRuntime) -> Result<(), Fail> {
    let alloc = rt.alloc();
    let schema = read_schema(alloc, SCHEMA.as_bytes())?;
    for (kind, at, text) in &FAULTS {
        assert_eq!(rt;
            fault(alloc, &schema, text.as_bytes()),
            Some(BuildError::Refused(*kind, *at)),
            "in {text}"
        );
    }
    for text in &BUILT {
        assert_eq!(rt; fault(alloc, &schema, text.as_bytes()), None, "in {text}");
    }
    Ok(())
}

static WIDE: &str =
    "CREATE TABLE w (c0 INT, c1 INT, c2 INT, c3 INT, c4 INT, c5 INT, c6 INT, c7 INT, c8 INT, c9 INT, c10 INT, c11 INT, c12 INT, c13 INT, c14 INT, c15 INT, c16 INT, c17 INT, c18 INT, c19 INT, c20 INT, c21 INT, c22 INT, c23 INT, c24 INT, c25 INT, c26 INT, c27 INT, c28 INT, c29 INT, c30 INT, c31 INT, c32 INT, c33 INT, c34 INT, c35 INT, c36 INT, c37 INT, c38 INT, c39 INT, c40 INT, c41 INT, c42 INT, c43 INT, c44 INT, c45 INT, c46 INT, c47 INT, c48 INT, c49 INT, c50 INT, c51 INT, c52 INT, c53 INT, c54 INT, c55 INT, c56 INT, c57 INT, c58 INT, c59 INT, c60 INT, c61 INT, c62 INT, c63 INT)";

// A text with an item so many times and commas between, and the statement around them.
fn stars(
    alloc: Global,
    before: &str,
    item: &str,
    count: u32,
    behind: &str,
) -> Result<Vec<u8>, AllocError> {
    let mut text = Vec::new(alloc);
    put(&mut text, before, 1)?;
    put(&mut text, item, count)?;
    text.pop();
    put(&mut text, behind, 1)?;
    Ok(text)
}

fn fault_of_stars(
    alloc: Global,
    schema: &Schema,
    before: &str,
    item: &str,
    count: u32,
    behind: &str,
) -> Result<Option<BuildError>, AllocError> {
    let text = stars(alloc, before, item, count, behind)?;
    Ok(fault(alloc, schema, &text))
}

// What stands before the items, the item with its comma, how many there are, what stands behind, and the offset of the first
// item that is too wide.
static STARS: [(&str, &str, u32, &str, Option<u32>); 3] = [
    ("SELECT ", "w.*,", 256, " FROM w", None),
    ("SELECT ", "w.*,", 257, " FROM w", Some(1031)),
    (
        "SELECT d.c0 FROM (SELECT ",
        "w.*,",
        257,
        " FROM w) AS d",
        Some(1049),
    ),
];

static STARS_OF_FOUR: [(&str, &str, u32, &str, Option<u32>); 4] = [
    ("SELECT ", "*,", 4096, " FROM o", None),
    ("SELECT ", "*,", 4097, " FROM o", Some(8199)),
    (
        "SELECT id FROM o WHERE c IN (SELECT ",
        "o.*,",
        4097,
        " FROM o)",
        Some(16420),
    ),
    ("SELECT id, ", "*,", 4096, " FROM o", Some(8201)),
];

#[test]
fn queries_have_so_many_columns_at_most(rt: HostRuntime) -> Result<(), Fail> {
    let alloc = rt.alloc();
    for (tables, rows) in [(WIDE, STARS.as_slice()), (SCHEMA, STARS_OF_FOUR.as_slice())] {
        let schema = read_schema(alloc, tables.as_bytes())?;
        for (before, item, count, behind, wanted) in rows {
            assert_eq!(rt;
                fault_of_stars(alloc, &schema, before, item, *count, behind)?,
                wanted.map(|at| BuildError::Refused(BuildFault::TooWide, at)),
                "{before}{item} {count}"
            );
        }
    }
    Ok(())
}
