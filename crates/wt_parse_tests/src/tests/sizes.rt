//! Statements at their limits: of levels, of FROM items and conjuncts, and of bytes.

use crate::tests::{put, refusal};
use std::alloc::{AllocError, Global};
use std::test::Fail;
use std::thread::Builder;
use wt_parse::{QueryError, QueryFault};

// A text that is made of a front, an opening so many times, an inside, and a closing as many times.
type Nested = (
    &'static str,
    &'static str,
    u32,
    &'static str,
    &'static str,
    Option<QueryError>,
);

static NESTED: [Nested; 29] = [
    ("SELECT t.a FROM t WHERE ", "(", 32, "t.a = 1", ")", None),
    (
        "SELECT t.a FROM t WHERE ",
        "(",
        33,
        "t.a = 1",
        ")",
        Some(QueryError::Refused(QueryFault::TooDeep, 56)),
    ),
    ("SELECT t.a FROM t WHERE ", "NOT ", 32, "t.a = 1", "", None),
    (
        "SELECT t.a FROM t WHERE ",
        "NOT ",
        33,
        "t.a = 1",
        "",
        Some(QueryError::Refused(QueryFault::TooDeep, 152)),
    ),
    (
        "SELECT t.a FROM t WHERE ",
        "NOT (",
        16,
        "t.a = 1",
        ")",
        None,
    ),
    (
        "SELECT t.a FROM t WHERE ",
        "NOT (",
        17,
        "t.a = 1",
        ")",
        Some(QueryError::Refused(QueryFault::TooDeep, 104)),
    ),
    (
        "SELECT t.a FROM t WHERE NOT ",
        "(NOT ",
        16,
        "t.a = 1",
        ")",
        Some(QueryError::Refused(QueryFault::TooDeep, 104)),
    ),
    ("SELECT t.a FROM t WHERE ", "(", 31, "t.a IN (1)", ")", None),
    (
        "SELECT t.a FROM t WHERE ",
        "(",
        32,
        "t.a IN (1)",
        ")",
        Some(QueryError::Refused(QueryFault::TooDeep, 63)),
    ),
    (
        "SELECT t.a FROM t WHERE ",
        "(",
        31,
        "t.a IN (SELECT c.k FROM c)",
        ")",
        None,
    ),
    (
        "SELECT t.a FROM t WHERE ",
        "(",
        32,
        "t.a IN (SELECT c.k FROM c)",
        ")",
        Some(QueryError::Refused(QueryFault::TooDeep, 63)),
    ),
    (
        "SELECT t.a FROM t WHERE ",
        "(",
        31,
        "(t.a, t.b) IN (SELECT c.k, c.d FROM c)",
        ")",
        None,
    ),
    (
        "SELECT t.a FROM t WHERE ",
        "(",
        32,
        "(t.a, t.b) IN (SELECT c.k, c.d FROM c)",
        ")",
        Some(QueryError::Refused(QueryFault::TooDeep, 56)),
    ),
    (
        "SELECT t.a FROM t WHERE ",
        "(",
        32,
        "(SELECT c.k FROM c) = 1",
        ")",
        Some(QueryError::Refused(QueryFault::Subquery, 56)),
    ),
    (
        "SELECT t.a FROM t WHERE ",
        "(",
        32,
        "f(1) = 1",
        ")",
        Some(QueryError::Refused(QueryFault::Function, 57)),
    ),
    (
        "SELECT t.a FROM t WHERE ",
        "(",
        32,
        "t.a NOT IN (SELECT c.k FROM c)",
        ")",
        Some(QueryError::Refused(QueryFault::NotInSubquery, 60)),
    ),
    (
        "SELECT t.a FROM t WHERE ",
        "(",
        32,
        "t.a NOT BETWEEN 1 AND 2",
        ")",
        None,
    ),
    (
        "SELECT t.a FROM t WHERE ",
        "NOT ",
        32,
        "t.a NOT BETWEEN 1 AND 2",
        "",
        None,
    ),
    ("SELECT t.a FROM ", "(", 32, "t", ")", None),
    (
        "SELECT t.a FROM ",
        "(",
        33,
        "t",
        ")",
        Some(QueryError::Refused(QueryFault::TooDeep, 48)),
    ),
    (
        "SELECT d.a FROM ",
        "(SELECT d.a FROM ",
        32,
        "t",
        ") AS d",
        None,
    ),
    (
        "SELECT d.a FROM ",
        "(SELECT d.a FROM ",
        33,
        "t",
        ") AS d",
        Some(QueryError::Refused(QueryFault::TooDeep, 560)),
    ),
    (
        "SELECT d.a FROM ",
        "(",
        31,
        "(SELECT t.a FROM t) AS d (a)",
        ")",
        None,
    ),
    (
        "SELECT t.a FROM t WHERE t.a IN ",
        "(SELECT t.a FROM t WHERE t.a IN ",
        31,
        "(1)",
        ")",
        None,
    ),
    (
        "SELECT t.a FROM t WHERE t.a IN ",
        "(SELECT t.a FROM t WHERE t.a IN ",
        32,
        "(1)",
        ")",
        Some(QueryError::Refused(QueryFault::TooDeep, 1055)),
    ),
    (
        "",
        "SELECT t.a FROM t JOIN (",
        32,
        "SELECT t.a FROM t",
        ") AS u ON t.a = u.a",
        None,
    ),
    (
        "",
        "SELECT t.a FROM t JOIN t AS u ON t.a IN (",
        32,
        "SELECT t.a FROM t",
        ")",
        None,
    ),
    (
        "SELECT d.a FROM (SELECT t.a FROM t WHERE ",
        "(",
        32,
        "t.a = 1",
        ")",
        Some(QueryError::Refused(QueryFault::TooDeep, 72)),
    ),
    (
        "SELECT t.a FROM t WHERE t.a = 1 AND ",
        "(NOT ",
        15,
        "t.a = 1",
        ")",
        None,
    ),
];

fn first_wrong_level(alloc: Global, rows: &[Nested]) -> Result<Option<usize>, AllocError> {
    for (i, (front, opening, times, inside, closing, wanted)) in rows.iter().enumerate() {
        let mut bytes = Vec::new(alloc);
        put(&mut bytes, front, 1)?;
        put(&mut bytes, opening, *times)?;
        put(&mut bytes, inside, 1)?;
        put(&mut bytes, closing, *times)?;
        if refusal(alloc, &bytes, 0) != *wanted {
            return Ok(Some(i));
        }
    }
    Ok(None)
}

#[test]
fn the_33rd_level_is_too_deep(rt: HostRuntime) -> Result<(), Fail> {
    assert_eq!(rt; first_wrong_level(rt.alloc(), &NESTED)?, None);
    Ok(())
}

// A text that is made of a front, a piece so many times, and a back.
type Repeated = (
    &'static str,
    &'static str,
    u32,
    &'static str,
    Option<QueryError>,
);

static REPEATED: [Repeated; 25] = [
    ("SELECT a FROM o", " JOIN o ON a=a", 255, "", None),
    (
        "SELECT a FROM o",
        " JOIN o ON a=a",
        256,
        "",
        Some(QueryError::Refused(QueryFault::TooMany, 3591)),
    ),
    (
        "SELECT a FROM o",
        " LEFT JOIN o ON a=a",
        256,
        "",
        Some(QueryError::Refused(QueryFault::TooMany, 4871)),
    ),
    (
        "SELECT a FROM o",
        " JOIN o ON a=a",
        255,
        " JOIN (SELECT a FROM o) AS d ON a=a",
        Some(QueryError::Refused(QueryFault::TooMany, 3591)),
    ),
    (
        "SELECT a FROM o",
        " JOIN o ON a=a",
        254,
        " JOIN (SELECT a FROM o) AS d ON a=a",
        Some(QueryError::Refused(QueryFault::TooMany, 3592)),
    ),
    ("SELECT a FROM o WHERE a=a", " AND a=a", 255, "", None),
    (
        "SELECT a FROM o WHERE a=a",
        " AND a=a",
        256,
        "",
        Some(QueryError::Refused(QueryFault::TooMany, 2070)),
    ),
    (
        "SELECT a FROM o WHERE a BETWEEN 1 AND 2",
        " AND a BETWEEN 1 AND 2",
        127,
        "",
        None,
    ),
    (
        "SELECT a FROM o WHERE a BETWEEN 1 AND 2",
        " AND a BETWEEN 1 AND 2",
        128,
        "",
        Some(QueryError::Refused(QueryFault::TooMany, 2838)),
    ),
    (
        "SELECT a FROM o WHERE a=a",
        " AND a=a",
        254,
        " AND a IN (SELECT a FROM o)",
        None,
    ),
    (
        "SELECT a FROM o WHERE a=a",
        " AND a=a",
        254,
        " AND a IN (SELECT a FROM o WHERE a=a)",
        Some(QueryError::Refused(QueryFault::TooMany, 2090)),
    ),
    (
        "SELECT d.a FROM (SELECT a FROM o",
        " JOIN o ON a=a",
        256,
        ") AS d",
        Some(QueryError::Refused(QueryFault::TooMany, 3594)),
    ),
    (
        "SELECT a FROM o WHERE a IN (SELECT a FROM o WHERE a=a",
        " AND a=a",
        256,
        ")",
        Some(QueryError::Refused(QueryFault::TooMany, 2090)),
    ),
    (
        "SELECT a FROM o WHERE a=a",
        " AND (a=a)",
        256,
        "",
        Some(QueryError::Refused(QueryFault::TooMany, 2581)),
    ),
    (
        "SELECT a FROM o",
        " JOIN o ON a=a AND a=a",
        256,
        "",
        Some(QueryError::Refused(QueryFault::TooMany, 2842)),
    ),
    (
        "SELECT a FROM o",
        " JOIN o ON a=a",
        300,
        " ORDER BY a",
        Some(QueryError::Refused(QueryFault::OrderBy, 4216)),
    ),
    (
        "SELECT a FROM o",
        " JOIN o ON a=a",
        300,
        " WHERE a=a OR a IN (SELECT a FROM o)",
        Some(QueryError::Refused(QueryFault::InUnderOr, 4231)),
    ),
    (
        "SELECT a FROM o",
        " JOIN o ON a=a",
        4500,
        "",
        Some(QueryError::Refused(QueryFault::TooMany, 3591)),
    ),
    ("SELECT a FROM o", ", o", 255, "", None),
    (
        "SELECT a FROM o",
        ", o",
        21_000,
        "",
        Some(QueryError::Refused(QueryFault::TooMany, 782)),
    ),
    (
        "SELECT a FROM o, o RIGHT JOIN o ON a=a",
        ", o",
        253,
        " LEFT JOIN o ON a=a",
        Some(QueryError::Refused(QueryFault::TooMany, 808)),
    ),
    ("SELECT a FROM o WHERE a=1 ", "OR a=1 ", 9349, "", None),
    (
        "SELECT a FROM o WHERE a=1 ",
        "AND a=1 ",
        8180,
        "",
        Some(QueryError::Refused(QueryFault::TooMany, 2070)),
    ),
    (
        "SELECT a FROM o WHERE a=1 OR a=1 ",
        "AND a=1 ",
        8180,
        "",
        None,
    ),
    (
        "SELECT a FROM o WHERE a=1 AND NOT (a=1 ",
        "OR a=1 ",
        9340,
        ")",
        None,
    ),
];

fn first_wrong_size(alloc: Global, rows: &[Repeated]) -> Result<Option<usize>, AllocError> {
    for (i, (front, piece, times, back, wanted)) in rows.iter().enumerate() {
        let mut bytes = Vec::new(alloc);
        put(&mut bytes, front, 1)?;
        put(&mut bytes, piece, *times)?;
        put(&mut bytes, back, 1)?;
        if refusal(alloc, &bytes, 0) != *wanted {
            return Ok(Some(i));
        }
    }
    Ok(None)
}

#[test]
fn the_257th_part_is_too_many(rt: HostRuntime) -> Result<(), Fail> {
    assert_eq!(rt; first_wrong_size(rt.alloc(), &REPEATED)?, None);
    Ok(())
}

// Whether no row of sizes and of levels is wrong.
fn long_texts_hold(alloc: Global) -> bool {
    first_wrong_size(alloc, &REPEATED) == Ok(None) && first_wrong_level(alloc, &NESTED) == Ok(None)
}

// In a proved build: the checks of `rt try` widen each frame, and it runs out of stack here.
#[test]
fn long_texts_take_no_stack(rt: HostRuntime) -> Result<(), Fail> {
    let alloc = rt.alloc();
    let child = Builder::new()
        .stack_size(524_288)
        .spawn(&rt, move || long_texts_hold(alloc))?;
    assert!(rt; child.join(&rt));
    Ok(())
}

// A statement: what stands before it in its file, and its two parts, with blanks or a comment between them.
struct Long {
    before: &'static str,
    front: &'static str,
    back: &'static str,
}

static LONG: [Long; 5] = [
    Long {
        before: "",
        front: "SELECT a FROM o",
        back: "",
    },
    Long {
        before: "  ",
        front: "SELECT a FROM o /*",
        back: "*/;",
    },
    Long {
        before: "SELECT a FROM o; ",
        front: "SELECT a FROM o WHERE a =",
        back: "1; SELECT a FROM o",
    },
    Long {
        before: "SELECT a FROM o;;",
        front: "SELECT a FROM (SELECT a FROM o",
        back: ") AS d;",
    },
    Long {
        before: "SELECT a FROM o;;",
        front: "SELECT a FROM o WHERE a IN (SELECT a FROM",
        back: "o)",
    },
];

// The row's file, in which the statement has so many bytes.
fn filled(alloc: Global, row: &Long, len: usize) -> Result<Vec<u8>, AllocError> {
    let own_back = row.back.split(';').next().unwrap_or("");
    let blanks = len.saturating_sub(row.front.len() + own_back.len());
    let mut bytes = Vec::new(alloc);
    put(&mut bytes, row.before, 1)?;
    put(&mut bytes, row.front, 1)?;
    put(&mut bytes, " ", u32::try_from(blanks).unwrap_or(u32::MAX))?;
    put(&mut bytes, row.back, 1)?;
    Ok(bytes)
}

#[test]
fn the_65537th_byte_is_too_long(rt: HostRuntime) -> Result<(), Fail> {
    let alloc = rt.alloc();
    for row in &LONG {
        let n = u32::from(row.before.contains(';'));
        let begin = row.before.len() as u32;
        let longest = filled(alloc, row, 65_536)?;
        assert_eq!(rt; refusal(alloc, &longest, n), None, "{}", row.front);
        let longer = filled(alloc, row, 65_537)?;
        assert_eq!(rt;
            refusal(alloc, &longer, n),
            Some(QueryError::Refused(QueryFault::TooLong, begin)),
            "{}",
            row.front
        );
    }
    Ok(())
}
