//! Examples whose answers come from outside.

mod plans;

use std::alloc::{AllocError, Global};
use std::test::Fail;
use wt_plan::Plan;
use wt_schema::{Database, RowsList};
use wt_value::{Row, Rows, Value, same_bag};

/// A row: a digit for each value, and - for NULL.
fn row(alloc: Global, text: &str) -> Result<Row, AllocError> {
    let mut row = Row::new(alloc);
    for byte in text.bytes() {
        if byte == b'-' {
            row.push(Value::Null)?;
        } else {
            row.push(Value::Int(i64::from(byte.saturating_sub(b'0'))))?;
        }
    }
    Ok(row)
}

/// Rows with blanks between them.
fn rows(alloc: Global, text: &str) -> Result<Rows, AllocError> {
    let mut rows = Rows::new(alloc);
    for word in text.split_whitespace() {
        rows.push(row(alloc, word)?)?;
    }
    Ok(rows)
}

/// The rows of two tables.
fn database(alloc: Global, first: &str, second: &str) -> Result<Database, AllocError> {
    let mut tables = RowsList::new(alloc);
    tables.push(rows(alloc, first)?)?;
    tables.push(rows(alloc, second)?)?;
    Ok(Database { tables })
}

/// Whether a plan has these rows, in order, over two tables of two and of four columns.
fn has_rows(alloc: Global, plan: &Plan, expected: &str) -> Result<bool, AllocError> {
    let base = database(alloc, "5- 67", "1-5- 2678 3-67")?;
    let found = plan.bag(alloc, &base)?;
    Ok(found == rows(alloc, expected)? && same_bag(&found, &rows(alloc, expected)?))
}

fn plan_has_rows(alloc: Global, n: usize, expected: &str) -> Result<bool, AllocError> {
    has_rows(alloc, &plans::plan(alloc, n)?, expected)
}

#[test]
fn plans_have_their_rows(rt: HostRuntime) -> Result<(), Fail> {
    for (n, expected) in [
        "1 2 3",
        "1-5- 2678 3-67",
        "1-5--- 267867 3-67--",
        "2678",
        "- 6",
        "1-5- 3-67",
        "1-5-5- 3-6767",
    ]
    .iter()
    .enumerate()
    {
        assert!(rt; plan_has_rows(rt.alloc(), n, expected)?);
    }
    Ok(())
}

fn is_copied(alloc: Global, n: usize, expected: &str) -> Result<bool, AllocError> {
    has_rows(alloc, &plans::plan(alloc, n)?.copy(alloc)?, expected)
}

fn measures(alloc: Global, n: usize) -> Result<(u32, u64, u32), AllocError> {
    let plan = plans::plan(alloc, n)?;
    Ok((plan.width(), plan.cost(), plan.node_count()))
}

#[test]
fn plans_are_measured(rt: HostRuntime) -> Result<(), Fail> {
    let alloc = rt.alloc();
    assert!(rt; measures(alloc, 0)? == (1, 10, 4));
    assert!(rt; measures(alloc, 4)? == (1, 5, 3));
    assert!(rt; measures(alloc, 9)? == (6, 15, 7));
    assert!(rt; is_copied(alloc, 4, "- 6")? && is_copied(alloc, 5, "1-5- 3-67")?);
    Ok(())
}
