//! Tables and columns by their names.

use std::alloc::{AllocError, Global};
use std::test::Fail;
use wt_ddl::read_schema;
use wt_schema::{Schema, column_number};
use wt_value::Name;

static TEXT: &str =
    "CREATE TABLE Cust (id INT PRIMARY KEY, \"Id\" INT); CREATE TABLE \"Cust\" (a INT, b INT, c INT)";

// A table's name and a column's, and the numbers of both.
static ROWS: [(&str, &str, Option<usize>, Option<usize>); 7] = [
    ("cust", "id", Some(0), Some(0)),
    ("cust", "Id", Some(0), Some(1)),
    ("cust", "a", Some(0), None),
    ("Cust", "a", Some(1), Some(0)),
    ("Cust", "c", Some(1), Some(2)),
    ("Cust", "id", Some(1), None),
    ("CUST", "id", None, None),
];

fn column_of(schema: &Schema, table: Option<usize>, column: &Name) -> Option<usize> {
    match table.and_then(|n| schema.tables.as_slice().get(n)) {
        None => None,
        Some(table) => column_number(table.columns.as_slice(), column),
    }
}

fn stand_at(
    alloc: Global,
    schema: &Schema,
    row: (&str, &str, Option<usize>, Option<usize>),
) -> Result<bool, AllocError> {
    let (table, column, at, column_at) = row;
    let table = Name::from_bytes(alloc, table.as_bytes())?;
    let column = Name::from_bytes(alloc, column.as_bytes())?;
    let found = schema.table_number(&table);
    Ok(found == at && column_of(schema, found, &column) == column_at)
}

fn is_found(
    alloc: Global,
    row: (&str, &str, Option<usize>, Option<usize>),
) -> Result<bool, AllocError> {
    match read_schema(alloc, TEXT.as_bytes()) {
        Err(_) => Ok(false),
        Ok(schema) => stand_at(alloc, &schema, row),
    }
}

#[test]
fn names_are_found(rt: HostRuntime) -> Result<(), Fail> {
    for row in ROWS {
        assert!(rt; is_found(rt.alloc(), row)?, "{} {}", row.0, row.1);
    }
    Ok(())
}
