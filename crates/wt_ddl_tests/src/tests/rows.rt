//! The databases that satisfy a schema.

use std::alloc::{AllocError, Global};
use std::test::Fail;
use wt_ddl::read_schema;
use wt_schema::{Database, RowsList};
use wt_value::{Row, Rows, Value};

// Columns of `o`: its key, a reference, a reference that is NOT NULL, and a UNIQUE column.
static TEXT: &str =
    "CREATE TABLE cust (id INTEGER PRIMARY KEY, age INTEGER); CREATE TABLE o (id INTEGER PRIMARY KEY, c INTEGER REFERENCES cust (id), d INTEGER NOT NULL REFERENCES cust (id), k INTEGER UNIQUE);";

// The rows of the two tables, and whether they satisfy the schema.
struct Base {
    customers: &'static [&'static [Option<i64>]],
    orders: &'static [&'static [Option<i64>]],
    satisfies: bool,
}

static BASES: [Base; 10] = [
    Base {
        customers: &[&[Some(1), None]],
        orders: &[
            &[Some(1), None, Some(1), None],
            &[Some(2), Some(1), Some(1), None],
        ],
        satisfies: true,
    },
    Base {
        customers: &[&[Some(1), None]],
        orders: &[],
        satisfies: true,
    },
    Base {
        customers: &[],
        orders: &[],
        satisfies: true,
    },
    // No row that the references find.
    Base {
        customers: &[],
        orders: &[&[Some(1), None, Some(1), None]],
        satisfies: false,
    },
    // NULL in a primary key.
    Base {
        customers: &[&[None, Some(1)]],
        orders: &[],
        satisfies: false,
    },
    // One primary key twice.
    Base {
        customers: &[&[Some(1), None], &[Some(1), Some(2)]],
        orders: &[],
        satisfies: false,
    },
    // One of two references finds none.
    Base {
        customers: &[&[Some(1), None]],
        orders: &[&[Some(1), Some(3), Some(1), None]],
        satisfies: false,
    },
    // NULL where NOT NULL stands.
    Base {
        customers: &[&[Some(1), None]],
        orders: &[&[Some(1), None, None, None]],
        satisfies: false,
    },
    // One UNIQUE value twice.
    Base {
        customers: &[&[Some(1), None]],
        orders: &[
            &[Some(1), None, Some(1), Some(7)],
            &[Some(2), None, Some(1), Some(7)],
        ],
        satisfies: false,
    },
    // A row too narrow.
    Base {
        customers: &[&[Some(1), None]],
        orders: &[&[Some(1), None, Some(1)]],
        satisfies: false,
    },
];

fn row_of(alloc: Global, values: &[Option<i64>]) -> Result<Row, AllocError> {
    let mut row = Row::new(alloc);
    for value in values.iter() {
        row.push(value.map_or(Value::Null, Value::Int))?;
    }
    Ok(row)
}

fn rows_of(alloc: Global, lists: &[&[Option<i64>]]) -> Result<Rows, AllocError> {
    let mut rows = Rows::new(alloc);
    for values in lists.iter() {
        rows.push(row_of(alloc, values)?)?;
    }
    Ok(rows)
}

fn base_of(alloc: Global, base: &Base) -> Result<Database, AllocError> {
    let mut tables = RowsList::new(alloc);
    tables.push(rows_of(alloc, base.customers)?)?;
    tables.push(rows_of(alloc, base.orders)?)?;
    Ok(Database { tables })
}

fn satisfies(alloc: Global, base: &Database) -> bool {
    match read_schema(alloc, TEXT.as_bytes()) {
        Err(_) => false,
        Ok(schema) => schema.satisfies(base),
    }
}

fn is_as_told(alloc: Global, base: &Base) -> Result<bool, AllocError> {
    Ok(satisfies(alloc, &base_of(alloc, base)?) == base.satisfies)
}

#[test]
fn databases_satisfy_a_schema(rt: HostRuntime) -> Result<(), Fail> {
    for base in BASES.iter() {
        assert!(rt; is_as_told(rt.alloc(), base)?);
    }
    Ok(())
}

#[test]
fn a_list_of_rows_stands_for_each_table(rt: HostRuntime) {
    assert!(rt;
        !satisfies(
            rt.alloc(),
            &Database {
                tables: RowsList::new(rt.alloc())
            }
        )
    );
}
