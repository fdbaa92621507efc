//! The limits of a schema, each kept and passed.

use std::alloc::{AllocError, Global};
use std::test::Fail;
use wt_ddl::{DdlError, DdlFault, read_schema};

// The number of tables, or the error.
fn tables_of(alloc: Global, text: &[u8]) -> Result<usize, DdlError> {
    match read_schema(alloc, text) {
        Err(error) => Err(error),
        Ok(schema) => Ok(schema.tables.len()),
    }
}

// A table of so many columns, which have names of as many letters.
fn wide_table(alloc: Global, columns: usize) -> Result<Result<usize, DdlError>, AllocError> {
    let mut text = Vec::new(alloc);
    text.extend_from_slice(b"CREATE TABLE t (")?;
    let mut name = Vec::new(alloc);
    for _i in 0..columns {
        name.push(b'c')?;
        text.extend_from_slice(&name)?;
        text.extend_from_slice(b" INT,")?;
    }
    text.extend_from_slice(b"c9 TEXT)")?;
    Ok(tables_of(alloc, &text))
}

// So many tables, which have names of as many letters.
fn many_tables(alloc: Global, tables: usize) -> Result<Result<usize, DdlError>, AllocError> {
    let mut text = Vec::new(alloc);
    let mut name = Vec::new(alloc);
    for _i in 0..tables {
        name.push(b't')?;
        text.extend_from_slice(b"CREATE TABLE ")?;
        text.extend_from_slice(&name)?;
        text.extend_from_slice(b" (a INT);")?;
    }
    Ok(tables_of(alloc, &text))
}

#[test]
fn limits_refuse_where_they_are_passed(rt: HostRuntime) -> Result<(), Fail> {
    let columns = DdlError::Fault(DdlFault::TooManyColumns, 2416);
    let tables = DdlError::Fault(DdlFault::TooManyTables, 38541);
    assert!(rt; wide_table(rt.alloc(), 63)? == Ok(1));
    assert!(rt; wide_table(rt.alloc(), 64)? == Err(columns));
    assert!(rt; wide_table(rt.alloc(), 65)? == Err(columns));
    assert!(rt; many_tables(rt.alloc(), 256)? == Ok(256));
    assert!(rt; many_tables(rt.alloc(), 257)? == Err(tables));
    assert!(rt; many_tables(rt.alloc(), 258)? == Err(tables));
    Ok(())
}
