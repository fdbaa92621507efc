//! The tables that texts are read as.

use std::alloc::{AllocError, Global};
use std::test::Fail;
use wt_ddl::read_schema;
use wt_schema::{ColKind, Column, Key, Reference, Table};

// A text and its tables: each column with its kind and `!` where it is NOT NULL, P and U before the columns of a key, and a
// reference's columns before its table and the columns there.
static ROWS: [(&str, &str); 9] = [
    ("", ""),
    (";; -- nothing\n ; /* at all */", ""),
    ("CREATE TABLE t (a INT)", "t: a INT;\n"),
    (
        "create table if not exists t (\r\n  a integer null not null,\r\n  b varchar(255) -- name\r\n);\r\n",
        "t: a INT!; b TEXT;\n",
    ),
    (
        "CREATE TABLE if (\"a\"\"b\" TEXT CONSTRAINT c UNIQUE, key INT, match INT REFERENCES match MATCH SIMPLE ON DELETE NO ACTION); CREATE TABLE match (id INT PRIMARY KEY)",
        "if: a\"b TEXT; key INT; match INT; U 0; R 2 > 1: 0;\nmatch: id INT; P 0;\n",
    ),
    (
        "CREATE TABLE o (id BIGINT PRIMARY KEY, c SMALLINT REFERENCES cust (id) ON UPDATE SET NULL ON DELETE RESTRICT NOT NULL); CREATE TABLE cust (id INTEGER PRIMARY KEY, name TEXT)",
        "o: id INT; c INT!; P 0; R 1 > 1: 0;\ncust: id INT; name TEXT; P 0;\n",
    ),
    (
        "CREATE TABLE t (a INT, b CHARACTER VARYING(9), c TEXT, CONSTRAINT p PRIMARY KEY (a, b), FOREIGN KEY (a, c) REFERENCES t (a, b), FOREIGN KEY (c, a) REFERENCES t (b, a))",
        "t: a INT; b TEXT; c TEXT; P 0 1; R 0 2 > 0: 0 1; R 2 0 > 0: 1 0;\n",
    ),
    (
        "CREATE TABLE \"A\" (x INT REFERENCES b NOT NULL, \"y\"\"z\" VARCHAR(9) UNIQUE); CREATE TABLE b (k BIGINT, PRIMARY KEY (k), l TEXT)",
        "A: x INT!; y\"z TEXT; U 1; R 0 > 1: 0;\nb: k INT; l TEXT; P 0;\n",
    ),
    (
        "CREATE TABLE t (a INT UNIQUE, b INT PRIMARY KEY, UNIQUE (B, a), c INT REFERENCES t, d INT REFERENCES t (a))",
        "t: a INT; b INT; c INT; d INT; U 0; P 1; U 1 0; R 2 > 0: 1; R 3 > 0: 0;\n",
    ),
];

fn put(out: &mut Vec<u8>, piece: &str) -> Result<(), AllocError> {
    out.extend_from_slice(piece.as_bytes())
}

fn put_numbers(alloc: Global, out: &mut Vec<u8>, numbers: &[u32]) -> Result<(), AllocError> {
    for number in numbers.iter() {
        put(out, &format!(in alloc; " {number}")?)?;
    }
    Ok(())
}

fn put_columns(out: &mut Vec<u8>, columns: &[Column]) -> Result<(), AllocError> {
    for column in columns.iter() {
        put(out, " ")?;
        out.extend_from_slice(column.name.as_bytes())?;
        put(
            out,
            if column.kind == ColKind::Int {
                " INT"
            } else {
                " TEXT"
            },
        )?;
        put(out, if column.not_null { "!;" } else { ";" })?;
    }
    Ok(())
}

fn put_keys(alloc: Global, out: &mut Vec<u8>, keys: &[Key]) -> Result<(), AllocError> {
    for key in keys.iter() {
        put(out, if key.primary { " P" } else { " U" })?;
        put_numbers(alloc, out, key.columns.as_slice())?;
        put(out, ";")?;
    }
    Ok(())
}

fn put_references(
    alloc: Global,
    out: &mut Vec<u8>,
    references: &[Reference],
) -> Result<(), AllocError> {
    for reference in references.iter() {
        put(out, " R")?;
        put_numbers(alloc, out, reference.columns.as_slice())?;
        put(out, " >")?;
        put_numbers(alloc, out, &[reference.table])?;
        put(out, ":")?;
        put_numbers(alloc, out, reference.target.as_slice())?;
        put(out, ";")?;
    }
    Ok(())
}

fn put_tables(alloc: Global, out: &mut Vec<u8>, tables: &[Table]) -> Result<(), AllocError> {
    for table in tables.iter() {
        out.extend_from_slice(table.name.as_bytes())?;
        put(out, ":")?;
        put_columns(out, table.columns.as_slice())?;
        put_keys(alloc, out, table.keys.as_slice())?;
        put_references(alloc, out, table.references.as_slice())?;
        put(out, "\n")?;
    }
    Ok(())
}

fn is_shown(alloc: Global, tables: &[Table], wanted: &str) -> Result<bool, AllocError> {
    let mut out = Vec::new(alloc);
    put_tables(alloc, &mut out, tables)?;
    Ok(out.as_slice() == wanted.as_bytes())
}

fn is_read_as(alloc: Global, text: &str, wanted: &str) -> Result<bool, AllocError> {
    match read_schema(alloc, text.as_bytes()) {
        Err(_) => Ok(false),
        Ok(schema) => is_shown(alloc, schema.tables.as_slice(), wanted),
    }
}

#[test]
fn schemas_are_read(rt: HostRuntime) -> Result<(), Fail> {
    for (text, wanted) in ROWS {
        assert!(rt; is_read_as(rt.alloc(), text, wanted)?, "in {text}");
    }
    Ok(())
}
