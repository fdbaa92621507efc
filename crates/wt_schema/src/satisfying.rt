ghost use Rattle.std.specs.Prelude.{◌≡◌, ◌↔◌, ◌<◌, ◌≤◌, List, IsTrue, true, length, slice_index_or};
ghost use Rattle.std.specs.List.{All, AllPairs, Any};
ghost use Rattle.wt_value.specs.Values.{Matches, HasNoNull, pick};
ghost use Rattle.wt_schema.specs.Satisfying as spec;

use crate::database::Database;
use crate::schema::{ColKind, Column, Key, Reference, Schema, Table};
use wt_value::{Row, Rows, Value, has_no_null_at, matches_at};

impl Schema {
    /// Whether the database has a list of rows for each table, of the columns' widths and kinds, with no NULL where NOT
    /// NULL or PRIMARY KEY stands, no two rows that match at a key, and a matching row in the target for each row without
    /// NULL at a reference's columns.
    pub fn satisfies(&self, base: &Database) -> bool
        ensures { IsTrue result ↔ spec.Satisfies self.now.tables base.now.tables }
    {
        let tables = self.tables.as_slice();
        let base = base.tables.as_slice();
        base.len() == tables.len() && all_hold(tables, base)
    }
}

fn all_hold(tables: &[Table], base: &[Rows]) -> bool
    requires { length base.now ≡ length tables.now }
    ensures { IsTrue result ↔ spec.AllHold tables.now base.now }
{
    let mut i = 0;
    'tables: while i < tables.len() {
        if !table_holds(base, &tables[i], base[i].as_slice()) {
            return false;
        }
        i += 1;
    }
    true
}

fn table_holds(base: &[Rows], table: &Table, rows: &[Row]) -> bool
    ensures { IsTrue result ↔ spec.TableHolds base.now table.now rows.now }
{
    rows_fit(rows, table.columns.as_slice())
        && keys_hold(rows, table.keys.as_slice())
        && references_hold(base, rows, table.references.as_slice())
}

fn rows_fit(rows: &[Row], columns: &[Column]) -> bool
    ensures { IsTrue result ↔ All (spec.RowFits columns.now) rows.now }
{
    rows.iter().all(|row| row_fits(columns, row.as_slice()))
}

fn keys_hold(rows: &[Row], keys: &[Key]) -> bool
    ensures { IsTrue result ↔ All (spec.KeyHolds rows.now) keys.now }
{
    keys.iter().all(|key| key_holds(rows, key))
}

fn references_hold(base: &[Rows], rows: &[Row], references: &[Reference]) -> bool
    ensures { IsTrue result ↔ All (λ r. spec.ReferenceHolds rows.now (spec.rows_of base.now r.table) r) references.now }
{
    references.iter().all(|reference| reference_holds(
        rows,
        rows_of(base, reference.table),
        reference,
    ))
}

fn rows_of(base: &[Rows], table: u32) -> &[Row]
    ensures { result.now ≡ spec.rows_of base.now table }
{
    let place = table as usize;
    if place < base.len() {
        base[place].as_slice()
    } else {
        &[]
    }
}

fn row_fits(mut columns: &[Column], mut row: &[Value]) -> bool
    ensures { IsTrue result ↔ spec.RowFits columns.entry.now row.entry.now }
{
    'columns: while let [column, more_columns @ ..] = columns {
        let [value, more_values @ ..] = row else {
            return false;
        };
        if !value_fits(column, value) {
            return false;
        }
        columns = more_columns;
        row = more_values;
    }
    row.is_empty()
}

fn value_fits(column: &Column, value: &Value) -> bool
    ensures { IsTrue result ↔ spec.ValueFits column.now value.now }
{
    is_of(column.kind, value) && !(column.not_null && value.is_null())
}

fn is_of(kind: ColKind, value: &Value) -> bool
    ensures { IsTrue result ↔ spec.IsOf kind value.now }
{
    match (kind, value) {
        (_, Value::Null) => true,
        (ColKind::Int, Value::Int(_)) => true,
        (ColKind::Text, Value::Text(_)) => true,
        _ => false,
    }
}

fn key_holds(rows: &[Row], key: &Key) -> bool
    ensures { IsTrue result ↔ spec.KeyHolds rows.now key.now }
{
    let columns = key.columns.as_slice();
    (!key.primary || no_null_among(rows, columns)) && differ(rows, columns)
}

fn no_null_among(rows: &[Row], columns: &[u32]) -> bool
    ensures { IsTrue result ↔ All (λ row. HasNoNull (pick columns.now row)) rows.now }
{
    rows.iter()
        .all(|row| has_no_null_at(row.as_slice(), columns))
}

fn differ(rows: &[Row], columns: &[u32]) -> bool
    ensures { IsTrue result ↔ AllPairs (spec.Differ columns.now) rows.now }
{
    let mut i = 0;
    'rows: while i < rows.len() {
        let (_, others) = rows.split_at(i + 1);
        if !differs_from_all(&rows[i], others, columns) {
            return false;
        }
        i += 1;
    }
    true
}

fn differs_from_all(row: &Row, others: &[Row], columns: &[u32]) -> bool
    ensures { IsTrue result ↔ All (spec.Differ columns.now row.now) others.now }
{
    others
        .iter()
        .all(|other| !matches_at(row, columns, other, columns))
}

fn reference_holds(rows: &[Row], targets: &[Row], reference: &Reference) -> bool
    ensures { IsTrue result ↔ spec.ReferenceHolds rows.now targets.now reference.now }
{
    rows.iter().all(|row| refers(row, targets, reference))
}

fn refers(row: &Row, targets: &[Row], reference: &Reference) -> bool
    ensures { IsTrue result ↔ spec.Refers reference.now targets.now row.now }
{
    !has_no_null_at(row.as_slice(), reference.columns.as_slice())
        || is_matched(row, targets, reference)
}

fn is_matched(row: &Row, targets: &[Row], reference: &Reference) -> bool
    ensures { IsTrue result ↔ Any (λ target. Matches (pick reference.now.columns row.now) (pick reference.now.target target)) targets.now }
{
    let columns = reference.columns.as_slice();
    let target_columns = reference.target.as_slice();
    targets
        .iter()
        .any(|target| matches_at(row, columns, target, target_columns))
}
