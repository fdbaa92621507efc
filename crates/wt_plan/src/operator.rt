//! The operators on rows.
ghost use Rattle.std.specs.Prelude.{◌≡◌, [], ◌∷◌, ◌++◌, map, filter, flat_map, IfOk, OnOk};
ghost use Rattle.wt_value.specs.declared.value.Value.TheVariants.{Null};
ghost use Rattle.wt_value.specs.Values as values;
ghost use Rattle.wt_pred.specs.Tree.{pred_tree};
ghost use Rattle.wt_schema.specs.Satisfying as schema;
ghost use Rattle.wt_plan.specs.Rows as spec;

use std::alloc::Global;
use wt_pred::Pred;
use wt_schema::Database;
use wt_value::{Cols, Row, Rows, Truth, Value, WantOfMemory, matches, matches_at};

/// The rows of a table.
pub(crate) fn table_rows(alloc: Global, base: &Database, number: u32) -> Result<Rows, WantOfMemory>
    ensures { IfOk result (λ rows. rows ≡ schema.rows_of base.now.tables number) }
{
    match base.tables.as_slice().get(number as usize) {
        Some(rows) => rows.clone(),
        None => Ok(Rows::new(alloc)),
    }
}

/// The value at a place, NULL past the row's end.
fn value_at(row: &Row, place: u32) -> Result<Value, WantOfMemory>
    ensures { IfOk result (λ value. value ≡ values.value_at row.now place) }
{
    match row.as_slice().get(place as usize) {
        Some(value) => value.clone(),
        None => Ok(Value::Null),
    }
}

/// The values at some places.
fn pick(alloc: Global, row: &Row, cols: &Cols) -> Result<Row, WantOfMemory>
    ensures { IfOk result (λ picked. picked ≡ values.pick cols.now row.now) }
{
    let mut picked = Row::new(alloc);
    for place in cols.as_slice() {
        picked.push(value_at(row, *place)?)?;
    }
    Ok(picked)
}

/// The columns of a list, row by row.
pub(crate) fn project(alloc: Global, cols: &Cols, rows: &Rows) -> Result<Rows, WantOfMemory>
    ensures { IfOk result (λ picked. picked ≡ map (values.pick cols.now) rows.now) }
{
    let mut picked = Rows::new(alloc);
    for row in rows.as_slice() {
        picked.push(pick(alloc, row, cols)?)?;
    }
    Ok(picked)
}

/// Whether the predicate is True on the values at the places.
fn passes(alloc: Global, pred: &Pred, cols: &Cols, row: &Row) -> Result<bool, WantOfMemory>
    ensures { IfOk result (λ yes. yes ≡ spec.passes (pred_tree pred.now) cols.now row.now) }
{
    let picked = pick(alloc, row, cols)?;
    Ok(matches!(pred.eval(&picked), Truth::True))
}

/// The rows on which the predicate is True.
pub(crate) fn keep_true(
    alloc: Global,
    pred: &Pred,
    cols: &Cols,
    rows: Rows,
) -> Result<Rows, WantOfMemory>
    ensures { IfOk result (λ kept. kept ≡ filter (spec.passes (pred_tree pred.now) cols.now) rows) }
{
    let mut kept = Rows::new(alloc);
    for row in rows.into_vec() {
        if passes(alloc, pred, cols, &row)? {
            kept.push(row)?;
        }
    }
    Ok(kept)
}

/// Whether some row matches these values.
fn is_matched(wanted: &Row, rows: &Rows) -> bool
    ensures { result ≡ spec.is_matched wanted.now rows.now }
{
    rows.as_slice().iter().any(|row| matches(wanted, row))
}

/// The rows whose values some right row matches.
pub(crate) fn keep_matched(
    alloc: Global,
    cols: &Cols,
    rows: Rows,
    rights: &Rows,
) -> Result<Rows, WantOfMemory>
    ensures { IfOk result (λ kept. kept ≡ filter (λ left. spec.is_matched (values.pick cols.now left) rights.now) rows) }
{
    let mut kept = Rows::new(alloc);
    for row in rows.into_vec() {
        if is_matched(&pick(alloc, &row, cols)?, rights) {
            kept.push(row)?;
        }
    }
    Ok(kept)
}

/// Adds the values of a row to the end of another.
fn push_values(row: &mut Row, more: &Row) -> Result<(), WantOfMemory>
    ensures { OnOk result (row.new ≡ row.old ++ more.now) }
{
    for value in more.as_slice() {
        row.push(value.clone()?)?;
    }
    Ok(())
}

/// A left row and another, put together.
fn together(alloc: Global, left: &Row, right: &Row) -> Result<Row, WantOfMemory>
    ensures { IfOk result (λ both. both ≡ left.now ++ right.now) }
{
    let mut both = Row::new(alloc);
    push_values(&mut both, left)?;
    push_values(&mut both, right)?;
    Ok(both)
}

/// A left row with each right row that it matches.
fn joined(
    alloc: Global,
    a: &Cols,
    b: &Cols,
    left: &Row,
    rights: &Rows,
) -> Result<Rows, WantOfMemory>
    ensures { IfOk result (λ rows. rows ≡ spec.joined a.now b.now left.now rights.now) }
{
    let mut rows = Rows::new(alloc);
    for right in rights.as_slice() {
        if matches_at(left, a.as_slice(), right, b.as_slice()) {
            rows.push(together(alloc, left, right)?)?;
        }
    }
    Ok(rows)
}

/// The joined rows of a left row; where there are none, the row with these values.
fn or_nulls(alloc: Global, left: &Row, nulls: &Row, mut rows: Rows) -> Result<Rows, WantOfMemory>
    ensures { IfOk result (λ padded. padded ≡ spec.or_nulls (left.now ++ nulls.now) rows) }
{
    if rows.is_empty() {
        rows.push(together(alloc, left, nulls)?)?;
    }
    Ok(rows)
}

/// Adds rows to the end of others.
fn push_rows(rows: &mut Rows, more: Rows) -> Result<(), WantOfMemory>
    ensures { OnOk result (rows.new ≡ rows.old ++ more) }
{
    for row in more.into_vec() {
        rows.push(row)?;
    }
    Ok(())
}

/// Each left row with each right row that it matches.
pub(crate) fn inner_join(
    alloc: Global,
    a: &Cols,
    b: &Cols,
    lefts: &Rows,
    rights: &Rows,
) -> Result<Rows, WantOfMemory>
    ensures { IfOk result (λ rows. rows ≡ flat_map (λ left. spec.joined a.now b.now left rights.now) lefts.now) }
{
    let mut rows = Rows::new(alloc);
    for left in lefts.as_slice() {
        push_rows(&mut rows, joined(alloc, a, b, left, rights)?)?;
    }
    Ok(rows)
}

/// The same, and a left row that matches none with these values behind it.
pub(crate) fn left_join(
    alloc: Global,
    a: &Cols,
    b: &Cols,
    lefts: &Rows,
    rights: &Rows,
    nulls: &Row,
) -> Result<Rows, WantOfMemory>
    ensures { IfOk result (λ rows. rows ≡ flat_map (λ left. spec.or_nulls (left ++ nulls.now) (spec.joined a.now b.now left rights.now)) lefts.now) }
{
    let mut rows = Rows::new(alloc);
    for left in lefts.as_slice() {
        let matched = joined(alloc, a, b, left, rights)?;
        push_rows(&mut rows, or_nulls(alloc, left, nulls, matched)?)?;
    }
    Ok(rows)
}
