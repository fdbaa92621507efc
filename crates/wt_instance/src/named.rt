//! Rows with the names of their columns.
ghost use Rattle.std.specs.Prelude.{◌≡◌, ◌++◌, map, IfOk, OnOk};
ghost use Rattle.std.specs.List.{list_any};
ghost use Rattle.wt_value.specs.Values.{row_matches};
ghost use Rattle.wt_instance.specs.Rows as spec;

use std::alloc::{AllocError, Global};
use wt_value::{Row, Rows, Seq, Value};

/// The name of a column: a leaf and a number.
#[derive(Clone, Copy, Debug, PartialEq, Eq)]
pub struct Column {
    pub leaf: u8,
    pub number: usize,
}

/// A value under the name of its column.
#[derive(Clone, Debug, PartialEq, Eq, Drop)]
pub struct Cell {
    pub column: Column,
    pub value: Value,
}

/// A row with the names of its columns.
pub(crate) type NamedRow = Seq<Cell>;

pub(crate) type NamedRows = Seq<NamedRow>;

pub(crate) type Columns = Seq<Column>;

/// The values without the names.
pub(crate) fn values_of(alloc: Global, row: &NamedRow) -> Result<Row, AllocError>
    ensures { IfOk result (λ plain. plain ≡ spec.values row.now) }
{
    let mut plain = Row::new(alloc);
    for cell in row.as_slice() {
        plain.push(cell.value.clone()?)?;
    }
    Ok(plain)
}

/// The rows without the names.
pub(crate) fn rows_without_names(alloc: Global, rows: &NamedRows) -> Result<Rows, AllocError>
    ensures { IfOk result (λ plain. plain ≡ map spec.values rows.now) }
{
    let mut plain = Rows::new(alloc);
    for row in rows.as_slice() {
        plain.push(values_of(alloc, row)?)?;
    }
    Ok(plain)
}

/// The value at the first place of the name, NULL where there is none.
fn value_at(mut row: &[Cell], leaf: u8, number: usize) -> Result<Value, AllocError>
    ensures { IfOk result (λ value. value ≡ spec.value_at row.entry.now leaf number) }
{
    'row: while let [cell, others @ ..] = row {
        if cell.column.leaf == leaf && cell.column.number == number {
            return cell.value.clone();
        }
        row = others;
    }
    Ok(Value::Null)
}

/// The values at some numbers of a leaf.
pub(crate) fn values_at(
    alloc: Global,
    row: &NamedRow,
    leaf: u8,
    numbers: &[u32],
) -> Result<Row, AllocError>
    ensures { IfOk result (λ picked. picked ≡ map (spec.value_at row.now leaf) numbers.now) }
{
    let mut picked = Row::new(alloc);
    for number in numbers {
        picked.push(value_at(row.as_slice(), leaf, *number as usize)?)?;
    }
    Ok(picked)
}

/// The values at some numbers of a leaf, under their names.
pub(crate) fn cells_at(
    alloc: Global,
    row: &NamedRow,
    leaf: u8,
    numbers: &[u32],
) -> Result<NamedRow, AllocError>
    ensures { IfOk result (λ picked. picked ≡ map (λ n. spec.cell leaf n (spec.value_at row.now leaf n)) numbers.now) }
{
    let mut picked = NamedRow::new(alloc);
    for number in numbers {
        let number = *number as usize;
        picked.push(Cell {
            column: Column { leaf, number },
            value: value_at(row.as_slice(), leaf, number)?,
        })?;
    }
    Ok(picked)
}

/// A row of a leaf with the names of its columns.
pub(crate) fn named(alloc: Global, leaf: u8, row: &Row) -> Result<NamedRow, AllocError>
    ensures { IfOk result (λ cells. cells ≡ spec.named leaf 0 row.now) }
{
    let mut cells = NamedRow::new(alloc);
    for (number, value) in row.as_slice().iter().enumerate() {
        cells.push(Cell {
            column: Column { leaf, number },
            value: value.clone()?,
        })?;
    }
    Ok(cells)
}

/// Adds the cells of a row to the end of another.
fn push_cells(row: &mut NamedRow, cells: &NamedRow) -> Result<(), AllocError>
    ensures { OnOk result (row.new ≡ row.old ++ cells.now) }
{
    for cell in cells.as_slice() {
        row.push(cell.clone()?)?;
    }
    Ok(())
}

/// Adds a NULL for each of some columns to the end of a row.
fn push_nulls(row: &mut NamedRow, columns: &Columns) -> Result<(), AllocError>
    ensures { OnOk result (row.new ≡ row.old ++ spec.nulls columns.now) }
{
    for column in columns.as_slice() {
        row.push(Cell {
            column: *column,
            value: Value::Null,
        })?;
    }
    Ok(())
}

/// A left row and a right one, put together.
pub(crate) fn together(
    alloc: Global,
    left: &NamedRow,
    right: &NamedRow,
) -> Result<NamedRow, AllocError>
    ensures { IfOk result (λ both. both ≡ left.now ++ right.now) }
{
    let mut both = NamedRow::new(alloc);
    push_cells(&mut both, left)?;
    push_cells(&mut both, right)?;
    Ok(both)
}

/// A left row with a NULL for each of some columns.
pub(crate) fn with_nulls(
    alloc: Global,
    left: &NamedRow,
    columns: &Columns,
) -> Result<NamedRow, AllocError>
    ensures { IfOk result (λ both. both ≡ left.now ++ spec.nulls columns.now) }
{
    let mut both = NamedRow::new(alloc);
    push_cells(&mut both, left)?;
    push_nulls(&mut both, columns)?;
    Ok(both)
}
