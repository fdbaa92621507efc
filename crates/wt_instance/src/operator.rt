//! The operators on rows with names.
ghost use Rattle.std.specs.Prelude.{◌≡◌, ◌==◌, [], ◌∷◌, ◌++◌, map, filter, flat_map, IfOk, OnOk, if◌then◌else◌};
ghost use Rattle.std.specs.List.{list_any};
ghost use Rattle.wt_bag.specs.Bags.{count_of, distinct};
ghost use Rattle.wt_value.specs.Values.{row_matches};
ghost use Rattle.wt_symbol.specs.Heads as heads;
ghost use Rattle.wt_instance.specs.Instances as instances;
ghost use Rattle.wt_instance.specs.Rows as spec;

use crate::instance::{Instance, anchor};
use crate::named::{
    Columns, NamedRow, NamedRows, cells_at, named, together, values_at, with_nulls,
};
use std::alloc::{AllocError, Global};
use wt_symbol::Anchors;
use wt_value::{Row, Rows, matches};

/// The values of a list symbol in a row.
fn list_values(
    alloc: Global,
    anchors: &Anchors,
    instance: &Instance,
    list: u8,
    row: &NamedRow,
) -> Result<Row, AllocError>
    ensures { IfOk result (λ picked. picked ≡ spec.values_at anchors.now instance.now list row.now) }
{
    values_at(alloc, row, anchor(anchors, list), instance.numbers(list))
}

/// The values of a list symbol in a row, under their names.
fn list_cells(
    alloc: Global,
    anchors: &Anchors,
    instance: &Instance,
    list: u8,
    row: &NamedRow,
) -> Result<NamedRow, AllocError>
    ensures { IfOk result (λ picked. picked ≡ spec.cells_at anchors.now instance.now list row.now) }
{
    cells_at(alloc, row, anchor(anchors, list), instance.numbers(list))
}

/// The rows of a leaf.
pub(crate) fn leaf_rows(
    alloc: Global,
    instance: &Instance,
    leaf: u8,
) -> Result<NamedRows, AllocError>
    ensures { IfOk result (λ rows. rows ≡ map (spec.named leaf 0) (instances.table instance.now leaf)) }
{
    let mut rows = NamedRows::new(alloc);
    for row in instance.table(leaf) {
        rows.push(named(alloc, leaf, row)?)?;
    }
    Ok(rows)
}

/// The columns of a list, row by row.
pub(crate) fn project(
    alloc: Global,
    anchors: &Anchors,
    instance: &Instance,
    list: u8,
    rows: &NamedRows,
) -> Result<NamedRows, AllocError>
    ensures { IfOk result (λ picked. picked ≡ map (spec.cells_at anchors.now instance.now list) rows.now) }
{
    let mut picked = NamedRows::new(alloc);
    for row in rows.as_slice() {
        picked.push(list_cells(alloc, anchors, instance, list, row)?)?;
    }
    Ok(picked)
}

/// The rows on whose values the predicate is True.
pub(crate) fn keep_true(
    alloc: Global,
    anchors: &Anchors,
    instance: &Instance,
    pred: u8,
    list: u8,
    rows: NamedRows,
) -> Result<NamedRows, AllocError>
    ensures { IfOk result (λ kept. kept ≡ filter (λ row. instances.is_true instance.now pred (spec.values_at anchors.now instance.now list row)) rows) }
{
    let mut kept = NamedRows::new(alloc);
    for row in rows.into_vec() {
        if instance.is_true(pred, &list_values(alloc, anchors, instance, list, &row)?) {
            kept.push(row)?;
        }
    }
    Ok(kept)
}

/// Whether some row matches these values.
fn is_matched(wanted: &Row, rows: &Rows) -> bool
    ensures { result ≡ list_any (λ row. row_matches wanted.now row) rows.now }
{
    rows.as_slice().iter().any(|row| matches(wanted, row))
}

/// The rows whose values some right row matches.
pub(crate) fn keep_matched(
    alloc: Global,
    anchors: &Anchors,
    instance: &Instance,
    list: u8,
    rows: NamedRows,
    rights: &Rows,
) -> Result<NamedRows, AllocError>
    ensures { IfOk result (λ kept. kept ≡ filter (λ left. list_any (λ right. row_matches (spec.values_at anchors.now instance.now list left) right) rights.now) rows) }
{
    let mut kept = NamedRows::new(alloc);
    for row in rows.into_vec() {
        if is_matched(&list_values(alloc, anchors, instance, list, &row)?, rights) {
            kept.push(row)?;
        }
    }
    Ok(kept)
}

/// A left row with each right row that it matches.
fn joined(
    alloc: Global,
    anchors: &Anchors,
    instance: &Instance,
    lists: (u8, u8),
    left: &NamedRow,
    rights: &NamedRows,
) -> Result<NamedRows, AllocError>
    ensures { IfOk result (λ rows. rows ≡ spec.joined anchors.now instance.now lists.0 lists.1 left.now rights.now) }
{
    let wanted = list_values(alloc, anchors, instance, lists.0, left)?;
    let mut rows = NamedRows::new(alloc);
    for right in rights.as_slice() {
        if matches(
            &wanted,
            &list_values(alloc, anchors, instance, lists.1, right)?,
        ) {
            rows.push(together(alloc, left, right)?)?;
        }
    }
    Ok(rows)
}

/// The joined rows of a left row; where there are none, the row with NULLs.
fn or_nulls(
    alloc: Global,
    left: &NamedRow,
    columns: &Columns,
    mut rows: NamedRows,
) -> Result<NamedRows, AllocError>
    ensures { IfOk result (λ padded. padded ≡ spec.or_nulls left.now columns.now rows) }
{
    if rows.is_empty() {
        rows.push(with_nulls(alloc, left, columns)?)?;
    }
    Ok(rows)
}

/// Adds rows to the end of others.
fn push_rows(rows: &mut NamedRows, more: NamedRows) -> Result<(), AllocError>
    ensures { OnOk result (rows.new ≡ rows.old ++ more) }
{
    for row in more.into_vec() {
        rows.push(row)?;
    }
    Ok(())
}

/// Each left row with each right row that it matches.
pub(crate) fn inner_join(
    alloc: Global,
    anchors: &Anchors,
    instance: &Instance,
    lists: (u8, u8),
    lefts: &NamedRows,
    rights: &NamedRows,
) -> Result<NamedRows, AllocError>
    ensures { IfOk result (λ rows. rows ≡ flat_map (λ left. spec.joined anchors.now instance.now lists.0 lists.1 left rights.now) lefts.now) }
{
    let mut rows = NamedRows::new(alloc);
    for left in lefts.as_slice() {
        push_rows(
            &mut rows,
            joined(alloc, anchors, instance, lists, left, rights)?,
        )?;
    }
    Ok(rows)
}

/// The same, and a left row that matches none with NULLs.
pub(crate) fn left_join(
    alloc: Global,
    anchors: &Anchors,
    instance: &Instance,
    lists: (u8, u8),
    lefts: &NamedRows,
    rights: &NamedRows,
    columns: &Columns,
) -> Result<NamedRows, AllocError>
    ensures { IfOk result (λ rows. rows ≡ flat_map (λ left. spec.or_nulls left columns.now (spec.joined anchors.now instance.now lists.0 lists.1 left rights.now)) lefts.now) }
{
    let mut rows = NamedRows::new(alloc);
    for left in lefts.as_slice() {
        let matched = joined(alloc, anchors, instance, lists, left, rights)?;
        push_rows(&mut rows, or_nulls(alloc, left, columns, matched)?)?;
    }
    Ok(rows)
}

/// Whether both rows have the same names and values, NULL being the same as NULL.
fn same_named(a: &NamedRow, b: &NamedRow) -> bool
    ensures { result ≡ spec.named_same a.now b.now }
{
    a == b
}

/// How often a row occurs among the rows.
fn occurrences(rows: &NamedRows, row: &NamedRow) -> usize
    ensures { result ≡ count_of spec.named_same rows.now row.now }
{
    rows.as_slice()
        .iter()
        .filter(|other| same_named(row, other))
        .count()
}

/// Adds the row at the end if it is not there yet.
fn keep(kept: &mut NamedRows, row: NamedRow) -> Result<(), AllocError>
    ensures { OnOk result (kept.new ≡ (if count_of spec.named_same kept.old row == 0 then kept.old ++ row ∷ [] else kept.old)) }
{
    if occurrences(kept, &row) == 0 {
        kept.push(row)?;
    }
    Ok(())
}

/// The first of each group of equal rows, in order. Each row is looked for among those kept: instances are small, and rows
/// have no order or hash.
pub(crate) fn distinct_rows(alloc: Global, rows: NamedRows) -> Result<NamedRows, AllocError>
    ensures { IfOk result (λ kept. kept ≡ distinct spec.named_same rows) }
{
    let mut kept = NamedRows::new(alloc);
    for row in rows.into_vec() {
        keep(&mut kept, row)?;
    }
    Ok(kept)
}
