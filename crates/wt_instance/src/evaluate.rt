//! The rows of a side on an instance.
ghost use Rattle.std.specs.Prelude.{◌≡◌, ◌++◌, map, IfOk, OnOk};
ghost use Rattle.wt_symbol.specs.Sides.{tree_of};
ghost use Rattle.wt_instance.specs.Rows as spec;

use crate::instance::{Instance, anchor};
use crate::named::{Column, Columns, NamedRows, rows_without_names};
use crate::operator::{
    distinct_rows, inner_join, keep_matched, keep_true, leaf_rows, left_join, project,
};
use std::alloc::{AllocError, Global};
use wt_symbol::{Anchors, Side};
use wt_value::Rows;

/// Adds the columns of a leaf to the end of a list.
fn push_leaf_columns(columns: &mut Columns, leaf: u8, width: u32) -> Result<(), AllocError>
    ensures { OnOk result (columns.new ≡ columns.old ++ spec.leaf_columns leaf 0 width) }
{
    for number in 0..width as usize {
        columns.push(Column { leaf, number })?;
    }
    Ok(())
}

/// Adds the columns of a list to the end of a list.
fn push_list_columns(columns: &mut Columns, leaf: u8, numbers: &[u32]) -> Result<(), AllocError>
    ensures { OnOk result (columns.new ≡ columns.old ++ map (spec.column leaf) numbers.now) }
{
    for number in numbers {
        columns.push(Column {
            leaf,
            number: *number as usize,
        })?;
    }
    Ok(())
}

/// Adds the columns of a side's rows to the end of a list.
fn push_columns(
    side: &Side,
    anchors: &Anchors,
    instance: &Instance,
    columns: &mut Columns,
) -> Result<(), AllocError>
    ensures { OnOk result (columns.new ≡ columns.old ++ spec.columns_of (tree_of side.now) anchors.now instance.now) }
{
    match side {
        Side::Input(r) => push_leaf_columns(columns, *r, instance.width(*r)),
        Side::Proj(a, _) => push_list_columns(columns, anchor(anchors, *a), instance.numbers(*a)),
        Side::Filter(_, _, s) | Side::InSub(_, s, _) | Side::Dedup(s) => push_columns(
            s, anchors, instance, columns,
        ),
        Side::InnerJoin(_, _, s, t) | Side::LeftJoin(_, _, s, t) => {
            push_columns(s, anchors, instance, columns)?;
            push_columns(t, anchors, instance, columns)
        }
    }
}

/// The columns of a side's rows.
fn columns_of(
    alloc: Global,
    side: &Side,
    anchors: &Anchors,
    instance: &Instance,
) -> Result<Columns, AllocError>
    ensures { IfOk result (λ columns. columns ≡ spec.columns_of (tree_of side.now) anchors.now instance.now) }
{
    let mut columns = Columns::new(alloc);
    push_columns(side, anchors, instance, &mut columns)?;
    Ok(columns)
}

/// The rows of a side with the names of their columns.
fn named_rows(
    alloc: Global,
    side: &Side,
    anchors: &Anchors,
    instance: &Instance,
) -> Result<NamedRows, AllocError>
    ensures { IfOk result (λ rows. rows ≡ spec.named_rows (tree_of side.now) anchors.now instance.now) }
{
    match side {
        Side::Input(r) => leaf_rows(alloc, instance, *r),
        Side::Proj(a, s) => {
            let rows = named_rows(alloc, s, anchors, instance)?;
            project(alloc, anchors, instance, *a, &rows)
        }
        Side::Filter(p, a, s) => {
            let rows = named_rows(alloc, s, anchors, instance)?;
            keep_true(alloc, anchors, instance, *p, *a, rows)
        }
        Side::InnerJoin(a, b, s, t) => {
            let lefts = named_rows(alloc, s, anchors, instance)?;
            let rights = named_rows(alloc, t, anchors, instance)?;
            inner_join(alloc, anchors, instance, (*a, *b), &lefts, &rights)
        }
        Side::LeftJoin(a, b, s, t) => {
            let lefts = named_rows(alloc, s, anchors, instance)?;
            let rights = named_rows(alloc, t, anchors, instance)?;
            let columns = columns_of(alloc, t, anchors, instance)?;
            left_join(
                alloc,
                anchors,
                instance,
                (*a, *b),
                &lefts,
                &rights,
                &columns,
            )
        }
        Side::InSub(a, s, t) => {
            let lefts = named_rows(alloc, s, anchors, instance)?;
            let rights = named_rows(alloc, t, anchors, instance)?;
            let rights = rows_without_names(alloc, &rights)?;
            keep_matched(alloc, anchors, instance, *a, lefts, &rights)
        }
        Side::Dedup(s) => {
            let rows = named_rows(alloc, s, anchors, instance)?;
            distinct_rows(alloc, rows)
        }
    }
}

/// The rows of a side on an instance, in order.
///
/// A value under a list symbol is the one at the first column of that name: the list's anchor and a
/// number. Where there is none it is NULL.
pub fn bag(
    alloc: Global,
    side: &Side,
    anchors: &Anchors,
    instance: &Instance,
) -> Result<Rows, AllocError>
    ensures exact { IfOk result (λ rows. rows ≡ spec.rows_of (tree_of side.now) anchors.now instance.now) }
{
    let rows = named_rows(alloc, side, anchors, instance)?;
    rows_without_names(alloc, &rows)
}
