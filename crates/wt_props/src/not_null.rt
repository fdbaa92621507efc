//! Columns without NULL.
ghost use Rattle.std.specs.Prelude.{◌≡◌};
ghost use Rattle.std.specs.List.{list_all};
ghost use Rattle.wt_plan.specs.Tree.{plan_tree};
ghost use Rattle.wt_plan.specs.Measures as measures;
ghost use Rattle.wt_plan_widths.specs.Widths.{IsWidth};
ghost use Rattle.wt_known.specs.Facts as facts;
ghost use Rattle.wt_props.specs.Tables as spec;

use crate::rejecting::rejects;
use wt_plan::Plan;
use wt_plan_widths::{behind, has_column, operand_widths, wide};
use wt_schema::{Column, Key, Table};
use wt_unique::is_in;

fn is_declared(columns: &[Column], column: u32) -> bool
    ensures { result ≡ spec.declared_at columns.now column }
{
    match columns.get(column as usize) {
        Some(column) => column.not_null,
        None => false,
    }
}

fn is_in_primary(keys: &[Key], column: u32) -> bool
    ensures { result ≡ spec.in_primary keys.now column }
{
    keys.iter().any(|key| key.primary && is_in(column as u64, key.columns.as_slice()))
}

fn is_without_null(tables: &[Table], number: u32, column: u32) -> bool
    ensures { result ≡ spec.without_null tables.now number column }
{
    match tables.get(number as usize) {
        Some(table) => {
            is_declared(table.columns.as_slice(), column)
                || is_in_primary(table.keys.as_slice(), column)
        }
        None => false,
    }
}

/// Whether no row of a plan, which is so wide, is known to have a NULL at the column.
fn is_not_null(tables: &[Table], plan: &Plan, width: u64, column: u32) -> bool
    requires { IsWidth width (measures.width (plan_tree plan.now)) }
    ensures { result ≡ facts.not_null tables.now (plan_tree plan.now) column }
{
    match plan {
        Plan::Table(number, _) => is_without_null(tables, *number, column),
        Plan::Proj(cols, plan) => match cols.as_slice().get(column as usize) {
            Some(inner) => is_not_null(tables, plan, wide(plan), *inner),
            None => false,
        },
        Plan::Filter(pred, cols, plan) => {
            is_not_null(tables, plan, width, column) || rejects(pred, cols.as_slice(), column)
        }
        Plan::InnerJoin(a, b, left, right) => {
            let (left_width, right_width) = operand_widths(width, left, right);
            if has_column(left, left_width, column) {
                is_not_null(tables, left, left_width, column) || is_in(column as u64, a.as_slice())
            } else {
                let column = behind(left, left_width, column);
                is_not_null(tables, right, right_width, column)
                    || is_in(column as u64, b.as_slice())
            }
        }
        Plan::LeftJoin(_, _, left, right) => {
            let (left_width, _) = operand_widths(width, left, right);
            has_column(left, left_width, column) && is_not_null(tables, left, left_width, column)
        }
        Plan::InSub(cols, left, _) => {
            is_not_null(tables, left, width, column) || is_in(column as u64, cols.as_slice())
        }
        Plan::Dedup(plan) => is_not_null(tables, plan, width, column),
    }
}

/// Whether no row of the plan is known to have a NULL at any of these columns, over a schema of these tables.
pub fn are_not_null(tables: &[Table], plan: &Plan, mut cols: &[u32]) -> bool
    ensures { result ≡ list_all (facts.not_null tables.now (plan_tree plan.now)) cols.entry.now }
{
    let width = wide(plan);
    'cols: while let [column, others @ ..] = cols {
        if !is_not_null(tables, plan, width, *column) {
            return false;
        }
        cols = others;
    }
    true
}
