//! The kinds of a plan's columns, each looked up by itself.
ghost use Rattle.std.specs.Prelude.{◌≡◌, slice_get};
ghost use Rattle.wt_plan.specs.Regular.{column_kinds, plan_kinds};
ghost use Rattle.wt_draft.specs.Roots.{any_tree};
ghost use Rattle.wt_regularity.specs.Kinds as spec;

use wt_draft::{AnyPlan, Root};
use wt_schema::{ColKind, Column, Table};

/// Whether two kinds are one.
pub fn same_kind(a: ColKind, b: ColKind) -> bool
    ensures { result ≡ spec.kind_same a b }
{
    match a {
        ColKind::Int => match b {
            ColKind::Int => true,
            ColKind::Text => false,
        },
        ColKind::Text => match b {
            ColKind::Int => false,
            ColKind::Text => true,
        },
    }
}

fn kind_among(columns: &[Column], place: usize) -> Result<ColKind, usize>
    ensures { spec.Finds (column_kinds columns.now) place result }
{
    match columns.get(place) {
        Some(column) => Ok(column.kind),
        None => Err(columns.len()),
    }
}

fn table_kind(tables: &[Table], number: u32, place: usize) -> Result<ColKind, usize>
    ensures { spec.Finds (spec.kinds_of (slice_get tables.now number)) place result }
{
    match tables.get(number as usize) {
        Some(table) => kind_among(table.columns.as_slice(), place),
        None => Err(0),
    }
}

/// The kind of the column at a place; where the plan has no such column, how many it has.
pub fn kind_of(tables: &[Table], plan: AnyPlan, place: usize) -> Result<ColKind, usize>
    ensures { spec.Finds (plan_kinds tables.now (any_tree plan.entry)) place result }
{
    match plan.root() {
        Root::Table(number, _) => table_kind(tables, number, place),
        Root::Proj(cols, p) => match cols.as_slice().get(place) {
            Some(inner) => Ok(kind_or_int(kind_of(tables, p, *inner as usize))),
            None => Err(cols.len()),
        },
        Root::Filter(_, _, p) | Root::InSub(_, p, _) | Root::Dedup(p) => kind_of(tables, p, place),
        Root::InnerJoin(_, _, left, right) | Root::LeftJoin(_, _, left, right) => {
            match kind_of(tables, left, place) {
                Ok(kind) => Ok(kind),
                Err(width) => wider(width, kind_of(tables, right, place - width)),
            }
        }
    }
}

/// The kind that was found, and Int where there is no such column.
pub fn kind_or_int(found: Result<ColKind, usize>) -> ColKind
    ensures { result ≡ spec.kind_or_int found }
{
    match found {
        Ok(kind) => kind,
        Err(_) => ColKind::Int,
    }
}

// What was found in a join's right operand, for the join.
fn wider(width: usize, found: Result<ColKind, usize>) -> Result<ColKind, usize>
    requires { spec.HasRoom width found }
    ensures { result ≡ spec.wider width found }
{
    match found {
        Ok(kind) => Ok(kind),
        Err(more) => Err(width + more),
    }
}
