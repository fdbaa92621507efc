//! The table node that columns come from.
ghost use Rattle.std.specs.Prelude.{◌≡◌, ◌-◌, nat_le, map, IfOk};
ghost use Rattle.std.specs.List.{list_all};
ghost use Rattle.wt_plan.specs.Tree.{plan_tree};
ghost use Rattle.wt_plan.specs.Measures as measures;
ghost use Rattle.wt_plan_widths.specs.Widths.{IsWidth};
ghost use Rattle.wt_known.specs.Sets as sets;
ghost use Rattle.wt_known.specs.Facts as facts;
ghost use Rattle.wt_props.specs.Origins.{origin_of};

use std::alloc::Global;
use wt_plan::Plan;
use wt_plan_widths::{behind, has_column, operand_widths, wide};
use wt_unique::{all_below, listed_at};
use wt_value::{Cols, WantOfMemory};

/// Columns of one table node.
#[derive(Drop)]
pub struct Origin {
    pub table: u32,
    pub columns: Cols,
}

fn all_left(left: &Plan, width: u64, mut cols: &[u32]) -> bool
    requires { IsWidth width (measures.width (plan_tree left.now)) }
    ensures { result ≡ sets.all_below (measures.width (plan_tree left.now)) cols.entry.now }
{
    'cols: while let [column, others @ ..] = cols {
        if !has_column(left, width, *column) {
            return false;
        }
        cols = others;
    }
    true
}

fn is_right(left: &Plan, width: u64, column: u32) -> bool
    requires { IsWidth width (measures.width (plan_tree left.now)) }
    ensures { result ≡ nat_le (measures.width (plan_tree left.now)) column }
{
    !has_column(left, width, column)
}

fn all_right(left: &Plan, width: u64, mut cols: &[u32]) -> bool
    requires { IsWidth width (measures.width (plan_tree left.now)) }
    ensures { result ≡ list_all (λ c. nat_le (measures.width (plan_tree left.now)) c) cols.entry.now }
{
    'cols: while let [column, others @ ..] = cols {
        if !is_right(left, width, *column) {
            return false;
        }
        cols = others;
    }
    true
}

fn all_behind(alloc: Global, left: &Plan, width: u64, cols: &[u32]) -> Result<Cols, WantOfMemory>
    requires { IsWidth width (measures.width (plan_tree left.now)) }
    ensures { IfOk result (λ r. r ≡ map (λ c. c - measures.width (plan_tree left.now)) cols.now) }
{
    let mut out = Cols::new(alloc);
    for column in cols {
        out.push(behind(left, width, *column))?;
    }
    Ok(out)
}

fn in_table(
    alloc: Global,
    table: u32,
    width: u32,
    cols: &[u32],
) -> Result<Option<Origin>, WantOfMemory>
    ensures { IfOk result (λ o. origin_of o ≡ facts.origin_if (sets.all_below width cols.now) (facts.from_table table cols.now)) }
{
    if !all_below(width as u64, cols) {
        return Ok(None);
    }
    Ok(Some(Origin {
        table,
        columns: Cols::from_vec(Vec::from_slice(alloc, cols)?),
    }))
}

/// The columns of one table node from which these columns of a plan, which is so wide, come.
pub fn find_origin(
    alloc: Global,
    plan: &Plan,
    width: u64,
    cols: &[u32],
) -> Result<Option<Origin>, WantOfMemory>
    requires { IsWidth width (measures.width (plan_tree plan.now)) }
    ensures { IfOk result (λ o. origin_of o ≡ facts.origin (plan_tree plan.now) cols.now) }
{
    match plan {
        Plan::Table(table, width) => in_table(alloc, *table, *width, cols),
        Plan::Proj(list, plan) => {
            if !all_below(list.len() as u64, cols) {
                return Ok(None);
            }
            let cols = listed_at(alloc, list.as_slice(), cols)?;
            find_origin(alloc, plan, wide(plan), cols.as_slice())
        }
        Plan::Filter(_, _, plan) | Plan::InSub(_, plan, _) | Plan::Dedup(plan) => {
            find_origin(alloc, plan, width, cols)
        }
        Plan::InnerJoin(_, _, left, right) | Plan::LeftJoin(_, _, left, right) => {
            let (left, right): (&Plan, &Plan) = (left, right);
            let (left_width, right_width) = operand_widths(width, left, right);
            if all_left(left, left_width, cols) {
                return find_origin(alloc, left, left_width, cols);
            }
            if !all_right(left, left_width, cols) {
                return Ok(None);
            }
            let cols = all_behind(alloc, left, left_width, cols)?;
            find_origin(alloc, right, right_width, cols.as_slice())
        }
    }
}

/// The same of a target, which has to keep every row of that table.
pub fn find_kept(
    alloc: Global,
    plan: &Plan,
    width: u64,
    cols: &[u32],
) -> Result<Option<Origin>, WantOfMemory>
    requires { IsWidth width (measures.width (plan_tree plan.now)) }
    ensures { IfOk result (λ o. origin_of o ≡ facts.kept (plan_tree plan.now) cols.now) }
{
    match plan {
        Plan::Table(table, width) => in_table(alloc, *table, *width, cols),
        Plan::Proj(list, plan) => {
            if !all_below(list.len() as u64, cols) {
                return Ok(None);
            }
            let cols = listed_at(alloc, list.as_slice(), cols)?;
            find_kept(alloc, plan, wide(plan), cols.as_slice())
        }
        Plan::LeftJoin(_, _, left, right) => {
            let (left_width, _) = operand_widths(width, left, right);
            if !all_left(left, left_width, cols) {
                return Ok(None);
            }
            find_kept(alloc, left, left_width, cols)
        }
        Plan::Dedup(plan) => find_kept(alloc, plan, width, cols),
        Plan::Filter(_, _, _) | Plan::InnerJoin(_, _, _, _) | Plan::InSub(_, _, _) => Ok(None),
    }
}
