//! The rows of a plan on a database.
ghost use Rattle.std.specs.Prelude.{◌≡◌, ◌++◌, length, IfOk, OnOk};
ghost use Rattle.wt_plan.specs.Tree.{plan_tree};
ghost use Rattle.wt_plan.specs.Measures.{width};
ghost use Rattle.wt_plan.specs.Rows as spec;

use crate::operator::{inner_join, keep_matched, keep_true, left_join, project, table_rows};
use crate::plan::Plan;
use std::alloc::Global;
use wt_schema::Database;
use wt_value::{Row, Rows, Value, WantOfMemory, distinct};

/// Adds so many NULLs to the end of a row.
fn add_nulls(row: &mut Row, count: usize) -> Result<(), WantOfMemory>
    ensures { OnOk result (row.new ≡ row.old ++ spec.null_row count) }
{
    let mut done = 0;
    'nulls: while done < count {
        row.push(Value::Null)?;
        done += 1;
    }
    Ok(())
}

/// Adds a NULL for each column of the plan to the end of a row.
fn push_nulls(plan: &Plan, row: &mut Row) -> Result<(), WantOfMemory>
    ensures { OnOk result (row.new ≡ row.old ++ spec.null_row (width (plan_tree plan.now))) }
{
    match plan {
        Plan::Table(_, width) => add_nulls(row, *width as usize),
        Plan::Proj(cols, _) => add_nulls(row, cols.len()),
        Plan::Filter(_, _, plan) | Plan::InSub(_, plan, _) | Plan::Dedup(plan) => push_nulls(
            plan, row,
        ),
        Plan::InnerJoin(_, _, left, right) | Plan::LeftJoin(_, _, left, right) => {
            push_nulls(left, row)?;
            push_nulls(right, row)
        }
    }
}

/// A NULL for each column of the plan.
fn null_row(alloc: Global, plan: &Plan) -> Result<Row, WantOfMemory>
    ensures { IfOk result (λ row. row ≡ spec.null_row (width (plan_tree plan.now))) }
{
    let mut row = Row::new(alloc);
    push_nulls(plan, &mut row)?;
    Ok(row)
}

impl Plan {
    /// Its rows on the database, in order. A place past the end of a row is NULL, and a table that the
    /// database lacks has no rows.
    #[cycle(bag)]
    pub fn bag(&self, alloc: Global, base: &Database) -> Result<Rows, WantOfMemory>
        ensures exact { IfOk result (λ rows. rows ≡ spec.plan_rows base.now.tables (plan_tree self.now)) }
    {
        match self {
            Plan::Table(number, _) => table_rows(alloc, base, *number),
            Plan::Proj(cols, plan) => project(alloc, cols, &plan.bag(alloc, base)?),
            Plan::Filter(pred, cols, plan) => keep_true(alloc, pred, cols, plan.bag(alloc, base)?),
            Plan::InnerJoin(a, b, left, right) => {
                let lefts = left.bag(alloc, base)?;
                inner_join(alloc, a, b, &lefts, &right.bag(alloc, base)?)
            }
            Plan::LeftJoin(a, b, left, right) => {
                let lefts = left.bag(alloc, base)?;
                let rights = right.bag(alloc, base)?;
                left_join(alloc, a, b, &lefts, &rights, &null_row(alloc, right)?)
            }
            Plan::InSub(cols, left, right) => {
                let lefts = left.bag(alloc, base)?;
                keep_matched(alloc, cols, lefts, &right.bag(alloc, base)?)
            }
            Plan::Dedup(plan) => distinct(alloc, &plan.bag(alloc, base)?),
        }
    }
}
