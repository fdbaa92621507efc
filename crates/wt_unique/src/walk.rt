//! The walk over the plan.
ghost use Rattle.std.specs.Prelude.{◌≡◌, map, IfOk};
ghost use Rattle.wt_plan.specs.Tree.{plan_tree};
ghost use Rattle.wt_known.specs.Facts.{unique};
ghost use Rattle.wt_unique.specs.Answering as spec;

use crate::answers::{of_dedup, of_join, of_proj};
use crate::joining::{inner_lefts, inner_rights, left_lefts, left_rights};
use crate::sets::{keyed, listed};
use crate::{Answers, Sets};
use std::alloc::Global;
use wt_plan::Plan;
use wt_plan_widths::wide;
use wt_schema::Table;
use wt_value::{Cols, WantOfMemory};

/// For each set whether no two rows of the plan are known to match at its columns. A join asks its operands its own lists besides
/// what the sets ask, so that a node has at most one set more than its depth for each set at the root.
fn uniques(
    alloc: Global,
    tables: &[Table],
    plan: &Plan,
    sets: &Sets,
) -> Result<Answers, WantOfMemory>
    ensures { IfOk result (λ r. r ≡ map (unique tables.now (plan_tree plan.now)) sets.now) }
{
    match plan {
        Plan::Table(number, _) => keyed(alloc, tables, *number, sets),
        Plan::Proj(list, plan) => {
            let inner = uniques(alloc, tables, plan, &listed(alloc, list.as_slice(), sets)?)?;
            of_proj(alloc, list.as_slice(), sets.as_slice(), inner.as_slice())
        }
        Plan::Filter(_, _, plan) | Plan::InSub(_, plan, _) => uniques(alloc, tables, plan, sets),
        Plan::InnerJoin(a, b, left, right) => {
            let left: &Plan = left;
            let width = wide(left);
            let lefts = uniques(
                alloc,
                tables,
                left,
                &inner_lefts(alloc, left, width, a, b, sets)?,
            )?;
            let rights = uniques(
                alloc,
                tables,
                right,
                &inner_rights(alloc, left, width, a, b, sets)?,
            )?;
            of_join(alloc, lefts.as_slice(), rights.as_slice())
        }
        Plan::LeftJoin(a, b, left, right) => {
            let left: &Plan = left;
            let width = wide(left);
            let lefts = uniques(
                alloc,
                tables,
                left,
                &left_lefts(alloc, left, width, a, sets)?,
            )?;
            let rights = uniques(
                alloc,
                tables,
                right,
                &left_rights(alloc, left, width, b, sets)?,
            )?;
            of_join(alloc, lefts.as_slice(), rights.as_slice())
        }
        Plan::Dedup(plan) => {
            let plan: &Plan = plan;
            let inner = uniques(alloc, tables, plan, sets)?;
            of_dedup(alloc, plan, wide(plan), sets.as_slice(), inner.as_slice())
        }
    }
}

/// Whether no two rows of the plan are known to match at these columns, over a schema of these tables.
pub fn is_unique(
    alloc: Global,
    tables: &[Table],
    plan: &Plan,
    cols: &Cols,
) -> Result<bool, WantOfMemory>
    ensures exact { IfOk result (λ yes. yes ≡ unique tables.now (plan_tree plan.now) cols.now) }
{
    let mut sets = Sets::new(alloc);
    sets.push(cols.clone()?)?;
    let answers = uniques(alloc, tables, plan, &sets)?;
    Ok(first(answers.as_slice()))
}

fn first(answers: &[bool]) -> bool
    ensures { result ≡ spec.first answers.now }
{
    match answers {
        [answer, ..] => *answer,
        [] => false,
    }
}
