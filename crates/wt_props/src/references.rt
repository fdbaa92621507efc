//! Columns that refer to a target.
ghost use Rattle.std.specs.Prelude.{◌≡◌, IfOk};
ghost use Rattle.wt_plan.specs.Tree.{plan_tree};
ghost use Rattle.wt_known.specs.Sets as sets;
ghost use Rattle.wt_known.specs.Facts as facts;
ghost use Rattle.wt_props.specs.Origins.{origin_of};
ghost use Rattle.wt_props.specs.Referring as spec;

use crate::origins::{Origin, find_kept, find_origin};
use std::alloc::Global;
use wt_plan::Plan;
use wt_plan_widths::wide;
use wt_schema::{Reference, Table};
use wt_value::WantOfMemory;

fn all_alike(mut xs: &[u32], mut ys: &[u32]) -> bool
    ensures { result ≡ sets.all_alike xs.entry.now ys.entry.now }
{
    'xs: while let [x, more_xs @ ..] = xs {
        let [y, more_ys @ ..] = ys else {
            return true;
        };
        if x != y {
            return false;
        }
        xs = more_xs;
        ys = more_ys;
    }
    true
}

fn has_pair(x: u32, y: u32, mut xs: &[u32], mut ys: &[u32]) -> bool
    ensures { result ≡ sets.has_pair x y xs.entry.now ys.entry.now }
{
    'xs: while let [a, more_xs @ ..] = xs {
        let [b, more_ys @ ..] = ys else {
            return false;
        };
        if x == *a && y == *b {
            return true;
        }
        xs = more_xs;
        ys = more_ys;
    }
    false
}

fn pairs_within(mut xs: &[u32], mut ys: &[u32], others: &[u32], targets: &[u32]) -> bool
    ensures { result ≡ sets.pairs_within xs.entry.now ys.entry.now others.now targets.now }
{
    'xs: while let [x, more_xs @ ..] = xs {
        let [y, more_ys @ ..] = ys else {
            return true;
        };
        if !has_pair(*x, *y, others, targets) {
            return false;
        }
        xs = more_xs;
        ys = more_ys;
    }
    true
}

fn is_by(reference: &Reference, table: u32, xs: &[u32], ys: &[u32]) -> bool
    ensures { result ≡ spec.is_by reference.now table xs.now ys.now }
{
    let (columns, target) = (reference.columns.as_slice(), reference.target.as_slice());
    reference.table == table
        && pairs_within(xs, ys, columns, target)
        && pairs_within(columns, target, xs, ys)
}

fn has_reference(tables: &[Table], number: u32, table: u32, xs: &[u32], ys: &[u32]) -> bool
    ensures { result ≡ spec.has_reference tables.now number table xs.now ys.now }
{
    match tables.get(number as usize) {
        Some(found) => found
            .references
            .as_slice()
            .iter()
            .any(|reference| is_by(reference, table, xs, ys)),
        None => false,
    }
}

fn refers_by(tables: &[Table], from: &Option<Origin>, to: &Option<Origin>) -> bool
    ensures { result ≡ facts.refers_by tables.now (origin_of from.now) (origin_of to.now) }
{
    match from {
        Some(from) => match to {
            Some(to) => {
                let (xs, ys) = (from.columns.as_slice(), to.columns.as_slice());
                (from.table == to.table && all_alike(xs, ys))
                    || has_reference(tables, from.table, to.table, xs, ys)
            }
            None => false,
        },
        None => false,
    }
}

/// Whether each row of the plan without NULL at these columns is known to have a row of the target that matches it at the
/// target's columns, over a schema of these tables.
pub fn is_reference(
    alloc: Global,
    tables: &[Table],
    plan: &Plan,
    cols: &[u32],
    target: &Plan,
    target_cols: &[u32],
) -> Result<bool, WantOfMemory>
    ensures { IfOk result (λ yes. yes ≡ facts.refers tables.now (plan_tree plan.now) cols.now (plan_tree target.now) target_cols.now) }
{
    if cols.len() != target_cols.len() || cols.is_empty() {
        return Ok(false);
    }
    let from = find_origin(alloc, plan, wide(plan), cols)?;
    let to = find_kept(alloc, target, wide(target), target_cols)?;
    Ok(refers_by(tables, &from, &to))
}
