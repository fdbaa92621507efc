//! How wide a plan is, what it costs, and how many nodes it has. A number stands at its type's greatest where it would pass it.
ghost use Rattle.std.specs.Prelude.{◌≡◌, ◌+◌, ◌-◌, ◌^◌, min, length};
ghost use Rattle.wt_plan.specs.Tree.{plan_tree};
ghost use Rattle.wt_plan.specs.Measures as spec;

use crate::plan::Plan;
use wt_value::Cols;

fn length_of(cols: &Cols) -> u32
    ensures { result ≡ min (2 ^ 32 - 1) (length cols.now) }
{
    match u32::try_from(cols.len()) {
        Ok(n) => n,
        Err(_) => u32::MAX,
    }
}

impl Plan {
    /// How many columns its rows have.
    pub fn width(&self) -> u32
        ensures exact { result ≡ min (2 ^ 32 - 1) (spec.width (plan_tree self.now)) }
    {
        match self {
            Plan::Table(_, width) => *width,
            Plan::Proj(cols, _) => length_of(cols),
            Plan::Filter(_, _, plan) | Plan::InSub(_, plan, _) | Plan::Dedup(plan) => plan.width(),
            Plan::InnerJoin(_, _, left, right) | Plan::LeftJoin(_, _, left, right) => {
                left.width().saturating_add(right.width())
            }
        }
    }

    /// What it costs: 1 for each table, Proj and Filter, 3 for a Dedup, 4 for an InSub, 6 for an InnerJoin, 7 for a LeftJoin.
    pub fn cost(&self) -> u64
        ensures exact { result ≡ min (2 ^ 64 - 1) (spec.cost (plan_tree self.now)) }
    {
        match self {
            Plan::Table(_, _) => 1,
            Plan::Proj(_, plan) | Plan::Filter(_, _, plan) => plan.cost().saturating_add(1),
            Plan::InnerJoin(_, _, left, right) => both(left.cost(), right.cost(), 6),
            Plan::LeftJoin(_, _, left, right) => both(left.cost(), right.cost(), 7),
            Plan::InSub(_, left, right) => both(left.cost(), right.cost(), 4),
            Plan::Dedup(plan) => plan.cost().saturating_add(3),
        }
    }

    /// How many nodes it has.
    pub fn node_count(&self) -> u32
        ensures exact { result ≡ min (2 ^ 32 - 1) (spec.node_count (plan_tree self.now)) }
    {
        match self {
            Plan::Table(_, _) => 1,
            Plan::Proj(_, plan) | Plan::Filter(_, _, plan) | Plan::Dedup(plan) => {
                plan.node_count().saturating_add(1)
            }
            Plan::InnerJoin(_, _, left, right)
            | Plan::LeftJoin(_, _, left, right)
            | Plan::InSub(_, left, right) => {
                left.node_count()
                    .saturating_add(right.node_count())
                    .saturating_add(1)
            }
        }
    }
}

fn both(left: u64, right: u64, weight: u64) -> u64
    ensures { result ≡ min (2 ^ 64 - 1) (weight + (left + right)) }
{
    left.saturating_add(right).saturating_add(weight)
}
