//! The tree of a plan.
ghost use Rattle.std.specs.Prelude.{◌≡◌, ◌↔◌, IfOk, IsTrue};
ghost use Rattle.wt_plan.specs.Tree.{plan_tree};

use std::alloc::Global;
use wt_pred::Pred;
use wt_value::{Cols, Names, WantOfMemory};

/// A plan over the tables of a schema.
///
/// A table stands with its number and how many columns it has. A `Proj` has its columns, a join the
/// columns of its left operand and those of its right one that are compared, an `InSub` the columns
/// that a row of the right operand has to match. The predicate of a `Filter` is over the places of its
/// list. An operator drops its operands one inside the other; a statement gives at most 1,280 nodes.
#[cycle(plan)]
#[derive(Drop)]
pub enum Plan {
    Table(u32, u32),
    Proj(Cols, Box<Plan>),
    Filter(Pred, Cols, Box<Plan>),
    InnerJoin(Cols, Cols, Box<Plan>, Box<Plan>),
    LeftJoin(Cols, Cols, Box<Plan>, Box<Plan>),
    InSub(Cols, Box<Plan>, Box<Plan>),
    Dedup(Box<Plan>),
}

/// A plan, and a name for each of its columns.
#[derive(Drop)]
pub struct Named {
    pub plan: Plan,
    pub names: Names,
}

impl Plan {
    /// The same plan.
    #[cycle(copy)]
    pub fn copy(&self, alloc: Global) -> Result<Plan, WantOfMemory>
        ensures exact { IfOk result (λ p. plan_tree p ≡ plan_tree self.now) }
    {
        match self {
            Plan::Table(number, width) => Ok(Plan::Table(*number, *width)),
            Plan::Proj(cols, plan) => {
                Ok(Plan::Proj(cols.clone()?, Box::new(alloc, plan.copy(alloc)?)?))
            }
            Plan::Filter(pred, cols, plan) => Ok(Plan::Filter(
                pred.copy(alloc)?,
                cols.clone()?,
                Box::new(alloc, plan.copy(alloc)?)?,
            )),
            Plan::InnerJoin(a, b, left, right) => Ok(Plan::InnerJoin(
                a.clone()?,
                b.clone()?,
                Box::new(alloc, left.copy(alloc)?)?,
                Box::new(alloc, right.copy(alloc)?)?,
            )),
            Plan::LeftJoin(a, b, left, right) => Ok(Plan::LeftJoin(
                a.clone()?,
                b.clone()?,
                Box::new(alloc, left.copy(alloc)?)?,
                Box::new(alloc, right.copy(alloc)?)?,
            )),
            Plan::InSub(cols, left, right) => Ok(Plan::InSub(
                cols.clone()?,
                Box::new(alloc, left.copy(alloc)?)?,
                Box::new(alloc, right.copy(alloc)?)?,
            )),
            Plan::Dedup(plan) => Ok(Plan::Dedup(Box::new(alloc, plan.copy(alloc)?)?)),
        }
    }
}
