//! The tree of a draft.
ghost use Rattle.std.specs.Prelude.{◌≡◌, ◌+◌, ◌-◌, ◌^◌, min, length, IfOk};
ghost use Rattle.wt_plan.specs.Tree.{plan_tree};
ghost use Rattle.wt_plan.specs.Measures as measures;
ghost use Rattle.wt_draft.specs.Drafts.{listed, draft_tree};

use std::alloc::Global;
use wt_plan::Plan;
use wt_pred::Pred;
use wt_value::{Cols, WantOfMemory};

/// A list of places: one of its own, or one of a plan.
#[derive(Drop)]
pub enum Places<'a> {
    Own(Cols),
    Of(&'a Cols),
}

impl<'a> Places<'a> {
    /// The list.
    pub fn cols(&self) -> &Cols
        ensures exact { result.now ≡ listed self.now }
    {
        match self {
            Places::Own(cols) => cols,
            Places::Of(cols) => cols,
        }
    }
}

/// A plan of which the parts that stand in other plans are borrowed: whole subplans, predicates and lists.
#[cycle(draft)]
#[derive(Drop)]
pub enum Draft<'a> {
    Whole(&'a Plan),
    Proj(Places<'a>, Box<Draft<'a>>),
    Filter(&'a Pred, Places<'a>, Box<Draft<'a>>),
    InnerJoin(Places<'a>, Places<'a>, Box<Draft<'a>>, Box<Draft<'a>>),
    LeftJoin(Places<'a>, Places<'a>, Box<Draft<'a>>, Box<Draft<'a>>),
    InSub(Places<'a>, Box<Draft<'a>>, Box<Draft<'a>>),
    Dedup(Box<Draft<'a>>),
}

fn length_of(cols: &Cols) -> u32
    ensures { result ≡ min (2 ^ 32 - 1) (length cols.now) }
{
    match u32::try_from(cols.len()) {
        Ok(n) => n,
        Err(_) => u32::MAX,
    }
}

fn both(left: u64, right: u64, weight: u64) -> u64
    ensures { result ≡ min (2 ^ 64 - 1) (weight + (left + right)) }
{
    left.saturating_add(right).saturating_add(weight)
}

impl<'a> Draft<'a> {
    /// How many columns its rows have.
    pub fn width(&self) -> u32
        ensures exact { result ≡ min (2 ^ 32 - 1) (measures.width (draft_tree self.now)) }
    {
        match self {
            Draft::Whole(plan) => plan.width(),
            Draft::Proj(places, _) => length_of(places.cols()),
            Draft::Filter(_, _, below) | Draft::InSub(_, below, _) | Draft::Dedup(below) =>
                below.width(),
            Draft::InnerJoin(_, _, left, right) | Draft::LeftJoin(_, _, left, right) => {
                left.width().saturating_add(right.width())
            }
        }
    }

    /// What it costs.
    pub fn cost(&self) -> u64
        ensures exact { result ≡ min (2 ^ 64 - 1) (measures.cost (draft_tree self.now)) }
    {
        match self {
            Draft::Whole(plan) => plan.cost(),
            Draft::Proj(_, below) | Draft::Filter(_, _, below) => below.cost().saturating_add(1),
            Draft::InnerJoin(_, _, left, right) => both(left.cost(), right.cost(), 6),
            Draft::LeftJoin(_, _, left, right) => both(left.cost(), right.cost(), 7),
            Draft::InSub(_, left, right) => both(left.cost(), right.cost(), 4),
            Draft::Dedup(below) => below.cost().saturating_add(3),
        }
    }

    /// The plan, with copies of the parts that were borrowed.
    #[cycle(copy)]
    pub fn copy(&self, alloc: Global) -> Result<Plan, WantOfMemory>
        ensures exact { IfOk result (λ p. plan_tree p ≡ draft_tree self.now) }
    {
        match self {
            Draft::Whole(plan) => plan.copy(alloc),
            Draft::Proj(cols, below) => {
                Ok(Plan::Proj(cols.cols().clone()?, Box::new(alloc, below.copy(alloc)?)?))
            }
            Draft::Filter(pred, cols, below) => Ok(Plan::Filter(
                pred.copy(alloc)?,
                cols.cols().clone()?,
                Box::new(alloc, below.copy(alloc)?)?,
            )),
            Draft::InnerJoin(a, b, left, right) => Ok(Plan::InnerJoin(
                a.cols().clone()?,
                b.cols().clone()?,
                Box::new(alloc, left.copy(alloc)?)?,
                Box::new(alloc, right.copy(alloc)?)?,
            )),
            Draft::LeftJoin(a, b, left, right) => Ok(Plan::LeftJoin(
                a.cols().clone()?,
                b.cols().clone()?,
                Box::new(alloc, left.copy(alloc)?)?,
                Box::new(alloc, right.copy(alloc)?)?,
            )),
            Draft::InSub(cols, left, right) => Ok(Plan::InSub(
                cols.cols().clone()?,
                Box::new(alloc, left.copy(alloc)?)?,
                Box::new(alloc, right.copy(alloc)?)?,
            )),
            Draft::Dedup(below) => Ok(Plan::Dedup(Box::new(alloc, below.copy(alloc)?)?)),
        }
    }
}
