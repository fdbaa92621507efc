//! Plans and drafts looked at alike, from the root down.
ghost use Rattle.std.specs.Prelude.{◌≡◌, ◌-◌, ◌^◌, min};
ghost use Rattle.wt_plan.specs.Tree.{plan_tree};
ghost use Rattle.wt_plan.specs.Measures.{cost};
ghost use Rattle.wt_draft.specs.Drafts.{draft_tree};
ghost use Rattle.wt_draft.specs.Roots.{any_tree, root_tree};

use crate::draft::Draft;
use wt_plan::Plan;
use wt_pred::Pred;
use wt_value::Cols;

/// A plan or a draft.
#[derive(Clone, Copy)]
pub enum AnyPlan<'d, 'p> {
    Plan(&'d Plan),
    Draft(&'d Draft<'p>),
}

/// The root of a plan or a draft, with its operands.
#[derive(Clone, Copy)]
pub enum Root<'d, 'p> {
    Table(u32, u32),
    Proj(&'d Cols, AnyPlan<'d, 'p>),
    Filter(&'d Pred, &'d Cols, AnyPlan<'d, 'p>),
    InnerJoin(&'d Cols, &'d Cols, AnyPlan<'d, 'p>, AnyPlan<'d, 'p>),
    LeftJoin(&'d Cols, &'d Cols, AnyPlan<'d, 'p>, AnyPlan<'d, 'p>),
    InSub(&'d Cols, AnyPlan<'d, 'p>, AnyPlan<'d, 'p>),
    Dedup(AnyPlan<'d, 'p>),
}

fn root_of_plan<'d, 'p>(plan: &'d Plan) -> Root<'d, 'p>
    ensures { root_tree result ≡ plan_tree plan.now }
{
    match plan {
        Plan::Table(number, width) => Root::Table(*number, *width),
        Plan::Proj(cols, p) => Root::Proj(cols, AnyPlan::Plan(p)),
        Plan::Filter(pred, cols, p) => Root::Filter(pred, cols, AnyPlan::Plan(p)),
        Plan::InnerJoin(a, b, p, q) => Root::InnerJoin(a, b, AnyPlan::Plan(p), AnyPlan::Plan(q)),
        Plan::LeftJoin(a, b, p, q) => Root::LeftJoin(a, b, AnyPlan::Plan(p), AnyPlan::Plan(q)),
        Plan::InSub(cols, p, q) => Root::InSub(cols, AnyPlan::Plan(p), AnyPlan::Plan(q)),
        Plan::Dedup(p) => Root::Dedup(AnyPlan::Plan(p)),
    }
}

fn root_of_draft<'d, 'p>(draft: &'d Draft<'p>) -> Root<'d, 'p>
    ensures { root_tree result ≡ draft_tree draft.now }
{
    match draft {
        Draft::Whole(plan) => root_of_plan(plan),
        Draft::Proj(places, p) => Root::Proj(places.cols(), AnyPlan::Draft(p)),
        Draft::Filter(pred, places, p) => Root::Filter(pred, places.cols(), AnyPlan::Draft(p)),
        Draft::InnerJoin(a, b, p, q) => {
            Root::InnerJoin(a.cols(), b.cols(), AnyPlan::Draft(p), AnyPlan::Draft(q))
        }
        Draft::LeftJoin(a, b, p, q) => {
            Root::LeftJoin(a.cols(), b.cols(), AnyPlan::Draft(p), AnyPlan::Draft(q))
        }
        Draft::InSub(places, p, q) => {
            Root::InSub(places.cols(), AnyPlan::Draft(p), AnyPlan::Draft(q))
        }
        Draft::Dedup(p) => Root::Dedup(AnyPlan::Draft(p)),
    }
}

impl<'d, 'p> AnyPlan<'d, 'p> {
    /// Its root.
    pub fn root(self) -> Root<'d, 'p>
        ensures exact { root_tree result ≡ any_tree self.entry }
    {
        match self {
            AnyPlan::Plan(plan) => root_of_plan(plan),
            AnyPlan::Draft(draft) => root_of_draft(draft),
        }
    }

    /// What it costs.
    pub fn cost(self) -> u64
        ensures exact { result ≡ min (2 ^ 64 - 1) (cost (any_tree self.entry)) }
    {
        match self {
            AnyPlan::Plan(plan) => plan.cost(),
            AnyPlan::Draft(draft) => draft.cost(),
        }
    }
}
