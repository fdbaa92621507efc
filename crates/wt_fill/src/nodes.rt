//! The nodes of a plan, numbered in preorder from 0.
ghost use Rattle.std.specs.Prelude.{◌≡◌, ◌+◌, ◌^◌, ◌<◌, IfOk};
ghost use Rattle.wt_plan.specs.Tree.{plan_tree};
ghost use Rattle.wt_draft.specs.Drafts.{draft_tree};
ghost use Rattle.wt_matching.specs.Nodes as spec;
ghost use Rattle.wt_fill.specs.Pairs.{put_left, put_right};

use std::alloc::Global;
use wt_draft::{Draft, Places};
use wt_plan::Plan;
use wt_value::WantOfMemory;

/// The subplan at a node.
pub fn plan_at(plan: &Plan, node: u32) -> &Plan
    ensures { plan_tree result.now ≡ spec.at (plan_tree plan.now) node }
{
    if node == 0 {
        return plan;
    }
    match plan {
        Plan::Table(_, _) => plan,
        Plan::Proj(_, p) | Plan::Filter(_, _, p) | Plan::Dedup(p) => plan_at(p, node - 1),
        Plan::InnerJoin(_, _, p, q) | Plan::LeftJoin(_, _, p, q) | Plan::InSub(_, p, q) => {
            let count = p.node_count();
            if node - 1 < count {
                plan_at(p, node - 1)
            } else {
                plan_at(q, node - 1 - count)
            }
        }
    }
}

/// Both operands of a node, another plan put at a node behind it.
#[cycle(put)]
fn put_in_one<'a>(
    alloc: Global,
    left: &'a Plan,
    right: &'a Plan,
    node: u32,
    new: Draft<'a>,
) -> Result<(Box<Draft<'a>>, Box<Draft<'a>>), WantOfMemory>
    requires { node + 1 < 2 ^ 32 }
    ensures left { IfOk result (λ both. draft_tree both.0.value ≡ put_left (plan_tree left.now) node (draft_tree new.entry)) }
    ensures right { IfOk result (λ both. draft_tree both.1.value ≡ put_right (plan_tree left.now) (plan_tree right.now) node (draft_tree new.entry)) }
{
    let count = left.node_count();
    if node < count {
        let left = put_at(alloc, left, node, new)?;
        let left = Box::new(alloc, left)?;
        Ok((left, Box::new(alloc, Draft::Whole(right))?))
    } else {
        let right = put_at(alloc, right, node - count, new)?;
        let right = Box::new(alloc, right)?;
        Ok((Box::new(alloc, Draft::Whole(left))?, right))
    }
}

/// The plan with another one at a node. What is around the node is borrowed.
#[cycle(put)]
pub fn put_at<'a>(
    alloc: Global,
    plan: &'a Plan,
    node: u32,
    new: Draft<'a>,
) -> Result<Draft<'a>, WantOfMemory>
    ensures exact { IfOk result (λ draft. draft_tree draft ≡ spec.put (plan_tree plan.now) node (draft_tree new.entry)) }
{
    if node == 0 {
        return Ok(new);
    }
    match plan {
        Plan::Table(_, _) => Ok(Draft::Whole(plan)),
        Plan::Proj(cols, p) => {
            let operand = put_at(alloc, p, node - 1, new)?;
            Ok(Draft::Proj(Places::Of(cols), Box::new(alloc, operand)?))
        }
        Plan::Filter(pred, cols, p) => {
            let operand = put_at(alloc, p, node - 1, new)?;
            Ok(Draft::Filter(pred, Places::Of(cols), Box::new(alloc, operand)?))
        }
        Plan::InnerJoin(a, b, p, q) => {
            let (left, right) = put_in_one(alloc, p, q, node - 1, new)?;
            Ok(Draft::InnerJoin(Places::Of(a), Places::Of(b), left, right))
        }
        Plan::LeftJoin(a, b, p, q) => {
            let (left, right) = put_in_one(alloc, p, q, node - 1, new)?;
            Ok(Draft::LeftJoin(Places::Of(a), Places::Of(b), left, right))
        }
        Plan::InSub(cols, p, q) => {
            let (left, right) = put_in_one(alloc, p, q, node - 1, new)?;
            Ok(Draft::InSub(Places::Of(cols), left, right))
        }
        Plan::Dedup(p) => {
            let operand = put_at(alloc, p, node - 1, new)?;
            Ok(Draft::Dedup(Box::new(alloc, operand)?))
        }
    }
}
