//! Placing a plan: the conditions of a zone are taken off, and put where they belong.
ghost use Rattle.std.specs.Prelude.{◌≡◌, ◌+◌, ◌^◌, ◌<◌, ◌++◌, map, List, IfOk, OnOk};
ghost use Rattle.wt_value.specs.Values.{Tuple, IsOneBag};
ghost use Rattle.wt_plan.specs.Tree.{plan_tree, inner_join, left_join};
ghost use Rattle.wt_plan.specs.Measures as measures;
ghost use Rattle.wt_plan.specs.Rows.{plan_rows, TablesWide};
ghost use Rattle.wt_plan.specs.WellFormed.{WellFormed, Narrow};
ghost use Rattle.wt_plan.specs.Regular.{Regular};
ghost use Rattle.wt_schema.specs.declared.schema.Table.{Table};
ghost use Rattle.wt_place.specs.Placing as spec;
ghost use Rattle.wt_place.specs.Keeping.{IsPlaced, ConditionsFit};
ghost use Rattle.wt_place.specs.Views.{condition_trees};

use crate::condition::{Condition, Side, add_member, add_test, all_lowered, split_by_side, stand};
use std::alloc::Global;
use wt_plan::{Plan, WantOfMemory};
use wt_value::Cols;

fn inner_joined(
    alloc: Global,
    a: Cols,
    b: Cols,
    left: Plan,
    right: Plan,
) -> Result<Plan, WantOfMemory>
    ensures { IfOk result (λ p. plan_tree p ≡ inner_join a b (plan_tree left) (plan_tree right)) }
{
    let (left, right) = (Box::new(alloc, left)?, Box::new(alloc, right)?);
    Ok(Plan::InnerJoin(a, b, left, right))
}

fn left_joined(
    alloc: Global,
    a: Cols,
    b: Cols,
    left: Plan,
    right: Plan,
) -> Result<Plan, WantOfMemory>
    ensures { IfOk result (λ p. plan_tree p ≡ left_join a b (plan_tree left) (plan_tree right)) }
{
    let (left, right) = (Box::new(alloc, left)?, Box::new(alloc, right)?);
    Ok(Plan::LeftJoin(a, b, left, right))
}

/// The conditions put where they belong, over a zone that has none.
#[cycle(settle)]
fn settle(alloc: Global, conditions: Vec<Condition>, plan: Plan) -> Result<Plan, WantOfMemory>
    requires narrow { Narrow (plan_tree plan) }
    ensures { IfOk result (λ p. plan_tree p ≡ spec.settle (condition_trees conditions.items) (plan_tree plan)) }
{
    match plan {
        Plan::InnerJoin(a, b, left, right) => {
            let width = left.width();
            let below = split_by_side(alloc, Side::Left, width, conditions)?;
            let left = settle(alloc, below.inside, Box::into_inner(left))?;
            let beside = split_by_side(alloc, Side::Right, width, below.outside)?;
            let lowered = all_lowered(alloc, beside.inside, width)?;
            let right = settle(alloc, lowered, Box::into_inner(right))?;
            stand(
                alloc,
                beside.outside,
                inner_joined(alloc, a, b, left, right)?,
            )
        }
        Plan::LeftJoin(a, b, left, right) => {
            let below = split_by_side(alloc, Side::Left, left.width(), conditions)?;
            let left = settle(alloc, below.inside, Box::into_inner(left))?;
            let join = left_joined(alloc, a, b, left, Box::into_inner(right))?;
            stand(alloc, below.outside, join)
        }
        other => stand(alloc, conditions, other),
    }
}

/// Takes the conditions of a zone off, and adds them, counted from as many columns more, to others. What is left has its
/// operands placed.
#[cycle(gather)]
fn gather(
    alloc: Global,
    plan: Plan,
    shift: u32,
    out: &mut Vec<Condition>,
) -> Result<Plan, WantOfMemory>
    requires fits { ConditionsFit (plan_tree plan) }
    requires narrow { Narrow (plan_tree plan) }
    requires room { shift + measures.width (plan_tree plan) < 2 ^ 32 }
    ensures bare { IfOk result (λ p. plan_tree p ≡ spec.bare (plan_tree plan)) }
    ensures conditions { OnOk result (condition_trees out.new.items ≡ condition_trees out.old.items ++ map (spec.moved (λ k. shift + k)) (spec.conditions (plan_tree plan))) }
{
    match plan {
        Plan::Table(_, _) => Ok(plan),
        Plan::Proj(cols, operand) => {
            let operand = into_placed(alloc, Box::into_inner(operand))?;
            Ok(Plan::Proj(cols, Box::new(alloc, operand)?))
        }
        Plan::Dedup(operand) => {
            let operand = into_placed(alloc, Box::into_inner(operand))?;
            Ok(Plan::Dedup(Box::new(alloc, operand)?))
        }
        Plan::Filter(pred, cols, operand) => {
            let bare = gather(alloc, Box::into_inner(operand), shift, out)?;
            add_test(alloc, pred, &cols, shift, out)?;
            Ok(bare)
        }
        Plan::InSub(cols, left, right) => {
            let bare = gather(alloc, Box::into_inner(left), shift, out)?;
            let right = into_placed(alloc, Box::into_inner(right))?;
            add_member(alloc, &cols, right, shift, out)?;
            Ok(bare)
        }
        Plan::InnerJoin(a, b, left, right) => {
            let width = left.width();
            let left = gather(alloc, Box::into_inner(left), shift, out)?;
            let right = gather(alloc, Box::into_inner(right), shift + width, out)?;
            inner_joined(alloc, a, b, left, right)
        }
        Plan::LeftJoin(a, b, left, right) => {
            let left = gather(alloc, Box::into_inner(left), shift, out)?;
            let right = into_placed(alloc, Box::into_inner(right))?;
            left_joined(alloc, a, b, left, right)
        }
    }
}

/// The placed form of a plan that is not needed any more.
#[cycle(gather)]
pub fn into_placed(alloc: Global, plan: Plan) -> Result<Plan, WantOfMemory>
    requires fits { ConditionsFit (plan_tree plan) }
    requires narrow { Narrow (plan_tree plan) }
    ensures placed { IfOk result (λ p. plan_tree p ≡ spec.placed (plan_tree plan)) }
{
    let mut conditions = Vec::new(alloc);
    let bare = gather(alloc, plan, 0, &mut conditions)?;
    settle(alloc, conditions, bare)
}

/// The placed form of a plan.
pub fn place(alloc: Global, plan: &Plan) -> Result<Plan, WantOfMemory>
    requires well_formed { WellFormed (plan_tree plan.now) }
    ensures placed { IfOk result (λ p. plan_tree p ≡ spec.placed (plan_tree plan.now)) }
    ensures rows { IfOk result (λ p. (base : List (List Tuple)) → TablesWide base (plan_tree plan.now) → IsOneBag (plan_rows base (plan_tree plan.now)) (plan_rows base (plan_tree p))) }
    ensures width { IfOk result (λ p. measures.width (plan_tree p) ≡ measures.width (plan_tree plan.now)) }
    ensures cost { IfOk result (λ p. measures.cost (plan_tree p) ≡ measures.cost (plan_tree plan.now)) }
    ensures nodes { IfOk result (λ p. measures.node_count (plan_tree p) ≡ measures.node_count (plan_tree plan.now)) }
    ensures regular { IfOk result (λ p. (S : List Table) → Regular S (plan_tree plan.now) → Regular S (plan_tree p)) }
{
    let copy = plan.copy(alloc)?;
    into_placed(alloc, copy)
}
