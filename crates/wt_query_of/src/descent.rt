//! A zone as its first FROM item and the operators above it.
ghost use Rattle.std.specs.Prelude.{◌≡◌, ◌<◌, ◌≤◌, IfOk, IfSome, IfNone};
ghost use Rattle.std.specs.List.{All};
ghost use Rattle.wt_plan.specs.declared.plan.Plan.{size-Plan};
ghost use Rattle.wt_plan.specs.Tree.{plan_tree};
ghost use Rattle.wt_query_of.specs.Descents.{AreDown, IsItem, bottom, first_of};

use std::alloc::Global;
use wt_plan::Plan;
use wt_value::WantOfMemory;

/// The operators of a zone from the last one down to its first FROM item.
#[derive(Drop)]
pub(crate) struct Descent<'a> {
    pub operators: Vec<&'a Plan>,
    pub item: &'a Plan,
}

/// The operand whose FROM items come first.
fn first_operand(plan: &Plan) -> Option<&Plan>
    ensures smaller { IfSome result (λ operand. size-Plan operand.now < size-Plan plan.now) }
    ensures first { IfSome result (λ operand. plan_tree operand.now ≡ first_of (plan_tree plan.now)) }
    ensures item { IfNone result (IsItem (plan_tree plan.now)) }
{
    match plan {
        Plan::Table(_, _) | Plan::Proj(_, _) | Plan::Dedup(_) => None,
        Plan::Filter(_, _, inner) => Some(inner),
        Plan::InnerJoin(_, _, left, _) => Some(left),
        Plan::LeftJoin(_, _, left, _) => Some(left),
        Plan::InSub(_, left, _) => Some(left),
    }
}

/// Goes down the first operands of a plan, by a loop, which takes no stack for a chain of joins.
pub(crate) fn descend<'a>(alloc: Global, plan: &'a Plan) -> Result<Descent<'a>, WantOfMemory>
    ensures down { IfOk result (λ d. AreDown (plan_tree plan.now) d.operators.items) }
    ensures bottom { IfOk result (λ d. plan_tree d.item.now ≡ bottom (plan_tree plan.now) d.operators.items) }
    ensures item { IfOk result (λ d. IsItem (plan_tree d.item.now)) }
    ensures within { IfOk result (λ d. All (λ s. size-Plan s.now ≤ size-Plan plan.now) d.operators.items) }
    ensures item_within { IfOk result (λ d. size-Plan d.item.now ≤ size-Plan plan.now) }
{
    let mut operators = Vec::new(alloc);
    let mut item = plan;
    'operands: while let Some(operand) = first_operand(item) {
        operators.push(item)?;
        item = operand;
    }
    Ok(Descent { operators, item })
}
