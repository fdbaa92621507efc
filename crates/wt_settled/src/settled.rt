//! Plans that are seen to be placed, so that they need not be taken apart.
ghost use Rattle.std.specs.Prelude.{◌≡◌, not, IfOk};
ghost use Rattle.wt_plan.specs.Tree.{plan_tree};
ghost use Rattle.wt_plan.specs.WellFormed.{Narrow};
ghost use Rattle.wt_place.specs.Keeping.{ConditionsFit};
ghost use Rattle.wt_place.specs.Placing.{placed};
ghost use Rattle.wt_settled.specs.Settled as spec;

use std::alloc::Global;
use wt_place::into_placed;
use wt_plan::{Plan, WantOfMemory};

/// What stands above an operator in its zone.
#[derive(Clone, Copy)]
pub(crate) enum Above {
    Nothing,
    Condition,
    Join,
}

fn is_below_join(above: Above) -> bool
    ensures { result ≡ spec.is_below_join above }
{
    matches!(above, Above::Join)
}

fn is_below_condition(above: Above) -> bool
    ensures { result ≡ spec.is_below_condition above }
{
    matches!(above, Above::Condition)
}

/// Whether no zone of the plan has both conditions and joins.
fn is_settled(above: Above, plan: &Plan) -> bool
    ensures { result ≡ spec.is_settled above (plan_tree plan.now) }
{
    match plan {
        Plan::Table(_, _) => true,
        Plan::Proj(_, operand) | Plan::Dedup(operand) => is_settled(Above::Nothing, operand),
        Plan::Filter(_, _, operand) => {
            !is_below_join(above) && is_settled(Above::Condition, operand)
        }
        Plan::InSub(_, left, right) => {
            !is_below_join(above)
                && is_settled(Above::Condition, left)
                && is_settled(Above::Nothing, right)
        }
        Plan::InnerJoin(_, _, left, right) => {
            !is_below_condition(above)
                && is_settled(Above::Join, left)
                && is_settled(Above::Join, right)
        }
        Plan::LeftJoin(_, _, left, right) => {
            !is_below_condition(above)
                && is_settled(Above::Join, left)
                && is_settled(Above::Nothing, right)
        }
    }
}

/// The placed form of a plan that is not needed any more: the plan itself, where no condition can move.
#[tactic(auto, using(crate::proofs::Staying::settled_is_placed))]
pub fn placed_form(alloc: Global, plan: Plan) -> Result<Plan, WantOfMemory>
    requires fits { ConditionsFit (plan_tree plan) }
    requires narrow { Narrow (plan_tree plan) }
    ensures placed { IfOk result (λ p. plan_tree p ≡ placed (plan_tree plan)) }
{
    if is_settled(Above::Nothing, &plan) {
        Ok(plan)
    } else {
        into_placed(alloc, plan)
    }
}
