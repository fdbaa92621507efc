//! Placing a plan again.
ghost use Rattle.wt_plan.specs.Tree.{PlanTree};
ghost use Rattle.wt_place.specs.Placing.{placed};
ghost use Rattle.wt_place.specs.Keeping.{IsPlaced};

/// A law: a plan that was placed is placed, so placing it again changes nothing.
pub fn placed_plans_are_placed()
    ensures { (p : PlanTree) → IsPlaced (placed p) }
{}
