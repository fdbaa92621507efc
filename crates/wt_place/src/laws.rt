//! What placing keeps.
ghost use Rattle.std.specs.Prelude.{◌≡◌, List};
ghost use Rattle.wt_value.specs.Values.{Tuple, IsOneBag};
ghost use Rattle.wt_plan.specs.Tree.{PlanTree};
ghost use Rattle.wt_plan.specs.Measures.{cost, node_count};
ghost use Rattle.wt_plan.specs.Rows.{plan_rows};
ghost use Rattle.wt_place.specs.Placing.{placed};
ghost use Rattle.wt_place.specs.Keeping.{Fits};

/// A law: placing a plan keeps its rows as one bag.
pub fn placing_keeps_rows()
    ensures { (base : List (List Tuple)) (p : PlanTree) → Fits base p → IsOneBag (plan_rows base p) (plan_rows base (placed p)) }
{}

/// A law: placing a plan keeps its cost, and how many nodes it has.
pub fn placing_keeps_measures()
    ensures cost { (p : PlanTree) → cost (placed p) ≡ cost p }
    ensures nodes { (p : PlanTree) → node_count (placed p) ≡ node_count p }
{}
