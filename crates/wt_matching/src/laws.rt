//! The laws on matches.
ghost use Rattle.std.specs.Prelude.{◌≡◌, ◌<◌, ℕ, List};
ghost use Rattle.wt_value.specs.Values.{Tuple, IsOneBag};
ghost use Rattle.wt_schema.specs.declared.schema.Table.{Table};
ghost use Rattle.wt_schema.specs.Lawful.{IsSchema};
ghost use Rattle.wt_schema.specs.Satisfying.{Satisfies};
ghost use Rattle.wt_symbol.specs.Sides.{PairTree};
ghost use Rattle.wt_symbol.specs.Lawful.{IsLawful};
ghost use Rattle.wt_constraint.specs.declared.set.AtomSet.{AtomSet};
ghost use Rattle.wt_plan.specs.Tree.{PlanTree};
ghost use Rattle.wt_plan.specs.Measures.{cost, node_count};
ghost use Rattle.wt_plan.specs.Rows.{plan_rows};
ghost use Rattle.wt_plan.specs.Regular.{Regular};
ghost use Rattle.wt_matching.specs.Filling.{Assigned, fill};
ghost use Rattle.wt_matching.specs.Matching.{IsMatch, IsSound};
ghost use Rattle.wt_matching.specs.Nodes.{put};

/// A law: a regular plan, and the plan in which the destination of a sound rule stands in the place of a match, give one bag on every
/// database that satisfies the schema.
pub fn matches_keep_rows()
    ensures { (S : List Table) → IsSchema S → (p : PairTree) (set : AtomSet) → IsLawful p → (plan : PlanTree) → Regular S plan → (n : ℕ) → n < node_count plan
        → (m : Assigned) → IsMatch S p set plan n m → (base : List (List Tuple)) → Satisfies S base → IsSound p set
        → IsOneBag (plan_rows base plan) (plan_rows base (put plan n (fill p.dest p.anchors m))) }
{}

/// A law: that plan costs less.
pub fn matches_lower_the_cost()
    ensures { (S : List Table) → IsSchema S → (p : PairTree) (set : AtomSet) → IsLawful p → (plan : PlanTree) → Regular S plan → (n : ℕ) → n < node_count plan
        → (m : Assigned) → IsMatch S p set plan n m → cost (put plan n (fill p.dest p.anchors m)) < cost plan }
{}

/// A law: a rule has at most one match at a node.
pub fn matches_are_unique()
    ensures { (S : List Table) → IsSchema S → (p : PairTree) (set : AtomSet) → IsLawful p → (plan : PlanTree) → Regular S plan → (n : ℕ) → n < node_count plan
        → (m : Assigned) → IsMatch S p set plan n m → (other : Assigned) → IsMatch S p set plan n other → m ≡ other }
{}
