//! The laws on chains: each is a function with an empty body, and its contract is the law.
ghost use Rattle.std.specs.Prelude.{◌≡◌, ◌≤◌, ◌+◌, List, length};
ghost use Rattle.wt_value.specs.Values.{Tuple, IsOneBag};
ghost use Rattle.wt_schema.specs.declared.schema.Table.{Table};
ghost use Rattle.wt_schema.specs.Lawful.{IsSchema};
ghost use Rattle.wt_schema.specs.Satisfying.{Satisfies};
ghost use Rattle.wt_rule.specs.declared.Rule.{Rule};
ghost use Rattle.wt_plan.specs.Tree.{PlanTree};
ghost use Rattle.wt_plan.specs.Measures.{cost, width};
ghost use Rattle.wt_plan.specs.Rows.{plan_rows};
ghost use Rattle.wt_plan.specs.Regular.{Regular};
ghost use Rattle.wt_place.specs.Keeping.{IsPlaced};
ghost use Rattle.wt_chains.specs.declared.applied.Applied.{Applied};
ghost use Rattle.wt_chains.specs.Chains.{AreLawful, AreSound, HasNoMatch, IsChain};

/// A law: the last plan of a chain and the first one give one bag on every database that satisfies the schema, where the rules are
/// sound.
pub fn chains_keep_rows()
    ensures { (S : List Table) → IsSchema S → (rules : List Rule) → AreLawful rules → AreSound rules → (plan last : PlanTree) (trace : List Applied) → Regular S plan
        → IsChain S rules plan trace last → (base : List (List Tuple)) → Satisfies S base → IsOneBag (plan_rows base plan) (plan_rows base last) }
{}

/// A law: a plan has one chain.
pub fn chains_are_one()
    ensures { (S : List Table) → IsSchema S → (rules : List Rule) → AreLawful rules → (plan last other : PlanTree) (trace way : List Applied) → Regular S plan
        → IsChain S rules plan trace last → IsChain S rules plan way other → (last ≡ other) × (trace ≡ way) }
{}

/// A law: no rule has a match at any node of the last plan.
pub fn chains_end_without_a_match()
    ensures { (S : List Table) (rules : List Rule) (plan last : PlanTree) (trace : List Applied) → IsChain S rules plan trace last → HasNoMatch S rules last }
{}

/// A law: each plan of the chain of a regular plan is regular and as wide; one that was placed stays placed.
pub fn chains_stay_regular()
    ensures regular { (S : List Table) (rules : List Rule) (plan last : PlanTree) (trace : List Applied) → Regular S plan → IsChain S rules plan trace last → Regular S last }
    ensures wide { (S : List Table) (rules : List Rule) (plan last : PlanTree) (trace : List Applied) → IsChain S rules plan trace last → width last ≡ width plan }
    ensures placed { (S : List Table) (rules : List Rule) (plan last : PlanTree) (trace : List Applied) → IsPlaced plan → IsChain S rules plan trace last → IsPlaced last }
{}

/// A law: each match lowers the cost.
pub fn chains_lower_the_cost()
    ensures { (S : List Table) → IsSchema S → (rules : List Rule) → AreLawful rules → (plan last : PlanTree) (trace : List Applied) → Regular S plan
        → IsChain S rules plan trace last → cost last + length trace ≤ cost plan }
{}
