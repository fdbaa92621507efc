//! What is known holds on every database that satisfies the schema.
ghost use Rattle.std.specs.Prelude.{◌≡◌, ℕ, List, true};
ghost use Rattle.std.specs.List.{list_all};
ghost use Rattle.wt_value.specs.Values.{Tuple};
ghost use Rattle.wt_schema.specs.declared.schema.Table.{Table};
ghost use Rattle.wt_schema.specs.Lawful.{IsSchema};
ghost use Rattle.wt_schema.specs.Satisfying.{Satisfies};
ghost use Rattle.wt_plan.specs.Tree.{PlanTree};
ghost use Rattle.wt_plan.specs.Rows.{plan_rows};
ghost use Rattle.wt_plan.specs.Regular.{Regular};
ghost use Rattle.wt_instance.specs.Meeting.{IsUnique, IsNotNull, Refers};
ghost use Rattle.wt_known.specs.Facts.{unique, not_null, refers};
ghost use Rattle.wt_known.specs.Fitting.{Fits};

/// A law: on every database that satisfies the schema, what is known of a plan that fits it is so.
pub fn known_facts_hold()
    // No row of the plan matches a later one at columns that are known to be unique.
    ensures unique { (S : List Table) → IsSchema S → (base : List (List Tuple)) → Satisfies S base → (p : PlanTree) → Fits S p
        → (set : List ℕ) → unique S p set ≡ true → IsUnique set (plan_rows base p) }
    // No row has a NULL at columns that are known to have none.
    ensures not_null { (S : List Table) → IsSchema S → (base : List (List Tuple)) → Satisfies S base → (p : PlanTree) → Fits S p
        → (cols : List ℕ) → list_all (not_null S p) cols ≡ true → IsNotNull cols (plan_rows base p) }
    // Each row without NULL at columns that are known to refer to a target has a row of the target that matches it.
    ensures refers { (S : List Table) → IsSchema S → (base : List (List Tuple)) → Satisfies S base → (p q : PlanTree) → Fits S p → Fits S q
        → (cols others : List ℕ) → refers S p cols q others ≡ true → Refers cols others (plan_rows base p) (plan_rows base q) }
{}

/// A law: a regular plan fits its schema, and so do its subplans, regular or not.
pub fn regular_plans_fit()
    ensures { (S : List Table) → IsSchema S → (p : PlanTree) → Regular S p → Fits S p }
{}
