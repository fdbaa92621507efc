//! What a plan and its query tree have in common.
ghost use Rattle.std.specs.Prelude.{◌≡◌, None, List, [], ℕ, length};
ghost use Rattle.std.specs.List.{AllByRecursion};
ghost use Rattle.wt_ast.specs.Tree.{QueryTree};
ghost use Rattle.wt_ast.specs.Lawful.{IsName, IsFormed, IsLawful};
ghost use Rattle.wt_schema.specs.declared.schema.Table.{Table};
ghost use Rattle.wt_schema.specs.Lawful.{IsSchema};
ghost use Rattle.wt_plan.specs.Tree.{PlanTree};
ghost use Rattle.wt_plan.specs.Measures.{width};
ghost use Rattle.wt_plan.specs.Regular.{Regular};
ghost use Rattle.wt_place.specs.Placing.{placed};
ghost use Rattle.wt_query_rows.specs.Scopes.{output_names};
ghost use Rattle.wt_query_plan.specs.Building.{planned};
ghost use Rattle.wt_query_plan.specs.Faults.{query_fault};
ghost use Rattle.wt_blocks.specs.Parts.{PlanParts};
ghost use Rattle.wt_blocks.specs.Printed.{printed};

/// A law: the tree of a regular plan with a name for each column has no fault, is built to the plan as it is placed, and has
/// these output names.
pub fn printed_tree_is_built_again()
    ensures accepted { (S : List Table) → IsSchema S → (p : PlanTree) → Regular S p → (names : List (List ℕ)) → length names ≡ width p → query_fault S [] (printed S p names) ≡ None }
    ensures plan { (S : List Table) → IsSchema S → (p : PlanTree) → Regular S p → (names : List (List ℕ)) → length names ≡ width p → placed (planned S (printed S p names)) ≡ placed p }
    ensures names { (S : List Table) → IsSchema S → (p : PlanTree) → Regular S p → (names : List (List ℕ)) → length names ≡ width p → output_names S (printed S p names) ≡ names }
{}

/// A law: the tree is formed as one that was read, where the names are names and the plan's predicates have a text.
pub fn printed_tree_is_formed()
    ensures { (S : List Table) → IsSchema S → (p : PlanTree) → Regular S p → PlanParts p → (names : List (List ℕ)) → length names ≡ width p → AllByRecursion IsName names → IsFormed (printed S p names) }
{}

/// A law: the placed plan of a lawful query has predicates with a text, and its output names are names.
pub fn plans_of_queries_have_texts()
    ensures parts { (S : List Table) (q : QueryTree) → IsLawful q → PlanParts (placed (planned S q)) }
    ensures names { (S : List Table) → IsSchema S → (q : QueryTree) → IsLawful q → AllByRecursion IsName (output_names S q) }
{}
