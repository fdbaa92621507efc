//! What holds of a query's plan because its parts are bounded.
ghost use Rattle.std.specs.Prelude.{◌≡◌, ◌≤◌, ◌+◌, ◌*◌, None, ℕ, List, [], length};
ghost use Rattle.wt_ast.specs.Tree.{QueryTree, FromTree};
ghost use Rattle.wt_schema.specs.declared.schema.Table.{Table};
ghost use Rattle.wt_schema.specs.Lawful.{IsSchema};
ghost use Rattle.wt_plan.specs.Measures.{width, node_count};
ghost use Rattle.wt_plan.specs.WellFormed.{Narrow};
ghost use Rattle.wt_place.specs.Keeping.{ConditionsFit};
ghost use Rattle.wt_place.specs.Placing.{placed};
ghost use Rattle.wt_query_rows.specs.declared.scope.ScopeColumn.{ScopeColumn};
ghost use Rattle.wt_query_rows.specs.Scopes.{scope_of, output_names};
ghost use Rattle.wt_query_plan.specs.Building.{planned};
ghost use Rattle.wt_query_plan.specs.Faults.{query_fault, from_fault};
ghost use Rattle.wt_query_bounds.specs.Bounds.{items_in, items_in_from, conjuncts_in};

/// A law: a FROM clause whose items have no fault has at most 16,384 columns in scope for each of its items.
pub fn clauses_have_few_columns()
    ensures { (S : List Table) → IsSchema S → (f : FromTree) (outer : List ScopeColumn) (before : List (List ℕ)) → from_fault S outer before f ≡ None → length (scope_of S f) ≤ 16384 * items_in_from f }
{}

/// A law: each node of the plan of a query without a fault, of at most 256 FROM items, is less than 2^32 wide.
pub fn built_plans_are_narrow()
    ensures { (S : List Table) → IsSchema S → (q : QueryTree) → items_in q ≤ 256 → query_fault S [] q ≡ None → Narrow (planned S q) }
{}

/// A law: the columns of the conditions of such a plan are there, so it may be placed.
pub fn built_plans_fit()
    ensures { (S : List Table) (q : QueryTree) → query_fault S [] q ≡ None → ConditionsFit (planned S q) }
{}

/// A law: the plan of a query without a fault has a column for each output name, placed or not.
pub fn built_plans_are_as_wide_as_the_output()
    ensures planned { (S : List Table) (q : QueryTree) → query_fault S [] q ≡ None → width (planned S q) ≡ length (output_names S q) }
    ensures placed { (S : List Table) (q : QueryTree) → query_fault S [] q ≡ None → width (placed (planned S q)) ≡ length (output_names S q) }
{}

/// A law: a plan has at most three nodes for each FROM item and one for each conjunct; so within the limits of a statement
/// the placed plan has at most 1,280.
pub fn built_plans_are_small()
    ensures nodes { (S : List Table) (q : QueryTree) → node_count (planned S q) ≤ 3 * items_in q + conjuncts_in q }
    ensures placed { (S : List Table) (q : QueryTree) → items_in q ≤ 256 → conjuncts_in q ≤ 256 → node_count (placed (planned S q)) ≤ 1280 }
{}
