//! What a query and its plan have in common.
ghost use Rattle.std.specs.Prelude.{◌≡◌, None, List, []};
ghost use Rattle.wt_value.specs.Values.{Tuple, IsOneBag};
ghost use Rattle.wt_schema.specs.declared.schema.Table.{Table};
ghost use Rattle.wt_ast.specs.Tree.{QueryTree};
ghost use Rattle.wt_query_rows.specs.Rows.{query_rows};
ghost use Rattle.wt_plan.specs.Rows.{plan_rows};
ghost use Rattle.wt_place.specs.Placing.{placed};
ghost use Rattle.wt_query_plan.specs.Building.{planned};
ghost use Rattle.wt_query_plan.specs.Standing.{RowsFit};
ghost use Rattle.wt_query_plan.specs.Faults.{query_fault};

/// A law: a query without a fault and its placed plan have one bag of rows, on every database whose rows have the widths
/// of the schema's tables.
pub fn built_plan_keeps_rows()
    ensures { (S : List Table) (base : List (List Tuple)) → RowsFit S base → (q : QueryTree) → query_fault S [] q ≡ None → IsOneBag (query_rows S base q) (plan_rows base (placed (planned S q))) }
{}
