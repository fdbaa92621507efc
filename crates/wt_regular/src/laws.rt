//! The plan of a query that was read is regular.
ghost use Rattle.std.specs.Prelude.{◌≡◌, None, List, []};
ghost use Rattle.wt_ast.specs.Tree.{QueryTree};
ghost use Rattle.wt_ast.specs.Lawful.{IsLawful};
ghost use Rattle.wt_schema.specs.declared.schema.Table.{Table};
ghost use Rattle.wt_schema.specs.Lawful.{IsSchema};
ghost use Rattle.wt_plan.specs.Regular.{Regular};
ghost use Rattle.wt_place.specs.Placing.{placed};
ghost use Rattle.wt_query_plan.specs.Building.{planned};
ghost use Rattle.wt_query_plan.specs.Faults.{query_fault};

/// A law: the plan of a lawful query without a fault is regular for the schema, placed or not.
pub fn plans_of_queries_are_regular()
    ensures planned { (S : List Table) → IsSchema S → (q : QueryTree) → IsLawful q → query_fault S [] q ≡ None → Regular S (planned S q) }
    ensures placed { (S : List Table) → IsSchema S → (q : QueryTree) → IsLawful q → query_fault S [] q ≡ None → Regular S (placed (planned S q)) }
{}
