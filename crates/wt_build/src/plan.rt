//! The placed plan of a statement.
ghost use Rattle.std.specs.Prelude.{◌≡◌, ◌≤◌, List, [], None, length, IfOk};
ghost use Rattle.wt_value.specs.Values.{Tuple, IsOneBag};
ghost use Rattle.wt_ast.specs.Lawful.{IsLawful};
ghost use Rattle.wt_ast.specs.Tree.{query_tree};
ghost use Rattle.wt_plan.specs.Tree.{plan_tree};
ghost use Rattle.wt_plan.specs.Measures.{width, node_count};
ghost use Rattle.wt_plan.specs.Regular.{Regular};
ghost use Rattle.wt_plan.specs.Rows.{plan_rows};
ghost use Rattle.wt_plan.specs.WellFormed.{Narrow};
ghost use Rattle.wt_place.specs.Keeping.{ConditionsFit, IsPlaced};
ghost use Rattle.wt_place.specs.Placing.{placed};
ghost use Rattle.wt_query_rows.specs.Rows.{query_rows};
ghost use Rattle.wt_query_plan.specs.Faults.{query_fault};
ghost use Rattle.wt_query_plan.specs.Standing.{RowsFit};
ghost use Rattle.wt_query_plan.specs.Telling.{Tells};
ghost use Rattle.wt_query_bounds.specs.Bounds.{items_in, conjuncts_in};
ghost use Rattle.wt_build.specs.Plans.{IsPlan};

use crate::build::built_query;
use std::alloc::Global;
use wt_ast::Query;
use wt_plan::Named;
use wt_query_plan::BuildError;
use wt_schema::Schema;
use wt_settled::placed_form;
use wt_sources::Built;
use wt_value::Names;

fn named(alloc: Global, built: Built) -> Result<Named, BuildError>
    requires fits { ConditionsFit (plan_tree built.plan) }
    requires narrow { Narrow (plan_tree built.plan) }
    ensures { Tells None (λ named. (plan_tree named.plan ≡ placed (plan_tree built.plan)) × (named.names ≡ built.names.items)) result }
{
    let Built { plan, names, .. } = built;
    let plan = placed_form(alloc, plan)?;
    Ok(Named {
        plan,
        names: Names::from_vec(names),
    })
}

/// The placed plan of a query with the names of its columns, or the query's first fault.
fn built_plan(alloc: Global, schema: &Schema, query: &Query) -> Result<Named, BuildError>
    requires items { items_in (query_tree query.now) ≤ 256 }
    ensures { Tells (query_fault schema.now.tables [] (query_tree query.now)) (IsPlan schema.now.tables (query_tree query.now)) result }
{
    let built = built_query(alloc, schema, &[], query)?;
    named(alloc, built)
}

/// The placed plan of a query with the names of its columns, or the query's first fault.
pub fn plan_of(alloc: Global, schema: &Schema, query: &Query) -> Result<Named, BuildError>
    requires items { items_in (query_tree query.now) ≤ 256 }
    // It refuses exactly with the first fault, and else gives the defined plan with the defined names.
    ensures told { Tells (query_fault schema.now.tables [] (query_tree query.now)) (IsPlan schema.now.tables (query_tree query.now)) result }
    // The plan has the rows of the statement, each as often.
    ensures rows { IfOk result (λ named. (base : List (List Tuple)) → RowsFit schema.now.tables base → IsOneBag (query_rows schema.now.tables base (query_tree query.now)) (plan_rows base (plan_tree named.plan))) }
    ensures names { IfOk result (λ named. length named.names ≡ width (plan_tree named.plan)) }
    // It is placed: placing it again changes nothing.
    ensures placed { IfOk result (λ named. IsPlaced (plan_tree named.plan)) }
    // The plan of a lawful query, as each is that was read, is regular for the schema.
    ensures regular { IsLawful (query_tree query.now) → IfOk result (λ named. Regular schema.now.tables (plan_tree named.plan)) }
    ensures nodes { conjuncts_in (query_tree query.now) ≤ 256 → IfOk result (λ named. node_count (plan_tree named.plan) ≤ 1280) }
{
    built_plan(alloc, schema, query)
}
