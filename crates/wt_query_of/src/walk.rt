//! The tree of a block, and the FROM clause and the conditions of a zone, by one walk over the plan.
ghost use Rattle.std.specs.Prelude.{◌≡◌, ◌++◌, ◌+◌, ◌<◌, ◌^◌, true, false, map, Some, None, IfOk, OnOk};
ghost use Rattle.wt_ast.specs.Tree.{query_tree, condition_tree};
ghost use Rattle.wt_ast.specs.Tree as trees;
ghost use Rattle.wt_plan.specs.Tree.{plan_tree};
ghost use Rattle.wt_plan.specs.Measures.{cost};
ghost use Rattle.wt_plan.specs.WellFormed.{Narrow};
ghost use Rattle.wt_blocks.specs.Blocks.{block, zone_of, plan_block, distinct};
ghost use Rattle.wt_blocks.specs.Counting.{block_items, from_items, condition_items};
ghost use Rattle.wt_blocks.specs.Printed as spec;
ghost use Rattle.wt_tree_parts.specs.Leaves.{scope_of_leaves};
ghost use Rattle.wt_query_of.specs.Descents.{IsItem, above_columns, above_from, added_conditions, added_items, items_behind};

use crate::counting::counted;
use crate::descent::{Descent, descend};
use crate::part::{
    Part, Zone, all_columns, derived_part, inner_part, left_part, push_member, push_test,
    some_columns, table_part, taken,
};
use std::alloc::Global;
use wt_ast::{Condition, Query};
use wt_plan::Plan;
use wt_schema::Schema;
use wt_value::{Cols, WantOfMemory};

/// A FROM item: a table, or a query in parentheses.
#[cycle(walk)]
fn item_part(
    alloc: Global,
    schema: &Schema,
    item: &Plan,
    next: &mut u64,
) -> Result<Part, WantOfMemory>
    requires item { IsItem (plan_tree item.now) }
    requires narrow { Narrow (plan_tree item.now) }
    requires cheap { cost (plan_tree item.now) < 2 ^ 62 }
    requires room { next.old + from_items (zone_of (plan_tree item.now)) < 2 ^ 62 }
    ensures from { IfOk result (λ p. trees.from_tree p.from.value ≡ spec.from_tree schema.now.tables next.old (zone_of (plan_tree item.now))) }
    ensures columns { IfOk result (λ p. scope_of_leaves schema.now.tables p.leaves.items ≡ spec.zone_columns schema.now.tables next.old (zone_of (plan_tree item.now))) }
    ensures next { OnOk result (next.new ≡ next.old + from_items (zone_of (plan_tree item.now))) }
{
    let number = taken(next);
    match item {
        Plan::Table(table, _) => table_part(alloc, schema, *table, number),
        Plan::Proj(cols, inner) => {
            let query = listed(alloc, schema, false, cols, inner, next)?;
            derived_part(alloc, query, item.width(), number)
        }
        Plan::Dedup(inner) => {
            let query = distinct_block(alloc, schema, inner, next)?;
            derived_part(alloc, query, item.width(), number)
        }
        _ => unreachable!(),
    }
}

/// What an operator makes of the part that its first operand is: it may add another operand, and conditions.
#[cycle(walk)]
fn above(
    alloc: Global,
    schema: &Schema,
    operator: &Plan,
    first: Part,
    next: &mut u64,
    behind: &mut u64,
    conditions: &mut Vec<Condition>,
) -> Result<Part, WantOfMemory>
    requires narrow { Narrow (plan_tree operator.now) }
    requires cheap { cost (plan_tree operator.now) < 2 ^ 62 }
    requires room { next.old + (added_items (plan_tree operator.now) + items_behind (plan_tree operator.now)) < 2 ^ 62 }
    requires behind { behind.old + items_behind (plan_tree operator.now) < 2 ^ 62 }
    ensures from { IfOk result (λ p. trees.from_tree p.from.value ≡ above_from schema.now.tables next.old (trees.from_tree first.from.value) (scope_of_leaves schema.now.tables first.leaves.items) (plan_tree operator.now)) }
    ensures columns { IfOk result (λ p. scope_of_leaves schema.now.tables p.leaves.items ≡ above_columns schema.now.tables next.old (scope_of_leaves schema.now.tables first.leaves.items) (plan_tree operator.now)) }
    ensures conditions { OnOk result (map condition_tree conditions.new.items ≡ map condition_tree conditions.old.items ++ added_conditions schema.now.tables next.old behind.old (scope_of_leaves schema.now.tables first.leaves.items) (plan_tree operator.now)) }
    ensures next { OnOk result (next.new ≡ next.old + added_items (plan_tree operator.now)) }
    ensures behind { OnOk result (behind.new ≡ behind.old + items_behind (plan_tree operator.now)) }
{
    match operator {
        Plan::Filter(pred, cols, _) => {
            push_test(alloc, schema, &first.leaves, cols, pred, conditions)?;
            Ok(first)
        }
        Plan::InSub(cols, _, right) => {
            let query = whole_block(alloc, schema, right, behind)?;
            push_member(alloc, schema, &first.leaves, cols, query, conditions)?;
            Ok(first)
        }
        Plan::InnerJoin(a, b, _, right) => {
            let other = part(alloc, schema, right, next, behind, conditions)?;
            inner_part(alloc, schema, a, b, first, other)
        }
        Plan::LeftJoin(a, b, _, right) => {
            let other = zone(alloc, schema, right, next)?;
            left_part(alloc, schema, a, b, first, other)
        }
        Plan::Table(_, _) | Plan::Proj(_, _) | Plan::Dedup(_) => Ok(first),
    }
}

/// The FROM clause of a zone, whose items are numbered from `next` on; its conditions are added, and the items in their
/// subqueries numbered from `behind` on.
#[cycle(walk)]
fn part(
    alloc: Global,
    schema: &Schema,
    plan: &Plan,
    next: &mut u64,
    behind: &mut u64,
    conditions: &mut Vec<Condition>,
) -> Result<Part, WantOfMemory>
    requires narrow { Narrow (plan_tree plan.now) }
    requires cheap { cost (plan_tree plan.now) < 2 ^ 62 }
    requires room { next.old + (from_items (zone_of (plan_tree plan.now)) + condition_items (zone_of (plan_tree plan.now))) < 2 ^ 62 }
    requires behind { behind.old + condition_items (zone_of (plan_tree plan.now)) < 2 ^ 62 }
    ensures from { IfOk result (λ p. trees.from_tree p.from.value ≡ spec.from_tree schema.now.tables next.old (zone_of (plan_tree plan.now))) }
    ensures columns { IfOk result (λ p. scope_of_leaves schema.now.tables p.leaves.items ≡ spec.zone_columns schema.now.tables next.old (zone_of (plan_tree plan.now))) }
    ensures conditions { OnOk result (map condition_tree conditions.new.items ≡ map condition_tree conditions.old.items ++ spec.condition_trees schema.now.tables next.old behind.old (zone_of (plan_tree plan.now))) }
    ensures next { OnOk result (next.new ≡ next.old + from_items (zone_of (plan_tree plan.now))) }
    ensures behind { OnOk result (behind.new ≡ behind.old + condition_items (zone_of (plan_tree plan.now))) }
{
    let Descent { operators, item } = descend(alloc, plan)?;
    let mut operators = operators;
    let mut built = item_part(alloc, schema, item, next)?;
    'operators: while let Some(operator) = operators.pop() {
        built = above(alloc, schema, operator, built, next, behind, conditions)?;
    }
    Ok(built)
}

/// A zone whose conditions stand directly behind its FROM clause.
#[cycle(walk)]
pub(crate) fn zone(
    alloc: Global,
    schema: &Schema,
    plan: &Plan,
    next: &mut u64,
) -> Result<Zone, WantOfMemory>
    requires narrow { Narrow (plan_tree plan.now) }
    requires cheap { cost (plan_tree plan.now) < 2 ^ 62 }
    requires room { next.old + (from_items (zone_of (plan_tree plan.now)) + condition_items (zone_of (plan_tree plan.now))) < 2 ^ 62 }
    ensures from { IfOk result (λ z. trees.from_tree z.from.value ≡ spec.from_tree schema.now.tables next.old (zone_of (plan_tree plan.now))) }
    ensures columns { IfOk result (λ z. scope_of_leaves schema.now.tables z.leaves.items ≡ spec.zone_columns schema.now.tables next.old (zone_of (plan_tree plan.now))) }
    ensures conditions { IfOk result (λ z. map condition_tree z.conditions.items ≡ spec.condition_trees schema.now.tables next.old (next.old + from_items (zone_of (plan_tree plan.now))) (zone_of (plan_tree plan.now))) }
    ensures next { OnOk result (next.new ≡ next.old + (from_items (zone_of (plan_tree plan.now)) + condition_items (zone_of (plan_tree plan.now)))) }
{
    let mut behind = *next + counted(plan).from;
    let mut conditions = Vec::new(alloc);
    let Part { from, leaves } = part(alloc, schema, plan, next, &mut behind, &mut conditions)?;
    *next = behind;
    Ok(Zone {
        from,
        leaves,
        conditions,
    })
}

/// `SELECT [DISTINCT] *` from a zone.
#[cycle(walk)]
pub(crate) fn starred(
    alloc: Global,
    schema: &Schema,
    once: bool,
    plan: &Plan,
    next: &mut u64,
) -> Result<Query, WantOfMemory>
    requires narrow { Narrow (plan_tree plan.now) }
    requires cheap { cost (plan_tree plan.now) < 2 ^ 62 }
    requires room { next.old + (from_items (zone_of (plan_tree plan.now)) + condition_items (zone_of (plan_tree plan.now))) < 2 ^ 62 }
    ensures tree { IfOk result (λ q. query_tree q ≡ spec.block_tree schema.now.tables next.old (block once None (zone_of (plan_tree plan.now)))) }
    ensures next { OnOk result (next.new ≡ next.old + (from_items (zone_of (plan_tree plan.now)) + condition_items (zone_of (plan_tree plan.now)))) }
{
    let zone = zone(alloc, schema, plan, next)?;
    all_columns(alloc, once, zone)
}

/// `SELECT [DISTINCT]` of columns from a zone.
#[cycle(walk)]
fn listed(
    alloc: Global,
    schema: &Schema,
    once: bool,
    cols: &Cols,
    plan: &Plan,
    next: &mut u64,
) -> Result<Query, WantOfMemory>
    requires narrow { Narrow (plan_tree plan.now) }
    requires cheap { cost (plan_tree plan.now) < 2 ^ 62 }
    requires room { next.old + (from_items (zone_of (plan_tree plan.now)) + condition_items (zone_of (plan_tree plan.now))) < 2 ^ 62 }
    ensures tree { IfOk result (λ q. query_tree q ≡ spec.block_tree schema.now.tables next.old (block once (Some cols.now) (zone_of (plan_tree plan.now)))) }
    ensures next { OnOk result (next.new ≡ next.old + (from_items (zone_of (plan_tree plan.now)) + condition_items (zone_of (plan_tree plan.now)))) }
{
    let zone = zone(alloc, schema, plan, next)?;
    some_columns(alloc, schema, once, cols, zone)
}

/// The distinct rows of a plan.
#[tactic(auto, using(crate::proofs::Counts::counting))]
#[cycle(walk)]
fn distinct_block(
    alloc: Global,
    schema: &Schema,
    plan: &Plan,
    next: &mut u64,
) -> Result<Query, WantOfMemory>
    requires narrow { Narrow (plan_tree plan.now) }
    requires cheap { cost (plan_tree plan.now) < 2 ^ 62 }
    requires room { next.old + block_items (distinct (plan_block (plan_tree plan.now))) < 2 ^ 62 }
    ensures tree { IfOk result (λ q. query_tree q ≡ spec.block_tree schema.now.tables next.old (distinct (plan_block (plan_tree plan.now)))) }
    ensures next { OnOk result (next.new ≡ next.old + block_items (distinct (plan_block (plan_tree plan.now)))) }
{
    match plan {
        Plan::Proj(cols, inner) => listed(alloc, schema, true, cols, inner, next),
        _ => starred(alloc, schema, true, plan, next),
    }
}

/// The block of a plan.
#[cycle(walk)]
fn whole_block(
    alloc: Global,
    schema: &Schema,
    plan: &Plan,
    next: &mut u64,
) -> Result<Query, WantOfMemory>
    requires narrow { Narrow (plan_tree plan.now) }
    requires cheap { cost (plan_tree plan.now) < 2 ^ 62 }
    requires room { next.old + block_items (plan_block (plan_tree plan.now)) < 2 ^ 62 }
    ensures tree { IfOk result (λ q. query_tree q ≡ spec.block_tree schema.now.tables next.old (plan_block (plan_tree plan.now))) }
    ensures next { OnOk result (next.new ≡ next.old + block_items (plan_block (plan_tree plan.now))) }
{
    match plan {
        Plan::Proj(cols, inner) => listed(alloc, schema, false, cols, inner, next),
        Plan::Dedup(inner) => distinct_block(alloc, schema, inner, next),
        _ => starred(alloc, schema, false, plan, next),
    }
}
