//! What stands above the FROM clause: conditions, the select list, DISTINCT.
ghost use Rattle.std.specs.Prelude.{◌≡◌, ◌<◌, ◌^◌, None, length, map};
ghost use Rattle.wt_ast.specs.Tree.{from_tree};
ghost use Rattle.wt_plan.specs.Tree.{plan_tree};
ghost use Rattle.wt_plan.specs.Tree as plans;
ghost use Rattle.wt_query_plan.specs.Building as spec;
ghost use Rattle.wt_query_plan.specs.Telling.{Tells};
ghost use Rattle.wt_conjunct.specs.Views.{conjunct_trees};
ghost use Rattle.wt_joins.specs.Parts.{part_tree, part_trees};
ghost use Rattle.wt_joins.specs.Commas.{free_at, list_operand, list_width, AllWithin};
ghost use Rattle.wt_joins.specs.Wholes.{whole};

use crate::commas::{CommaList, freed, joined_list};
use crate::part::Part;
use std::alloc::Global;
use wt_ast::{FromPart, Item};
use wt_conjunct::{Conjunct, at_places, stacked};
use wt_plan::Plan;
use wt_query_plan::BuildError;
use wt_value::Cols;

/// Whether a RIGHT JOIN stands in the clause, outside its derived tables.
pub fn has_right(from: &FromPart) -> bool
    ensures { result ≡ spec.has_right (from_tree from.now) }
{
    match from {
        FromPart::Table { .. } | FromPart::Derived { .. } => false,
        FromPart::Inner { left, right, .. } => has_right(left) || has_right(right),
        FromPart::Left { left, right, .. } => has_right(left) || has_right(right),
        FromPart::Right { .. } => true,
        FromPart::Comma { left, right, .. } => has_right(left) || has_right(right),
    }
}

/// Whether the select list is `*` alone.
pub fn is_sole_star(items: &[Item]) -> bool
    ensures { result ≡ spec.is_sole_star items.now }
{
    match items {
        [Item::Star { .. }] => true,
        _ => false,
    }
}

fn projected(alloc: Global, cols: Cols, plan: Plan) -> Result<Plan, BuildError>
    ensures { Tells None (λ p. plan_tree p ≡ plans.proj cols (plan_tree plan)) result }
{
    Ok(Plan::Proj(cols, Box::new(alloc, plan)?))
}

/// The select list over a plan.
fn listed(
    alloc: Global,
    whole: bool,
    places: &[u32],
    cols: &[u32],
    plan: Plan,
) -> Result<Plan, BuildError>
    requires narrow { length places.now < 2 ^ 32 }
    ensures { Tells None (λ p. plan_tree p ≡ spec.listed whole (map (spec.at_place places.now) cols.now) (plan_tree plan)) result }
{
    if whole {
        return Ok(plan);
    }
    let at = at_places(alloc, places, cols)?;
    projected(alloc, at, plan)
}

fn deduped(alloc: Global, distinct: bool, plan: Plan) -> Result<Plan, BuildError>
    ensures { Tells None (λ p. plan_tree p ≡ spec.deduped distinct (plan_tree plan)) result }
{
    if distinct {
        Ok(Plan::Dedup(Box::new(alloc, plan)?))
    } else {
        Ok(plan)
    }
}

/// The plan of a query: its FROM clause, the WHERE conjuncts that link no comma, the select list, which is left out where it
/// is all columns as they stand, and DISTINCT.
pub fn assembled(
    alloc: Global,
    list: CommaList,
    conjuncts: Vec<Conjunct>,
    sole: bool,
    cols: &[u32],
    distinct: bool,
) -> Result<Plan, BuildError>
    requires narrow { list_width (part_tree list.first) (part_trees list.others.items) < 2 ^ 32 }
    requires within { AllWithin (part_trees list.others.items) }
    ensures { Tells None (λ p. plan_tree p ≡ whole distinct sole cols.now (free_at list.commas.items (conjunct_trees conjuncts.items)) (list_operand (conjunct_trees conjuncts.items) (part_tree list.first) (part_trees list.others.items))) result }
{
    let CommaList {
        first,
        others,
        commas,
    } = list;
    let part = joined_list(alloc, first, others, &conjuncts)?;
    let free = freed(alloc, &commas, conjuncts)?;
    let Part { plan, places } = part;
    let plan = stacked(alloc, &places, free, plan)?;
    let plan = listed(alloc, sole, &places, cols, plan)?;
    deduped(alloc, distinct, plan)
}
