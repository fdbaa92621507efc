//! Operands of joins and of comma lists.
ghost use Rattle.std.specs.Prelude.{◌≡◌, ◌<◌, ◌+◌, ◌^◌, ◌++◌, ◌∷◌, [], None, length, IfOk};
ghost use Rattle.wt_ast.specs.Tree.{condition_tree, from_tree};
ghost use Rattle.wt_plan.specs.Regular.{upto};
ghost use Rattle.wt_plan.specs.Tree.{plan_tree};
ghost use Rattle.wt_query_plan.specs.Faults as faults;
ghost use Rattle.wt_query_plan.specs.Faults.{first_of, fault_if, conjunct_places};
ghost use Rattle.wt_query_plan.specs.declared.fault.BuildFault.TheVariants.{NoJoinEquality};
ghost use Rattle.wt_query_plan.specs.Telling.{Tells};
ghost use Rattle.wt_conjunct.specs.Views.{conjunct_trees, is_on};
ghost use Rattle.wt_conjunct.specs.declared.stack.Side.TheVariants as sides;
ghost use Rattle.wt_joins.specs.Parts.{operand, inner_operand, left_operand, right_operand, part_tree, part_trees, Within};
ghost use Rattle.wt_joins.specs.Commas.{list_operand, list_width, AllWithin};
ghost use Rattle.wt_clause.specs.Lists.{IsList};
ghost use Rattle.wt_from.specs.Joins.{padded_by, joined_operand, join_fault};

use std::alloc::Global;
use wt_ast::{Condition, FromPart};
use wt_conjunct::{Conjunct, Side};
use wt_joins::{
    Comma, CommaList, Part, inner_part, joined_list, left_part, offsets, outer_told, paired,
    right_part,
};
use wt_plan::Plan;
use wt_query_plan::BuildError;
use wt_select::upto;
use wt_value::WantOfMemory;

/// A list of one operand.
fn alone(alloc: Global, part: Part) -> CommaList
    ensures { IsList (part_tree part) [] [] result }
{
    CommaList {
        first: part,
        others: Vec::new(alloc),
        commas: Vec::new(alloc),
    }
}

/// A table or a derived table of so many columns.
fn leaf(alloc: Global, plan: Plan, columns: u32) -> Result<Part, WantOfMemory>
    ensures { IfOk result (λ p. part_tree p ≡ operand (plan_tree plan) (upto columns)) }
{
    let places = upto(alloc, columns)?;
    Ok(Part { plan, places })
}

/// A table or a derived table.
pub fn leaf_list(alloc: Global, plan: Plan, columns: u32) -> Result<CommaList, BuildError>
    ensures { Tells None (IsList (operand (plan_tree plan) (upto columns)) [] []) result }
{
    let part = leaf(alloc, plan, columns)?;
    Ok(alone(alloc, part))
}

/// The operands of a list, joined with no conjuncts.
pub fn single(alloc: Global, list: CommaList) -> Result<Part, BuildError>
    requires narrow { list_width (part_tree list.first) (part_trees list.others.items) < 2 ^ 32 }
    requires within { AllWithin (part_trees list.others.items) }
    ensures { Tells None (λ p. part_tree p ≡ list_operand [] (part_tree list.first) (part_trees list.others.items)) result }
{
    joined_list(alloc, list.first, list.others, &[])
}

/// An inner join.
fn inner_list(
    alloc: Global,
    left: Part,
    right: Part,
    conjuncts: Vec<Conjunct>,
    at: u32,
) -> Result<CommaList, BuildError>
    requires narrow { length left.places.items + length right.places.items < 2 ^ 32 }
    requires within { Within right.places.items }
    ensures { Tells (fault_if (faults.unpaired (length left.places.items) (conjunct_trees conjuncts.items)) NoJoinEquality at) (IsList (inner_operand (conjunct_trees conjuncts.items) (part_tree left) (part_tree right)) [] []) result }
{
    paired(left.places.len() as u32, &conjuncts, at)?;
    let part = inner_part(alloc, left, right, conjuncts)?;
    Ok(alone(alloc, part))
}

/// Refuses an outer join, whose left operand has n columns.
fn told(
    alloc: Global,
    padded: Side,
    n: usize,
    conjuncts: &[Conjunct],
    on: &Condition,
    at: u32,
) -> Result<(), BuildError>
    requires narrow { n < 2 ^ 32 }
    ensures { Tells (first_of (faults.outer_fault (is_on padded n) n (conjunct_trees conjuncts.now) (conjunct_places (condition_tree on.now))) (fault_if (faults.unpaired n (conjunct_trees conjuncts.now)) NoJoinEquality at)) (λ _. Unit {0}) result }
{
    let found = offsets(alloc, on)?;
    outer_told(alloc, padded, n as u32, conjuncts, &found, at)
}

/// A LEFT JOIN.
fn left_list(
    alloc: Global,
    left: Part,
    right: Part,
    conjuncts: Vec<Conjunct>,
    on: &Condition,
    at: u32,
) -> Result<CommaList, BuildError>
    requires narrow { length left.places.items + length right.places.items < 2 ^ 32 }
    requires within { Within right.places.items }
    requires many { length (conjunct_places (condition_tree on.now)) ≡ length (conjunct_trees conjuncts.items) }
    ensures { Tells (first_of (faults.outer_fault (is_on sides.Right (length left.places.items)) (length left.places.items) (conjunct_trees conjuncts.items) (conjunct_places (condition_tree on.now))) (fault_if (faults.unpaired (length left.places.items) (conjunct_trees conjuncts.items)) NoJoinEquality at))
        (IsList (left_operand (conjunct_trees conjuncts.items) (part_tree left) (part_tree right)) [] []) result }
{
    told(alloc, Side::Right, left.places.len(), &conjuncts, on, at)?;
    let part = left_part(alloc, left, right, conjuncts)?;
    Ok(alone(alloc, part))
}

/// A RIGHT JOIN.
fn right_list(
    alloc: Global,
    left: Part,
    right: Part,
    conjuncts: Vec<Conjunct>,
    on: &Condition,
    at: u32,
) -> Result<CommaList, BuildError>
    requires narrow { length left.places.items + length right.places.items < 2 ^ 32 }
    requires within { Within left.places.items }
    ensures { Tells (first_of (faults.outer_fault (is_on sides.Left (length left.places.items)) (length left.places.items) (conjunct_trees conjuncts.items) (conjunct_places (condition_tree on.now))) (fault_if (faults.unpaired (length left.places.items) (conjunct_trees conjuncts.items)) NoJoinEquality at))
        (IsList (right_operand (conjunct_trees conjuncts.items) (part_tree left) (part_tree right)) [] []) result }
{
    told(alloc, Side::Left, left.places.len(), &conjuncts, on, at)?;
    let part = right_part(alloc, left, right, conjuncts)?;
    Ok(alone(alloc, part))
}

/// The operand that a join pads with NULLs.
pub fn padded(join: &FromPart) -> Option<Side>
    ensures { result ≡ padded_by (from_tree join.now) }
{
    match join {
        FromPart::Left { .. } => Some(Side::Right),
        FromPart::Right { .. } => Some(Side::Left),
        FromPart::Inner { .. } => None,
        FromPart::Comma { .. } | FromPart::Table { .. } | FromPart::Derived { .. } => None,
    }
}

/// A join, by the operand that it pads with NULLs.
pub fn join_list(
    alloc: Global,
    padded: Option<Side>,
    left: Part,
    right: Part,
    conjuncts: Vec<Conjunct>,
    on: &Condition,
    at: u32,
) -> Result<CommaList, BuildError>
    requires narrow { length left.places.items + length right.places.items < 2 ^ 32 }
    requires left { Within left.places.items }
    requires right { Within right.places.items }
    requires many { length (conjunct_places (condition_tree on.now)) ≡ length (conjunct_trees conjuncts.items) }
    ensures { Tells (join_fault padded (length left.places.items) (conjunct_trees conjuncts.items) (conjunct_places (condition_tree on.now)) at)
        (IsList (joined_operand padded (conjunct_trees conjuncts.items) (part_tree left) (part_tree right)) [] []) result }
{
    match padded {
        None => inner_list(alloc, left, right, conjuncts, at),
        Some(Side::Right) => left_list(alloc, left, right, conjuncts, on, at),
        Some(Side::Left) => right_list(alloc, left, right, conjuncts, on, at),
    }
}

/// A list with one operand more behind a comma.
pub fn longer(list: CommaList, right: Part, comma: Comma) -> Result<CommaList, BuildError>
    ensures { Tells None (IsList (part_tree list.first) (part_trees list.others.items ++ part_tree right ∷ []) (list.commas.items ++ comma ∷ [])) result }
{
    let CommaList {
        first,
        mut others,
        mut commas,
    } = list;
    others.push(right)?;
    commas.push(comma)?;
    Ok(CommaList {
        first,
        others,
        commas,
    })
}
