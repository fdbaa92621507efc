//! An operand of FROM, and the joins of two.
ghost use Rattle.std.specs.Prelude.{◌≡◌, ◌≤◌, ◌<◌, ◌+◌, ◌^◌, ◌++◌, None, length, map, IfOk, OnOk};
ghost use Rattle.std.specs.List.{All};
ghost use Rattle.wt_bag.specs.Bags.{Each};
ghost use Rattle.wt_plan.specs.Tree.{plan_tree};
ghost use Rattle.wt_plan.specs.Tree as plans;
ghost use Rattle.wt_query_plan.specs.Building as spec;
ghost use Rattle.wt_query_plan.specs.Faults as faults;
ghost use Rattle.wt_query_plan.specs.Faults.{first_of, fault_if};
ghost use Rattle.wt_query_plan.specs.declared.fault.BuildFault.TheVariants.{NoJoinEquality};
ghost use Rattle.wt_query_plan.specs.Telling.{Tells};
ghost use Rattle.wt_conjunct.specs.Views.{conjunct_trees, is_on};
ghost use Rattle.wt_joins.specs.Parts.{onward, backward, inner_operand, left_operand, right_operand, part_tree, Within};

use std::alloc::Global;
use wt_conjunct::{
    Conjunct, Operands, Side, has_pair, inner_plan, left_plan, outer_fault, right_plan,
};
use wt_plan::Plan;
use wt_query_plan::{BuildError, BuildFault};
use wt_value::{Cols, WantOfMemory};

/// An operand of FROM: its plan, and where its columns, in the order of the text, stand in the plan's rows.
#[derive(Drop)]
pub struct Part {
    pub plan: Plan,
    pub places: Vec<u32>,
}

/// Adds the places, each so many further.
pub fn push_moved(n: u32, places: &[u32], out: &mut Vec<u32>) -> Result<(), WantOfMemory>
    requires { All (λ k. n + k < 2 ^ 32) places.now }
    ensures { OnOk result (out.new.items ≡ out.old.items ++ map (λ k. n + k) places.now) }
{
    for place in places {
        out.push(n + *place)?;
    }
    Ok(())
}

/// Refuses a join that has no equality of a left and a right column.
pub fn paired(n: u32, conjuncts: &[Conjunct], at: u32) -> Result<(), BuildError>
    ensures { Tells (fault_if (faults.unpaired n (conjunct_trees conjuncts.now)) NoJoinEquality at) (λ _. Unit {0}) result }
{
    if has_pair(n, conjuncts) {
        Ok(())
    } else {
        Err(BuildError::Refused(BuildFault::NoJoinEquality, at))
    }
}

/// Refuses a LEFT or RIGHT JOIN with a conjunct that is no pair and not on columns of the padded operand alone, or without a
/// pair.
pub fn outer_told(
    alloc: Global,
    padded: Side,
    n: u32,
    conjuncts: &[Conjunct],
    offsets: &[u32],
    at: u32,
) -> Result<(), BuildError>
    ensures { Tells (first_of (faults.outer_fault (is_on padded n) n (conjunct_trees conjuncts.now) offsets.now) (fault_if (faults.unpaired n (conjunct_trees conjuncts.now)) NoJoinEquality at)) (λ _. Unit {0}) result }
{
    outer_fault(alloc, padded, n, conjuncts, offsets)?;
    paired(n, conjuncts, at)
}

/// The plans of two operands, joined by places.
pub fn joined_by(
    alloc: Global,
    a: Cols,
    b: Cols,
    left: Plan,
    right: Plan,
) -> Result<Plan, WantOfMemory>
    ensures { IfOk result (λ p. plan_tree p ≡ plans.inner_join a b (plan_tree left) (plan_tree right)) }
{
    let (left, right) = (Box::new(alloc, left)?, Box::new(alloc, right)?);
    Ok(Plan::InnerJoin(a, b, left, right))
}

/// The places of a join in whose plan the left operand stands first.
fn onward_places(alloc: Global, lefts: &[u32], rights: &[u32]) -> Result<Vec<u32>, WantOfMemory>
    requires far { All (λ k. length lefts.now + k < 2 ^ 32) rights.now }
    requires narrow { length lefts.now < 2 ^ 32 }
    ensures { IfOk result (λ places. places.items ≡ onward lefts.now rights.now) }
{
    let mut places = Vec::from_slice(alloc, lefts)?;
    push_moved(lefts.len() as u32, rights, &mut places)?;
    Ok(places)
}

/// An inner join.
pub fn inner_part(
    alloc: Global,
    left: Part,
    right: Part,
    conjuncts: Vec<Conjunct>,
) -> Result<Part, BuildError>
    requires narrow { length left.places.items + length right.places.items < 2 ^ 32 }
    requires within { Within right.places.items }
    ensures { Tells None (λ p. part_tree p ≡ inner_operand (conjunct_trees conjuncts.items) (part_tree left) (part_tree right)) result }
{
    let Part {
        plan: one,
        places: lefts,
    } = left;
    let Part {
        plan: other,
        places: rights,
    } = right;
    let places = onward_places(alloc, &lefts, &rights)?;
    let operands = Operands {
        n: lefts.len() as u32,
        lefts: &lefts,
        rights: &rights,
        left: one,
        right: other,
    };
    let plan = inner_plan(alloc, operands, &places, conjuncts)?;
    Ok(Part { plan, places })
}

/// A LEFT JOIN.
pub fn left_part(
    alloc: Global,
    left: Part,
    right: Part,
    conjuncts: Vec<Conjunct>,
) -> Result<Part, BuildError>
    requires narrow { length left.places.items + length right.places.items < 2 ^ 32 }
    requires within { Within right.places.items }
    requires right { Each (λ j. Each (λ k. length left.places.items ≤ k) (spec.conjunct_columns j)) (spec.others_of (length left.places.items) (conjunct_trees conjuncts.items)) }
    ensures { Tells None (λ p. part_tree p ≡ left_operand (conjunct_trees conjuncts.items) (part_tree left) (part_tree right)) result }
{
    let Part {
        plan: one,
        mut places,
    } = left;
    let Part {
        plan: other,
        places: rights,
    } = right;
    let n = places.len() as u32;
    let operands = Operands {
        n,
        lefts: &places,
        rights: &rights,
        left: one,
        right: other,
    };
    let plan = left_plan(alloc, operands, conjuncts)?;
    push_moved(n, &rights, &mut places)?;
    Ok(Part { plan, places })
}

/// The places of a RIGHT JOIN, in whose plan the right operand stands first.
fn backward_places(alloc: Global, lefts: &[u32], rights: &[u32]) -> Result<Vec<u32>, WantOfMemory>
    requires far { All (λ k. length rights.now + k < 2 ^ 32) lefts.now }
    requires narrow { length rights.now < 2 ^ 32 }
    ensures { IfOk result (λ places. places.items ≡ backward lefts.now rights.now) }
{
    let mut places = Vec::new(alloc);
    push_moved(rights.len() as u32, lefts, &mut places)?;
    places.extend_from_slice(rights)?;
    Ok(places)
}

/// A RIGHT JOIN.
pub fn right_part(
    alloc: Global,
    left: Part,
    right: Part,
    conjuncts: Vec<Conjunct>,
) -> Result<Part, BuildError>
    requires narrow { length left.places.items + length right.places.items < 2 ^ 32 }
    requires within { Within left.places.items }
    ensures { Tells None (λ p. part_tree p ≡ right_operand (conjunct_trees conjuncts.items) (part_tree left) (part_tree right)) result }
{
    let Part {
        plan: one,
        places: lefts,
    } = left;
    let Part {
        plan: other,
        places: rights,
    } = right;
    let places = backward_places(alloc, &lefts, &rights)?;
    let operands = Operands {
        n: lefts.len() as u32,
        lefts: &lefts,
        rights: &rights,
        left: one,
        right: other,
    };
    let plan = right_plan(alloc, operands, conjuncts)?;
    Ok(Part { plan, places })
}
