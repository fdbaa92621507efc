//! The plans of joins, and what is refused of their conditions.
ghost use Rattle.std.specs.Prelude.{◌≡◌, ◌≤◌, ◌<◌, ◌^◌, None, not, length, IfOk};
ghost use Rattle.std.specs.List.{list_all, list_any};
ghost use Rattle.wt_bag.specs.Bags.{Each};
ghost use Rattle.wt_plan.specs.Tree.{plan_tree};
ghost use Rattle.wt_plan.specs.Tree as plans;
ghost use Rattle.wt_query_plan.specs.Building as spec;
ghost use Rattle.wt_query_plan.specs.Faults as faults;
ghost use Rattle.wt_query_plan.specs.Telling.{Tells};
ghost use Rattle.wt_conjunct.specs.Views.{conjunct_tree, conjunct_trees, is_on};

use crate::stack::{
    Conjunct, Side, Sorted, are_on, columns_of, firsts_at, pair_of, seconds_at, some_on, sorted_by,
    stacked, stacked_right,
};
use std::alloc::Global;
use wt_plan::Plan;
use wt_query_plan::{BuildError, BuildFault};
use wt_value::{Cols, WantOfMemory};

/// The operands of a join: how many columns the left one has in scope, where the columns of each stand in its plan's rows,
/// and the plans.
#[derive(Drop)]
pub struct Operands<'a> {
    pub n: u32,
    pub lefts: &'a [u32],
    pub rights: &'a [u32],
    pub left: Plan,
    pub right: Plan,
}

fn inner_joined(
    alloc: Global,
    a: Cols,
    b: Cols,
    left: Plan,
    right: Plan,
) -> Result<Plan, BuildError>
    ensures { Tells None (λ p. plan_tree p ≡ plans.inner_join a b (plan_tree left) (plan_tree right)) result }
{
    let (left, right) = (Box::new(alloc, left)?, Box::new(alloc, right)?);
    Ok(Plan::InnerJoin(a, b, left, right))
}

fn left_joined(alloc: Global, a: Cols, b: Cols, left: Plan, right: Plan) -> Result<Plan, BuildError>
    ensures { Tells None (λ p. plan_tree p ≡ plans.left_join a b (plan_tree left) (plan_tree right)) result }
{
    let (left, right) = (Box::new(alloc, left)?, Box::new(alloc, right)?);
    Ok(Plan::LeftJoin(a, b, left, right))
}

/// An inner join: its other conjuncts stand above it, over the places of both operands.
pub fn inner_plan(
    alloc: Global,
    operands: Operands,
    places: &[u32],
    conjuncts: Vec<Conjunct>,
) -> Result<Plan, BuildError>
    requires lefts { length operands.lefts.now < 2 ^ 32 }
    requires rights { length operands.rights.now < 2 ^ 32 }
    requires places { length places.now < 2 ^ 32 }
    ensures { Tells None (λ p. plan_tree p ≡ spec.inner_of operands.entry.n operands.entry.lefts.now operands.entry.rights.now places.now (conjunct_trees conjuncts.items) (plan_tree operands.entry.left) (plan_tree operands.entry.right)) result }
{
    let Operands {
        n,
        lefts,
        rights,
        left,
        right,
    } = operands;
    let Sorted { pairs, others } = sorted_by(alloc, n, conjuncts)?;
    let a = firsts_at(alloc, lefts, &pairs)?;
    let b = seconds_at(alloc, rights, &pairs)?;
    let join = inner_joined(alloc, a, b, left, right)?;
    stacked(alloc, places, others, join)
}

/// A LEFT JOIN: its other conjuncts, which are on right columns alone, stand above the right operand.
pub fn left_plan(
    alloc: Global,
    operands: Operands,
    conjuncts: Vec<Conjunct>,
) -> Result<Plan, BuildError>
    requires lefts { length operands.lefts.now < 2 ^ 32 }
    requires rights { length operands.rights.now < 2 ^ 32 }
    requires right { Each (λ j. Each (λ k. operands.n ≤ k) (spec.conjunct_columns j)) (spec.others_of operands.n (conjunct_trees conjuncts.items)) }
    ensures { Tells None (λ p. plan_tree p ≡ spec.left_of operands.entry.n operands.entry.lefts.now operands.entry.rights.now (conjunct_trees conjuncts.items) (plan_tree operands.entry.left) (plan_tree operands.entry.right)) result }
{
    let Operands {
        n,
        lefts,
        rights,
        left,
        right,
    } = operands;
    let Sorted { pairs, others } = sorted_by(alloc, n, conjuncts)?;
    let a = firsts_at(alloc, lefts, &pairs)?;
    let b = seconds_at(alloc, rights, &pairs)?;
    let right = stacked_right(alloc, rights, n, others, right)?;
    left_joined(alloc, a, b, left, right)
}

/// A RIGHT JOIN, which keeps the right operand: its other conjuncts, which are on left columns alone, stand above the left
/// one.
pub fn right_plan(
    alloc: Global,
    operands: Operands,
    conjuncts: Vec<Conjunct>,
) -> Result<Plan, BuildError>
    requires lefts { length operands.lefts.now < 2 ^ 32 }
    requires rights { length operands.rights.now < 2 ^ 32 }
    ensures { Tells None (λ p. plan_tree p ≡ spec.right_of operands.entry.n operands.entry.lefts.now operands.entry.rights.now (conjunct_trees conjuncts.items) (plan_tree operands.entry.left) (plan_tree operands.entry.right)) result }
{
    let Operands {
        n,
        lefts,
        rights,
        left,
        right,
    } = operands;
    let Sorted { pairs, others } = sorted_by(alloc, n, conjuncts)?;
    let a = seconds_at(alloc, rights, &pairs)?;
    let b = firsts_at(alloc, lefts, &pairs)?;
    let left = stacked(alloc, lefts, others, left)?;
    left_joined(alloc, a, b, right, left)
}

/// Whether some conjunct is an equality of a left and a right column.
pub fn has_pair(n: u32, conjuncts: &[Conjunct]) -> bool
    ensures { result ≡ not (faults.unpaired n (conjunct_trees conjuncts.now)) }
{
    let mut i = 0;
    'conjuncts: while i < conjuncts.len() {
        if pair_of(n, &conjuncts[i]).is_some() {
            return true;
        }
        i += 1;
    }
    false
}

/// Whether all columns of the conjunct are those of one operand.
pub fn is_on_alone(
    alloc: Global,
    side: Side,
    n: u32,
    conjunct: &Conjunct,
) -> Result<bool, WantOfMemory>
    ensures { IfOk result (λ yes. yes ≡ list_all (is_on side n) (spec.conjunct_columns (conjunct_tree conjunct.now))) }
{
    let cols = columns_of(alloc, conjunct)?;
    Ok(are_on(side, n, cols.as_slice()))
}

fn touches(alloc: Global, side: Side, n: u32, conjunct: &Conjunct) -> Result<bool, WantOfMemory>
    ensures { IfOk result (λ yes. yes ≡ list_any (is_on side n) (spec.conjunct_columns (conjunct_tree conjunct.now))) }
{
    let cols = columns_of(alloc, conjunct)?;
    Ok(some_on(side, n, cols.as_slice()))
}

/// Refuses a conjunct that is no pair and not on columns of the padded operand alone.
fn outer_one(
    alloc: Global,
    padded: Side,
    n: u32,
    conjunct: &Conjunct,
    at: u32,
) -> Result<(), BuildError>
    ensures { Tells (faults.outer_one (is_on padded n) n (conjunct_tree conjunct.now) at) (λ _. Unit {0}) result }
{
    if pair_of(n, conjunct).is_some() || is_on_alone(alloc, padded, n, conjunct)? {
        Ok(())
    } else if touches(alloc, padded, n, conjunct)? {
        Err(BuildError::Refused(BuildFault::OnMixedCondition, at))
    } else {
        Err(BuildError::Refused(BuildFault::OnLeftCondition, at))
    }
}

/// Refuses the first conjunct that is no pair and not on columns of the padded operand alone.
pub fn outer_fault(
    alloc: Global,
    padded: Side,
    n: u32,
    mut conjuncts: &[Conjunct],
    mut at: &[u32],
) -> Result<(), BuildError>
    ensures { Tells (faults.outer_fault (is_on padded n) n (conjunct_trees conjuncts.entry.now) at.entry.now) (λ _. Unit {0}) result }
{
    'conjuncts: while let [conjunct, more @ ..] = conjuncts {
        let [place, places @ ..] = at else {
            return Ok(());
        };
        outer_one(alloc, padded, n, conjunct, *place)?;
        conjuncts = more;
        at = places;
    }
    Ok(())
}
