//! The conditions of a zone, apart from the operands that they stand on.
ghost use Rattle.std.specs.Prelude.{◌≡◌, ◌+◌, ◌-◌, ◌^◌, ◌<◌, min, nat_lt, not, map, filter, IfOk, OnOk, ◌++◌, [], ◌∷◌};
ghost use Rattle.std.specs.List.{list_all};
ghost use Rattle.wt_bag.specs.Bags.{Each};
ghost use Rattle.wt_pred.specs.Tree.{pred_tree};
ghost use Rattle.wt_plan.specs.Tree.{plan_tree};
ghost use Rattle.wt_place.specs.Placing as spec;
ghost use Rattle.wt_place.specs.Views.{condition_tree, condition_trees, all_of};

use std::alloc::Global;
use wt_plan::{Plan, WantOfMemory};
use wt_pred::Pred;
use wt_value::Cols;

/// A condition over columns: a predicate, or a plan one of whose rows has to match.
#[derive(Drop)]
pub(crate) enum Condition {
    Test(Pred, Cols),
    Member(Cols, Plan),
}

/// An operand of a join.
#[derive(Clone, Copy)]
pub(crate) enum Side {
    Left,
    Right,
}

/// Conditions that pass a test, and the others, both in order.
#[derive(Drop)]
pub(crate) struct Split {
    pub inside: Vec<Condition>,
    pub outside: Vec<Condition>,
}

/// The condition over the plan.
fn put(alloc: Global, condition: Condition, plan: Plan) -> Result<Plan, WantOfMemory>
    ensures { IfOk result (λ p. plan_tree p ≡ spec.put (condition_tree condition) (plan_tree plan)) }
{
    let plan = Box::new(alloc, plan)?;
    match condition {
        Condition::Test(pred, cols) => Ok(Plan::Filter(pred, cols, plan)),
        Condition::Member(cols, right) => {
            let right = Box::new(alloc, right)?;
            Ok(Plan::InSub(cols, plan, right))
        }
    }
}

/// The conditions over the plan, the first one lowest.
pub(crate) fn stand(
    alloc: Global,
    conditions: Vec<Condition>,
    mut plan: Plan,
) -> Result<Plan, WantOfMemory>
    ensures { IfOk result (λ p. plan_tree p ≡ spec.stand (condition_trees conditions.items) (plan_tree plan)) }
{
    for condition in conditions {
        plan = put(alloc, condition, plan)?;
    }
    Ok(plan)
}

/// The columns counted from as many less, none below 0.
fn lowered_columns(alloc: Global, cols: &Cols, width: u32) -> Result<Cols, WantOfMemory>
    ensures { IfOk result (λ lower. lower ≡ map (λ k. k - width) cols.now) }
{
    let mut lower = Cols::new(alloc);
    for k in cols.as_slice() {
        lower.push(k.saturating_sub(width))?;
    }
    Ok(lower)
}

/// The columns counted from as many more; one that would pass the greatest number stands there.
fn raised_at_most(alloc: Global, cols: &Cols, shift: u32) -> Result<Cols, WantOfMemory>
    ensures { IfOk result (λ higher. higher ≡ map (λ k. min (2 ^ 32 - 1) (shift + k)) cols.now) }
{
    let mut higher = Cols::new(alloc);
    for k in cols.as_slice() {
        higher.push(shift.saturating_add(*k))?;
    }
    Ok(higher)
}

/// The columns counted from as many more.
fn raised_columns(alloc: Global, cols: &Cols, shift: u32) -> Result<Cols, WantOfMemory>
    requires { Each (λ k. shift + k < 2 ^ 32) cols.now }
    ensures { IfOk result (λ higher. higher ≡ map (λ k. shift + k) cols.now) }
{
    raised_at_most(alloc, cols, shift)
}

/// Adds a predicate over columns, counted from as many more.
pub(crate) fn add_test(
    alloc: Global,
    pred: Pred,
    cols: &Cols,
    shift: u32,
    out: &mut Vec<Condition>,
) -> Result<(), WantOfMemory>
    requires { Each (λ k. shift + k < 2 ^ 32) cols.now }
    ensures { OnOk result (condition_trees out.new.items ≡ condition_trees out.old.items ++ spec.moved (λ k. shift + k) (spec.test (pred_tree pred) cols.now) ∷ []) }
{
    out.push(Condition::Test(pred, raised_columns(alloc, cols, shift)?))?;
    Ok(())
}

/// Adds columns, counted from as many more, that have to match a row of the plan.
pub(crate) fn add_member(
    alloc: Global,
    cols: &Cols,
    plan: Plan,
    shift: u32,
    out: &mut Vec<Condition>,
) -> Result<(), WantOfMemory>
    requires { Each (λ k. shift + k < 2 ^ 32) cols.now }
    ensures { OnOk result (condition_trees out.new.items ≡ condition_trees out.old.items ++ spec.moved (λ k. shift + k) (spec.member cols.now (plan_tree plan)) ∷ []) }
{
    out.push(Condition::Member(raised_columns(alloc, cols, shift)?, plan))?;
    Ok(())
}

/// The condition over the right operand of a join alone, whose left one has this width.
fn lowered(alloc: Global, condition: Condition, width: u32) -> Result<Condition, WantOfMemory>
    ensures { IfOk result (λ c. condition_tree c ≡ spec.moved (λ k. k - width) (condition_tree condition)) }
{
    match condition {
        Condition::Test(pred, cols) => {
            Ok(Condition::Test(pred, lowered_columns(alloc, &cols, width)?))
        }
        Condition::Member(cols, plan) => {
            Ok(Condition::Member(lowered_columns(alloc, &cols, width)?, plan))
        }
    }
}

/// The conditions over the right operand of a join alone, whose left one has this width.
pub(crate) fn all_lowered(
    alloc: Global,
    conditions: Vec<Condition>,
    width: u32,
) -> Result<Vec<Condition>, WantOfMemory>
    ensures { IfOk result (λ lower. condition_trees lower.items ≡ map (spec.moved (λ k. k - width)) (condition_trees conditions.items)) }
{
    let mut lower = Vec::new(alloc);
    for condition in conditions {
        lower.push(lowered(alloc, condition, width)?)?;
    }
    Ok(lower)
}

fn columns_of(condition: &Condition) -> &Cols
    ensures { result.now ≡ spec.over (condition_tree condition.now) }
{
    match condition {
        Condition::Test(_, cols) => cols,
        Condition::Member(cols, _) => cols,
    }
}

fn are_left(cols: &[u32], width: u32) -> bool
    ensures { result ≡ list_all (λ k. nat_lt k width) cols.now }
{
    cols.iter().all(|k| *k < width)
}

fn are_right(cols: &[u32], width: u32) -> bool
    ensures { result ≡ list_all (λ k. not (nat_lt k width)) cols.now }
{
    cols.iter().all(|k| *k >= width)
}

/// Whether all columns of the condition are those of one operand, the left one having this width.
fn is_in(side: Side, width: u32, condition: &Condition) -> bool
    ensures { result ≡ all_of side width (condition_tree condition.now) }
{
    match side {
        Side::Left => are_left(columns_of(condition).as_slice(), width),
        Side::Right => are_right(columns_of(condition).as_slice(), width),
    }
}

/// Puts the condition behind those that pass, or behind the others.
fn sort_one(
    side: Side,
    width: u32,
    condition: Condition,
    split: &mut Split,
) -> Result<(), WantOfMemory>
    ensures inside { OnOk result (condition_trees split.new.inside.items ≡ condition_trees split.old.inside.items ++ filter (all_of side width) (condition_tree condition ∷ [])) }
    ensures outside { OnOk result (condition_trees split.new.outside.items ≡ condition_trees split.old.outside.items ++ filter (λ c. not (all_of side width c)) (condition_tree condition ∷ [])) }
{
    if is_in(side, width, &condition) {
        split.inside.push(condition)?;
    } else {
        split.outside.push(condition)?;
    }
    Ok(())
}

/// The conditions whose columns are all those of one operand, and the others.
pub(crate) fn split_by_side(
    alloc: Global,
    side: Side,
    width: u32,
    conditions: Vec<Condition>,
) -> Result<Split, WantOfMemory>
    ensures inside { IfOk result (λ s. condition_trees s.inside.items ≡ filter (all_of side width) (condition_trees conditions.items)) }
    ensures outside { IfOk result (λ s. condition_trees s.outside.items ≡ filter (λ c. not (all_of side width c)) (condition_trees conditions.items)) }
{
    let mut split = Split {
        inside: Vec::new(alloc),
        outside: Vec::new(alloc),
    };
    for condition in conditions {
        sort_one(side, width, condition, &mut split)?;
    }
    Ok(split)
}
