//! The walk of a side and a plan.
ghost use Rattle.std.specs.Prelude.{◌≡◌, ◌++◌, IfOk, OnOk};
ghost use Rattle.wt_symbol.specs.Sides.{tree_of};
ghost use Rattle.wt_symbol.specs.Heads as heads;
ghost use Rattle.wt_pred.specs.Tree.{pred_tree};
ghost use Rattle.wt_plan.specs.Tree.{plan_tree};
ghost use Rattle.wt_plan.specs.WellFormed.{Narrow};
ghost use Rattle.wt_matching.specs.Finding as spec;
ghost use Rattle.wt_found.specs.Seen.{seen, seen_or_not};
ghost use Rattle.wt_found.specs.Steps as steps;

use crate::columns::{Shown, leaf_columns, list_columns, numbers_at};
use std::alloc::Global;
use wt_plan::Plan;
use wt_pred::Pred;
use wt_symbol::{Anchors, Side};
use wt_value::{Cols, WantOfMemory};

/// What was found: the columns of the side's output, and what its symbols stand for, in preorder.
#[derive(Drop)]
pub struct Found<'a> {
    pub columns: Vec<Shown>,
    pub leaves: Vec<&'a Plan>,
    pub lists: Vec<Cols>,
    pub preds: Vec<&'a Pred>,
}

/// The leaf that a list is anchored at, 0 for a list without an anchor.
pub fn anchor_of(anchors: &Anchors, list: u8) -> u8
    ensures { result ≡ heads.anchor anchors.now list }
{
    match anchors.as_slice().get(list as usize) {
        Some(leaf) => *leaf,
        None => 0,
    }
}

/// Whether the plan has the side's operators down to its leaves.
pub fn is_shaped(side: &Side, plan: &Plan) -> bool
    ensures { result ≡ steps.shaped (tree_of side.now) (plan_tree plan.now) }
{
    match side {
        Side::Input(_) => true,
        Side::Proj(_, s) => match plan {
            Plan::Proj(_, p) => is_shaped(s, p),
            _ => false,
        },
        Side::Filter(_, _, s) => match plan {
            Plan::Filter(_, _, p) => is_shaped(s, p),
            _ => false,
        },
        Side::InnerJoin(_, _, s, t) => match plan {
            Plan::InnerJoin(_, _, p, q) => is_shaped(s, p) && is_shaped(t, q),
            _ => false,
        },
        Side::LeftJoin(_, _, s, t) => match plan {
            Plan::LeftJoin(_, _, p, q) => is_shaped(s, p) && is_shaped(t, q),
            _ => false,
        },
        Side::InSub(_, s, t) => match plan {
            Plan::InSub(_, p, q) => is_shaped(s, p) && is_shaped(t, q),
            _ => false,
        },
        Side::Dedup(s) => match plan {
            Plan::Dedup(p) => is_shaped(s, p),
            _ => false,
        },
    }
}

/// A leaf stands for the whole plan.
fn at_leaf<'a>(alloc: Global, leaf: u8, plan: &'a Plan) -> Result<Found<'a>, WantOfMemory>
    requires { Narrow (plan_tree plan.now) }
    ensures { IfOk result (λ x. seen x ≡ steps.found_leaf leaf (plan_tree plan.now)) }
{
    let columns = leaf_columns(alloc, leaf, plan.width())?;
    let mut leaves = Vec::new(alloc);
    leaves.push(plan)?;
    Ok(Found {
        columns,
        leaves,
        lists: Vec::new(alloc),
        preds: Vec::new(alloc),
    })
}

/// A Proj over what was found below.
fn projected_some<'a>(
    alloc: Global,
    leaf: u8,
    places: &Cols,
    mut below: Found<'a>,
) -> Result<Option<Found<'a>>, WantOfMemory>
    ensures { IfOk result (λ x. seen_or_not x ≡ steps.found_proj leaf places.now (spec.just (seen below.entry))) }
{
    match numbers_at(alloc, &below.columns, leaf, places)? {
        Some(numbers) => {
            below.columns = list_columns(alloc, leaf, &numbers)?;
            below.lists.insert(0, numbers)?;
            Ok(Some(below))
        }
        None => Ok(None),
    }
}

/// A Filter over what was found below.
fn filtered_some<'a>(
    alloc: Global,
    leaf: u8,
    pred: &'a Pred,
    places: &Cols,
    mut below: Found<'a>,
) -> Result<Option<Found<'a>>, WantOfMemory>
    ensures { IfOk result (λ x. seen_or_not x ≡ steps.found_filter leaf (pred_tree pred.now) places.now (spec.just (seen below.entry))) }
{
    match numbers_at(alloc, &below.columns, leaf, places)? {
        Some(numbers) => {
            below.lists.insert(0, numbers)?;
            below.preds.insert(0, pred)?;
            Ok(Some(below))
        }
        None => Ok(None),
    }
}

/// Adds lists to the end of others.
fn push_lists(lists: &mut Vec<Cols>, more: Vec<Cols>) -> Result<(), WantOfMemory>
    ensures { OnOk result (lists.new.items ≡ lists.old.items ++ more.items) }
{
    for list in more {
        lists.push(list)?;
    }
    Ok(())
}

/// What was found in both operands, with the columns of the left one.
fn with_symbols<'a>(mut left: Found<'a>, right: Found<'a>) -> Result<Found<'a>, WantOfMemory>
    ensures { IfOk result (λ x. seen x ≡ steps.with_symbols (seen left.entry) (seen right.entry)) }
{
    left.leaves.extend_from_slice(&right.leaves)?;
    left.preds.extend_from_slice(&right.preds)?;
    push_lists(&mut left.lists, right.lists)?;
    Ok(left)
}

/// The leaves and the places of a join's lists.
#[derive(Clone, Copy)]
struct Joint<'l> {
    left: u8,
    right: u8,
    lefts: &'l Cols,
    rights: &'l Cols,
}

/// A join over what was found in its operands.
fn joined_both<'a>(
    alloc: Global,
    on: &Joint,
    mut left: Found<'a>,
    right: Found<'a>,
) -> Result<Option<Found<'a>>, WantOfMemory>
    ensures { IfOk result (λ x. seen_or_not x ≡ spec.found_join on.now.left on.now.right on.now.lefts.now on.now.rights.now (spec.just (seen left.entry)) (spec.just (seen right.entry))) }
{
    let Some(numbers) = numbers_at(alloc, &left.columns, on.left, on.lefts)? else {
        return Ok(None);
    };
    let Some(others) = numbers_at(alloc, &right.columns, on.right, on.rights)? else {
        return Ok(None);
    };
    left.columns.extend_from_slice(&right.columns)?;
    let mut both = with_symbols(left, right)?;
    both.lists.insert(0, others)?;
    both.lists.insert(0, numbers)?;
    Ok(Some(both))
}

/// An InSub over what was found in its operands.
fn member_both<'a>(
    alloc: Global,
    leaf: u8,
    places: &Cols,
    left: Found<'a>,
    right: Found<'a>,
) -> Result<Option<Found<'a>>, WantOfMemory>
    ensures { IfOk result (λ x. seen_or_not x ≡ steps.found_member leaf places.now (spec.just (seen left.entry)) (spec.just (seen right.entry))) }
{
    let Some(numbers) = numbers_at(alloc, &left.columns, leaf, places)? else {
        return Ok(None);
    };
    let mut both = with_symbols(left, right)?;
    both.lists.insert(0, numbers)?;
    Ok(Some(both))
}

/// A Proj over what was found below, if anything was.
fn projected<'a>(
    alloc: Global,
    leaf: u8,
    places: &Cols,
    below: Option<Found<'a>>,
) -> Result<Option<Found<'a>>, WantOfMemory>
    ensures { IfOk result (λ x. seen_or_not x ≡ steps.found_proj leaf places.now (seen_or_not below.entry)) }
{
    match below {
        Some(below) => projected_some(alloc, leaf, places, below),
        None => Ok(None),
    }
}

/// A Filter over what was found below, if anything was.
fn filtered<'a>(
    alloc: Global,
    leaf: u8,
    pred: &'a Pred,
    places: &Cols,
    below: Option<Found<'a>>,
) -> Result<Option<Found<'a>>, WantOfMemory>
    ensures { IfOk result (λ x. seen_or_not x ≡ steps.found_filter leaf (pred_tree pred.now) places.now (seen_or_not below.entry)) }
{
    match below {
        Some(below) => filtered_some(alloc, leaf, pred, places, below),
        None => Ok(None),
    }
}

/// A join over what was found in its operands, if something was in both.
fn joined<'a>(
    alloc: Global,
    on: &Joint,
    left: Option<Found<'a>>,
    right: Option<Found<'a>>,
) -> Result<Option<Found<'a>>, WantOfMemory>
    ensures { IfOk result (λ x. seen_or_not x ≡ spec.found_join on.now.left on.now.right on.now.lefts.now on.now.rights.now (seen_or_not left.entry) (seen_or_not right.entry)) }
{
    match left {
        Some(left) => match right {
            Some(right) => joined_both(alloc, on, left, right),
            None => Ok(None),
        },
        None => Ok(None),
    }
}

/// An InSub over what was found in its operands, if something was in both.
fn member<'a>(
    alloc: Global,
    leaf: u8,
    places: &Cols,
    left: Option<Found<'a>>,
    right: Option<Found<'a>>,
) -> Result<Option<Found<'a>>, WantOfMemory>
    ensures { IfOk result (λ x. seen_or_not x ≡ steps.found_member leaf places.now (seen_or_not left.entry) (seen_or_not right.entry)) }
{
    match left {
        Some(left) => match right {
            Some(right) => member_both(alloc, leaf, places, left, right),
            None => Ok(None),
        },
        None => Ok(None),
    }
}

/// The walk, operator by operator.
fn walk<'a>(
    alloc: Global,
    side: &Side,
    anchors: &Anchors,
    plan: &'a Plan,
) -> Result<Option<Found<'a>>, WantOfMemory>
    requires { Narrow (plan_tree plan.now) }
    ensures { IfOk result (λ x. seen_or_not x ≡ spec.found (tree_of side.now) anchors.now (plan_tree plan.now)) }
{
    match side {
        Side::Input(leaf) => Ok(Some(at_leaf(alloc, *leaf, plan)?)),
        Side::Proj(a, s) => match plan {
            Plan::Proj(places, p) => {
                let below = walk(alloc, s, anchors, p)?;
                projected(alloc, anchor_of(anchors, *a), places, below)
            }
            _ => Ok(None),
        },
        Side::Filter(_, a, s) => match plan {
            Plan::Filter(pred, places, p) => {
                let below = walk(alloc, s, anchors, p)?;
                filtered(alloc, anchor_of(anchors, *a), pred, places, below)
            }
            _ => Ok(None),
        },
        Side::InnerJoin(a, b, s, t) => match plan {
            Plan::InnerJoin(lefts, rights, p, q) => {
                let left = walk(alloc, s, anchors, p)?;
                let right = walk(alloc, t, anchors, q)?;
                let on = Joint {
                    left: anchor_of(anchors, *a),
                    right: anchor_of(anchors, *b),
                    lefts,
                    rights,
                };
                joined(alloc, &on, left, right)
            }
            _ => Ok(None),
        },
        Side::LeftJoin(a, b, s, t) => match plan {
            Plan::LeftJoin(lefts, rights, p, q) => {
                let left = walk(alloc, s, anchors, p)?;
                let right = walk(alloc, t, anchors, q)?;
                let on = Joint {
                    left: anchor_of(anchors, *a),
                    right: anchor_of(anchors, *b),
                    lefts,
                    rights,
                };
                joined(alloc, &on, left, right)
            }
            _ => Ok(None),
        },
        Side::InSub(a, s, t) => match plan {
            Plan::InSub(places, p, q) => {
                let left = walk(alloc, s, anchors, p)?;
                let right = walk(alloc, t, anchors, q)?;
                member(alloc, anchor_of(anchors, *a), places, left, right)
            }
            _ => Ok(None),
        },
        Side::Dedup(s) => match plan {
            Plan::Dedup(p) => walk(alloc, s, anchors, p),
            _ => Ok(None),
        },
    }
}

/// What the walk of a side and a plan finds; None exactly where it finds that no assignment makes the side the plan. Operators are
/// compared before any memory is taken.
pub fn find<'a>(
    alloc: Global,
    side: &Side,
    anchors: &Anchors,
    plan: &'a Plan,
) -> Result<Option<Found<'a>>, WantOfMemory>
    requires narrow { Narrow (plan_tree plan.now) }
    ensures exact { IfOk result (λ x. seen_or_not x ≡ spec.found (tree_of side.now) anchors.now (plan_tree plan.now)) }
{
    if is_shaped(side, plan) {
        walk(alloc, side, anchors, plan)
    } else {
        Ok(None)
    }
}
