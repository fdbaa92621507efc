//! Conjuncts over places, and conditions over a plan.
ghost use Rattle.std.specs.Prelude.{◌≡◌, ◌≤◌, ◌<◌, ◌-◌, ◌^◌, ◌++◌, [], ◌∷◌, ℕ, None, length, map, IfOk, OnOk};
ghost use Rattle.std.specs.List.{list_all, list_any};
ghost use Rattle.wt_bag.specs.Bags.{Each};
ghost use Rattle.wt_bag.specs.Choices.{Has};
ghost use Rattle.wt_pred.specs.Columns.{occurring, renumbered, place_in};
ghost use Rattle.wt_pred.specs.Tree.{pred_tree};
ghost use Rattle.wt_plan.specs.Tree.{plan_tree};
ghost use Rattle.wt_plan.specs.Tree as plans;
ghost use Rattle.wt_query_plan.specs.Building as spec;
ghost use Rattle.wt_query_plan.specs.Telling.{Tells};
ghost use Rattle.wt_conjunct.specs.Views.{conjunct_tree, conjunct_trees, columns_once, is_on};

use std::alloc::Global;
use wt_plan::Plan;
use wt_pred::{Cmp, Operand, Pred};
use wt_query_plan::BuildError;
use wt_value::{Cols, WantOfMemory};

/// A conjunct over places: a predicate, or the columns of a subquery IN and the subquery's plan.
#[derive(Drop)]
pub enum Conjunct {
    Keeps(Pred),
    IsIn(Cols, Plan),
}

/// An operand of a join.
#[derive(Clone, Copy)]
pub enum Side {
    Left,
    Right,
}

/// The pairs of a join, and the conjuncts that are none.
#[derive(Drop)]
pub struct Sorted {
    pub pairs: Vec<(u32, u32)>,
    pub others: Vec<Conjunct>,
}

fn at_place(places: &[u32], k: u32) -> u32
    requires narrow { length places.now < 2 ^ 32 }
    ensures { result ≡ spec.at_place places.now k }
{
    match places.get(k as usize) {
        Some(place) => *place,
        None => places.len() as u32,
    }
}

/// Where columns in the order of the text stand in the plan's rows.
pub fn at_places(alloc: Global, places: &[u32], cols: &[u32]) -> Result<Cols, BuildError>
    requires narrow { length places.now < 2 ^ 32 }
    ensures { Tells None (λ at. at ≡ map (spec.at_place places.now) cols.now) result }
{
    let mut at = Cols::new(alloc);
    for k in cols {
        at.push(at_place(places, *k))?;
    }
    Ok(at)
}

/// The same for columns of the right operand of a join, whose left one has n.
fn right_places(alloc: Global, places: &[u32], n: u32, cols: &[u32]) -> Result<Cols, BuildError>
    requires narrow { length places.now < 2 ^ 32 }
    ensures { Tells None (λ at. at ≡ map (λ k. spec.at_place places.now (k - n)) cols.now) result }
{
    let mut at = Cols::new(alloc);
    for k in cols {
        at.push(at_place(places, k.saturating_sub(n)))?;
    }
    Ok(at)
}

fn filtered(
    alloc: Global,
    pred: Pred,
    cols: &Cols,
    at: Cols,
    plan: Plan,
) -> Result<Plan, BuildError>
    requires there { Each (λ c. Has c cols.now) (occurring (pred_tree pred)) }
    ensures { Tells None (λ p. plan_tree p ≡ plans.filtered (renumbered (place_in cols.now) (pred_tree pred)) at (plan_tree plan)) result }
{
    // The columns of a predicate are different numbers of 32 bits, so there are never more.
    if cols.len() > u32::MAX as usize {
        return Err(BuildError::Memory);
    }
    let renumbered = pred.renumber(alloc, cols)?;
    Ok(Plan::Filter(renumbered, at, Box::new(alloc, plan)?))
}

fn in_query(alloc: Global, cols: Cols, plan: Plan, subquery: Plan) -> Result<Plan, BuildError>
    ensures { Tells None (λ p. plan_tree p ≡ plans.in_sub cols (plan_tree plan) (plan_tree subquery)) result }
{
    let (plan, subquery) = (Box::new(alloc, plan)?, Box::new(alloc, subquery)?);
    Ok(Plan::InSub(cols, plan, subquery))
}

fn kept(alloc: Global, places: &[u32], pred: Pred, plan: Plan) -> Result<Plan, BuildError>
    requires narrow { length places.now < 2 ^ 32 }
    ensures { Tells None (λ p. plan_tree p ≡ spec.kept places.now (pred_tree pred) (plan_tree plan)) result }
{
    let cols = pred.columns(alloc)?;
    let at = at_places(alloc, places, cols.as_slice())?;
    filtered(alloc, pred, &cols, at, plan)
}

fn kept_right(
    alloc: Global,
    places: &[u32],
    n: u32,
    pred: Pred,
    plan: Plan,
) -> Result<Plan, BuildError>
    requires narrow { length places.now < 2 ^ 32 }
    requires right { Each (λ k. n ≤ k) (occurring (pred_tree pred)) }
    ensures { Tells None (λ p. plan_tree p ≡ spec.kept places.now (renumbered (λ k. k - n) (pred_tree pred)) (plan_tree plan)) result }
{
    let cols = pred.columns(alloc)?;
    let at = right_places(alloc, places, n, cols.as_slice())?;
    filtered(alloc, pred, &cols, at, plan)
}

/// A conjunct over a plan.
fn above(alloc: Global, places: &[u32], conjunct: Conjunct, plan: Plan) -> Result<Plan, BuildError>
    requires narrow { length places.now < 2 ^ 32 }
    ensures { Tells None (λ p. plan_tree p ≡ spec.above places.now (conjunct_tree conjunct) (plan_tree plan)) result }
{
    match conjunct {
        Conjunct::Keeps(pred) => kept(alloc, places, pred, plan),
        Conjunct::IsIn(cols, subquery) => {
            let at = at_places(alloc, places, cols.as_slice())?;
            in_query(alloc, at, plan, subquery)
        }
    }
}

/// A conjunct on columns of the right operand of a join, over that operand's plan.
fn above_right(
    alloc: Global,
    places: &[u32],
    n: u32,
    conjunct: Conjunct,
    plan: Plan,
) -> Result<Plan, BuildError>
    requires narrow { length places.now < 2 ^ 32 }
    requires right { Each (λ k. n ≤ k) (spec.conjunct_columns (conjunct_tree conjunct)) }
    ensures { Tells None (λ p. plan_tree p ≡ spec.above places.now (spec.on_right n (conjunct_tree conjunct)) (plan_tree plan)) result }
{
    match conjunct {
        Conjunct::Keeps(pred) => kept_right(alloc, places, n, pred, plan),
        Conjunct::IsIn(cols, subquery) => {
            let at = right_places(alloc, places, n, cols.as_slice())?;
            in_query(alloc, at, plan, subquery)
        }
    }
}

/// Conjuncts over a plan, the first one lowest.
pub fn stacked(
    alloc: Global,
    places: &[u32],
    conjuncts: Vec<Conjunct>,
    mut plan: Plan,
) -> Result<Plan, BuildError>
    requires narrow { length places.now < 2 ^ 32 }
    ensures { Tells None (λ p. plan_tree p ≡ spec.stacked places.now (conjunct_trees conjuncts.items) (plan_tree plan)) result }
{
    for conjunct in conjuncts {
        plan = above(alloc, places, conjunct, plan)?;
    }
    Ok(plan)
}

/// Conjuncts on columns of the right operand of a join over that operand's plan, the first one lowest.
pub fn stacked_right(
    alloc: Global,
    places: &[u32],
    n: u32,
    conjuncts: Vec<Conjunct>,
    mut plan: Plan,
) -> Result<Plan, BuildError>
    requires narrow { length places.now < 2 ^ 32 }
    requires right { Each (λ j. Each (λ k. n ≤ k) (spec.conjunct_columns j)) (conjunct_trees conjuncts.items) }
    ensures { Tells None (λ p. plan_tree p ≡ spec.stacked places.now (map (spec.on_right n) (conjunct_trees conjuncts.items)) (plan_tree plan)) result }
{
    for conjunct in conjuncts {
        plan = above_right(alloc, places, n, conjunct, plan)?;
    }
    Ok(plan)
}

/// The pair of two columns that are on two operands, the left one having n columns.
fn across(n: u32, x: u32, y: u32) -> Option<(u32, u32)>
    ensures { result ≡ spec.across n x y }
{
    if x < n && y >= n {
        Some((x, y - n))
    } else if y < n && x >= n {
        Some((y, x - n))
    } else {
        None
    }
}

/// The pair of a conjunct that is an equality of a left and a right column.
pub fn pair_of(n: u32, conjunct: &Conjunct) -> Option<(u32, u32)>
    ensures { result ≡ spec.pair_of n (conjunct_tree conjunct.now) }
{
    match conjunct {
        Conjunct::Keeps(Pred::Compare(Cmp::Eq, Operand::Column(x), Operand::Column(y))) => {
            across(n, *x, *y)
        }
        _ => None,
    }
}

/// Puts the conjunct behind the pairs, or behind the others.
fn sort_one(n: u32, conjunct: Conjunct, sorted: &mut Sorted) -> Result<(), WantOfMemory>
    ensures pairs { OnOk result (sorted.new.pairs.items ≡ sorted.old.pairs.items ++ spec.pairs_of n (conjunct_tree conjunct ∷ [])) }
    ensures others { OnOk result (conjunct_trees sorted.new.others.items ≡ conjunct_trees sorted.old.others.items ++ spec.others_of n (conjunct_tree conjunct ∷ [])) }
{
    match pair_of(n, &conjunct) {
        Some(pair) => sorted.pairs.push(pair)?,
        None => sorted.others.push(conjunct)?,
    }
    Ok(())
}

/// The pairs of a join whose left operand has n columns, and the conjuncts that are none.
pub fn sorted_by(alloc: Global, n: u32, conjuncts: Vec<Conjunct>) -> Result<Sorted, WantOfMemory>
    ensures pairs { IfOk result (λ s. s.pairs.items ≡ spec.pairs_of n (conjunct_trees conjuncts.items)) }
    ensures others { IfOk result (λ s. conjunct_trees s.others.items ≡ spec.others_of n (conjunct_trees conjuncts.items)) }
{
    let mut sorted = Sorted {
        pairs: Vec::new(alloc),
        others: Vec::new(alloc),
    };
    for conjunct in conjuncts {
        sort_one(n, conjunct, &mut sorted)?;
    }
    Ok(sorted)
}

/// The first columns of the pairs, by their places.
pub fn firsts_at(alloc: Global, places: &[u32], pairs: &[(u32, u32)]) -> Result<Cols, BuildError>
    requires narrow { length places.now < 2 ^ 32 }
    ensures { Tells None (λ at. at ≡ map (spec.at_place places.now) (spec.firsts pairs.now)) result }
{
    let mut at = Cols::new(alloc);
    for pair in pairs {
        at.push(at_place(places, pair.0))?;
    }
    Ok(at)
}

/// The second columns of the pairs, by their places.
pub fn seconds_at(alloc: Global, places: &[u32], pairs: &[(u32, u32)]) -> Result<Cols, BuildError>
    requires narrow { length places.now < 2 ^ 32 }
    ensures { Tells None (λ at. at ≡ map (spec.at_place places.now) (spec.seconds pairs.now)) result }
{
    let mut at = Cols::new(alloc);
    for pair in pairs {
        at.push(at_place(places, pair.1))?;
    }
    Ok(at)
}

/// The columns of a conjunct; a predicate's each once.
pub fn columns_of(alloc: Global, conjunct: &Conjunct) -> Result<Cols, WantOfMemory>
    ensures { IfOk result (λ cols. cols ≡ columns_once (conjunct_tree conjunct.now)) }
{
    match conjunct {
        Conjunct::Keeps(pred) => pred.columns(alloc),
        Conjunct::IsIn(cols, _) => cols.clone(),
    }
}

/// Whether all columns are those of one operand, the left one having n.
pub fn are_on(side: Side, n: u32, cols: &[u32]) -> bool
    ensures { result ≡ list_all (is_on side n) cols.now }
{
    match side {
        Side::Left => cols.iter().all(|k| *k < n),
        Side::Right => cols.iter().all(|k| *k >= n),
    }
}

/// Whether a column is one of the operand, the left one having n.
pub fn some_on(side: Side, n: u32, cols: &[u32]) -> bool
    ensures { result ≡ list_any (is_on side n) cols.now }
{
    match side {
        Side::Left => cols.iter().any(|k| *k < n),
        Side::Right => cols.iter().any(|k| *k >= n),
    }
}
