//! Filling in a side.
ghost use Rattle.std.specs.Prelude.{◌≡◌, ◌++◌, map, min, IfOk};
ghost use Rattle.wt_bag.specs.Bags.{Each};
ghost use Rattle.wt_symbol.specs.Sides.{tree_of};
ghost use Rattle.wt_plan.specs.WellFormed.{Narrow};
ghost use Rattle.wt_draft.specs.Drafts.{listed, draft_tree};
ghost use Rattle.wt_matching.specs.Filling as filling;
ghost use Rattle.wt_found.specs.Seen.{named, plans_behind, assigned_in};
ghost use Rattle.wt_fill.specs.Blanks.{IsBlank};
ghost use Rattle.wt_fill.specs.Capped as spec;

use crate::given::Given;
use std::alloc::Global;
use wt_draft::{Draft, Places};
use wt_found::{Found, Shown, leaf_columns, list_columns, place};
use wt_symbol::{Anchors, Side};
use wt_value::{Cols, WantOfMemory};

/// The columns of both operands.
fn both_columns(mut left: Vec<Shown>, right: &[Shown]) -> Result<Vec<Shown>, WantOfMemory>
    ensures { IfOk result (λ columns. columns.items ≡ left.items ++ right.now) }
{
    left.extend_from_slice(right)?;
    Ok(left)
}

/// The columns of a side's output.
fn side_columns(alloc: Global, side: &Side, given: &Given) -> Result<Vec<Shown>, WantOfMemory>
    requires blank { IsBlank given.now.blank.now }
    requires narrow { Each Narrow (plans_behind given.now.found.now.leaves.items) }
    ensures { IfOk result (λ columns. named columns.items ≡ filling.header (tree_of side.now) given.now.anchors.now (assigned_in given.now.found.now)) }
{
    match side {
        Side::Input(leaf) => leaf_columns(alloc, *leaf, given.leaf(*leaf).width()),
        Side::Proj(a, _) => list_columns(alloc, given.anchor(*a), given.list(*a)),
        Side::Filter(_, _, s) | Side::InSub(_, s, _) | Side::Dedup(s) => {
            side_columns(alloc, s, given)
        }
        Side::InnerJoin(_, _, s, t) | Side::LeftJoin(_, _, s, t) => {
            let left = side_columns(alloc, s, given)?;
            both_columns(left, &side_columns(alloc, t, given)?)
        }
    }
}

/// A place as a number of 32 bits, the greatest one for places past them.
fn capped(at: usize) -> u32
    ensures { result ≡ min 4294967295 at }
{
    if at < 4294967295 {
        at as u32
    } else {
        4294967295
    }
}

/// The places of a leaf's columns.
fn capped_places(
    alloc: Global,
    columns: &[Shown],
    leaf: u8,
    numbers: &Cols,
) -> Result<Cols, WantOfMemory>
    ensures { IfOk result (λ places. places ≡ map (λ n. min 4294967295 (filling.place (named columns.now) leaf n)) numbers.now) }
{
    let mut places = Cols::new(alloc);
    for number in numbers.as_slice() {
        places.push(capped(place(columns, leaf, *number)))?;
    }
    Ok(places)
}

/// The places of a list in a side's output.
fn places_in(alloc: Global, side: &Side, given: &Given, list: u8) -> Result<Cols, WantOfMemory>
    requires blank { IsBlank given.now.blank.now }
    requires narrow { Each Narrow (plans_behind given.now.found.now.leaves.items) }
    ensures { IfOk result (λ places. places ≡ spec.capped_places (tree_of side.now) given.now.anchors.now (assigned_in given.now.found.now) list) }
{
    let columns = side_columns(alloc, side, given)?;
    capped_places(alloc, &columns, given.anchor(list), given.list(list))
}

/// The places of a join's two lists.
fn both_places<'a>(
    alloc: Global,
    left: &Side,
    right: &Side,
    given: &Given,
    a: u8,
    b: u8,
) -> Result<(Places<'a>, Places<'a>), WantOfMemory>
    requires blank { IsBlank given.now.blank.now }
    requires narrow { Each Narrow (plans_behind given.now.found.now.leaves.items) }
    ensures left { IfOk result (λ both. listed both.0 ≡ spec.capped_places (tree_of left.now) given.now.anchors.now (assigned_in given.now.found.now) a) }
    ensures right { IfOk result (λ both. listed both.1 ≡ spec.capped_places (tree_of right.now) given.now.anchors.now (assigned_in given.now.found.now) b) }
{
    let lefts = places_in(alloc, left, given, a)?;
    let rights = places_in(alloc, right, given, b)?;
    Ok((Places::Own(lefts), Places::Own(rights)))
}

/// Both operands filled in.
#[cycle(fill)]
fn fill_both<'a>(
    alloc: Global,
    left: &Side,
    right: &Side,
    given: &Given<'a>,
) -> Result<(Box<Draft<'a>>, Box<Draft<'a>>), WantOfMemory>
    requires blank { IsBlank given.now.blank.now }
    requires narrow { Each Narrow (plans_behind given.now.found.now.leaves.items) }
    ensures left { IfOk result (λ both. draft_tree both.0.value ≡ spec.capped_fill (tree_of left.now) given.now.anchors.now (assigned_in given.now.found.now)) }
    ensures right { IfOk result (λ both. draft_tree both.1.value ≡ spec.capped_fill (tree_of right.now) given.now.anchors.now (assigned_in given.now.found.now)) }
{
    let left = Box::new(alloc, fill(alloc, left, given)?)?;
    let right = fill(alloc, right, given)?;
    Ok((left, Box::new(alloc, right)?))
}

/// The side filled in with what is given, operator by operator: its leaves and predicates are borrowed. A place past the numbers of
/// 32 bits, which no plan with narrow nodes has, is the greatest of them.
#[cycle(fill)]
pub fn fill<'a>(alloc: Global, side: &Side, given: &Given<'a>) -> Result<Draft<'a>, WantOfMemory>
    requires blank { IsBlank given.now.blank.now }
    requires narrow { Each Narrow (plans_behind given.now.found.now.leaves.items) }
    ensures exact { IfOk result (λ draft. draft_tree draft ≡ spec.capped_fill (tree_of side.now) given.now.anchors.now (assigned_in given.now.found.now)) }
{
    match side {
        Side::Input(leaf) => Ok(Draft::Whole(given.leaf(*leaf))),
        Side::Proj(a, s) => {
            let places = Places::Own(places_in(alloc, s, given, *a)?);
            let below = fill(alloc, s, given)?;
            Ok(Draft::Proj(places, Box::new(alloc, below)?))
        }
        Side::Filter(p, a, s) => {
            let places = Places::Own(places_in(alloc, s, given, *a)?);
            let below = fill(alloc, s, given)?;
            Ok(Draft::Filter(given.pred(*p), places, Box::new(alloc, below)?))
        }
        Side::InnerJoin(a, b, s, t) => {
            let (lefts, rights) = both_places(alloc, s, t, given, *a, *b)?;
            let (left, right) = fill_both(alloc, s, t, given)?;
            Ok(Draft::InnerJoin(lefts, rights, left, right))
        }
        Side::LeftJoin(a, b, s, t) => {
            let (lefts, rights) = both_places(alloc, s, t, given, *a, *b)?;
            let (left, right) = fill_both(alloc, s, t, given)?;
            Ok(Draft::LeftJoin(lefts, rights, left, right))
        }
        Side::InSub(a, s, t) => {
            let places = Places::Own(places_in(alloc, s, given, *a)?);
            let (left, right) = fill_both(alloc, s, t, given)?;
            Ok(Draft::InSub(places, left, right))
        }
        Side::Dedup(s) => {
            let below = fill(alloc, s, given)?;
            Ok(Draft::Dedup(Box::new(alloc, below)?))
        }
    }
}
