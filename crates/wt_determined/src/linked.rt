//! Variables that follow from others that are determined.
ghost use Rattle.std.specs.Prelude.{◌≡◌, ◌↔◌, true, map, IsTrue};
ghost use Rattle.wt_bag.specs.Choices.{At, Has};
ghost use Rattle.wt_form.specs.Parts.{ranges_list};
ghost use Rattle.wt_form.specs.Views.{ranges_seen, cond_seen};
ghost use Rattle.wt_facts.specs.Facts.{known_of};
ghost use Rattle.wt_congruent.specs.Refs.{cond_behind};
ghost use Rattle.wt_determined.specs.Alone.{RangeHeld};
ghost use Rattle.wt_determined.specs.Linked.{KeyOf, OverOther, SideLinks, CondLinks, SomeLinks, Linked, Follows};

use crate::alone::is_determined_alone;
use wt_facts::Facts;
use wt_form::{Cond, Expr, Ranges};
use wt_not_null::leaf_at;
use wt_symbol::PartCols;

/// Whether a variable is one of these.
pub fn is_among(vars: &[u32], w: u32) -> bool
    ensures { IsTrue result ↔ Has w vars.now }
{
    match vars {
        [] => false,
        [v, rest @ ..] => w == *v || is_among(rest, w),
    }
}

/// Whether the expression is a list of a variable that is unique in a leaf.
fn is_key_of(facts: &Facts, x: Expr, u: u32, r: u8) -> bool
    ensures { IsTrue result ↔ KeyOf (known_of facts.now) u r x }
{
    match x {
        Expr::Of(v, i, PartCols::List(c)) => v == u && i == 0 && facts.is_unique(r, c),
        _ => false,
    }
}

/// Whether the expression is over one of these variables, and not over this one.
fn is_over_other(vars: &[u32], u: u32, e: Expr) -> bool
    ensures { IsTrue result ↔ OverOther vars.now u e }
{
    match e {
        Expr::Of(w, _, _) => w != u && is_among(vars, w),
        Expr::Null(_, _) => false,
    }
}

/// Whether of two joined expressions the first is a unique list, the second over another variable.
fn side_links(facts: &Facts, vars: &[u32], u: u32, r: u8, x: Expr, e: Expr) -> bool
    ensures { IsTrue result ↔ SideLinks (known_of facts.now) vars.now u r x e }
{
    is_key_of(facts, x, u, r) && is_over_other(vars, u, e)
}

fn cond_links(facts: &Facts, vars: &[u32], u: u32, r: u8, q: &Cond) -> bool
    ensures { IsTrue result ↔ CondLinks (known_of facts.now) vars.now u r (cond_seen q.now) }
{
    match q {
        Cond::Join(x, y) => side_links(facts, vars, u, r, *x, *y)
            || side_links(facts, vars, u, r, *y, *x),
        Cond::Pred(_, _) | Cond::In(_, _) | Cond::NotIn(_, _) => false,
    }
}

fn some_links(facts: &Facts, conds: &[&Cond], vars: &[u32], u: u32, r: u8) -> bool
    ensures { IsTrue result ↔ SomeLinks (known_of facts.now) (map cond_behind conds.now) vars.now u r }
{
    match conds {
        [] => false,
        [q, rest @ ..] => cond_links(facts, vars, u, r, q) || some_links(facts, rest, vars, u, r),
    }
}

/// Whether a unique list of a variable is joined with one of these.
fn is_linked(facts: &Facts, ranges: &Ranges, conds: &[&Cond], vars: &[u32], u: u32) -> bool
    ensures { IsTrue result ↔ Linked (known_of facts.now) (ranges_list (ranges_seen ranges.now)) (map cond_behind conds.now) vars.now u }
{
    match leaf_at(ranges, u) {
        Some(r) => some_links(facts, conds, vars, u, r),
        None => false,
    }
}

/// Whether the pieces hold a variable so that it is determined, by its range at a place of some.
fn is_held_at(
    facts: &Facts,
    ranges: &Ranges,
    conds: &[&Cond],
    pieces: &[Expr],
    u: u32,
    some: &Ranges,
    v: u32,
) -> bool
    ensures { IsTrue result ↔ At (RangeHeld facts.now (ranges_list (ranges_seen ranges.now)) (map cond_behind conds.now) pieces.now u) v (ranges_list (ranges_seen some.now)) }
{
    match some {
        Ranges::Empty => false,
        Ranges::More(range, rest) => {
            if v == 0 {
                is_determined_alone(facts, ranges, conds, pieces, u, range)
            } else {
                is_held_at(facts, ranges, conds, pieces, u, rest, v - 1)
            }
        }
    }
}

/// Whether the pieces hold a variable, or it is linked with one of these.
pub fn follows(
    facts: &Facts,
    ranges: &Ranges,
    conds: &[&Cond],
    pieces: &[Expr],
    vars: &[u32],
    u: u32,
) -> bool
    ensures { IsTrue result ↔ Follows facts.now (ranges_list (ranges_seen ranges.now)) (map cond_behind conds.now) pieces.now vars.now u }
{
    is_held_at(facts, ranges, conds, pieces, u, ranges, u)
        || is_linked(facts, ranges, conds, vars, u)
}
