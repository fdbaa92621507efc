//! Expressions that have no NULL where conditions are true.
ghost use Rattle.std.specs.Prelude.{◌≡◌, ◌↔◌, ◌&&◌, ℕ, map, IsTrue, MatchOption};
ghost use Rattle.std.specs.List.{list_any};
ghost use Rattle.wt_bag.specs.Choices.{At};
ghost use Rattle.wt_symbol.specs.declared.head.PartCols.TheVariants.{List as Listed};
ghost use Rattle.wt_form.specs.declared.form.Expr.TheVariants.{Of};
ghost use Rattle.wt_form.specs.Trees.{Rel as OneLeaf};
ghost use Rattle.wt_form.specs.Parts.{ranges_list};
ghost use Rattle.wt_form.specs.Facts.{NotNull};
ghost use Rattle.wt_form.specs.Drops.{IsNull};
ghost use Rattle.wt_form.specs.Views.{ranges_seen, range_seen, cond_seen};
ghost use Rattle.wt_facts.specs.Facts.{known_of};
ghost use Rattle.wt_congruent.specs.Refs.{cond_behind};
ghost use Rattle.wt_not_null.specs.NeverNull.{covers, ByRelation, ExprWithin, ComparedWithin, ByCondition, IsNeverNull};

use wt_facts::{Facts, LeafList};
use wt_form::{Cond, Expr, FormRange, Ranges};
use wt_symbol::PartCols;

/// Whether the expression is NULL, column by column.
pub fn is_null(x: Expr) -> bool
    ensures { IsTrue result ↔ IsNull x }
{
    match x {
        Expr::Of(_, _, _) => false,
        Expr::Null(_, _) => true,
    }
}

/// The variable and the list of an expression on a list of a first part.
pub fn first_list(x: Expr) -> Option<(u32, u8)>
    ensures { MatchOption result ((v a : ℕ) → x ≡ Of v 0 (Listed a) → ⊥) (λ p. x ≡ Of p.0 0 (Listed p.1)) }
{
    match x {
        Expr::Of(v, i, PartCols::List(a)) => { if i == 0 { Some((v, a)) } else { None } }
        _ => None,
    }
}

fn leaf_of(range: &FormRange) -> Option<u8>
    ensures { MatchOption result ((r : ℕ) → range_seen range.now ≡ OneLeaf r → ⊥) (λ r. range_seen range.now ≡ OneLeaf r) }
{
    match range {
        FormRange::Rel(r) => Some(*r),
        FormRange::Distinct(_) => None,
    }
}

/// The leaf of a variable, if it stands for a row of a relation.
pub fn leaf_at(ranges: &Ranges, v: u32) -> Option<u8>
    ensures { MatchOption result ((r : ℕ) → At (λ range. range ≡ OneLeaf r) v (ranges_list (ranges_seen ranges.now)) → ⊥) (λ r. At (λ range. range ≡ OneLeaf r) v (ranges_list (ranges_seen ranges.now))) }
{
    match ranges {
        Ranges::Empty => None,
        Ranges::More(range, rest) => {
            if v == 0 {
                leaf_of(range)
            } else {
                leaf_at(rest, v - 1)
            }
        }
    }
}

fn covers(facts: &Facts, r: u8, c: u8, at: LeafList) -> bool
    ensures { result ≡ covers facts.now r c at }
{
    facts.same_leaf(r, at.leaf) && facts.is_within(c, at.list)
}

/// Whether no row of a leaf has a NULL at some list that has these columns.
fn is_covered(facts: &Facts, r: u8, c: u8) -> bool
    ensures { result ≡ list_any (covers facts.now r c) facts.now.not_null }
{
    facts
        .not_null
        .as_slice()
        .iter()
        .any(|at| covers(facts, r, c, *at))
}

fn by_relation(facts: &Facts, ranges: &Ranges, v: u32, c: u8) -> bool
    ensures { IsTrue result ↔ ByRelation (known_of facts.now) (ranges_list (ranges_seen ranges.now)) v c }
{
    match leaf_at(ranges, v) {
        Some(r) => is_covered(facts, r, c),
        None => false,
    }
}

/// Whether the expression is a list of this part that has these columns.
fn is_within_expr(facts: &Facts, x: Expr, v: u32, i: u32, c: u8) -> bool
    ensures { IsTrue result ↔ ExprWithin (known_of facts.now) v i c x }
{
    match x {
        Expr::Of(w, j, PartCols::List(d)) => w == v && j == i && facts.is_within(c, d),
        _ => false,
    }
}

fn is_compared(facts: &Facts, q: &Cond, v: u32, i: u32, c: u8) -> bool
    ensures { IsTrue result ↔ ComparedWithin (known_of facts.now) v i c (cond_seen q.now) }
{
    match q {
        Cond::Pred(_, _) | Cond::NotIn(_, _) => false,
        Cond::Join(x, y) => is_within_expr(facts, *x, v, i, c)
            || is_within_expr(facts, *y, v, i, c),
        Cond::In(x, _) => is_within_expr(facts, *x, v, i, c),
    }
}

fn by_condition(facts: &Facts, conds: &[&Cond], v: u32, i: u32, c: u8) -> bool
    ensures { IsTrue result ↔ ByCondition (known_of facts.now) (map cond_behind conds.now) v i c }
{
    match conds {
        [] => false,
        [q, rest @ ..] => is_compared(facts, q, v, i, c) || by_condition(facts, rest, v, i, c),
    }
}

/// Whether a list of a variable's part has no NULL where these conditions are true.
fn is_not_null(facts: &Facts, ranges: &Ranges, conds: &[&Cond], v: u32, i: u32, c: u8) -> bool
    ensures { IsTrue result ↔ NotNull (known_of facts.now) (ranges_list (ranges_seen ranges.now)) (map cond_behind conds.now) v i c }
{
    by_relation(facts, ranges, v, c) || by_condition(facts, conds, v, i, c)
}

/// Whether the expression has no NULL where these conditions are true.
pub fn never_null(facts: &Facts, ranges: &Ranges, conds: &[&Cond], x: Expr) -> bool
    ensures { IsTrue result ↔ IsNeverNull (known_of facts.now) (ranges_list (ranges_seen ranges.now)) (map cond_behind conds.now) x }
{
    match x {
        Expr::Of(v, i, PartCols::List(c)) => is_not_null(facts, ranges, conds, v, i, c),
        _ => false,
    }
}
