//! What must hold wherever a pairing begins with given places.
ghost use Rattle.std.specs.Prelude.{◌≡◌, ◌++◌, ℕ, List, map, true, IsTrue};
ghost use Rattle.wt_bag.specs.Bags.{Each};
ghost use Rattle.wt_bag.specs.Choices.{At};
ghost use Rattle.wt_form.specs.Congruent.{place, expr_same, pieces_same, CondSame, CondsSame};
ghost use Rattle.wt_form.specs.Views.{conds_seen, cond_seen};
ghost use Rattle.wt_facts.specs.Facts.{known_of};
ghost use Rattle.wt_congruent.specs.Refs.{cond_behind};
ghost use Rattle.wt_congruent.specs.Early.{Partnered, Partner};

use crate::exprs::{same_cols, same_expr};
use crate::prints::terms_print;
use wt_facts::Facts;
use wt_form::{Cond, Conds, Expr};

/// Whether variable v may take place w.
fn may_take(ks: &[usize], v: usize, w: usize) -> bool
    ensures { (more : List ℕ) → place (ks.now ++ more) v ≡ w → IsTrue result }
{
    match ks {
        [] => true,
        [k, rest @ ..] => {
            if v == 0 {
                *k == w
            } else if w < *k {
                may_take(rest, v - 1, w)
            } else if w > *k {
                may_take(rest, v - 1, w - 1)
            } else {
                false
            }
        }
    }
}

fn may_be_expr(facts: &Facts, ks: &[usize], x: Expr, y: Expr) -> bool
    ensures { (more : List ℕ) → expr_same (known_of facts.now) (ks.now ++ more) x y ≡ true → IsTrue result }
{
    match x {
        Expr::Of(v, i, c) => match y {
            Expr::Of(w, j, d) => {
                i == j && may_take(ks, v as usize, w as usize) && same_cols(facts, c, d)
            }
            Expr::Null(_, _) => false,
        },
        Expr::Null(_, _) => same_expr(facts, ks, x, y),
    }
}

/// Whether the pieces may be the same in order.
fn may_be_pieces(facts: &Facts, ks: &[usize], xs: &[Expr], ys: &[Expr]) -> bool
    ensures { (more : List ℕ) → pieces_same (known_of facts.now) (ks.now ++ more) xs.now ys.now ≡ true → IsTrue result }
{
    match xs {
        [] => match ys {
            [] => true,
            [_, ..] => false,
        },
        [x, more @ ..] => match ys {
            [] => false,
            [y, others @ ..] => {
                may_be_expr(facts, ks, *x, *y) && may_be_pieces(facts, ks, more, others)
            }
        },
    }
}

fn may_be_cond(facts: &Facts, ks: &[usize], c: &Cond, d: &Cond) -> bool
    ensures { (more : List ℕ) → CondSame (known_of facts.now) (ks.now ++ more) (cond_seen c.now) (cond_seen d.now) → IsTrue result }
{
    match c {
        Cond::Pred(p, x) => match d {
            Cond::Pred(q, y) => facts.same_pred(*p, *q) && may_be_expr(facts, ks, *x, *y),
            _ => false,
        },
        Cond::Join(x, y) => match d {
            Cond::Join(v, w) => {
                may_be_expr(facts, ks, *x, *v) && may_be_expr(facts, ks, *y, *w)
                    || may_be_expr(facts, ks, *x, *w) && may_be_expr(facts, ks, *y, *v)
            }
            _ => false,
        },
        Cond::In(x, f) => match d {
            Cond::In(y, g) => {
                may_be_expr(facts, ks, *x, *y)
                    && terms_print(facts, &f.terms) == terms_print(facts, &g.terms)
            }
            _ => false,
        },
        Cond::NotIn(x, f) => match d {
            Cond::NotIn(y, g) => {
                may_be_expr(facts, ks, *x, *y)
                    && terms_print(facts, &f.terms) == terms_print(facts, &g.terms)
            }
            _ => false,
        },
    }
}

/// Whether some condition of these may be the same.
fn has_partner(facts: &Facts, ks: &[usize], c: &Cond, left: &[&Cond]) -> bool
    ensures { (more : List ℕ) → (j : ℕ) → At (CondSame (known_of facts.now) (ks.now ++ more) (cond_seen c.now)) j (map cond_behind left.now) → IsTrue result }
{
    match left {
        [] => false,
        [d, rest @ ..] => may_be_cond(facts, ks, c, d) || has_partner(facts, ks, c, rest),
    }
}

fn is_of(x: Expr, v: usize) -> bool {
    match x {
        Expr::Of(w, _, _) => w as usize == v,
        Expr::Null(_, _) => false,
    }
}

/// Whether a variable occurs in a condition.
fn is_about(c: &Cond, v: usize) -> bool {
    match c {
        Cond::Pred(_, x) => is_of(*x, v),
        Cond::Join(x, y) => is_of(*x, v) || is_of(*y, v),
        Cond::In(x, _) => is_of(*x, v),
        Cond::NotIn(x, _) => is_of(*x, v),
    }
}

/// Whether each condition in which a variable occurs may be the same as one of the others.
fn have_partners(facts: &Facts, ks: &[usize], v: usize, conds: &Conds, left: &[&Cond]) -> bool
    ensures { (more : List ℕ) → Partnered (known_of facts.now) (ks.now ++ more) (conds_seen conds.now) (map cond_behind left.now) → IsTrue result }
{
    match conds {
        Conds::Empty => true,
        Conds::More(c, rest) => {
            (!is_about(c, v) || has_partner(facts, ks, c, left))
                && have_partners(facts, ks, v, rest, left)
        }
    }
}

/// Whether some condition may be the same as this one.
fn is_partner(facts: &Facts, ks: &[usize], conds: &Conds, d: &Cond) -> bool
    ensures { (more : List ℕ) → Partner (known_of facts.now) (ks.now ++ more) (conds_seen conds.now) (cond_seen d.now) → IsTrue result }
{
    match conds {
        Conds::Empty => false,
        Conds::More(c, rest) => may_be_cond(facts, ks, c, d) || is_partner(facts, ks, rest, d),
    }
}

/// Whether each of the others in which a variable occurs may be the same as one of the conditions.
fn are_partners(facts: &Facts, ks: &[usize], w: usize, conds: &Conds, left: &[&Cond]) -> bool
    ensures { (more : List ℕ) → Each (Partner (known_of facts.now) (ks.now ++ more) (conds_seen conds.now)) (map cond_behind left.now) → IsTrue result }
{
    match left {
        [] => true,
        [d, rest @ ..] => {
            (!is_about(d, w) || is_partner(facts, ks, conds, d))
                && are_partners(facts, ks, w, conds, rest)
        }
    }
}

/// Whether the pieces may be the same, and the conditions in which the last variable with a place occurs
/// or the one that took it may be.
pub(crate) fn may_go_on(
    facts: &Facts,
    ks: &[usize],
    conds: &Conds,
    pieces: &[Expr],
    left: &[&Cond],
    others: &[Expr],
) -> bool
    ensures { (more : List ℕ) → CondsSame (known_of facts.now) (ks.now ++ more) (conds_seen conds.now) (map cond_behind left.now) → pieces_same (known_of facts.now) (ks.now ++ more) pieces.now others.now ≡ true → IsTrue result }
{
    let v = ks.len().saturating_sub(1);
    may_be_pieces(facts, ks, pieces, others)
        && have_partners(facts, ks, v, conds, left)
        && are_partners(facts, ks, place_of(ks, v), conds, left)
}

/// The place of a variable.
fn place_of(ks: &[usize], v: usize) -> usize {
    match ks {
        [] => v,
        [k, rest @ ..] => {
            if v == 0 {
                return *k;
            }
            let place = place_of(rest, v - 1);
            if place < *k {
                place
            } else {
                place.saturating_add(1)
            }
        }
    }
}
