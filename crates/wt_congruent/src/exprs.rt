//! Expressions that are the same.
ghost use Rattle.std.specs.Prelude.{◌≡◌, ◌+◌, ◌∷◌, [], nat_eq, get_or, length};
ghost use Rattle.wt_form.specs.Congruent.{place, expr_same, pieces_same};
ghost use Rattle.wt_form.specs.Known.{cols_same, heads_same, part_same};
ghost use Rattle.wt_facts.specs.Facts.{known_of};

use wt_facts::Facts;
use wt_form::Expr;
use wt_symbol::{Part, PartCols};

/// Whether the places pair variable v with w.
pub fn is_place(ks: &[usize], v: usize, w: usize) -> bool
    ensures { result ≡ nat_eq (place ks.now v) w }
{
    match ks {
        [] => v == w,
        [k, rest @ ..] => {
            if v == 0 {
                *k == w
            } else if w < *k {
                is_place(rest, v - 1, w)
            } else if w > *k {
                is_place(rest, v - 1, w - 1)
            } else {
                false
            }
        }
    }
}

pub fn same_cols(facts: &Facts, c: PartCols, d: PartCols) -> bool
    ensures { result ≡ cols_same (known_of facts.now) c d }
{
    match c {
        PartCols::Whole => match d {
            PartCols::Whole => true,
            PartCols::List(_) => false,
        },
        PartCols::List(a) => match d {
            PartCols::Whole => false,
            PartCols::List(b) => facts.same_list(a, b),
        },
    }
}

/// Whether the expressions are the same, the variables of the first being at the places.
pub fn same_expr(facts: &Facts, ks: &[usize], x: Expr, y: Expr) -> bool
    ensures { result ≡ expr_same (known_of facts.now) ks.now x y }
{
    match x {
        Expr::Of(v, i, c) => match y {
            Expr::Of(w, j, d) => {
                is_place(ks, v as usize, w as usize) && i == j && same_cols(facts, c, d)
            }
            Expr::Null(_, _) => false,
        },
        Expr::Null(r, c) => match y {
            Expr::Of(_, _, _) => false,
            Expr::Null(s, d) => match c {
                PartCols::Whole => match d {
                    PartCols::Whole => facts.same_leaf(r, s),
                    PartCols::List(_) => false,
                },
                PartCols::List(a) => match d {
                    PartCols::Whole => false,
                    PartCols::List(b) => facts.same_list(a, b),
                },
            },
        },
    }
}

/// Whether there are equally many, the same in order.
pub fn same_pieces(facts: &Facts, ks: &[usize], xs: &[Expr], ys: &[Expr]) -> bool
    ensures { result ≡ pieces_same (known_of facts.now) ks.now xs.now ys.now }
{
    match xs {
        [] => match ys {
            [] => true,
            [_, ..] => false,
        },
        [x, more @ ..] => match ys {
            [] => false,
            [y, others @ ..] => {
                same_expr(facts, ks, *x, *y) && same_pieces(facts, ks, more, others)
            }
        },
    }
}

pub fn same_part(facts: &Facts, p: Part, q: Part) -> bool
    ensures { result ≡ part_same (known_of facts.now) p q }
{
    match p.cols {
        PartCols::Whole => match q.cols {
            PartCols::Whole => facts.same_leaf(p.leaf, q.leaf),
            PartCols::List(_) => false,
        },
        PartCols::List(a) => match q.cols {
            PartCols::Whole => false,
            PartCols::List(b) => facts.same_list(a, b),
        },
    }
}

pub fn same_head(facts: &Facts, ps: &[Part], qs: &[Part]) -> bool
    ensures { result ≡ heads_same (known_of facts.now) ps.now qs.now }
{
    match ps {
        [] => match qs {
            [] => true,
            [_, ..] => false,
        },
        [p, more @ ..] => match qs {
            [] => false,
            [q, others @ ..] => same_part(facts, *p, *q) && same_head(facts, more, others),
        },
    }
}
