//! What a step does to each expression of a term.
ghost use Rattle.std.specs.Prelude.{◌≡◌, map, IfOk};
ghost use Rattle.wt_form.specs.Parts.{conds_map, cond_map, conds_append};
ghost use Rattle.wt_form.specs.Known.{cols_eq};
ghost use Rattle.wt_form.specs.Changes.{cols_before, expr_before, expr_eq, expr_down};
ghost use Rattle.wt_form.specs.declared.form.Expr.TheVariants.{Of};
ghost use Rattle.wt_form.specs.Views.{conds_seen, cond_seen};
ghost use Rattle.wt_congruent.specs.Refs.{cond_behind};
ghost use Rattle.wt_places.specs.Lists.{conds_from};
ghost use Rattle.wt_joining.specs.Changes.{changed};

use std::alloc::{AllocError, Global};
use wt_form::{Cond, Conds, Expr, Exprs};
use wt_symbol::PartCols;
use wt_value::Seq;

/// A variable goes and those after it close up, another one stands for it, or the first expression
/// is written for the second.
#[derive(Clone, Copy, Debug, PartialEq, Eq)]
pub enum Change {
    Down(u32),
    Onto(u32, u32),
    Put(Expr, Expr),
}

fn same_cols(c: PartCols, d: PartCols) -> bool
    ensures { result ≡ cols_eq c d }
{
    match c {
        PartCols::Whole => match d {
            PartCols::Whole => true,
            PartCols::List(_) => false,
        },
        PartCols::List(a) => match d {
            PartCols::Whole => false,
            PartCols::List(b) => a == b,
        },
    }
}

/// Whether the expressions are equal as they are written.
pub fn same_written(x: Expr, y: Expr) -> bool
    ensures { result ≡ expr_eq x y }
{
    match x {
        Expr::Of(v, i, c) => match y {
            Expr::Of(w, j, d) => v == w && i == j && same_cols(c, d),
            Expr::Null(_, _) => false,
        },
        Expr::Null(r, c) => match y {
            Expr::Of(_, _, _) => false,
            Expr::Null(s, d) => r == s && same_cols(c, d),
        },
    }
}

fn cols_are_before(c: PartCols, d: PartCols) -> bool
    ensures { result ≡ cols_before c d }
{
    match c {
        PartCols::Whole => false,
        PartCols::List(a) => match d {
            PartCols::Whole => true,
            PartCols::List(b) => a < b,
        },
    }
}

/// Whether the first expression stands before the second.
pub fn is_before(x: Expr, y: Expr) -> bool
    ensures { result ≡ expr_before x y }
{
    match x {
        Expr::Of(v, i, c) => match y {
            Expr::Of(w, j, d) => { v < w || v == w && (i < j || i == j && cols_are_before(c, d)) }
            Expr::Null(_, _) => false,
        },
        Expr::Null(_, _) => false,
    }
}

/// The number of a variable where another one is taken away.
fn closed_up(y: u32, v: u32, i: u32, c: PartCols) -> Expr
    ensures { result ≡ expr_down y (Of v i c) }
{
    if y < v {
        Expr::Of(v - 1, i, c)
    } else {
        Expr::Of(v, i, c)
    }
}

fn changed_variable(change: Change, v: u32, i: u32, c: PartCols) -> Expr
    ensures { result ≡ changed change (Of v i c) }
{
    match change {
        Change::Down(y) => closed_up(y, v, i, c),
        Change::Onto(x, y) => {
            if v == y {
                Expr::Of(x, i, c)
            } else {
                closed_up(y, v, i, c)
            }
        }
        Change::Put(e, old) => {
            if same_written(Expr::Of(v, i, c), old) {
                e
            } else {
                Expr::Of(v, i, c)
            }
        }
    }
}

/// The expression after the change.
pub fn changed_expr(change: Change, x: Expr) -> Expr
    ensures { result ≡ changed change x }
{
    match x {
        Expr::Of(v, i, c) => changed_variable(change, v, i, c),
        Expr::Null(r, c) => match change {
            Change::Put(e, old) => {
                if same_written(x, old) {
                    e
                } else {
                    Expr::Null(r, c)
                }
            }
            Change::Down(_) | Change::Onto(_, _) => Expr::Null(r, c),
        },
    }
}

/// The pieces after the change.
pub fn changed_pieces(alloc: Global, change: Change, pieces: &Exprs) -> Result<Exprs, AllocError>
    ensures { IfOk result (λ ys. ys ≡ map (changed change) pieces.now) }
{
    let mut out = Vec::new(alloc);
    for x in pieces.as_slice() {
        out.push(changed_expr(change, *x))?;
    }
    Ok(Seq::from_vec(out))
}

/// The condition after the change.
fn changed_cond(alloc: Global, change: Change, c: &Cond) -> Result<Cond, AllocError>
    ensures { IfOk result (λ d. cond_seen d ≡ cond_map (changed change) (cond_seen c.now)) }
{
    match c {
        Cond::Pred(p, x) => Ok(Cond::Pred(*p, changed_expr(change, *x))),
        Cond::Join(x, y) => Ok(Cond::Join(changed_expr(change, *x), changed_expr(change, *y))),
        Cond::In(x, f) => {
            let y = changed_expr(change, *x);
            Ok(Cond::In(y, Box::new(alloc, f.copy(alloc)?)?))
        }
        Cond::NotIn(x, f) => {
            let y = changed_expr(change, *x);
            Ok(Cond::NotIn(y, Box::new(alloc, f.copy(alloc)?)?))
        }
    }
}

/// The conditions of a list after the change, and then further ones.
pub fn changed_conds(
    alloc: Global,
    change: Change,
    refs: &[&Cond],
    rest: Conds,
) -> Result<Conds, AllocError>
    ensures { IfOk result (λ ds. conds_seen ds ≡ conds_append (conds_map (changed change) (conds_from (map cond_behind refs.now))) (conds_seen rest)) }
{
    match refs {
        [] => Ok(rest),
        [c, more @ ..] => {
            let first = changed_cond(alloc, change, c)?;
            let tail = changed_conds(alloc, change, more, rest)?;
            Ok(Conds::More(first, Box::new(alloc, tail)?))
        }
    }
}
