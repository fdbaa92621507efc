//! Expressions, pieces and conditions where a variable is opened.
ghost use Rattle.std.specs.Prelude.{◌≡◌, ◌↔◌, ◌-◌, ◌^◌, ◌++◌, map, IsTrue, IfOk, OnOk};
ghost use Rattle.wt_bag.specs.Bags.{Each};
ghost use Rattle.wt_form.specs.Parts.{conds_append, conds_map, cond_map};
ghost use Rattle.wt_form.specs.Known.{cols_eq};
ghost use Rattle.wt_form.specs.Closed.{IsWithin, ExistInCond, ExistInConds};
ghost use Rattle.wt_form.specs.Opening.{take_cols, take_part, expr_opened};
ghost use Rattle.wt_form.specs.Views.{conds_seen, cond_seen};
ghost use Rattle.wt_opening.specs.Opened.{opening_seen, CanOpen, CondCanOpen, CondsCanOpen, opened_or_same};

use std::alloc::{AllocError, Global};
use wt_form::{Cond, Conds, Expr, Exprs};
use wt_symbol::{Part, PartCols, Parts};
use wt_value::Seq;

/// Variable `at` stood for a row with this head; `count` variables take its place, over which these
/// pieces are.
#[derive(Debug, Drop)]
pub struct Opening {
    pub at: u32,
    pub count: u32,
    pub head: Parts,
    pub pieces: Exprs,
}

fn same_cols(c: PartCols, d: PartCols) -> bool
    ensures { result ≡ cols_eq c d }
{
    match c {
        PartCols::Whole => match d {
            PartCols::Whole => true,
            PartCols::List(_) => false,
        },
        PartCols::List(a) => match d {
            PartCols::Whole => false,
            PartCols::List(b) => a == b,
        },
    }
}

/// An expression on a part with columns `own`, cut down to other columns, if that can be done.
fn cut(own: PartCols, c: PartCols, e: Expr) -> Option<Expr>
    ensures { result ≡ take_cols own c e }
{
    if same_cols(c, own) {
        return Some(e);
    }
    match e {
        Expr::Of(v, i, d) => {
            if same_cols(d, own) {
                Some(Expr::Of(v, i, c))
            } else {
                None
            }
        }
        Expr::Null(r, _) => Some(Expr::Null(r, c)),
    }
}

/// The columns of a part of a row with this head and these pieces, if they can be cut from its piece.
fn cut_part(head: &[Part], pieces: &[Expr], i: u32, c: PartCols) -> Option<Expr>
    ensures { result ≡ take_part head.now pieces.now i c }
{
    match head {
        [] => None,
        [h, more @ ..] => match pieces {
            [] => None,
            [p, others @ ..] => {
                if i == 0 {
                    cut(h.cols, c, *p)
                } else {
                    cut_part(more, others, i - 1, c)
                }
            }
        },
    }
}

/// The expression where the variable is opened, if its columns can be cut from a piece.
fn opened_expr(opening: &Opening, x: Expr) -> Option<Expr>
    requires { IsWithin (2 ^ 32 - opening.now.count) x }
    ensures { result ≡ expr_opened (opening_seen opening.now) x }
{
    match x {
        Expr::Of(v, i, c) => {
            if v < opening.at {
                Some(Expr::Of(v, i, c))
            } else if v == opening.at {
                cut_part(opening.head.as_slice(), opening.pieces.as_slice(), i, c)
            } else {
                Some(Expr::Of(opening.count + (v - 1), i, c))
            }
        }
        Expr::Null(r, c) => Some(Expr::Null(r, c)),
    }
}

/// Whether the expression can be opened.
pub fn can_open(opening: &Opening, x: Expr) -> bool
    requires { IsWithin (2 ^ 32 - opening.now.count) x }
    ensures { IsTrue result ↔ CanOpen (opening_seen opening.now) x }
{
    opened_expr(opening, x).is_some()
}

/// The expression where the variable is opened, or as it was where that cannot be.
fn opened_or_same(opening: &Opening, x: Expr) -> Expr
    requires { IsWithin (2 ^ 32 - opening.now.count) x }
    ensures { result ≡ opened_or_same (opening_seen opening.now) x }
{
    match opened_expr(opening, x) {
        Some(y) => y,
        None => x,
    }
}

/// Whether each piece can be opened.
pub fn can_open_pieces(opening: &Opening, pieces: &[Expr]) -> bool
    requires { Each (IsWithin (2 ^ 32 - opening.now.count)) pieces.now }
    ensures { IsTrue result ↔ Each (CanOpen (opening_seen opening.now)) pieces.now }
{
    match pieces {
        [] => true,
        [x, rest @ ..] => can_open(opening, *x) && can_open_pieces(opening, rest),
    }
}

fn can_open_cond(opening: &Opening, c: &Cond) -> bool
    requires { ExistInCond (2 ^ 32 - opening.now.count) (cond_seen c.now) }
    ensures { IsTrue result ↔ CondCanOpen (opening_seen opening.now) (cond_seen c.now) }
{
    match c {
        Cond::Pred(_, x) | Cond::In(x, _) | Cond::NotIn(x, _) => can_open(opening, *x),
        Cond::Join(x, y) => can_open(opening, *x) && can_open(opening, *y),
    }
}

/// Whether each expression of the conditions can be opened.
pub fn can_open_conds(opening: &Opening, conds: &Conds) -> bool
    requires { ExistInConds (2 ^ 32 - opening.now.count) (conds_seen conds.now) }
    ensures { IsTrue result ↔ CondsCanOpen (opening_seen opening.now) (conds_seen conds.now) }
{
    match conds {
        Conds::Empty => true,
        Conds::More(c, rest) => can_open_cond(opening, c) && can_open_conds(opening, rest),
    }
}

fn push_opened(opening: &Opening, pieces: &[Expr], out: &mut Exprs) -> Result<(), AllocError>
    requires { Each (IsWithin (2 ^ 32 - opening.now.count)) pieces.now }
    ensures { OnOk result (out.new ≡ out.old ++ map (opened_or_same (opening_seen opening.now)) pieces.now) }
{
    match pieces {
        [] => Ok(()),
        [x, rest @ ..] => {
            out.push(opened_or_same(opening, *x))?;
            push_opened(opening, rest, out)
        }
    }
}

/// The pieces where the variable is opened.
pub fn opened_pieces(alloc: Global, opening: &Opening, pieces: &[Expr]) -> Result<Exprs, AllocError>
    requires { Each (IsWithin (2 ^ 32 - opening.now.count)) pieces.now }
    ensures { IfOk result (λ ys. ys ≡ map (opened_or_same (opening_seen opening.now)) pieces.now) }
{
    let mut out = Seq::new(alloc);
    push_opened(opening, pieces, &mut out)?;
    Ok(out)
}

fn opened_cond(alloc: Global, opening: &Opening, c: &Cond) -> Result<Cond, AllocError>
    requires { ExistInCond (2 ^ 32 - opening.now.count) (cond_seen c.now) }
    ensures { IfOk result (λ d. cond_seen d ≡ cond_map (opened_or_same (opening_seen opening.now)) (cond_seen c.now)) }
{
    match c {
        Cond::Pred(p, x) => Ok(Cond::Pred(*p, opened_or_same(opening, *x))),
        Cond::Join(x, y) => Ok(Cond::Join(
            opened_or_same(opening, *x),
            opened_or_same(opening, *y),
        )),
        Cond::In(x, f) => {
            let y = opened_or_same(opening, *x);
            Ok(Cond::In(y, Box::new(alloc, f.copy(alloc)?)?))
        }
        Cond::NotIn(x, f) => {
            let y = opened_or_same(opening, *x);
            Ok(Cond::NotIn(y, Box::new(alloc, f.copy(alloc)?)?))
        }
    }
}

/// The conditions where the variable is opened, and then further ones.
pub fn opened_conds(
    alloc: Global,
    opening: &Opening,
    conds: &Conds,
    rest: Conds,
) -> Result<Conds, AllocError>
    requires { ExistInConds (2 ^ 32 - opening.now.count) (conds_seen conds.now) }
    ensures { IfOk result (λ ds. conds_seen ds ≡ conds_append (conds_map (opened_or_same (opening_seen opening.now)) (conds_seen conds.now)) (conds_seen rest)) }
{
    match conds {
        Conds::Empty => Ok(rest),
        Conds::More(c, more) => {
            let first = opened_cond(alloc, opening, c)?;
            let tail = opened_conds(alloc, opening, more, rest)?;
            Ok(Conds::More(first, Box::new(alloc, tail)?))
        }
    }
}
