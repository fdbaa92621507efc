//! Expressions whose variables are so many higher.
ghost use Rattle.std.specs.Prelude.{◌≡◌, ◌-◌, ◌^◌, ◌++◌, map, IfOk, OnOk};
ghost use Rattle.wt_bag.specs.Bags.{Each};
ghost use Rattle.wt_form.specs.Parts.{expr_up, conds_up, cond_map};
ghost use Rattle.wt_form.specs.Closed.{IsWithin, ExistInCond, ExistInConds};
ghost use Rattle.wt_form.specs.Views.{conds_seen, cond_seen};

use std::alloc::{AllocError, Global};
use wt_form::{Cond, Conds, Expr, Exprs};
use wt_value::Seq;

fn raised(k: u32, x: Expr) -> Expr
    requires { IsWithin (2 ^ 32 - k) x }
    ensures { result ≡ expr_up k x }
{
    match x {
        Expr::Of(v, i, c) => Expr::Of(k + v, i, c),
        Expr::Null(r, c) => Expr::Null(r, c),
    }
}

fn push_raised(k: u32, pieces: &[Expr], out: &mut Exprs) -> Result<(), AllocError>
    requires { Each (IsWithin (2 ^ 32 - k)) pieces.now }
    ensures { OnOk result (out.new ≡ out.old ++ map (expr_up k) pieces.now) }
{
    match pieces {
        [] => Ok(()),
        [x, rest @ ..] => {
            out.push(raised(k, *x))?;
            push_raised(k, rest, out)
        }
    }
}

/// The pieces with variables k higher.
pub fn raised_pieces(alloc: Global, k: u32, pieces: &[Expr]) -> Result<Exprs, AllocError>
    requires { Each (IsWithin (2 ^ 32 - k)) pieces.now }
    ensures { IfOk result (λ ys. ys ≡ map (expr_up k) pieces.now) }
{
    let mut out = Seq::new(alloc);
    push_raised(k, pieces, &mut out)?;
    Ok(out)
}

fn raised_cond(alloc: Global, k: u32, c: &Cond) -> Result<Cond, AllocError>
    requires { ExistInCond (2 ^ 32 - k) (cond_seen c.now) }
    ensures { IfOk result (λ d. cond_seen d ≡ cond_map (expr_up k) (cond_seen c.now)) }
{
    match c {
        Cond::Pred(p, x) => Ok(Cond::Pred(*p, raised(k, *x))),
        Cond::Join(x, y) => Ok(Cond::Join(raised(k, *x), raised(k, *y))),
        Cond::In(x, f) => {
            let y = raised(k, *x);
            Ok(Cond::In(y, Box::new(alloc, f.copy(alloc)?)?))
        }
        Cond::NotIn(x, f) => {
            let y = raised(k, *x);
            Ok(Cond::NotIn(y, Box::new(alloc, f.copy(alloc)?)?))
        }
    }
}

/// The conditions with variables k higher.
pub fn raised_conds(alloc: Global, k: u32, conds: &Conds) -> Result<Conds, AllocError>
    requires { ExistInConds (2 ^ 32 - k) (conds_seen conds.now) }
    ensures { IfOk result (λ ds. conds_seen ds ≡ conds_up k (conds_seen conds.now)) }
{
    match conds {
        Conds::Empty => Ok(Conds::Empty),
        Conds::More(c, rest) => {
            let first = raised_cond(alloc, k, c)?;
            let tail = raised_conds(alloc, k, rest)?;
            Ok(Conds::More(first, Box::new(alloc, tail)?))
        }
    }
}
