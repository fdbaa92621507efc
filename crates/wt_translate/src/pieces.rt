//! The expressions of a term's pieces.
ghost use Rattle.std.specs.Prelude.{◌≡◌, ◌+◌, ◌<◌, ◌≤◌, ◌^◌, ◌++◌, map, length, IfOk, OnOk};
ghost use Rattle.wt_bag.specs.Bags.{Each};
ghost use Rattle.wt_form.specs.Parts.{expr_up};
ghost use Rattle.wt_form.specs.FormOf.{expr_with, list_expr, null_pieces, part_pieces};
ghost use Rattle.wt_symbol.specs.declared.head.PartCols.TheVariants.{List as list_cols};
ghost use Rattle.wt_translate.specs.Bounds.{CanRise};

use std::alloc::{AllocError, Global};
use wt_form::{Expr, Exprs};
use wt_symbol::{Part, PartCols};

/// A list at the operand that it is used on: it stands on the part of its anchor.
#[derive(Clone, Copy)]
pub struct Columns {
    pub list: u8,
    pub anchor: u8,
}

/// The expression with the columns of a list.
fn with_list(x: Expr, list: u8) -> Expr
    ensures { result ≡ expr_with x (list_cols list) }
{
    match x {
        Expr::Of(v, i, _) => Expr::Of(v, i, PartCols::List(list)),
        Expr::Null(r, _) => Expr::Null(r, PartCols::List(list)),
    }
}

impl Columns {
    /// The piece of the part of the anchor, with the list's columns.
    pub fn of(self, head: &[Part], pieces: &[Expr]) -> Expr
        ensures { result ≡ list_expr head.now pieces.now self.anchor self.list }
    {
        match head {
            [] => Expr::Null(self.anchor, PartCols::List(self.list)),
            [part, parts @ ..] => match pieces {
                [] => Expr::Null(self.anchor, PartCols::List(self.list)),
                [piece, rest @ ..] => {
                    if part.leaf == self.anchor {
                        with_list(*piece, self.list)
                    } else {
                        self.of(parts, rest)
                    }
                }
            },
        }
    }
}

/// The expression with its variable k higher.
pub fn risen(x: Expr, k: u32) -> Expr
    requires { CanRise k x }
    ensures { result ≡ expr_up k x }
{
    match x {
        Expr::Of(v, i, cols) => Expr::Of(k + v, i, cols),
        Expr::Null(r, cols) => Expr::Null(r, cols),
    }
}

/// Adds expressions with their variables k higher.
fn push_risen(pieces: &[Expr], k: u32, out: &mut Vec<Expr>) -> Result<(), AllocError>
    requires { Each (CanRise k) pieces.now }
    ensures { OnOk result (out.new.items ≡ out.old.items ++ map (expr_up k) pieces.now) }
{
    match pieces {
        [] => Ok(()),
        [x, rest @ ..] => {
            out.push(risen(*x, k))?;
            push_risen(rest, k, out)
        }
    }
}

/// The pieces of a left term, and then those of a right one with their variables k higher.
pub fn joined_pieces(
    alloc: Global,
    left: &[Expr],
    right: &[Expr],
    k: u32,
) -> Result<Exprs, AllocError>
    requires { Each (CanRise k) right.now }
    ensures { IfOk result (λ ps. ps ≡ left.now ++ map (expr_up k) right.now) }
{
    let mut pieces = Vec::new(alloc);
    pieces.extend_from_slice(left)?;
    push_risen(right, k, &mut pieces)?;
    Ok(Exprs::from_vec(pieces))
}

/// Adds a NULL for each part of a head.
pub fn push_nulls(mut pieces: Exprs, head: &[Part]) -> Result<Exprs, AllocError>
    ensures { IfOk result (λ ps. ps ≡ pieces ++ null_pieces head.now) }
{
    match head {
        [] => Ok(pieces),
        [part, rest @ ..] => {
            pieces.push(Expr::Null(part.leaf, part.cols))?;
            push_nulls(pieces, rest)
        }
    }
}

/// Adds the parts of variable 0, from part i on.
fn push_parts(i: u32, head: &[Part], out: &mut Vec<Expr>) -> Result<(), AllocError>
    requires { i + length head.now < 2 ^ 32 }
    ensures { OnOk result (out.new.items ≡ out.old.items ++ part_pieces i head.now) }
{
    match head {
        [] => Ok(()),
        [part, rest @ ..] => {
            out.push(Expr::Of(0, i, part.cols))?;
            push_parts(i + 1, rest, out)
        }
    }
}

/// The parts of variable 0.
pub fn parts_of(alloc: Global, head: &[Part]) -> Result<Exprs, AllocError>
    requires { length head.now < 2 ^ 32 }
    ensures { IfOk result (λ ps. ps ≡ part_pieces 0 head.now) }
{
    let mut pieces = Vec::new(alloc);
    push_parts(0, head, &mut pieces)?;
    Ok(Exprs::from_vec(pieces))
}
