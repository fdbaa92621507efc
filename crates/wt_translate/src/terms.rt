//! Terms made of other terms.
ghost use Rattle.std.specs.Prelude.{◌≡◌, ◌∷◌, [], IfOk};
ghost use Rattle.wt_symbol.specs.declared.head.PartCols.TheVariants.{List as list_cols};
ghost use Rattle.wt_form.specs.Trees.{Pred, Join, is_in, not_in};
ghost use Rattle.wt_form.specs.Parts.{one_term, terms_append, ranges_count};
ghost use Rattle.wt_form.specs.Views.{terms_seen, ranges_seen, conds_seen, form_seen};
ghost use Rattle.wt_form.specs.FormOf.{each_term, list_expr, proj_term, cond_term, null_term, join_term, join_terms};
ghost use Rattle.wt_bag.specs.Bags.{Each};
ghost use Rattle.wt_translate.specs.Bounds.{CanRise, CondsRise, TermsRise, CanJoin};

use crate::lists::{conds_then, count, one_cond, ranges_then, risen_then, with_last};
use crate::pieces::{Columns, joined_pieces, push_nulls, risen};
use std::alloc::{AllocError, Global};
use wt_form::{Cond, Exprs, Form, Ranges, Term, Terms};
use wt_symbol::{Part, Parts};

/// A term before others.
fn before(alloc: Global, term: Term, rest: Terms) -> Result<Terms, AllocError>
    ensures { IfOk result (λ ts. terms_seen ts ≡ terms_append (one_term (ranges_seen term.ranges) (conds_seen term.conds) term.pieces) (terms_seen rest)) }
{
    Ok(Terms::More(Box::new(alloc, term)?, Box::new(alloc, rest)?))
}

/// One piece.
pub fn one_piece(alloc: Global, piece: wt_form::Expr) -> Result<Exprs, AllocError>
    ensures { IfOk result (λ ps. ps ≡ piece ∷ []) }
{
    let mut pieces = Exprs::new(alloc);
    pieces.push(piece)?;
    Ok(pieces)
}

/// Each term with the one piece of a list.
pub fn projected(
    alloc: Global,
    terms: Terms,
    head: &[Part],
    columns: Columns,
) -> Result<Terms, AllocError>
    ensures { IfOk result (λ ts. terms_seen ts ≡ each_term (proj_term (λ ps. list_expr head.now ps columns.anchor columns.list)) (terms_seen terms)) }
{
    match terms {
        Terms::Empty => Ok(Terms::Empty),
        Terms::More(term, rest) => {
            let Term {
                ranges,
                conds,
                pieces,
            } = Box::into_inner(term);
            let piece = columns.of(head, pieces.as_slice());
            let rest = projected(alloc, Box::into_inner(rest), head, columns)?;
            let term = Term {
                ranges,
                conds,
                pieces: one_piece(alloc, piece)?,
            };
            before(alloc, term, rest)
        }
    }
}

/// A copy of each term with the one piece of a list.
pub fn projected_copies(
    alloc: Global,
    terms: &Terms,
    head: &[Part],
    columns: Columns,
) -> Result<Terms, AllocError>
    ensures { IfOk result (λ ts. terms_seen ts ≡ each_term (proj_term (λ ps. list_expr head.now ps columns.anchor columns.list)) (terms_seen terms.now)) }
{
    match terms {
        Terms::Empty => Ok(Terms::Empty),
        Terms::More(term, rest) => {
            let piece = columns.of(head, term.pieces.as_slice());
            let rest = projected_copies(alloc, rest, head, columns)?;
            let term = Term {
                ranges: term.ranges.copy(alloc)?,
                conds: term.conds.copy(alloc)?,
                pieces: one_piece(alloc, piece)?,
            };
            before(alloc, term, rest)
        }
    }
}

/// Each term with a predicate on a list more.
pub fn filtered(
    alloc: Global,
    terms: Terms,
    head: &[Part],
    pred: u8,
    columns: Columns,
) -> Result<Terms, AllocError>
    ensures { IfOk result (λ ts. terms_seen ts ≡ each_term (cond_term (λ ps. Pred pred (list_expr head.now ps columns.anchor columns.list))) (terms_seen terms)) }
{
    match terms {
        Terms::Empty => Ok(Terms::Empty),
        Terms::More(term, rest) => {
            let Term {
                ranges,
                conds,
                pieces,
            } = Box::into_inner(term);
            let cond = Cond::Pred(pred, columns.of(head, pieces.as_slice()));
            let rest = filtered(alloc, Box::into_inner(rest), head, pred, columns)?;
            let term = Term {
                ranges,
                conds: with_last(alloc, conds, cond)?,
                pieces,
            };
            before(alloc, term, rest)
        }
    }
}

/// Each term with an In of a list in a form's rows more. The last term takes the form, and those
/// before it copies.
pub fn contained(
    alloc: Global,
    terms: Terms,
    head: &[Part],
    columns: Columns,
    form: Form,
) -> Result<Terms, AllocError>
    ensures { IfOk result (λ ts. terms_seen ts ≡ each_term (cond_term (λ ps. is_in (list_expr head.now ps columns.anchor columns.list) form.head (terms_seen form.terms))) (terms_seen terms)) }
{
    match terms {
        Terms::Empty => Ok(Terms::Empty),
        Terms::More(term, rest) => {
            let Term {
                ranges,
                conds,
                pieces,
            } = Box::into_inner(term);
            let value = columns.of(head, pieces.as_slice());
            match Box::into_inner(rest) {
                Terms::Empty => {
                    let cond = Cond::In(value, Box::new(alloc, form)?);
                    let term = Term {
                        ranges,
                        conds: with_last(alloc, conds, cond)?,
                        pieces,
                    };
                    before(alloc, term, Terms::Empty)
                }
                Terms::More(next, more) => {
                    let cond = Cond::In(value, Box::new(alloc, form.copy(alloc)?)?);
                    let rest = contained(alloc, Terms::More(next, more), head, columns, form)?;
                    let term = Term {
                        ranges,
                        conds: with_last(alloc, conds, cond)?,
                        pieces,
                    };
                    before(alloc, term, rest)
                }
            }
        }
    }
}

/// Each term with a NotIn of a list in a form's rows, and with NULLs for the pieces of the right
/// head. The last term takes the form, and those before it copies.
pub fn unmatched(
    alloc: Global,
    terms: Terms,
    head: &[Part],
    columns: Columns,
    form: Form,
    right: &[Part],
) -> Result<Terms, AllocError>
    ensures { IfOk result (λ ts. terms_seen ts ≡ each_term (null_term (λ ps. not_in (list_expr head.now ps columns.anchor columns.list) form.head (terms_seen form.terms)) right.now) (terms_seen terms)) }
{
    match terms {
        Terms::Empty => Ok(Terms::Empty),
        Terms::More(term, rest) => {
            let Term {
                ranges,
                conds,
                pieces,
            } = Box::into_inner(term);
            let value = columns.of(head, pieces.as_slice());
            match Box::into_inner(rest) {
                Terms::Empty => {
                    let cond = Cond::NotIn(value, Box::new(alloc, form)?);
                    let term = Term {
                        ranges,
                        conds: with_last(alloc, conds, cond)?,
                        pieces: push_nulls(pieces, right)?,
                    };
                    before(alloc, term, Terms::Empty)
                }
                Terms::More(next, more) => {
                    let cond = Cond::NotIn(value, Box::new(alloc, form.copy(alloc)?)?);
                    let rest = unmatched(
                        alloc,
                        Terms::More(next, more),
                        head,
                        columns,
                        form,
                        right,
                    )?;
                    let term = Term {
                        ranges,
                        conds: with_last(alloc, conds, cond)?,
                        pieces: push_nulls(pieces, right)?,
                    };
                    before(alloc, term, rest)
                }
            }
        }
    }
}

/// An operand of a join: its head, and the list that is joined.
#[derive(Clone, Copy)]
pub struct Operand<'a> {
    pub head: &'a [Part],
    pub columns: Columns,
}

/// A left term and a right one put together, with k variables in the left one.
fn joined_term(
    alloc: Global,
    left: &Term,
    k: u32,
    of_left: Operand,
    right: &Term,
    of_right: Operand,
) -> Result<Term, AllocError>
    requires count { k ≡ ranges_count (ranges_seen left.now.ranges) }
    requires conds { CondsRise k (conds_seen right.now.conds) }
    requires pieces { Each (CanRise k) right.now.pieces }
    ensures { IfOk result (λ term. one_term (ranges_seen term.ranges) (conds_seen term.conds) term.pieces
        ≡ join_term (λ ps. list_expr of_left.entry.head.now ps of_left.entry.columns.anchor of_left.entry.columns.list) (λ ps. list_expr of_right.entry.head.now ps of_right.entry.columns.anchor of_right.entry.columns.list)
        (ranges_seen left.now.ranges) (conds_seen left.now.conds) left.now.pieces (ranges_seen right.now.ranges) (conds_seen right.now.conds) right.now.pieces) }
{
    let x = of_left.columns.of(of_left.head, left.pieces.as_slice());
    let y = of_right.columns.of(of_right.head, right.pieces.as_slice());
    let join = one_cond(alloc, Cond::Join(x, risen(y, k)))?;
    let conds = risen_then(alloc, &right.conds, k, join)?;
    let ranges = right.ranges.copy(alloc)?;
    Ok(Term {
        ranges: ranges_then(alloc, &left.ranges, ranges)?,
        conds: conds_then(alloc, &left.conds, conds)?,
        pieces: joined_pieces(alloc, left.pieces.as_slice(), right.pieces.as_slice(), k)?,
    })
}

/// A left term with each of the right terms, put before others.
fn joined_with(
    alloc: Global,
    left: &Term,
    k: u32,
    of_left: Operand,
    rights: &Terms,
    of_right: Operand,
    rest: Terms,
) -> Result<Terms, AllocError>
    requires count { k ≡ ranges_count (ranges_seen left.now.ranges) }
    requires rise { TermsRise k (terms_seen rights.now) }
    ensures { IfOk result (λ ts. terms_seen ts ≡ terms_append
        (each_term (join_term (λ ps. list_expr of_left.entry.head.now ps of_left.entry.columns.anchor of_left.entry.columns.list) (λ ps. list_expr of_right.entry.head.now ps of_right.entry.columns.anchor of_right.entry.columns.list)
        (ranges_seen left.now.ranges) (conds_seen left.now.conds) left.now.pieces) (terms_seen rights.now)) (terms_seen rest)) }
{
    match rights {
        Terms::Empty => Ok(rest),
        Terms::More(right, more) => {
            let rest = joined_with(alloc, left, k, of_left, more, of_right, rest)?;
            let term = joined_term(alloc, left, k, of_left, right, of_right)?;
            before(alloc, term, rest)
        }
    }
}

/// Each left term with each right term, in order, put before others.
pub fn joined(
    alloc: Global,
    lefts: &Terms,
    of_left: Operand,
    rights: &Terms,
    of_right: Operand,
    rest: Terms,
) -> Result<Terms, AllocError>
    requires { CanJoin (terms_seen lefts.now) (terms_seen rights.now) }
    ensures { IfOk result (λ ts. terms_seen ts ≡ terms_append
        (join_terms (λ ps. list_expr of_left.entry.head.now ps of_left.entry.columns.anchor of_left.entry.columns.list) (λ ps. list_expr of_right.entry.head.now ps of_right.entry.columns.anchor of_right.entry.columns.list)
        (terms_seen lefts.now) (terms_seen rights.now)) (terms_seen rest)) }
{
    match lefts {
        Terms::Empty => Ok(rest),
        Terms::More(left, more) => {
            let rest = joined(alloc, more, of_left, rights, of_right, rest)?;
            let k = count(&left.ranges);
            joined_with(alloc, left, k, of_left, rights, of_right, rest)
        }
    }
}
