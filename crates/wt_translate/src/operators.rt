//! The form of each operator over those of its operands.
ghost use Rattle.std.specs.Prelude.{◌≡◌, ◌<◌, ◌^◌, ◌++◌, ◌∷◌, [], length, IfOk};
ghost use Rattle.wt_symbol.specs.declared.head.PartCols.TheVariants.{Whole, List as list_cols};
ghost use Rattle.wt_form.specs.Trees.{Rel, no_ranges, range_then, distinct_of, no_conds};
ghost use Rattle.wt_form.specs.Parts.{one_term, terms_append};
ghost use Rattle.wt_form.specs.Views.{terms_seen, range_seen};
ghost use Rattle.wt_form.specs.FormOf.{each_term, list_expr, proj_term, null_term, join_terms, part_pieces};
ghost use Rattle.wt_form.specs.Trees.{not_in};
ghost use Rattle.wt_form.specs.declared.form.Expr.TheVariants.{Of};
ghost use Rattle.wt_translate.specs.Bounds.{CanJoin};

use crate::lists::append_terms;
use crate::pieces::{Columns, parts_of};
use crate::terms::{Operand, joined, one_piece, projected, projected_copies, unmatched};
use std::alloc::{AllocError, Global};
use wt_form::{Conds, Expr, Exprs, Form, FormRange, Ranges, Term, Terms};
use wt_symbol::{Part, PartCols, Parts};

/// One term over one range, without conditions.
fn term_over(alloc: Global, range: FormRange, pieces: Exprs) -> Result<Terms, AllocError>
    ensures { IfOk result (λ ts. terms_seen ts ≡ one_term (range_then (range_seen range) no_ranges) no_conds pieces) }
{
    let term = Term {
        ranges: Ranges::More(range, Box::new(alloc, Ranges::Empty)?),
        conds: Conds::Empty,
        pieces,
    };
    Ok(Terms::More(Box::new(alloc, term)?, Box::new(alloc, Terms::Empty)?))
}

/// A head of one part.
fn one_part(alloc: Global, part: Part) -> Result<Parts, AllocError>
    ensures { IfOk result (λ head. head ≡ part ∷ []) }
{
    let mut head = Parts::new(alloc);
    head.push(part)?;
    Ok(head)
}

/// The part of a list.
fn part_of(columns: Columns) -> Part
    ensures { result ≡ record { leaf = columns.anchor; cols = list_cols columns.list } }
{
    Part {
        leaf: columns.anchor,
        cols: PartCols::List(columns.list),
    }
}

/// The form of an input: the rows of a leaf.
pub fn input_form(alloc: Global, leaf: u8) -> Result<Form, AllocError>
    ensures head { IfOk result (λ form. form.head ≡ record { leaf = leaf; cols = Whole } ∷ []) }
    ensures terms { IfOk result (λ form. terms_seen form.terms ≡ one_term (range_then (Rel leaf) no_ranges) no_conds (Of 0 0 Whole ∷ [])) }
{
    let cols = PartCols::Whole;
    let head = one_part(alloc, Part { leaf, cols })?;
    let pieces = one_piece(alloc, Expr::Of(0, 0, cols))?;
    let terms = term_over(alloc, FormRange::Rel(leaf), pieces)?;
    Ok(Form { head, terms })
}

/// The form of a Proj.
pub fn projected_form(alloc: Global, form: Form, columns: Columns) -> Result<Form, AllocError>
    ensures head { IfOk result (λ new. new.head ≡ record { leaf = columns.anchor; cols = list_cols columns.list } ∷ []) }
    ensures terms { IfOk result (λ new. terms_seen new.terms ≡ each_term (proj_term (λ ps. list_expr form.head ps columns.anchor columns.list)) (terms_seen form.terms)) }
{
    let Form { head, terms } = form;
    let terms = projected(alloc, terms, head.as_slice(), columns)?;
    let head = one_part(alloc, part_of(columns))?;
    Ok(Form { head, terms })
}

/// The head of a join: the left parts, and then the right ones.
fn joined_head(left: Parts, right: &[Part]) -> Result<Parts, AllocError>
    ensures { IfOk result (λ head. head ≡ left ++ right.now) }
{
    let mut parts = left.into_vec();
    parts.extend_from_slice(right)?;
    Ok(Parts::from_vec(parts))
}

/// The form of an InnerJoin.
pub fn inner_form(
    alloc: Global,
    left: Form,
    a: Columns,
    right: &Form,
    b: Columns,
) -> Result<Form, AllocError>
    requires { CanJoin (terms_seen left.terms) (terms_seen right.now.terms) }
    ensures head { IfOk result (λ new. new.head ≡ left.head ++ right.now.head) }
    ensures terms { IfOk result (λ new. terms_seen new.terms ≡ join_terms (λ ps. list_expr left.head ps a.anchor a.list) (λ ps. list_expr right.now.head ps b.anchor b.list) (terms_seen left.terms) (terms_seen right.now.terms)) }
{
    let Form { head, terms } = left;
    let of_left = Operand {
        head: head.as_slice(),
        columns: a,
    };
    let of_right = Operand {
        head: right.head.as_slice(),
        columns: b,
    };
    let terms = joined(alloc, &terms, of_left, &right.terms, of_right, Terms::Empty)?;
    let head = joined_head(head, right.head.as_slice())?;
    Ok(Form { head, terms })
}

/// The form of a list in the rows of a form.
fn listed_form(alloc: Global, form: &Form, columns: Columns) -> Result<Form, AllocError>
    ensures head { IfOk result (λ new. new.head ≡ record { leaf = columns.anchor; cols = list_cols columns.list } ∷ []) }
    ensures terms { IfOk result (λ new. terms_seen new.terms ≡ each_term (proj_term (λ ps. list_expr form.now.head ps columns.anchor columns.list)) (terms_seen form.now.terms)) }
{
    let terms = projected_copies(alloc, &form.terms, form.head.as_slice(), columns)?;
    let head = one_part(alloc, part_of(columns))?;
    Ok(Form { head, terms })
}

/// The form of a LeftJoin: the InnerJoin's terms, and the left terms without a match.
pub fn left_form(
    alloc: Global,
    left: Form,
    a: Columns,
    right: &Form,
    b: Columns,
) -> Result<Form, AllocError>
    requires { CanJoin (terms_seen left.terms) (terms_seen right.now.terms) }
    ensures head { IfOk result (λ new. new.head ≡ left.head ++ right.now.head) }
    ensures terms { IfOk result (λ new. terms_seen new.terms ≡ terms_append
        (join_terms (λ ps. list_expr left.head ps a.anchor a.list) (λ ps. list_expr right.now.head ps b.anchor b.list) (terms_seen left.terms) (terms_seen right.now.terms))
        (each_term (null_term (λ ps. not_in (list_expr left.head ps a.anchor a.list) (record { leaf = b.anchor; cols = list_cols b.list } ∷ []) (each_term (proj_term (λ ps. list_expr right.now.head ps b.anchor b.list)) (terms_seen right.now.terms))) right.now.head) (terms_seen left.terms))) }
{
    let Form { head, terms } = left;
    let of_left = Operand {
        head: head.as_slice(),
        columns: a,
    };
    let of_right = Operand {
        head: right.head.as_slice(),
        columns: b,
    };
    let matched = joined(alloc, &terms, of_left, &right.terms, of_right, Terms::Empty)?;
    let listed = listed_form(alloc, right, b)?;
    let parts = right.head.as_slice();
    let alone = unmatched(alloc, terms, head.as_slice(), a, listed, parts)?;
    let terms = append_terms(alloc, matched, alone)?;
    let head = joined_head(head, parts)?;
    Ok(Form { head, terms })
}

/// The form of a Dedup.
pub fn distinct_form(alloc: Global, form: Form) -> Result<Form, AllocError>
    requires { length form.head < 2 ^ 32 }
    ensures head { IfOk result (λ new. new.head ≡ form.head) }
    ensures terms { IfOk result (λ new. terms_seen new.terms ≡ one_term (range_then (distinct_of form.head (terms_seen form.terms)) no_ranges) no_conds (part_pieces 0 form.head)) }
{
    let head = form.head.clone()?;
    let pieces = parts_of(alloc, head.as_slice())?;
    let range = FormRange::Distinct(Box::new(alloc, form)?);
    let terms = term_over(alloc, range, pieces)?;
    Ok(Form { head, terms })
}
