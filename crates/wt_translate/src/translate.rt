//! The form of a side, one line per operator.
ghost use Rattle.std.specs.Prelude.{◌≡◌, ◌^◌, ◌<◌, length, IfOk};
ghost use Rattle.wt_symbol.specs.Sides.{tree_of, size_of};
ghost use Rattle.wt_symbol.specs.Heads.{anchor, HasAnchors};
ghost use Rattle.wt_form.specs.Trees.{Pred, is_in};
ghost use Rattle.wt_form.specs.Views.{terms_seen, form_seen};
ghost use Rattle.wt_form.specs.FormOf.{each_term, list_expr, cond_term, form_of};

use crate::operators::{distinct_form, inner_form, input_form, left_form, projected_form};
use crate::pieces::Columns;
use crate::terms::{contained, filtered};
use std::alloc::{AllocError, Global};
use wt_form::Form;
use wt_symbol::{Anchors, Side};

/// A list with its anchor.
fn columns_of(list: u8, anchors: &Anchors) -> Columns
    requires { list < length anchors.now }
    ensures list { result.list ≡ list }
    ensures anchor { result.anchor ≡ anchor anchors.now list }
{
    Columns {
        list,
        anchor: anchors.as_slice()[list as usize],
    }
}

/// The form of a Filter.
fn filtered_form(alloc: Global, form: Form, pred: u8, columns: Columns) -> Result<Form, AllocError>
    ensures head { IfOk result (λ new. new.head ≡ form.head) }
    ensures terms { IfOk result (λ new. terms_seen new.terms ≡ each_term (cond_term (λ ps. Pred pred (list_expr form.head ps columns.anchor columns.list))) (terms_seen form.terms)) }
{
    let Form { head, terms } = form;
    let terms = filtered(alloc, terms, head.as_slice(), pred, columns)?;
    Ok(Form { head, terms })
}

/// The form of an InSub.
fn contained_form(
    alloc: Global,
    form: Form,
    columns: Columns,
    right: Form,
) -> Result<Form, AllocError>
    ensures head { IfOk result (λ new. new.head ≡ form.head) }
    ensures terms { IfOk result (λ new. terms_seen new.terms ≡ each_term (cond_term (λ ps. is_in (list_expr form.head ps columns.anchor columns.list) right.head (terms_seen right.terms))) (terms_seen form.terms)) }
{
    let Form { head, terms } = form;
    let terms = contained(alloc, terms, head.as_slice(), columns, right)?;
    Ok(Form { head, terms })
}

/// The form of a side: its head, and a term for each way in which its rows come about.
pub fn form_of(alloc: Global, side: &Side, anchors: &Anchors) -> Result<Form, AllocError>
    requires lists { HasAnchors (tree_of side.now) anchors.now }
    requires size { size_of (tree_of side.now) < 2 ^ 31 }
    ensures { IfOk result (λ form. form_seen form ≡ form_of (tree_of side.now) anchors.now) }
{
    match side {
        Side::Input(leaf) => input_form(alloc, *leaf),
        Side::Proj(list, s) => {
            let form = form_of(alloc, s, anchors)?;
            projected_form(alloc, form, columns_of(*list, anchors))
        }
        Side::Filter(pred, list, s) => {
            let form = form_of(alloc, s, anchors)?;
            filtered_form(alloc, form, *pred, columns_of(*list, anchors))
        }
        Side::InnerJoin(a, b, s, t) => {
            let left = form_of(alloc, s, anchors)?;
            let right = form_of(alloc, t, anchors)?;
            inner_form(
                alloc,
                left,
                columns_of(*a, anchors),
                &right,
                columns_of(*b, anchors),
            )
        }
        Side::LeftJoin(a, b, s, t) => {
            let left = form_of(alloc, s, anchors)?;
            let right = form_of(alloc, t, anchors)?;
            left_form(
                alloc,
                left,
                columns_of(*a, anchors),
                &right,
                columns_of(*b, anchors),
            )
        }
        Side::InSub(list, s, t) => {
            let form = form_of(alloc, s, anchors)?;
            let right = form_of(alloc, t, anchors)?;
            contained_form(alloc, form, columns_of(*list, anchors), right)
        }
        Side::Dedup(s) => distinct_form(alloc, form_of(alloc, s, anchors)?),
    }
}
