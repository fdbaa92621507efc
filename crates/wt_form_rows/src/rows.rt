//! The rows of a form.
ghost use Rattle.std.specs.Prelude.{◌≡◌, ◌++◌, map, IfOk, OnOk};
ghost use Rattle.wt_bag.specs.Bags.{distinct};
ghost use Rattle.wt_instance.specs.Instances.{table};
ghost use Rattle.wt_form.specs.Views.{terms_seen, ranges_seen, range_seen, conds_seen, cond_seen, form_seen};
ghost use Rattle.wt_rows.specs.FormRows as spec;
ghost use Rattle.wt_form_rows.specs.Tests.{test_of, tests_of, leaf_pieces};

use crate::choices::{Choices, ChoicesList, push_term_rows};
use crate::conds::{Test, Tests};
use crate::distinct::distinct_rows;
use crate::values::{FormRows, Pieces, labels, numbered, plain_rows};
use std::alloc::{AllocError, Global};
use wt_form::{Cond, Conds, Form, FormRange, Ranges, Term, Terms};
use wt_instance::Instance;
use wt_symbol::Part;
use wt_value::{Row, Rows};

/// The one piece of a leaf's row.
fn leaf_pieces_of(alloc: Global, row: &Row) -> Result<Pieces, AllocError>
    ensures { IfOk result (λ pieces. pieces ≡ leaf_pieces row.now) }
{
    let mut pieces = Pieces::new(alloc);
    pieces.push(numbered(alloc, row)?)?;
    Ok(pieces)
}

/// What a variable over a leaf may stand for.
fn leaf_choices(alloc: Global, instance: &Instance, leaf: u8) -> Result<Choices, AllocError>
    ensures { IfOk result (λ choices. choices ≡ map leaf_pieces (table instance.now leaf)) }
{
    let mut choices = Choices::new(alloc);
    for row in instance.table(leaf) {
        choices.push(leaf_pieces_of(alloc, row)?)?;
    }
    Ok(choices)
}

/// What a variable over rows with this head may stand for.
fn row_choices(
    alloc: Global,
    instance: &Instance,
    head: &[Part],
    rows: &FormRows,
) -> Result<Choices, AllocError>
    ensures { IfOk result (λ choices. choices ≡ map (spec.labels instance.now head.now) rows.now) }
{
    let mut choices = Choices::new(alloc);
    for row in rows.as_slice() {
        choices.push(labels(alloc, instance, head, row)?)?;
    }
    Ok(choices)
}

/// What a variable over distinct rows may stand for.
fn distinct_choices(
    alloc: Global,
    instance: &Instance,
    head: &[Part],
    rows: &FormRows,
) -> Result<Choices, AllocError>
    ensures { IfOk result (λ choices. choices ≡ map (spec.labels instance.now head.now) (distinct spec.form_row_same rows.now)) }
{
    let kept = distinct_rows(alloc, rows)?;
    row_choices(alloc, instance, head, &kept)
}

/// What a variable may stand for.
#[cycle(rows)]
fn range_choices(
    alloc: Global,
    instance: &Instance,
    range: &FormRange,
) -> Result<Choices, AllocError>
    ensures { IfOk result (λ choices. choices ≡ spec.range_rows (range_seen range.now) instance.now) }
{
    match range {
        FormRange::Rel(leaf) => leaf_choices(alloc, instance, *leaf),
        FormRange::Distinct(form) => {
            let rows = terms_rows(alloc, instance, &form.terms)?;
            distinct_choices(alloc, instance, form.head.as_slice(), &rows)
        }
    }
}

/// Adds what each variable may stand for.
#[cycle(rows)]
fn push_choices(
    alloc: Global,
    instance: &Instance,
    ranges: &Ranges,
    choices: &mut ChoicesList,
) -> Result<(), AllocError>
    ensures { OnOk result (choices.new ≡ choices.old ++ spec.ranges_rows (ranges_seen ranges.now) instance.now) }
{
    match ranges {
        Ranges::Empty => Ok(()),
        Ranges::More(range, rest) => {
            choices.push(range_choices(alloc, instance, range)?)?;
            push_choices(alloc, instance, rest, choices)
        }
    }
}

/// A condition with the rows of its nested form.
#[cycle(rows)]
fn test(alloc: Global, instance: &Instance, cond: &Cond) -> Result<Test, AllocError>
    ensures { IfOk result (λ t. t ≡ test_of instance.now (cond_seen cond.now)) }
{
    match cond {
        Cond::Pred(pred, x) => Ok(Test::IsTrue(*pred, *x)),
        Cond::Join(x, y) => Ok(Test::Match(*x, *y)),
        Cond::In(x, form) => Ok(Test::Among(*x, nested_rows(alloc, instance, &form.terms)?)),
        Cond::NotIn(x, form) => Ok(Test::NotAmong(*x, nested_rows(alloc, instance, &form.terms)?)),
    }
}

/// Adds the conditions with the rows of their nested forms.
#[cycle(rows)]
fn push_tests(
    alloc: Global,
    instance: &Instance,
    conds: &Conds,
    tests: &mut Tests,
) -> Result<(), AllocError>
    ensures { OnOk result (tests.new ≡ tests.old ++ tests_of instance.now (conds_seen conds.now)) }
{
    match conds {
        Conds::Empty => Ok(()),
        Conds::More(cond, rest) => {
            tests.push(test(alloc, instance, cond)?)?;
            push_tests(alloc, instance, rest, tests)
        }
    }
}

/// Adds the rows of a term.
#[cycle(rows)]
fn push_term(
    alloc: Global,
    instance: &Instance,
    term: &Term,
    rows: &mut FormRows,
) -> Result<(), AllocError>
    ensures { OnOk result (rows.new ≡ rows.old ++ spec.one_rows (spec.conds_hold (conds_seen term.now.conds) instance.now) (spec.row_of instance.now term.now.pieces) (spec.ranges_rows (ranges_seen term.now.ranges) instance.now)) }
{
    let mut choices = ChoicesList::new(alloc);
    push_choices(alloc, instance, &term.ranges, &mut choices)?;
    let mut tests = Tests::new(alloc);
    push_tests(alloc, instance, &term.conds, &mut tests)?;
    push_term_rows(
        alloc,
        instance,
        tests.as_slice(),
        term.pieces.as_slice(),
        choices.as_slice(),
        rows,
    )
}

/// Adds the rows of terms, in order.
#[cycle(rows)]
fn push_terms(
    alloc: Global,
    instance: &Instance,
    terms: &Terms,
    rows: &mut FormRows,
) -> Result<(), AllocError>
    ensures { OnOk result (rows.new ≡ rows.old ++ spec.terms_rows (terms_seen terms.now) instance.now) }
{
    match terms {
        Terms::Empty => Ok(()),
        Terms::More(term, rest) => {
            push_term(alloc, instance, term, rows)?;
            push_terms(alloc, instance, rest, rows)
        }
    }
}

/// The rows of terms, piece by piece.
#[cycle(rows)]
fn terms_rows(alloc: Global, instance: &Instance, terms: &Terms) -> Result<FormRows, AllocError>
    ensures { IfOk result (λ rows. rows ≡ spec.terms_rows (terms_seen terms.now) instance.now) }
{
    let mut rows = FormRows::new(alloc);
    push_terms(alloc, instance, terms, &mut rows)?;
    Ok(rows)
}

/// The rows of terms, their pieces put together.
#[cycle(rows)]
fn nested_rows(alloc: Global, instance: &Instance, terms: &Terms) -> Result<Rows, AllocError>
    ensures { IfOk result (λ rows. rows ≡ map spec.put_together (spec.terms_rows (terms_seen terms.now) instance.now)) }
{
    let rows = terms_rows(alloc, instance, terms)?;
    plain_rows(alloc, &rows)
}

/// The rows of a form on an instance: for each term in order, for each choice of its variables under
/// which all conditions hold, the pieces put together.
pub fn rows_of(alloc: Global, form: &Form, instance: &Instance) -> Result<Rows, AllocError>
    ensures exact { IfOk result (λ rows. rows ≡ spec.form_rows (form_seen form.now) instance.now) }
{
    nested_rows(alloc, instance, &form.terms)
}
