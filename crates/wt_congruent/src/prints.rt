//! A number of a form that congruent forms share: what their symbols are, however they stand.
ghost use Rattle.std.specs.Prelude.{◌≡◌, ◌≤◌, ◌-◌, ◌^◌, min};
ghost use Rattle.wt_form.specs.Views.{terms_seen, ranges_seen, range_seen, conds_seen, cond_seen, term_seen};
ghost use Rattle.wt_congruent.specs.Prints.{class_of, cols_print, expr_print, pieces_print, terms_print, term_print, ranges_print, range_print, conds_print, cond_print};

use wt_facts::Facts;
use wt_form::{Cond, Conds, Expr, FormRange, Ranges, Term, Terms};
use wt_symbol::PartCols;
use wt_value::Seq;

fn class_of(classes: &Seq<u8>, i: u8) -> u8
    ensures { result ≡ class_of classes.now i }
{
    let classes = classes.as_slice();
    if (i as usize) < classes.len() {
        classes[i as usize]
    } else {
        i
    }
}

fn cols_print(facts: &Facts, c: PartCols) -> u64
    ensures exact { result ≡ cols_print facts.now c }
    ensures small { result ≤ 257 }
{
    match c {
        PartCols::Whole => 1,
        PartCols::List(a) => 2 + u64::from(class_of(&facts.sames.lists, a)),
    }
}

fn expr_print(facts: &Facts, x: Expr) -> u64
    ensures { result ≡ expr_print facts.now x }
{
    match x {
        Expr::Of(_, i, c) => 1024 * u64::from(i) + cols_print(facts, c),
        Expr::Null(r, PartCols::Whole) => 512 + u64::from(class_of(&facts.sames.leaves, r)),
        Expr::Null(_, PartCols::List(a)) => 768 + u64::from(class_of(&facts.sames.lists, a)),
    }
}

fn pieces_print(facts: &Facts, xs: &[Expr]) -> u64
    ensures { result ≡ min (pieces_print facts.now xs.now) (2 ^ 64 - 1) }
{
    match xs {
        [] => 0,
        [x, rest @ ..] => expr_print(facts, *x).saturating_add(pieces_print(facts, rest)),
    }
}

/// The number of a term, up to the type's greatest number.
#[cycle(print)]
pub(crate) fn term_print(facts: &Facts, term: &Term) -> u64
    ensures { result ≡ min (term_print facts.now (term_seen term.now)) (2 ^ 64 - 1) }
{
    ranges_print(facts, &term.ranges)
        .saturating_add(conds_print(facts, &term.conds))
        .saturating_add(pieces_print(facts, term.pieces.as_slice()))
        .saturating_add(1)
}

/// The sum of the terms' numbers, up to the type's greatest number.
#[cycle(print)]
pub(crate) fn terms_print(facts: &Facts, terms: &Terms) -> u64
    ensures { result ≡ min (terms_print facts.now (terms_seen terms.now)) (2 ^ 64 - 1) }
{
    match terms {
        Terms::Empty => 0,
        Terms::More(term, rest) => {
            term_print(facts, term).saturating_add(terms_print(facts, rest))
        }
    }
}

#[cycle(print)]
fn ranges_print(facts: &Facts, ranges: &Ranges) -> u64
    ensures { result ≡ min (ranges_print facts.now (ranges_seen ranges.now)) (2 ^ 64 - 1) }
{
    match ranges {
        Ranges::Empty => 0,
        Ranges::More(range, rest) => {
            range_print(facts, range).saturating_add(ranges_print(facts, rest))
        }
    }
}

#[cycle(print)]
fn range_print(facts: &Facts, range: &FormRange) -> u64
    ensures { result ≡ min (range_print facts.now (range_seen range.now)) (2 ^ 64 - 1) }
{
    match range {
        FormRange::Rel(r) => 262144 + 256 * u64::from(class_of(&facts.sames.leaves, *r)),
        FormRange::Distinct(f) => terms_print(facts, &f.terms).saturating_add(1000003),
    }
}

#[cycle(print)]
fn conds_print(facts: &Facts, conds: &Conds) -> u64
    ensures { result ≡ min (conds_print facts.now (conds_seen conds.now)) (2 ^ 64 - 1) }
{
    match conds {
        Conds::Empty => 0,
        Conds::More(c, rest) => cond_print(facts, c).saturating_add(conds_print(facts, rest)),
    }
}

#[cycle(print)]
fn cond_print(facts: &Facts, c: &Cond) -> u64
    ensures { result ≡ min (cond_print facts.now (cond_seen c.now)) (2 ^ 64 - 1) }
{
    match c {
        Cond::Pred(p, x) => expr_print(facts, *x).saturating_add(
            2000003 + 65536 * u64::from(class_of(&facts.sames.preds, *p)),
        ),
        Cond::Join(x, y) => expr_print(facts, *x)
            .saturating_add(expr_print(facts, *y))
            .saturating_add(5000011),
        Cond::In(x, f) => expr_print(facts, *x)
            .saturating_add(terms_print(facts, &f.terms))
            .saturating_add(11000027),
        Cond::NotIn(x, f) => expr_print(facts, *x)
            .saturating_add(terms_print(facts, &f.terms))
            .saturating_add(23000009),
    }
}
