//! The search for pairings.
ghost use Rattle.std.specs.Prelude.{◌≡◌, ◌↔◌, ◌+◌, ◌<◌, ◌++◌, ◌∷◌, [], ℕ, List, map, length, IsTrue, IfOk, OnOk};
ghost use Rattle.wt_bag.specs.Choices.{Has, At, drop_at};
ghost use Rattle.wt_form.specs.Congruent.{TermsSame, RangesSame, RangeSame, CondsSame, CondSame};
ghost use Rattle.wt_form.specs.Views.{terms_seen, ranges_seen, range_seen, conds_seen, cond_seen, terms_from, term_seen};
ghost use Rattle.wt_facts.specs.Facts.{known_of};
ghost use Rattle.wt_congruent.specs.Refs.{term_behind, range_behind, cond_behind, TermIs};
ghost use Rattle.wt_congruent.specs.Early.{GoesOn};

use crate::early::may_go_on;
use crate::exprs::{same_expr, same_head, same_pieces};
use crate::places::{Places, with_place};
use crate::prints::term_print;
use crate::refs::{cond_refs, range_refs, term_refs, without};
use std::alloc::{AllocError, Global};
use wt_facts::Facts;
use wt_form::{Cond, Conds, Expr, FormRange, Ranges, Term, Terms};

/// The place, and then each of the lists.
fn push_first(
    alloc: Global,
    j: usize,
    tails: &[Places],
    out: &mut Vec<Places>,
) -> Result<(), AllocError>
    ensures { OnOk result (out.new.items ≡ out.old.items ++ map (λ ks. j ∷ ks) tails.now) }
{
    for tail in tails {
        let mut ks = Places::new(alloc);
        ks.push(j)?;
        ks.extend(tail.as_slice())?;
        out.push(ks)?;
    }
    Ok(())
}

/// The places of the ranges that are the same as this one.
fn partners(
    alloc: Global,
    facts: &Facts,
    range: &FormRange,
    left: &[&FormRange],
) -> Result<Vec<usize>, AllocError>
    ensures { IfOk result (λ out. (j : ℕ) → (Has j out.items ↔ At (RangeSame (known_of facts.now) (range_seen range.now)) j (map range_behind left.now))) }
{
    let mut out = Vec::new(alloc);
    for j in 0..left.len() {
        if same_range(alloc, facts, range, left[j])? {
            out.push(j)?;
        }
    }
    Ok(out)
}

/// Every way to pair the variables one to one with those that are left.
pub fn pairings(
    alloc: Global,
    facts: &Facts,
    ranges: &Ranges,
    left: &[&FormRange],
) -> Result<Vec<Places>, AllocError>
    ensures { IfOk result (λ out. (ks : List ℕ) → (Has ks out.items ↔ RangesSame (known_of facts.now) ks (ranges_seen ranges.now) (map range_behind left.now))) }
{
    let mut out = Vec::new(alloc);
    match ranges {
        Ranges::Empty => {
            if left.is_empty() {
                out.push(Places::new(alloc))?;
            }
            Ok(out)
        }
        Ranges::More(range, rest) => {
            let all = partners(alloc, facts, range, left)?;
            for i in 0..all.len() {
                let j = all[i];
                let fewer = without(alloc, left, j)?;
                let tails = pairings(alloc, facts, rest, fewer.as_slice())?;
                push_first(alloc, j, tails.as_slice(), &mut out)?;
            }
            Ok(out)
        }
    }
}

/// Whether a variable goes over the same rows as another one.
#[cycle(same)]
pub fn same_range(
    alloc: Global,
    facts: &Facts,
    range: &FormRange,
    other: &FormRange,
) -> Result<bool, AllocError>
    ensures { IfOk result (λ yes. IsTrue yes ↔ RangeSame (known_of facts.now) (range_seen range.now) (range_seen other.now)) }
{
    match range {
        FormRange::Rel(r) => match other {
            FormRange::Rel(s) => Ok(facts.same_leaf(*r, *s)),
            FormRange::Distinct(_) => Ok(false),
        },
        FormRange::Distinct(f) => match other {
            FormRange::Rel(_) => Ok(false),
            FormRange::Distinct(g) => {
                if !same_head(facts, f.head.as_slice(), g.head.as_slice()) {
                    return Ok(false);
                }
                let left = term_refs(alloc, &g.terms)?;
                let same = same_terms(alloc, facts, &f.terms, left.as_slice())?;
                Ok(same)
            }
        },
    }
}

/// Whether the conditions can be paired one to one with those that are left.
#[cycle(same)]
pub fn same_conds(
    alloc: Global,
    facts: &Facts,
    ks: &[usize],
    conds: &Conds,
    left: &[&Cond],
) -> Result<bool, AllocError>
    ensures { IfOk result (λ yes. IsTrue yes ↔ CondsSame (known_of facts.now) ks.now (conds_seen conds.now) (map cond_behind left.now)) }
{
    match conds {
        Conds::Empty => Ok(left.is_empty()),
        Conds::More(c, rest) => {
            for j in 0..left.len() {
                if same_cond(alloc, facts, ks, c, left[j])? {
                    let fewer = without(alloc, left, j)?;
                    if same_conds(alloc, facts, ks, rest, fewer.as_slice())? {
                        return Ok(true);
                    }
                }
            }
            Ok(false)
        }
    }
}

/// Whether a condition is the same as another one when the variables take these places.
#[cycle(same)]
pub fn same_cond(
    alloc: Global,
    facts: &Facts,
    ks: &[usize],
    c: &Cond,
    d: &Cond,
) -> Result<bool, AllocError>
    ensures { IfOk result (λ yes. IsTrue yes ↔ CondSame (known_of facts.now) ks.now (cond_seen c.now) (cond_seen d.now)) }
{
    match c {
        Cond::Pred(p, x) => match d {
            Cond::Pred(q, y) => Ok(facts.same_pred(*p, *q) && same_expr(facts, ks, *x, *y)),
            _ => Ok(false),
        },
        Cond::Join(x, y) => match d {
            Cond::Join(v, w) => Ok(
                same_expr(facts, ks, *x, *v) && same_expr(facts, ks, *y, *w)
                    || same_expr(facts, ks, *x, *w) && same_expr(facts, ks, *y, *v),
            ),
            _ => Ok(false),
        },
        Cond::In(x, f) => match d {
            Cond::In(y, g) => {
                if !same_expr(facts, ks, *x, *y) {
                    return Ok(false);
                }
                let left = term_refs(alloc, &g.terms)?;
                let same = same_terms(alloc, facts, &f.terms, left.as_slice())?;
                Ok(same)
            }
            _ => Ok(false),
        },
        Cond::NotIn(x, f) => match d {
            Cond::NotIn(y, g) => {
                if !same_expr(facts, ks, *x, *y) {
                    return Ok(false);
                }
                let left = term_refs(alloc, &g.terms)?;
                let same = same_terms(alloc, facts, &f.terms, left.as_slice())?;
                Ok(same)
            }
            _ => Ok(false),
        },
    }
}

/// Whether some pairing that begins with these places makes the pieces and the conditions the same,
/// the other variables taking places among those that are left.
///
/// Only those beginnings are followed that may lead to one.
#[cycle(same)]
fn can_go_on(
    alloc: Global,
    facts: &Facts,
    ks: &[usize],
    ranges: &Ranges,
    left: &[&FormRange],
    conds: &Conds,
    pieces: &[Expr],
    others: &[&Cond],
    values: &[Expr],
) -> Result<bool, AllocError>
    ensures { IfOk result (λ yes. IsTrue yes ↔ GoesOn (known_of facts.now) ks.now (ranges_seen ranges.now) (map range_behind left.now) (conds_seen conds.now) pieces.now (map cond_behind others.now) values.now) }
{
    match ranges {
        Ranges::Empty => {
            if left.is_empty() && same_pieces(facts, ks, pieces, values) {
                return same_conds(alloc, facts, ks, conds, others);
            }
            Ok(false)
        }
        Ranges::More(range, rest) => {
            for j in 0..left.len() {
                let longer = with_place(alloc, ks, j)?;
                let ks = longer.as_slice();
                if may_go_on(facts, ks, conds, pieces, others, values)
                    && same_range(alloc, facts, range, left[j])?
                {
                    let fewer = without(alloc, left, j)?;
                    let fewer = fewer.as_slice();
                    if can_go_on(alloc, facts, ks, rest, fewer, conds, pieces, others, values)? {
                        return Ok(true);
                    }
                }
            }
            Ok(false)
        }
    }
}

/// Whether some pairing of variables makes the terms the same.
#[cycle(same)]
pub fn same_term(
    alloc: Global,
    facts: &Facts,
    term: &Term,
    other: &Term,
) -> Result<bool, AllocError>
    ensures { IfOk result (λ yes. IsTrue yes ↔ TermIs (known_of facts.now) (term_seen term.now) (term_seen other.now)) }
{
    if term_print(facts, term) != term_print(facts, other) {
        return Ok(false);
    }
    let left = range_refs(alloc, &other.ranges)?;
    let others = cond_refs(alloc, &other.conds)?;
    can_go_on(
        alloc,
        facts,
        &[],
        &term.ranges,
        left.as_slice(),
        &term.conds,
        term.pieces.as_slice(),
        others.as_slice(),
        other.pieces.as_slice(),
    )
}

/// Whether the terms can be paired one to one with those that are left.
#[cycle(same)]
pub fn same_terms(
    alloc: Global,
    facts: &Facts,
    terms: &Terms,
    left: &[&Term],
) -> Result<bool, AllocError>
    ensures { IfOk result (λ yes. IsTrue yes ↔ TermsSame (known_of facts.now) (terms_seen terms.now) (terms_from (map term_behind left.now))) }
{
    match terms {
        Terms::Empty => Ok(left.is_empty()),
        Terms::More(term, rest) => {
            for k in 0..left.len() {
                if same_term(alloc, facts, term, left[k])? {
                    let fewer = without(alloc, left, k)?;
                    if same_terms(alloc, facts, rest, fewer.as_slice())? {
                        return Ok(true);
                    }
                }
            }
            Ok(false)
        }
    }
}
