//! Two terms that are the same but for an In and a NotIn of the same values in the same rows.
ghost use Rattle.std.specs.Prelude.{◌≡◌, ◌↔◌, true, map, IfOk, IsTrue};
ghost use Rattle.wt_form.specs.Congruent.{TermsSame, expr_same, pieces_same};
ghost use Rattle.wt_form.specs.Views.{terms_seen, conds_seen, cond_seen, term_seen};
ghost use Rattle.wt_facts.specs.Facts.{known_of};
ghost use Rattle.wt_congruent.specs.Refs.{cond_behind};
ghost use Rattle.wt_two_terms.specs.Splits.{SameBut, SplitBy};

use std::alloc::{AllocError, Global};
use wt_congruent::{
    pairings, range_refs, same_conds, same_expr, same_pieces, same_terms, term_refs,
};
use wt_facts::Facts;
use wt_form::{Cond, Conds, Expr, Term, Terms};

/// Whether two expressions are the same, and the pieces.
fn fit(facts: &Facts, ks: &[usize], e: Expr, f: Expr, xs: &[Expr], ys: &[Expr]) -> bool
    ensures { IsTrue result ↔ ((expr_same (known_of facts.now) ks.now e f ≡ true) × (pieces_same (known_of facts.now) ks.now xs.now ys.now ≡ true)) }
{
    same_expr(facts, ks, e, f) && same_pieces(facts, ks, xs, ys)
}

/// Whether some pairing of the variables makes the terms the same, with other conditions in the
/// place of their own, and two expressions too.
fn are_same_but(
    alloc: Global,
    facts: &Facts,
    term: &Term,
    conds: &Conds,
    e: Expr,
    other: &Term,
    left: &[&Cond],
    f: Expr,
) -> Result<bool, AllocError>
    ensures { IfOk result (λ yes. IsTrue yes ↔ SameBut (known_of facts.now) (term_seen term.now) (conds_seen conds.now) e (term_seen other.now) (map cond_behind left.now) f) }
{
    let ranges = range_refs(alloc, &other.ranges)?;
    let ways = pairings(alloc, facts, &term.ranges, ranges.as_slice())?;
    for i in 0..ways.len() {
        let ks = ways[i].as_slice();
        if fit(
            facts,
            ks,
            e,
            f,
            term.pieces.as_slice(),
            other.pieces.as_slice(),
        ) {
            if same_conds(alloc, facts, ks, conds, left)? {
                return Ok(true);
            }
        }
    }
    Ok(false)
}

/// Whether the sums of two conditions, an In and a NotIn, are the same.
fn have_same_rows(alloc: Global, facts: &Facts, a: &Terms, b: &Terms) -> Result<bool, AllocError>
    ensures { IfOk result (λ yes. IsTrue yes ↔ TermsSame (known_of facts.now) (terms_seen a.now) (terms_seen b.now)) }
{
    let left = term_refs(alloc, b)?;
    same_terms(alloc, facts, a, left.as_slice())
}

/// Whether an In of the first term and a NotIn of the second are of the same values in the same
/// rows, all else being the same.
pub fn are_split(
    alloc: Global,
    facts: &Facts,
    term: &Term,
    c: &Cond,
    conds: &Conds,
    other: &Term,
    d: &Cond,
    left: &[&Cond],
) -> Result<bool, AllocError>
    ensures { IfOk result (λ yes. IsTrue yes ↔ SplitBy (known_of facts.now) (term_seen term.now) (cond_seen c.now) (conds_seen conds.now) (term_seen other.now) (cond_seen d.now) (map cond_behind left.now)) }
{
    match c {
        Cond::In(e, f) => match d {
            Cond::NotIn(x, g) => {
                if !have_same_rows(alloc, facts, &f.terms, &g.terms)? {
                    return Ok(false);
                }
                are_same_but(alloc, facts, term, conds, *e, other, left, *x)
            }
            _ => Ok(false),
        },
        _ => Ok(false),
    }
}
