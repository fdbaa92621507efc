//! One expression is written for another one that it is joined with.
ghost use Rattle.std.specs.Prelude.{◌≡◌, ◌↔◌, map, length, IfOk, OnOk, IsTrue};
ghost use Rattle.wt_form.specs.Known.{Known};
ghost use Rattle.wt_form.specs.Joining.{Rewritten};
ghost use Rattle.wt_form.specs.Views.{terms_seen, ranges_seen, conds_seen, cond_seen};
ghost use Rattle.wt_congruent.specs.Refs.{cond_behind};
ghost use Rattle.wt_places.specs.Gained.{Gained, Upto, AtPlace};
ghost use Rattle.wt_joining.specs.Writing.{written, WrittenBy, WrittenEitherWay, WrittenAt};

use crate::changes::{Change, changed_conds, changed_pieces, is_before};
use crate::places::past;
use std::alloc::{AllocError, Global};
use wt_congruent::cond_refs;
use wt_form::{Cond, Conds, Expr, Exprs, Term, Terms};
use wt_places::{cond_before, push_term};

fn are_same(a: &Exprs, b: &Exprs) -> bool
    ensures { IsTrue result ↔ (a.now ≡ b.now) }
{
    a == b
}

/// Whether the conditions and the pieces are those of the term.
fn are_of_term(term: &Term, conds: &Conds, pieces: &Exprs) -> bool
    ensures { IsTrue result ↔ ((conds_seen conds.now ≡ conds_seen term.now.conds) × (pieces.now ≡ term.now.pieces)) }
{
    conds.same(&term.conds) && are_same(pieces, &term.pieces)
}

/// The conditions with the first expression written for the second, but in the one between.
#[tactic(auto, using(crate::proofs::Lists::append_none))]
fn written_conds(
    alloc: Global,
    before: &[&Cond],
    join: &Cond,
    after: &[&Cond],
    e: Expr,
    old: Expr,
) -> Result<Conds, AllocError>
    ensures { IfOk result (λ cs. conds_seen cs ≡ written (map cond_behind before.now) (cond_seen join.now) (map cond_behind after.now) e old) }
{
    let change = Change::Put(e, old);
    let tail = changed_conds(alloc, change, after, Conds::Empty)?;
    let rest = cond_before(alloc, join.copy(alloc)?, tail)?;
    changed_conds(alloc, change, before, rest)
}

/// Adds the term with the first expression written for the second, but in the Join of the two.
fn push_written(
    alloc: Global,
    term: &Term,
    before: &[&Cond],
    join: &Cond,
    after: &[&Cond],
    e: Expr,
    old: Expr,
    out: &mut Vec<Terms>,
) -> Result<(), AllocError>
    ensures { OnOk result (Gained (map terms_seen out.old.items) (map terms_seen out.new.items) (WrittenBy (ranges_seen term.now.ranges) (conds_seen term.now.conds) term.now.pieces (map cond_behind before.now) (cond_seen join.now) (map cond_behind after.now) e old)) }
{
    if !is_before(e, old) {
        return Ok(());
    }
    let conds = written_conds(alloc, before, join, after, e, old)?;
    let pieces = changed_pieces(alloc, Change::Put(e, old), &term.pieces)?;
    if are_of_term(term, &conds, &pieces) {
        return Ok(());
    }
    push_term(alloc, term.ranges.copy(alloc)?, conds, pieces, out)
}

/// The same for the two sides of a Join, either way.
fn push_both_ways(
    alloc: Global,
    term: &Term,
    before: &[&Cond],
    join: &Cond,
    after: &[&Cond],
    x: Expr,
    y: Expr,
    out: &mut Vec<Terms>,
) -> Result<(), AllocError>
    ensures { OnOk result (Gained (map terms_seen out.old.items) (map terms_seen out.new.items) (WrittenEitherWay (ranges_seen term.now.ranges) (conds_seen term.now.conds) term.now.pieces (map cond_behind before.now) (cond_seen join.now) (map cond_behind after.now) x y)) }
{
    push_written(alloc, term, before, join, after, x, y, out)?;
    push_written(alloc, term, before, join, after, y, x, out)?;
    Ok(())
}

fn push_written_at(
    alloc: Global,
    term: &Term,
    before: &[&Cond],
    c: &Cond,
    after: &[&Cond],
    out: &mut Vec<Terms>,
) -> Result<(), AllocError>
    ensures { OnOk result (Gained (map terms_seen out.old.items) (map terms_seen out.new.items) (WrittenAt (ranges_seen term.now.ranges) (conds_seen term.now.conds) term.now.pieces (map cond_behind before.now) (cond_seen c.now) (map cond_behind after.now))) }
{
    match c {
        Cond::Join(x, y) => push_both_ways(alloc, term, before, c, after, *x, *y, out),
        Cond::Pred(_, _) | Cond::In(_, _) | Cond::NotIn(_, _) => Ok(()),
    }
}

/// The same for each condition.
fn push_written_each(
    alloc: Global,
    term: &Term,
    refs: &[&Cond],
    out: &mut Vec<Terms>,
) -> Result<(), AllocError>
    ensures { OnOk result (Gained (map terms_seen out.old.items) (map terms_seen out.new.items) (Upto (AtPlace (WrittenAt (ranges_seen term.now.ranges) (conds_seen term.now.conds) term.now.pieces) (map cond_behind refs.now)) (length refs.now))) }
{
    for j in 0..refs.len() {
        let after = past(refs, j);
        push_written_at(alloc, term, &refs[..j], refs[j], after, out)?;
    }
    Ok(())
}

/// Adds the term with one expression written for another that it is joined with, in every way.
pub fn push_rewritten(alloc: Global, term: &Term, out: &mut Vec<Terms>) -> Result<(), AllocError>
    ensures { OnOk result ((K : Known) → Gained (map terms_seen out.old.items) (map terms_seen out.new.items) (Rewritten K (ranges_seen term.now.ranges) (conds_seen term.now.conds) term.now.pieces)) }
{
    let refs = cond_refs(alloc, &term.conds)?;
    push_written_each(alloc, term, refs.as_slice(), out)?;
    Ok(())
}
