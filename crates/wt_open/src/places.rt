//! Every form that opening a variable over distinct rows gives.
ghost use Rattle.std.specs.Prelude.{◌≡◌, ◌<◌, ◌^◌, ℕ, map, length, OnOk};
ghost use Rattle.wt_bag.specs.Choices.{At};
ghost use Rattle.wt_form.specs.Parts.{one_term};
ghost use Rattle.wt_form.specs.Closed.{VariablesExist};
ghost use Rattle.wt_form.specs.Weights.{terms_size};
ghost use Rattle.wt_form.specs.Opening.{Opened};
ghost use Rattle.wt_form.specs.Views.{terms_seen, ranges_seen, range_seen, conds_seen};
ghost use Rattle.wt_facts.specs.Facts.{known_of};
ghost use Rattle.wt_congruent.specs.Refs.{range_behind};
ghost use Rattle.wt_places.specs.Gained.{Gained, Upto, AtPlace};
ghost use Rattle.wt_open.specs.Opens.{OpensTerms, OpensAt, TermsRoom, RangeRoom};

use crate::opening::push_opened_over;
use crate::parts::past;
use std::alloc::{AllocError, Global};
use wt_congruent::range_refs;
use wt_facts::Facts;
use wt_form::{FormRange, Term, Terms};
use wt_symbol::Parts;

/// Adds the term where the variable after some is opened, if its distinct rows are of one term.
fn push_opened_rows(
    alloc: Global,
    facts: &Facts,
    nested: bool,
    term: &Term,
    before: &[&FormRange],
    head: &Parts,
    rows: &Terms,
    after: &[&FormRange],
    out: &mut Vec<Terms>,
) -> Result<(), AllocError>
    requires room { TermsRoom (length before.now) (conds_seen term.now.conds) term.now.pieces (terms_seen rows.now) }
    ensures { OnOk result (Gained (map terms_seen out.old.items) (map terms_seen out.new.items) (OpensTerms (known_of facts.now) nested (conds_seen term.now.conds) term.now.pieces (map range_behind before.now) head.now (terms_seen rows.now) (map range_behind after.now))) }
{
    match rows {
        Terms::Empty => Ok(()),
        Terms::More(inner, rest) => match &**rest {
            Terms::Empty => push_opened_over(
                alloc, facts, nested, term, before, head, inner, after, out,
            ),
            Terms::More(_, _) => Ok(()),
        },
    }
}

/// The same, if the variable is over distinct rows.
fn push_opened_at(
    alloc: Global,
    facts: &Facts,
    nested: bool,
    term: &Term,
    before: &[&FormRange],
    range: &FormRange,
    after: &[&FormRange],
    out: &mut Vec<Terms>,
) -> Result<(), AllocError>
    requires room { RangeRoom (conds_seen term.now.conds) term.now.pieces (length before.now) (range_seen range.now) }
    ensures { OnOk result (Gained (map terms_seen out.old.items) (map terms_seen out.new.items) (OpensAt (known_of facts.now) nested (conds_seen term.now.conds) term.now.pieces (map range_behind before.now) (range_seen range.now) (map range_behind after.now))) }
{
    match range {
        FormRange::Rel(_) => Ok(()),
        FormRange::Distinct(form) => push_opened_rows(
            alloc,
            facts,
            nested,
            term,
            before,
            &form.head,
            &form.terms,
            after,
            out,
        ),
    }
}

/// The same for each variable.
fn push_opened_each(
    alloc: Global,
    facts: &Facts,
    nested: bool,
    term: &Term,
    refs: &[&FormRange],
    out: &mut Vec<Terms>,
) -> Result<(), AllocError>
    requires room { (j : ℕ) → j < length refs.now → At (RangeRoom (conds_seen term.now.conds) term.now.pieces j) j (map range_behind refs.now) }
    ensures { OnOk result (Gained (map terms_seen out.old.items) (map terms_seen out.new.items) (Upto (AtPlace (OpensAt (known_of facts.now) nested (conds_seen term.now.conds) term.now.pieces) (map range_behind refs.now)) (length refs.now))) }
{
    for j in 0..refs.len() {
        let after = past(refs, j);
        push_opened_at(alloc, facts, nested, term, &refs[..j], refs[j], after, out)?;
    }
    Ok(())
}

/// Adds the term where a variable over distinct rows is opened, in every way.
pub fn push_opened(
    alloc: Global,
    facts: &Facts,
    nested: bool,
    term: &Term,
    out: &mut Vec<Terms>,
) -> Result<(), AllocError>
    requires exist { VariablesExist (one_term (ranges_seen term.now.ranges) (conds_seen term.now.conds) term.now.pieces) }
    requires narrow { terms_size (one_term (ranges_seen term.now.ranges) (conds_seen term.now.conds) term.now.pieces) < 2 ^ 32 }
    ensures { OnOk result (Gained (map terms_seen out.old.items) (map terms_seen out.new.items) (Opened (known_of facts.now) nested (ranges_seen term.now.ranges) (conds_seen term.now.conds) term.now.pieces)) }
{
    let refs = range_refs(alloc, &term.ranges)?;
    push_opened_each(alloc, facts, nested, term, refs.as_slice(), out)?;
    Ok(())
}
