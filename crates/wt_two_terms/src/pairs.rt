//! Every form that a step over two terms gives.
ghost use Rattle.std.specs.Prelude.{◌≡◌, ◌<◌, ◌++◌, ◌∷◌, [], map, length, OnOk};
ghost use Rattle.wt_form.specs.Trees.{term_then};
ghost use Rattle.wt_form.specs.Views.{terms_seen, ranges_seen, conds_seen, cond_seen, term_seen, terms_from};
ghost use Rattle.wt_facts.specs.Facts.{known_of};
ghost use Rattle.wt_congruent.specs.Refs.{cond_behind, term_behind};
ghost use Rattle.wt_places.specs.Lists.{conds_from};
ghost use Rattle.wt_places.specs.Gained.{Gained, Upto};
ghost use Rattle.wt_two_terms.specs.Pairs.{InnerAt, SplitAt, SplitFrom, TwinOf, PairOf, PairAt, TwoStep};

use crate::splits::are_split;
use std::alloc::{AllocError, Global};
use wt_congruent::{cond_refs, same_term, term_refs, without};
use wt_facts::Facts;
use wt_form::{Cond, Conds, Term, Terms};
use wt_places::{conds_from, term_before, terms_from};

/// Adds a term with these conditions before the rest.
fn push_before(
    alloc: Global,
    term: &Term,
    conds: Conds,
    rest: &[&Term],
    out: &mut Vec<Terms>,
) -> Result<(), AllocError>
    ensures { OnOk result (map terms_seen out.new.items ≡ map terms_seen out.old.items ++ term_then (ranges_seen term.now.ranges) (conds_seen conds) term.now.pieces (terms_from (map term_behind rest.now)) ∷ []) }
{
    let rest = terms_from(alloc, rest)?;
    out.push(term_before(alloc, term.ranges.copy(alloc)?, conds, &term.pieces, rest)?)?;
    Ok(())
}

/// Adds the first term without its In, if the condition at a place of the second splits it.
fn push_split_at(
    alloc: Global,
    facts: &Facts,
    term: &Term,
    c: &Cond,
    conds: &Conds,
    other: &Term,
    refs: &[&Cond],
    j: usize,
    rest: &[&Term],
    out: &mut Vec<Terms>,
) -> Result<(), AllocError>
    requires { j < length refs.now }
    ensures { OnOk result (Gained (map terms_seen out.old.items) (map terms_seen out.new.items) (InnerAt (known_of facts.now) (term_seen term.now) (cond_seen c.now) (conds_seen conds.now) (term_seen other.now) (terms_from (map term_behind rest.now)) (map cond_behind refs.now) j)) }
{
    let left = without(alloc, refs, j)?;
    if are_split(alloc, facts, term, c, conds, other, refs[j], &left)? {
        push_before(alloc, term, conds.copy(alloc)?, rest, out)?;
    }
    Ok(())
}

/// The same for each condition of the second term.
fn push_split_each(
    alloc: Global,
    facts: &Facts,
    term: &Term,
    c: &Cond,
    conds: &Conds,
    other: &Term,
    others: &[&Cond],
    rest: &[&Term],
    out: &mut Vec<Terms>,
) -> Result<(), AllocError>
    ensures { OnOk result (Gained (map terms_seen out.old.items) (map terms_seen out.new.items) (Upto (InnerAt (known_of facts.now) (term_seen term.now) (cond_seen c.now) (conds_seen conds.now) (term_seen other.now) (terms_from (map term_behind rest.now)) (map cond_behind others.now)) (length others.now))) }
{
    for j in 0..others.len() {
        push_split_at(alloc, facts, term, c, conds, other, others, j, rest, out)?;
    }
    Ok(())
}

/// The same for a condition of the first term and those around it.
fn push_split(
    alloc: Global,
    facts: &Facts,
    term: &Term,
    c: &Cond,
    left: &[&Cond],
    other: &Term,
    others: &[&Cond],
    rest: &[&Term],
    out: &mut Vec<Terms>,
) -> Result<(), AllocError>
    ensures { OnOk result (Gained (map terms_seen out.old.items) (map terms_seen out.new.items) (Upto (InnerAt (known_of facts.now) (term_seen term.now) (cond_seen c.now) (conds_from (map cond_behind left.now)) (term_seen other.now) (terms_from (map term_behind rest.now)) (map cond_behind others.now)) (length others.now))) }
{
    let conds = conds_from(alloc, left)?;
    push_split_each(alloc, facts, term, c, &conds, other, others, rest, out)?;
    Ok(())
}

/// The same for the condition at a place of the first term.
fn push_split_of(
    alloc: Global,
    facts: &Facts,
    term: &Term,
    refs: &[&Cond],
    i: usize,
    other: &Term,
    others: &[&Cond],
    rest: &[&Term],
    out: &mut Vec<Terms>,
) -> Result<(), AllocError>
    requires { i < length refs.now }
    ensures { OnOk result (Gained (map terms_seen out.old.items) (map terms_seen out.new.items) (SplitAt (known_of facts.now) (term_seen term.now) (map cond_behind refs.now) (term_seen other.now) (map cond_behind others.now) (terms_from (map term_behind rest.now)) i)) }
{
    let left = without(alloc, refs, i)?;
    push_split(
        alloc,
        facts,
        term,
        refs[i],
        left.as_slice(),
        other,
        others,
        rest,
        out,
    )?;
    Ok(())
}

/// The same for each condition of the first term.
fn push_splits_each(
    alloc: Global,
    facts: &Facts,
    term: &Term,
    refs: &[&Cond],
    other: &Term,
    others: &[&Cond],
    rest: &[&Term],
    out: &mut Vec<Terms>,
) -> Result<(), AllocError>
    ensures { OnOk result (Gained (map terms_seen out.old.items) (map terms_seen out.new.items) (Upto (SplitAt (known_of facts.now) (term_seen term.now) (map cond_behind refs.now) (term_seen other.now) (map cond_behind others.now) (terms_from (map term_behind rest.now))) (length refs.now))) }
{
    for i in 0..refs.len() {
        push_split_of(alloc, facts, term, refs, i, other, others, rest, out)?;
    }
    Ok(())
}

/// Adds the first term without an In, for each that the second splits.
fn push_splits(
    alloc: Global,
    facts: &Facts,
    term: &Term,
    other: &Term,
    rest: &[&Term],
    out: &mut Vec<Terms>,
) -> Result<(), AllocError>
    ensures { OnOk result (Gained (map terms_seen out.old.items) (map terms_seen out.new.items) (SplitFrom (known_of facts.now) (term_seen term.now) (term_seen other.now) (terms_from (map term_behind rest.now)))) }
{
    let refs = cond_refs(alloc, &term.conds)?;
    let others = cond_refs(alloc, &other.conds)?;
    push_splits_each(
        alloc,
        facts,
        term,
        refs.as_slice(),
        other,
        others.as_slice(),
        rest,
        out,
    )?;
    Ok(())
}

/// Adds the first term alone, if the second is the same and it only counts which rows occur.
fn push_twin(
    alloc: Global,
    facts: &Facts,
    nested: bool,
    term: &Term,
    other: &Term,
    rest: &[&Term],
    out: &mut Vec<Terms>,
) -> Result<(), AllocError>
    ensures { OnOk result (Gained (map terms_seen out.old.items) (map terms_seen out.new.items) (TwinOf (known_of facts.now) nested (term_seen term.now) (term_seen other.now) (terms_from (map term_behind rest.now)))) }
{
    if !nested {
        return Ok(());
    }
    if same_term(alloc, facts, term, other)? {
        push_before(alloc, term, term.conds.copy(alloc)?, rest, out)?;
    }
    Ok(())
}

/// Adds what two terms give before the rest.
fn push_pair_before(
    alloc: Global,
    facts: &Facts,
    nested: bool,
    term: &Term,
    other: &Term,
    rest: &[&Term],
    out: &mut Vec<Terms>,
) -> Result<(), AllocError>
    ensures { OnOk result (Gained (map terms_seen out.old.items) (map terms_seen out.new.items) (PairOf (known_of facts.now) nested (term_seen term.now) (term_seen other.now) (terms_from (map term_behind rest.now)))) }
{
    push_splits(alloc, facts, term, other, rest, out)?;
    push_splits(alloc, facts, other, term, rest, out)?;
    push_twin(alloc, facts, nested, term, other, rest, out)?;
    Ok(())
}

/// Adds what the first term and a later one give, the later one being taken away.
fn push_pair(
    alloc: Global,
    facts: &Facts,
    nested: bool,
    term: &Term,
    refs: &[&Term],
    k: usize,
    out: &mut Vec<Terms>,
) -> Result<(), AllocError>
    requires { k < length refs.now }
    ensures { OnOk result (Gained (map terms_seen out.old.items) (map terms_seen out.new.items) (PairAt (known_of facts.now) nested (term_seen term.now) (map term_behind refs.now) k)) }
{
    let rest = without(alloc, refs, k)?;
    push_pair_before(alloc, facts, nested, term, refs[k], rest.as_slice(), out)?;
    Ok(())
}

/// The same for each later one.
fn push_pairs_each(
    alloc: Global,
    facts: &Facts,
    nested: bool,
    term: &Term,
    refs: &[&Term],
    out: &mut Vec<Terms>,
) -> Result<(), AllocError>
    ensures { OnOk result (Gained (map terms_seen out.old.items) (map terms_seen out.new.items) (Upto (PairAt (known_of facts.now) nested (term_seen term.now) (map term_behind refs.now)) (length refs.now))) }
{
    for k in 0..refs.len() {
        push_pair(alloc, facts, nested, term, refs, k, out)?;
    }
    Ok(())
}

/// Adds what the first term gives with each later one, in every way.
pub fn push_pairs(
    alloc: Global,
    facts: &Facts,
    nested: bool,
    term: &Term,
    rest: &Terms,
    out: &mut Vec<Terms>,
) -> Result<(), AllocError>
    ensures { OnOk result (Gained (map terms_seen out.old.items) (map terms_seen out.new.items) (TwoStep (known_of facts.now) nested (ranges_seen term.now.ranges) (conds_seen term.now.conds) term.now.pieces (terms_seen rest.now))) }
{
    let refs = term_refs(alloc, rest)?;
    push_pairs_each(alloc, facts, nested, term, refs.as_slice(), out)?;
    Ok(())
}
