//! Every form that dropping a condition or a term gives.
ghost use Rattle.std.specs.Prelude.{◌↔◌, ◌<◌, ◌⊎◌, map, length, IsTrue, IfOk, OnOk};
ghost use Rattle.wt_bag.specs.Choices.{Has};
ghost use Rattle.wt_form.specs.Trees.{Terms as Sum};
ghost use Rattle.wt_form.specs.Parts.{ranges_list};
ghost use Rattle.wt_form.specs.Views.{terms_seen, ranges_seen, conds_seen, cond_seen, term_seen};
ghost use Rattle.wt_facts.specs.Facts.{known_of};
ghost use Rattle.wt_congruent.specs.Refs.{cond_behind};
ghost use Rattle.wt_places.specs.Gained.{Gained, Upto, WithoutAt};
ghost use Rattle.wt_drops.specs.Truths.{SomeSame, CondTrue};
ghost use Rattle.wt_drops.specs.Drops.{Goes, FallsAt, Dropped};

use crate::truths::{cond_is_false, cond_is_true, same_as_some};
use std::alloc::{AllocError, Global};
use wt_congruent::{cond_refs, without};
use wt_facts::Facts;
use wt_form::{Cond, Ranges, Term, Terms};
use wt_places::{itself, push_without};

/// Whether the condition is true beside the others, or the same as one of those before it.
fn goes(
    alloc: Global,
    facts: &Facts,
    ks: &[usize],
    ranges: &Ranges,
    before: &[&Cond],
    others: &[&Cond],
    c: &Cond,
) -> Result<bool, AllocError>
    ensures { IfOk result (λ yes. IsTrue yes ↔ (CondTrue (known_of facts.now) ks.now (ranges_list (ranges_seen ranges.now)) (map cond_behind others.now) (cond_seen c.now)
        ⊎ SomeSame (known_of facts.now) ks.now (map cond_behind before.now) (cond_seen c.now))) }
{
    if cond_is_true(facts, ks, ranges, others, c) {
        return Ok(true);
    }
    same_as_some(alloc, facts, ks, before, c)
}

/// Adds the term without its condition at a place, if that one may go.
fn push_dropped(
    alloc: Global,
    facts: &Facts,
    ks: &[usize],
    term: &Term,
    refs: &[&Cond],
    j: usize,
    out: &mut Vec<Terms>,
) -> Result<(), AllocError>
    requires { j < length refs.now }
    ensures { OnOk result (Gained (map terms_seen out.old.items) (map terms_seen out.new.items) (WithoutAt (Goes (known_of facts.now) ks.now (ranges_list (ranges_seen term.now.ranges)) (map cond_behind refs.now)) (term_seen term.now) (map cond_behind refs.now) j)) }
{
    let others = without(alloc, refs, j)?;
    if goes(alloc, facts, ks, &term.ranges, &refs[..j], &others, refs[j])? {
        push_without(alloc, term, &others, out)?;
    }
    Ok(())
}

/// Adds no term, if the others make the condition at a place false.
fn push_fallen(
    alloc: Global,
    facts: &Facts,
    ks: &[usize],
    term: &Term,
    refs: &[&Cond],
    j: usize,
    out: &mut Vec<Terms>,
) -> Result<(), AllocError>
    requires { j < length refs.now }
    ensures { OnOk result (Gained (map terms_seen out.old.items) (map terms_seen out.new.items) (FallsAt (known_of facts.now) ks.now (ranges_list (ranges_seen term.now.ranges)) (map cond_behind refs.now) j)) }
{
    let others = without(alloc, refs, j)?;
    if cond_is_false(alloc, facts, ks, &term.ranges, &others, refs[j])? {
        out.push(Terms::Empty)?;
    }
    Ok(())
}

/// Adds the term without a condition, in every way.
fn push_all_dropped(
    alloc: Global,
    facts: &Facts,
    ks: &[usize],
    term: &Term,
    refs: &[&Cond],
    out: &mut Vec<Terms>,
) -> Result<(), AllocError>
    ensures { OnOk result (Gained (map terms_seen out.old.items) (map terms_seen out.new.items) (Upto (WithoutAt (Goes (known_of facts.now) ks.now (ranges_list (ranges_seen term.now.ranges)) (map cond_behind refs.now)) (term_seen term.now) (map cond_behind refs.now)) (length refs.now))) }
{
    for j in 0..refs.len() {
        push_dropped(alloc, facts, ks, term, refs, j, out)?;
    }
    Ok(())
}

/// Adds no term, once for each condition that is false.
fn push_all_fallen(
    alloc: Global,
    facts: &Facts,
    ks: &[usize],
    term: &Term,
    refs: &[&Cond],
    out: &mut Vec<Terms>,
) -> Result<(), AllocError>
    ensures { OnOk result (Gained (map terms_seen out.old.items) (map terms_seen out.new.items) (Upto (FallsAt (known_of facts.now) ks.now (ranges_list (ranges_seen term.now.ranges)) (map cond_behind refs.now)) (length refs.now))) }
{
    for j in 0..refs.len() {
        push_fallen(alloc, facts, ks, term, refs, j, out)?;
    }
    Ok(())
}

/// What stands in the place of a term where one of its conditions is dropped, or where the term is.
pub fn drops(alloc: Global, facts: &Facts, term: &Term) -> Result<Vec<Terms>, AllocError>
    ensures exact { IfOk result (λ out. (us : Sum) → (Has us (map terms_seen out.items) ↔ Dropped (known_of facts.now) (ranges_seen term.now.ranges) (conds_seen term.now.conds) term.now.pieces us)) }
{
    let ks = itself(alloc, &term.ranges)?;
    let refs = cond_refs(alloc, &term.conds)?;
    let mut out = Vec::new(alloc);
    push_all_dropped(alloc, facts, &ks, term, &refs, &mut out)?;
    push_all_fallen(alloc, facts, &ks, term, &refs, &mut out)?;
    Ok(out)
}
