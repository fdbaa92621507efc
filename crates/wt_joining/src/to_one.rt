//! One variable stands for two that are joined on a unique list.
ghost use Rattle.std.specs.Prelude.{◌≡◌, ◌<◌, ◌↔◌, ◌++◌, [], ◌∷◌, true, map, length, OnOk, IsTrue};
ghost use Rattle.wt_form.specs.Parts.{ranges_list};
ghost use Rattle.wt_form.specs.Joining.{Merged};
ghost use Rattle.wt_form.specs.Views.{terms_seen, ranges_seen, conds_seen};
ghost use Rattle.wt_facts.specs.Facts.{known_of};
ghost use Rattle.wt_congruent.specs.Refs.{cond_behind, range_behind};
ghost use Rattle.wt_places.specs.Gained.{Gained, Upto, EachOf};
ghost use Rattle.wt_joining.specs.ToOne.{StandTogether, merged_term, MergedBy, MergedDirectly, MergedThrough, MergedFrom};

use crate::changes::{Change, changed_conds, changed_pieces};
use crate::ends::{End, ends_of};
use std::alloc::{AllocError, Global};
use wt_congruent::{cond_refs, range_refs, same_expr, without};
use wt_facts::Facts;
use wt_form::{Cond, Conds, FormRange, Ranges, Term, Terms};
use wt_not_null::{first_list, leaf_at};
use wt_places::{itself, push_term, ranges_from};

/// Whether two leaves are the same, and a list of the first is unique.
fn are_keyed(facts: &Facts, r: u8, s: u8, b: u8) -> bool
    ensures { IsTrue result ↔ (((known_of facts.now).rel r s ≡ true) × ((known_of facts.now).unique r b ≡ true)) }
{
    facts.same_leaf(r, s) && facts.is_unique(r, b)
}

/// Whether two variables are over leaves that are the same, of which a list is unique.
fn stand_together(facts: &Facts, ranges: &Ranges, x: u32, y: u32, b: u8) -> bool
    ensures { IsTrue result ↔ StandTogether (known_of facts.now) (ranges_list (ranges_seen ranges.now)) x y b }
{
    match leaf_at(ranges, x) {
        Some(r) => match leaf_at(ranges, y) {
            Some(s) => are_keyed(facts, r, s, b),
            None => false,
        },
        None => false,
    }
}

/// Whether x comes before y, and list b of x and list c of y are one unique list.
fn are_one(facts: &Facts, ranges: &Ranges, x: u32, b: u8, y: u32, c: u8) -> bool
    ensures { IsTrue result ↔ ((x < y) × ((known_of facts.now).attr b c ≡ true) × StandTogether (known_of facts.now) (ranges_list (ranges_seen ranges.now)) x y b) }
{
    x < y && facts.same_list(b, c) && stand_together(facts, ranges, x, y, b)
}

/// Adds the term with variable x standing for y.
#[tactic(auto, using(crate::proofs::Lists::append_none))]
fn push_onto(
    alloc: Global,
    term: &Term,
    left: &[&FormRange],
    refs: &[&Cond],
    x: u32,
    y: u32,
    out: &mut Vec<Terms>,
) -> Result<(), AllocError>
    ensures { OnOk result (map terms_seen out.new.items ≡ map terms_seen out.old.items ++ merged_term (map range_behind left.now) (map cond_behind refs.now) term.now.pieces x y ∷ []) }
{
    let change = Change::Onto(x, y);
    let conds = changed_conds(alloc, change, refs, Conds::Empty)?;
    let pieces = changed_pieces(alloc, change, &term.pieces)?;
    push_term(alloc, ranges_from(alloc, left)?, conds, pieces, out)
}

/// The same, if list b of x and list c of y are one unique list.
fn push_one(
    alloc: Global,
    facts: &Facts,
    term: &Term,
    ranges: &[&FormRange],
    refs: &[&Cond],
    x: u32,
    b: u8,
    y: u32,
    c: u8,
    out: &mut Vec<Terms>,
) -> Result<(), AllocError>
    requires { map range_behind ranges.now ≡ ranges_list (ranges_seen term.now.ranges) }
    ensures { OnOk result (Gained (map terms_seen out.old.items) (map terms_seen out.new.items) (MergedBy (known_of facts.now) (map range_behind ranges.now) (map cond_behind refs.now) term.now.pieces x b y c)) }
{
    if !are_one(facts, &term.ranges, x, b, y, c) {
        return Ok(());
    }
    let left = without(alloc, ranges, y as usize)?;
    push_onto(alloc, term, left.as_slice(), refs, x, y, out)
}

/// The same for an end that is joined with a list of another variable.
fn push_directly(
    alloc: Global,
    facts: &Facts,
    term: &Term,
    ranges: &[&FormRange],
    refs: &[&Cond],
    end: End,
    out: &mut Vec<Terms>,
) -> Result<(), AllocError>
    requires { map range_behind ranges.now ≡ ranges_list (ranges_seen term.now.ranges) }
    ensures { OnOk result (Gained (map terms_seen out.old.items) (map terms_seen out.new.items) (MergedDirectly (known_of facts.now) (map range_behind ranges.now) (map cond_behind refs.now) term.now.pieces end)) }
{
    match first_list(end.other) {
        Some((y, c)) => push_one(
            alloc, facts, term, ranges, refs, end.var, end.list, y, c, out,
        ),
        None => Ok(()),
    }
}

/// The same for two ends that are joined with expressions that are the same.
fn push_through(
    alloc: Global,
    facts: &Facts,
    ks: &[usize],
    term: &Term,
    ranges: &[&FormRange],
    refs: &[&Cond],
    end: End,
    other: End,
    out: &mut Vec<Terms>,
) -> Result<(), AllocError>
    requires { map range_behind ranges.now ≡ ranges_list (ranges_seen term.now.ranges) }
    ensures { OnOk result (Gained (map terms_seen out.old.items) (map terms_seen out.new.items) (MergedThrough (known_of facts.now) ks.now (map range_behind ranges.now) (map cond_behind refs.now) term.now.pieces end other)) }
{
    if same_expr(facts, ks, end.other, other.other) {
        push_one(
            alloc, facts, term, ranges, refs, end.var, end.list, other.var, other.list, out,
        )
    } else {
        Ok(())
    }
}

/// The same for an end with each of the others.
fn push_through_each(
    alloc: Global,
    facts: &Facts,
    ks: &[usize],
    term: &Term,
    ranges: &[&FormRange],
    refs: &[&Cond],
    end: End,
    ends: &[End],
    out: &mut Vec<Terms>,
) -> Result<(), AllocError>
    requires { map range_behind ranges.now ≡ ranges_list (ranges_seen term.now.ranges) }
    ensures { OnOk result (Gained (map terms_seen out.old.items) (map terms_seen out.new.items) (Upto (EachOf (MergedThrough (known_of facts.now) ks.now (map range_behind ranges.now) (map cond_behind refs.now) term.now.pieces end) ends.now) (length ends.now))) }
{
    for i in 0..ends.len() {
        push_through(alloc, facts, ks, term, ranges, refs, end, ends[i], out)?;
    }
    Ok(())
}

/// The same for an end, in every way.
fn push_from_end(
    alloc: Global,
    facts: &Facts,
    ks: &[usize],
    term: &Term,
    ranges: &[&FormRange],
    refs: &[&Cond],
    end: End,
    ends: &[End],
    out: &mut Vec<Terms>,
) -> Result<(), AllocError>
    requires { map range_behind ranges.now ≡ ranges_list (ranges_seen term.now.ranges) }
    ensures { OnOk result (Gained (map terms_seen out.old.items) (map terms_seen out.new.items) (MergedFrom (known_of facts.now) ks.now (map range_behind ranges.now) (map cond_behind refs.now) term.now.pieces ends.now end)) }
{
    push_directly(alloc, facts, term, ranges, refs, end, out)?;
    push_through_each(alloc, facts, ks, term, ranges, refs, end, ends, out)?;
    Ok(())
}

/// The same for each end.
fn push_from_ends(
    alloc: Global,
    facts: &Facts,
    ks: &[usize],
    term: &Term,
    ranges: &[&FormRange],
    refs: &[&Cond],
    ends: &[End],
    out: &mut Vec<Terms>,
) -> Result<(), AllocError>
    requires { map range_behind ranges.now ≡ ranges_list (ranges_seen term.now.ranges) }
    ensures { OnOk result (Gained (map terms_seen out.old.items) (map terms_seen out.new.items) (Upto (EachOf (MergedFrom (known_of facts.now) ks.now (map range_behind ranges.now) (map cond_behind refs.now) term.now.pieces ends.now) ends.now) (length ends.now))) }
{
    for i in 0..ends.len() {
        push_from_end(alloc, facts, ks, term, ranges, refs, ends[i], ends, out)?;
    }
    Ok(())
}

/// Adds the term with one variable standing for two, in every way.
pub fn push_merged(
    alloc: Global,
    facts: &Facts,
    term: &Term,
    out: &mut Vec<Terms>,
) -> Result<(), AllocError>
    ensures { OnOk result (Gained (map terms_seen out.old.items) (map terms_seen out.new.items) (Merged (known_of facts.now) (ranges_seen term.now.ranges) (conds_seen term.now.conds) term.now.pieces)) }
{
    let ks = itself(alloc, &term.ranges)?;
    let ranges = range_refs(alloc, &term.ranges)?;
    let refs = cond_refs(alloc, &term.conds)?;
    let ends = ends_of(alloc, refs.as_slice())?;
    push_from_ends(
        alloc,
        facts,
        ks.as_slice(),
        term,
        ranges.as_slice(),
        refs.as_slice(),
        ends.as_slice(),
        out,
    )?;
    Ok(())
}
