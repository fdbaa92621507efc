//! What one step gives in every place of terms, nested forms included.
ghost use Rattle.std.specs.Prelude.{◌≡◌, ◌↔◌, ◌<◌, ◌^◌, ℕ, map, IfOk, true};
ghost use Rattle.wt_bag.specs.Choices.{Has};
ghost use Rattle.wt_form.specs.Trees.{Terms as Sum, Ranges as RangeList, FormRange as OneRange, Conds as CondList, Cond as OneCond};
ghost use Rattle.wt_form.specs.Closed.{VariablesExist, ExistInRanges, ExistInRange, ExistInConds, ExistInCond};
ghost use Rattle.wt_form.specs.Weights.{terms_size, ranges_size, range_size, conds_size, cond_size};
ghost use Rattle.wt_form.specs.Steps.{Row, PairRow, TermsStep, RangesStep, CondsStep};
ghost use Rattle.wt_form.specs.Views.{terms_seen, ranges_seen, range_seen, conds_seen, cond_seen};
ghost use Rattle.wt_facts.specs.Facts.{known_of};
ghost use Rattle.wt_steps.specs.Inside.{RangeStep, CondStep};

use crate::rows::{pairs, rows};
use std::alloc::{AllocError, Global};
use wt_facts::Facts;
use wt_form::{Cond, Conds, FormRange, Ranges, Terms};
use wt_places::{
    put_after, put_before, put_cond, put_cond_first, put_conds, put_distinct, put_in, put_not_in,
    put_range, put_range_first, put_ranges,
};

/// What one step gives from these terms.
#[cycle(steps)]
pub fn steps_of_terms(
    alloc: Global,
    facts: &Facts,
    nested: bool,
    terms: &Terms,
) -> Result<Vec<Terms>, AllocError>
    requires exist { VariablesExist (terms_seen terms.now) }
    requires narrow { terms_size (terms_seen terms.now) < 2 ^ 32 }
    ensures { IfOk result (λ out. (us : Sum) → (Has us (map terms_seen out.items) ↔ TermsStep (Row (known_of facts.now)) (PairRow (known_of facts.now)) nested (terms_seen terms.now) us)) }
{
    match terms {
        Terms::Empty => Ok(Vec::new(alloc)),
        Terms::More(term, rest) => {
            let mut out = pairs(alloc, facts, nested, term, rest)?;
            let here = rows(alloc, facts, nested, term)?;
            put_before(alloc, here, rest, &mut out)?;
            let later = steps_of_terms(alloc, facts, nested, rest)?;
            put_after(alloc, term, later, &mut out)?;
            let ranges = steps_of_ranges(alloc, facts, &term.ranges)?;
            put_ranges(alloc, term, rest, ranges, &mut out)?;
            let conds = steps_of_conds(alloc, facts, &term.conds)?;
            put_conds(alloc, term, rest, conds, &mut out)?;
            Ok(out)
        }
    }
}

#[cycle(steps)]
fn steps_of_ranges(alloc: Global, facts: &Facts, ranges: &Ranges) -> Result<Vec<Ranges>, AllocError>
    requires exist { ExistInRanges (ranges_seen ranges.now) }
    requires narrow { ranges_size (ranges_seen ranges.now) < 2 ^ 32 }
    ensures { IfOk result (λ out. (us : RangeList) → (Has us (map ranges_seen out.items) ↔ RangesStep (Row (known_of facts.now)) (PairRow (known_of facts.now)) (ranges_seen ranges.now) us)) }
{
    let mut out = Vec::new(alloc);
    match ranges {
        Ranges::Empty => Ok(out),
        Ranges::More(range, rest) => {
            let here = steps_of_range(alloc, facts, range)?;
            put_range(alloc, here, rest, &mut out)?;
            let later = steps_of_ranges(alloc, facts, rest)?;
            put_range_first(alloc, range, later, &mut out)?;
            Ok(out)
        }
    }
}

#[cycle(steps)]
fn steps_of_range(
    alloc: Global,
    facts: &Facts,
    range: &FormRange,
) -> Result<Vec<FormRange>, AllocError>
    requires exist { ExistInRange (range_seen range.now) }
    requires narrow { range_size (range_seen range.now) < 2 ^ 32 }
    ensures { IfOk result (λ out. (us : OneRange) → (Has us (map range_seen out.items) ↔ RangeStep (known_of facts.now) (range_seen range.now) us)) }
{
    let mut out = Vec::new(alloc);
    match range {
        FormRange::Rel(_) => Ok(out),
        FormRange::Distinct(f) => {
            let inner = steps_of_terms(alloc, facts, true, &f.terms)?;
            put_distinct(alloc, &f.head, inner, &mut out)?;
            Ok(out)
        }
    }
}

#[cycle(steps)]
fn steps_of_conds(alloc: Global, facts: &Facts, conds: &Conds) -> Result<Vec<Conds>, AllocError>
    requires exist { (n : ℕ) × ExistInConds n (conds_seen conds.now) }
    requires narrow { conds_size (conds_seen conds.now) < 2 ^ 32 }
    ensures { IfOk result (λ out. (us : CondList) → (Has us (map conds_seen out.items) ↔ CondsStep (Row (known_of facts.now)) (PairRow (known_of facts.now)) (conds_seen conds.now) us)) }
{
    let mut out = Vec::new(alloc);
    match conds {
        Conds::Empty => Ok(out),
        Conds::More(cond, rest) => {
            let here = steps_of_cond(alloc, facts, cond)?;
            put_cond(alloc, here, rest, &mut out)?;
            let later = steps_of_conds(alloc, facts, rest)?;
            put_cond_first(alloc, cond, later, &mut out)?;
            Ok(out)
        }
    }
}

#[cycle(steps)]
fn steps_of_cond(alloc: Global, facts: &Facts, cond: &Cond) -> Result<Vec<Cond>, AllocError>
    requires exist { (n : ℕ) × ExistInCond n (cond_seen cond.now) }
    requires narrow { cond_size (cond_seen cond.now) < 2 ^ 32 }
    ensures { IfOk result (λ out. (us : OneCond) → (Has us (map cond_seen out.items) ↔ CondStep (known_of facts.now) (cond_seen cond.now) us)) }
{
    let mut out = Vec::new(alloc);
    match cond {
        Cond::Pred(_, _) | Cond::Join(_, _) => Ok(out),
        Cond::In(x, f) => {
            let inner = steps_of_terms(alloc, facts, true, &f.terms)?;
            put_in(alloc, *x, &f.head, inner, &mut out)?;
            Ok(out)
        }
        Cond::NotIn(x, f) => {
            let inner = steps_of_terms(alloc, facts, true, &f.terms)?;
            put_not_in(alloc, *x, &f.head, inner, &mut out)?;
            Ok(out)
        }
    }
}
