//! The elements of the lists inside a form, by reference.
ghost use Rattle.std.specs.Prelude.{◌≡◌, ◌+◌, ◌<◌, ◌++◌, map, length, IfOk, OnOk};
ghost use Rattle.wt_bag.specs.Choices.{drop_at};
ghost use Rattle.wt_form.specs.Parts.{ranges_list, conds_list};
ghost use Rattle.wt_form.specs.Views.{terms_seen, ranges_seen, conds_seen, terms_list};
ghost use Rattle.wt_congruent.specs.Refs.{term_behind, range_behind, cond_behind};

use std::alloc::{AllocError, Global};
use wt_form::{Cond, Conds, FormRange, Ranges, Term, Terms};

fn push_terms<'a>(ts: &'a Terms, out: &mut Vec<&'a Term>) -> Result<(), AllocError>
    ensures { OnOk result (map term_behind out.new.items ≡ map term_behind out.old.items ++ terms_list (terms_seen ts.now)) }
{
    match ts {
        Terms::Empty => Ok(()),
        Terms::More(term, rest) => {
            out.push(term)?;
            push_terms(rest, out)
        }
    }
}

pub fn term_refs<'a>(alloc: Global, ts: &'a Terms) -> Result<Vec<&'a Term>, AllocError>
    ensures { IfOk result (λ out. map term_behind out.items ≡ terms_list (terms_seen ts.now)) }
{
    let mut out = Vec::new(alloc);
    push_terms(ts, &mut out)?;
    Ok(out)
}

fn push_ranges<'a>(ts: &'a Ranges, out: &mut Vec<&'a FormRange>) -> Result<(), AllocError>
    ensures { OnOk result (map range_behind out.new.items ≡ map range_behind out.old.items ++ ranges_list (ranges_seen ts.now)) }
{
    match ts {
        Ranges::Empty => Ok(()),
        Ranges::More(range, rest) => {
            out.push(range)?;
            push_ranges(rest, out)
        }
    }
}

pub fn range_refs<'a>(alloc: Global, ts: &'a Ranges) -> Result<Vec<&'a FormRange>, AllocError>
    ensures { IfOk result (λ out. map range_behind out.items ≡ ranges_list (ranges_seen ts.now)) }
{
    let mut out = Vec::new(alloc);
    push_ranges(ts, &mut out)?;
    Ok(out)
}

fn push_conds<'a>(ts: &'a Conds, out: &mut Vec<&'a Cond>) -> Result<(), AllocError>
    ensures { OnOk result (map cond_behind out.new.items ≡ map cond_behind out.old.items ++ conds_list (conds_seen ts.now)) }
{
    match ts {
        Conds::Empty => Ok(()),
        Conds::More(cond, rest) => {
            out.push(cond)?;
            push_conds(rest, out)
        }
    }
}

pub fn cond_refs<'a>(alloc: Global, ts: &'a Conds) -> Result<Vec<&'a Cond>, AllocError>
    ensures { IfOk result (λ out. map cond_behind out.items ≡ conds_list (conds_seen ts.now)) }
{
    let mut out = Vec::new(alloc);
    push_conds(ts, &mut out)?;
    Ok(out)
}

/// The references without the one at a place.
pub fn without<'a, T>(alloc: Global, left: &[&'a T], j: usize) -> Result<Vec<&'a T>, AllocError>
    requires { j < length left.now }
    ensures { IfOk result (λ rest. rest.items ≡ drop_at j left.now) }
{
    let mut rest = left.to_vec(alloc)?;
    rest.remove(j);
    Ok(rest)
}
