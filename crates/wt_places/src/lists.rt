//! The elements of lists inside a form made into lists again.
ghost use Rattle.std.specs.Prelude.{◌≡◌, ◌++◌, [], ◌∷◌, map, IfOk, OnOk};
ghost use Rattle.wt_form.specs.Places.{itself};
ghost use Rattle.wt_form.specs.Parts.{one_term};
ghost use Rattle.wt_form.specs.Views.{terms_seen, ranges_seen, conds_seen, terms_from};
ghost use Rattle.wt_congruent.specs.Refs.{term_behind, range_behind, cond_behind};
ghost use Rattle.wt_places.specs.Lists.{conds_from, ranges_from};

use crate::put::term_before;
use std::alloc::{AllocError, Global};
use wt_form::{Cond, Conds, Exprs, FormRange, Ranges, Term, Terms};

fn push_zeros(ranges: &Ranges, out: &mut Vec<usize>) -> Result<(), AllocError>
    ensures { OnOk result (out.new.items ≡ out.old.items ++ itself (ranges_seen ranges.now)) }
{
    match ranges {
        Ranges::Empty => Ok(()),
        Ranges::More(_, rest) => {
            out.push(0)?;
            push_zeros(rest, out)
        }
    }
}

/// The pairing of each variable with itself.
pub fn itself(alloc: Global, ranges: &Ranges) -> Result<Vec<usize>, AllocError>
    ensures { IfOk result (λ ks. ks.items ≡ itself (ranges_seen ranges.now)) }
{
    let mut out = Vec::new(alloc);
    push_zeros(ranges, &mut out)?;
    Ok(out)
}

/// The conditions of a list, in memory of their own.
pub fn conds_from(alloc: Global, refs: &[&Cond]) -> Result<Conds, AllocError>
    ensures { IfOk result (λ cs. conds_seen cs ≡ conds_from (map cond_behind refs.now)) }
{
    match refs {
        [] => Ok(Conds::Empty),
        [c, rest @ ..] => {
            let first = c.copy(alloc)?;
            let tail = conds_from(alloc, rest)?;
            Ok(Conds::More(first, Box::new(alloc, tail)?))
        }
    }
}

/// The ranges of a list, in memory of their own.
pub fn ranges_from(alloc: Global, refs: &[&FormRange]) -> Result<Ranges, AllocError>
    ensures { IfOk result (λ rs. ranges_seen rs ≡ ranges_from (map range_behind refs.now)) }
{
    match refs {
        [] => Ok(Ranges::Empty),
        [r, rest @ ..] => {
            let first = r.copy(alloc)?;
            let tail = ranges_from(alloc, rest)?;
            Ok(Ranges::More(first, Box::new(alloc, tail)?))
        }
    }
}

/// The terms of a list, in memory of their own.
pub fn terms_from(alloc: Global, refs: &[&Term]) -> Result<Terms, AllocError>
    ensures { IfOk result (λ ts. terms_seen ts ≡ terms_from (map term_behind refs.now)) }
{
    match refs {
        [] => Ok(Terms::Empty),
        [t, rest @ ..] => {
            let tail = terms_from(alloc, rest)?;
            term_before(
                alloc,
                t.ranges.copy(alloc)?,
                t.conds.copy(alloc)?,
                &t.pieces,
                tail,
            )
        }
    }
}

/// Adds one term of these parts.
pub fn push_term(
    alloc: Global,
    ranges: Ranges,
    conds: Conds,
    pieces: Exprs,
    out: &mut Vec<Terms>,
) -> Result<(), AllocError>
    ensures { OnOk result (map terms_seen out.new.items ≡ map terms_seen out.old.items ++ one_term (ranges_seen ranges) (conds_seen conds) pieces ∷ []) }
{
    let term = Term {
        ranges,
        conds,
        pieces,
    };
    out.push(Terms::More(Box::new(alloc, term)?, Box::new(alloc, Terms::Empty)?))?;
    Ok(())
}

/// Adds the term with these conditions in the place of its own.
pub fn push_without(
    alloc: Global,
    term: &Term,
    left: &[&Cond],
    out: &mut Vec<Terms>,
) -> Result<(), AllocError>
    ensures { OnOk result (map terms_seen out.new.items ≡ map terms_seen out.old.items ++ one_term (ranges_seen term.now.ranges) (conds_from (map cond_behind left.now)) term.now.pieces ∷ []) }
{
    let conds = conds_from(alloc, left)?;
    out.push(term_before(
        alloc,
        term.ranges.copy(alloc)?,
        conds,
        &term.pieces,
        Terms::Empty,
    )?)?;
    Ok(())
}
