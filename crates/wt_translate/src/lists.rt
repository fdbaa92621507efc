//! The lists inside a term.
ghost use Rattle.std.specs.Prelude.{◌≡◌, ◌<◌, ◌^◌, IfOk};
ghost use Rattle.wt_form.specs.Trees.{no_conds, cond_then};
ghost use Rattle.wt_form.specs.Views.{terms_seen, ranges_seen, conds_seen, cond_seen};
ghost use Rattle.wt_form.specs.Parts.{terms_append, ranges_append, conds_append, with_cond, conds_up, cond_map, expr_up, ranges_count};
ghost use Rattle.wt_translate.specs.Bounds.{CondRises, CondsRise};

use crate::pieces::risen;
use std::alloc::{AllocError, Global};
use wt_form::{Cond, Conds, Ranges, Terms};

/// Some terms and then others.
pub fn append_terms(alloc: Global, first: Terms, later: Terms) -> Result<Terms, AllocError>
    ensures { IfOk result (λ ts. terms_seen ts ≡ terms_append (terms_seen first) (terms_seen later)) }
{
    match first {
        Terms::Empty => Ok(later),
        Terms::More(term, rest) => {
            let rest = append_terms(alloc, Box::into_inner(rest), later)?;
            Ok(Terms::More(term, Box::new(alloc, rest)?))
        }
    }
}

/// How many ranges there are.
pub fn count(ranges: &Ranges) -> u32
    requires { ranges_count (ranges_seen ranges.now) < 2 ^ 32 }
    ensures { result ≡ ranges_count (ranges_seen ranges.now) }
{
    match ranges {
        Ranges::Empty => 0,
        Ranges::More(_, rest) => 1 + count(rest),
    }
}

/// A copy of some ranges, and then others.
pub fn ranges_then(alloc: Global, first: &Ranges, later: Ranges) -> Result<Ranges, AllocError>
    ensures { IfOk result (λ rs. ranges_seen rs ≡ ranges_append (ranges_seen first.now) (ranges_seen later)) }
{
    match first {
        Ranges::Empty => Ok(later),
        Ranges::More(range, rest) => {
            let range = range.copy(alloc)?;
            let rest = ranges_then(alloc, rest, later)?;
            Ok(Ranges::More(range, Box::new(alloc, rest)?))
        }
    }
}

/// A copy of some conditions, and then others.
pub fn conds_then(alloc: Global, first: &Conds, later: Conds) -> Result<Conds, AllocError>
    ensures { IfOk result (λ cs. conds_seen cs ≡ conds_append (conds_seen first.now) (conds_seen later)) }
{
    match first {
        Conds::Empty => Ok(later),
        Conds::More(cond, rest) => {
            let cond = cond.copy(alloc)?;
            let rest = conds_then(alloc, rest, later)?;
            Ok(Conds::More(cond, Box::new(alloc, rest)?))
        }
    }
}

/// A copy of a condition with its variables k higher.
fn risen_cond(alloc: Global, cond: &Cond, k: u32) -> Result<Cond, AllocError>
    requires { CondRises k (cond_seen cond.now) }
    ensures { IfOk result (λ c. cond_seen c ≡ cond_map (expr_up k) (cond_seen cond.now)) }
{
    match cond {
        Cond::Pred(p, x) => Ok(Cond::Pred(*p, risen(*x, k))),
        Cond::Join(x, y) => Ok(Cond::Join(risen(*x, k), risen(*y, k))),
        Cond::In(x, f) => Ok(Cond::In(risen(*x, k), Box::new(alloc, f.copy(alloc)?)?)),
        Cond::NotIn(x, f) => Ok(Cond::NotIn(risen(*x, k), Box::new(alloc, f.copy(alloc)?)?)),
    }
}

/// A copy of some conditions with their variables k higher, and then others.
pub fn risen_then(alloc: Global, first: &Conds, k: u32, later: Conds) -> Result<Conds, AllocError>
    requires { CondsRise k (conds_seen first.now) }
    ensures { IfOk result (λ cs. conds_seen cs ≡ conds_append (conds_up k (conds_seen first.now)) (conds_seen later)) }
{
    match first {
        Conds::Empty => Ok(later),
        Conds::More(cond, rest) => {
            let cond = risen_cond(alloc, cond, k)?;
            let rest = risen_then(alloc, rest, k, later)?;
            Ok(Conds::More(cond, Box::new(alloc, rest)?))
        }
    }
}

/// One condition.
pub fn one_cond(alloc: Global, cond: Cond) -> Result<Conds, AllocError>
    ensures { IfOk result (λ cs. conds_seen cs ≡ cond_then (cond_seen cond) no_conds) }
{
    Ok(Conds::More(cond, Box::new(alloc, Conds::Empty)?))
}

/// One condition more, the last.
pub fn with_last(alloc: Global, conds: Conds, cond: Cond) -> Result<Conds, AllocError>
    ensures { IfOk result (λ cs. conds_seen cs ≡ with_cond (conds_seen conds) (cond_seen cond)) }
{
    match conds {
        Conds::Empty => one_cond(alloc, cond),
        Conds::More(first, rest) => {
            let rest = with_last(alloc, Box::into_inner(rest), cond)?;
            Ok(Conds::More(first, Box::new(alloc, rest)?))
        }
    }
}
