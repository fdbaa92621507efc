//! Parts of forms put back into their places.
ghost use Rattle.std.specs.Prelude.{◌≡◌, ◌++◌, map, IfOk, OnOk};
ghost use Rattle.wt_form.specs.Trees.{term_then, range_then, cond_then, distinct_of, is_in, not_in};
ghost use Rattle.wt_form.specs.Parts.{terms_append};
ghost use Rattle.wt_form.specs.Views.{terms_seen, ranges_seen, range_seen, conds_seen, cond_seen};

use std::alloc::{AllocError, Global};
use wt_form::{Cond, Conds, Expr, Exprs, Form, FormRange, Ranges, Term, Terms};
use wt_symbol::Parts;

fn copied(pieces: &Exprs) -> Result<Exprs, AllocError>
    ensures { IfOk result (λ copy. copy ≡ pieces.now) }
{
    pieces.clone()
}

fn copied_head(head: &Parts) -> Result<Parts, AllocError>
    ensures { IfOk result (λ copy. copy ≡ head.now) }
{
    head.clone()
}

/// Some terms and then others.
pub fn append(alloc: Global, first: Terms, rest: &Terms) -> Result<Terms, AllocError>
    ensures { IfOk result (λ ts. terms_seen ts ≡ terms_append (terms_seen first) (terms_seen rest.now)) }
{
    match first {
        Terms::Empty => rest.copy(alloc),
        Terms::More(term, more) => {
            let tail = append(alloc, Box::into_inner(more), rest)?;
            Ok(Terms::More(term, Box::new(alloc, tail)?))
        }
    }
}

/// Each of the sums before the rest.
pub fn put_before(
    alloc: Global,
    heads: Vec<Terms>,
    rest: &Terms,
    out: &mut Vec<Terms>,
) -> Result<(), AllocError>
    ensures { OnOk result (map terms_seen out.new.items ≡ map terms_seen out.old.items ++ map (λ us. terms_append us (terms_seen rest.now)) (map terms_seen heads.items)) }
{
    for head in heads {
        out.push(append(alloc, head, rest)?)?;
    }
    Ok(())
}

/// A term of these parts before others.
pub fn term_before(
    alloc: Global,
    ranges: Ranges,
    conds: Conds,
    pieces: &Exprs,
    rest: Terms,
) -> Result<Terms, AllocError>
    ensures { IfOk result (λ ts. terms_seen ts ≡ term_then (ranges_seen ranges) (conds_seen conds) pieces.now (terms_seen rest)) }
{
    let term = Term {
        ranges,
        conds,
        pieces: copied(pieces)?,
    };
    Ok(Terms::More(Box::new(alloc, term)?, Box::new(alloc, rest)?))
}

/// The term before each of the sums.
pub fn put_after(
    alloc: Global,
    term: &Term,
    tails: Vec<Terms>,
    out: &mut Vec<Terms>,
) -> Result<(), AllocError>
    ensures { OnOk result (map terms_seen out.new.items ≡ map terms_seen out.old.items ++ map (term_then (ranges_seen term.now.ranges) (conds_seen term.now.conds) term.now.pieces) (map terms_seen tails.items)) }
{
    for tail in tails {
        out.push(term_before(
            alloc,
            term.ranges.copy(alloc)?,
            term.conds.copy(alloc)?,
            &term.pieces,
            tail,
        )?)?;
    }
    Ok(())
}

/// The term with each of these ranges, before the rest.
pub fn put_ranges(
    alloc: Global,
    term: &Term,
    rest: &Terms,
    lists: Vec<Ranges>,
    out: &mut Vec<Terms>,
) -> Result<(), AllocError>
    ensures { OnOk result (map terms_seen out.new.items ≡ map terms_seen out.old.items ++ map (λ rs. term_then rs (conds_seen term.now.conds) term.now.pieces (terms_seen rest.now)) (map ranges_seen lists.items)) }
{
    for ranges in lists {
        out.push(term_before(
            alloc,
            ranges,
            term.conds.copy(alloc)?,
            &term.pieces,
            rest.copy(alloc)?,
        )?)?;
    }
    Ok(())
}

/// The term with each of these conditions, before the rest.
pub fn put_conds(
    alloc: Global,
    term: &Term,
    rest: &Terms,
    lists: Vec<Conds>,
    out: &mut Vec<Terms>,
) -> Result<(), AllocError>
    ensures { OnOk result (map terms_seen out.new.items ≡ map terms_seen out.old.items ++ map (λ cs. term_then (ranges_seen term.now.ranges) cs term.now.pieces (terms_seen rest.now)) (map conds_seen lists.items)) }
{
    for conds in lists {
        out.push(term_before(
            alloc,
            term.ranges.copy(alloc)?,
            conds,
            &term.pieces,
            rest.copy(alloc)?,
        )?)?;
    }
    Ok(())
}

/// A range before others.
pub fn range_before(alloc: Global, range: FormRange, rest: Ranges) -> Result<Ranges, AllocError>
    ensures { IfOk result (λ rs. ranges_seen rs ≡ range_then (range_seen range) (ranges_seen rest)) }
{
    Ok(Ranges::More(range, Box::new(alloc, rest)?))
}

/// Each of these ranges before the rest.
pub fn put_range(
    alloc: Global,
    heads: Vec<FormRange>,
    rest: &Ranges,
    out: &mut Vec<Ranges>,
) -> Result<(), AllocError>
    ensures { OnOk result (map ranges_seen out.new.items ≡ map ranges_seen out.old.items ++ map (λ r. range_then r (ranges_seen rest.now)) (map range_seen heads.items)) }
{
    for head in heads {
        out.push(range_before(alloc, head, rest.copy(alloc)?)?)?;
    }
    Ok(())
}

/// The range before each of the lists of ranges.
pub fn put_range_first(
    alloc: Global,
    range: &FormRange,
    tails: Vec<Ranges>,
    out: &mut Vec<Ranges>,
) -> Result<(), AllocError>
    ensures { OnOk result (map ranges_seen out.new.items ≡ map ranges_seen out.old.items ++ map (range_then (range_seen range.now)) (map ranges_seen tails.items)) }
{
    for tail in tails {
        out.push(range_before(alloc, range.copy(alloc)?, tail)?)?;
    }
    Ok(())
}

/// The distinct rows of terms with a head.
pub fn distinct_rows(alloc: Global, head: &Parts, terms: Terms) -> Result<FormRange, AllocError>
    ensures { IfOk result (λ r. range_seen r ≡ distinct_of head.now (terms_seen terms)) }
{
    let form = Form {
        head: copied_head(head)?,
        terms,
    };
    Ok(FormRange::Distinct(Box::new(alloc, form)?))
}

/// The distinct rows of each of the sums.
pub fn put_distinct(
    alloc: Global,
    head: &Parts,
    sums: Vec<Terms>,
    out: &mut Vec<FormRange>,
) -> Result<(), AllocError>
    ensures { OnOk result (map range_seen out.new.items ≡ map range_seen out.old.items ++ map (distinct_of head.now) (map terms_seen sums.items)) }
{
    for terms in sums {
        out.push(distinct_rows(alloc, head, terms)?)?;
    }
    Ok(())
}

/// A condition before others.
pub fn cond_before(alloc: Global, cond: Cond, rest: Conds) -> Result<Conds, AllocError>
    ensures { IfOk result (λ cs. conds_seen cs ≡ cond_then (cond_seen cond) (conds_seen rest)) }
{
    Ok(Conds::More(cond, Box::new(alloc, rest)?))
}

/// Each of these conditions before the rest.
pub fn put_cond(
    alloc: Global,
    heads: Vec<Cond>,
    rest: &Conds,
    out: &mut Vec<Conds>,
) -> Result<(), AllocError>
    ensures { OnOk result (map conds_seen out.new.items ≡ map conds_seen out.old.items ++ map (λ c. cond_then c (conds_seen rest.now)) (map cond_seen heads.items)) }
{
    for head in heads {
        out.push(cond_before(alloc, head, rest.copy(alloc)?)?)?;
    }
    Ok(())
}

/// The condition before each of the lists of conditions.
pub fn put_cond_first(
    alloc: Global,
    cond: &Cond,
    tails: Vec<Conds>,
    out: &mut Vec<Conds>,
) -> Result<(), AllocError>
    ensures { OnOk result (map conds_seen out.new.items ≡ map conds_seen out.old.items ++ map (cond_then (cond_seen cond.now)) (map conds_seen tails.items)) }
{
    for tail in tails {
        out.push(cond_before(alloc, cond.copy(alloc)?, tail)?)?;
    }
    Ok(())
}

/// Some row of terms with a head matches the values.
pub fn in_rows(alloc: Global, x: Expr, head: &Parts, terms: Terms) -> Result<Cond, AllocError>
    ensures { IfOk result (λ c. cond_seen c ≡ is_in x head.now (terms_seen terms)) }
{
    let form = Form {
        head: copied_head(head)?,
        terms,
    };
    Ok(Cond::In(x, Box::new(alloc, form)?))
}

/// No row of terms with a head matches the values.
pub fn not_in_rows(alloc: Global, x: Expr, head: &Parts, terms: Terms) -> Result<Cond, AllocError>
    ensures { IfOk result (λ c. cond_seen c ≡ not_in x head.now (terms_seen terms)) }
{
    let form = Form {
        head: copied_head(head)?,
        terms,
    };
    Ok(Cond::NotIn(x, Box::new(alloc, form)?))
}

/// An In of each of the sums.
pub fn put_in(
    alloc: Global,
    x: Expr,
    head: &Parts,
    sums: Vec<Terms>,
    out: &mut Vec<Cond>,
) -> Result<(), AllocError>
    ensures { OnOk result (map cond_seen out.new.items ≡ map cond_seen out.old.items ++ map (is_in x head.now) (map terms_seen sums.items)) }
{
    for terms in sums {
        out.push(in_rows(alloc, x, head, terms)?)?;
    }
    Ok(())
}

/// A NotIn of each of the sums.
pub fn put_not_in(
    alloc: Global,
    x: Expr,
    head: &Parts,
    sums: Vec<Terms>,
    out: &mut Vec<Cond>,
) -> Result<(), AllocError>
    ensures { OnOk result (map cond_seen out.new.items ≡ map cond_seen out.old.items ++ map (not_in x head.now) (map terms_seen sums.items)) }
{
    for terms in sums {
        out.push(not_in_rows(alloc, x, head, terms)?)?;
    }
    Ok(())
}
