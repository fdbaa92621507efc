//! A Join with a variable that occurs nowhere else becomes an In.
ghost use Rattle.std.specs.Prelude.{◌≡◌, ◌<◌, ◌↔◌, ◌++◌, [], ◌∷◌, ℕ, List, map, length, OnOk, IfOk, IsTrue, MatchOption};
ghost use Rattle.wt_bag.specs.Bags.{Each};
ghost use Rattle.wt_symbol.specs.declared.head.Part.{Part as OnePart};
ghost use Rattle.wt_form.specs.declared.form.Expr.{Expr as OneExpr};
ghost use Rattle.wt_form.specs.Trees.{Terms as Sum, is_in};
ghost use Rattle.wt_form.specs.Facts.{IsOver};
ghost use Rattle.wt_form.specs.Changes.{CondAvoids};
ghost use Rattle.wt_form.specs.Joining.{Joined, JoinToIn};
ghost use Rattle.wt_form.specs.Places.{list_rows};
ghost use Rattle.wt_form.specs.Views.{terms_seen, ranges_seen, range_seen, conds_seen, cond_seen};
ghost use Rattle.wt_facts.specs.Facts.{known_of};
ghost use Rattle.wt_congruent.specs.Refs.{cond_behind, range_behind};
ghost use Rattle.wt_places.specs.Gained.{Gained, Upto, AtPlace};
ghost use Rattle.wt_joining.specs.ToIn.{list_part, ListHead, IsElsewhere, in_term, InByRange, InNowhere, BecomesIn, InEitherWay, InAt};

use crate::changes::{Change, changed_conds, changed_expr, changed_pieces};
use crate::places::past;
use std::alloc::{AllocError, Global};
use wt_congruent::{cond_refs, range_refs, without};
use wt_facts::Facts;
use wt_form::{Cond, Conds, Expr, Form, FormRange, Ranges, Term, Terms};
use wt_not_null::first_list;
use wt_places::{cond_before, push_term, ranges_from};
use wt_symbol::{Part, PartCols, Parts};
use wt_value::Seq;

fn is_over(w: u32, x: Expr) -> bool
    ensures { IsTrue result ↔ IsOver w x }
{
    match x {
        Expr::Of(v, _, _) => v == w,
        Expr::Null(_, _) => false,
    }
}

fn avoids(w: u32, x: Expr) -> bool
    ensures { IsTrue result ↔ (IsOver w x → ⊥) }
{
    !is_over(w, x)
}

fn cond_avoids(w: u32, c: &Cond) -> bool
    ensures { IsTrue result ↔ CondAvoids w (cond_seen c.now) }
{
    match c {
        Cond::Pred(_, x) | Cond::In(x, _) | Cond::NotIn(x, _) => avoids(w, *x),
        Cond::Join(x, y) => avoids(w, *x) && avoids(w, *y),
    }
}

fn conds_avoid(w: u32, refs: &[&Cond]) -> bool
    ensures { IsTrue result ↔ Each (CondAvoids w) (map cond_behind refs.now) }
{
    match refs {
        [] => true,
        [c, rest @ ..] => cond_avoids(w, c) && conds_avoid(w, rest),
    }
}

fn pieces_avoid(w: u32, pieces: &[Expr]) -> bool
    ensures { IsTrue result ↔ Each (λ x. IsOver w x → ⊥) pieces.now }
{
    match pieces {
        [] => true,
        [x, rest @ ..] => avoids(w, *x) && pieces_avoid(w, rest),
    }
}

/// Whether the variable occurs neither in the expression nor in these conditions and pieces.
fn is_nowhere(w: u32, e: Expr, before: &[&Cond], after: &[&Cond], pieces: &[Expr]) -> bool
    ensures { IsTrue result ↔ IsElsewhere w e (map cond_behind before.now) (map cond_behind after.now) pieces.now }
{
    avoids(w, e) && conds_avoid(w, before) && conds_avoid(w, after) && pieces_avoid(w, pieces)
}

fn is_list_head(facts: &Facts, head: &[Part], b: u8) -> bool
    ensures { IsTrue result ↔ ListHead (known_of facts.now) b head.now }
{
    match head {
        [part] => match part.cols {
            PartCols::List(d) => facts.same_list(b, d),
            PartCols::Whole => false,
        },
        _ => false,
    }
}

/// The values of a list in a leaf's rows.
fn list_form(alloc: Global, r: u8, b: u8) -> Result<Form, AllocError>
    ensures head { IfOk result (λ f. f.head ≡ list_part r b ∷ []) }
    ensures rows { IfOk result (λ f. terms_seen f.terms ≡ list_rows r b) }
{
    let ranges = Ranges::More(FormRange::Rel(r), Box::new(alloc, Ranges::Empty)?);
    let mut pieces = Seq::new(alloc);
    pieces.push(Expr::Of(0, 0, PartCols::List(b)))?;
    let term = Term {
        ranges,
        conds: Conds::Empty,
        pieces,
    };
    let mut head = Parts::new(alloc);
    head.push(Part {
        leaf: r,
        cols: PartCols::List(b),
    })?;
    Ok(Form {
        head,
        terms: Terms::More(Box::new(alloc, term)?, Box::new(alloc, Terms::Empty)?),
    })
}

/// The form of which a joined variable's row becomes a row, if there is one.
fn joined_form(
    alloc: Global,
    facts: &Facts,
    nested: bool,
    range: &FormRange,
    b: u8,
) -> Result<Option<Form>, AllocError>
    ensures { IfOk result (λ found. MatchOption found ((h : List OnePart) (ts : Sum) → Joined (known_of facts.now) nested (range_seen range.now) b h ts → ⊥) (λ f. Joined (known_of facts.now) nested (range_seen range.now) b f.head (terms_seen f.terms))) }
{
    match range {
        FormRange::Rel(r) => {
            if nested || facts.is_unique(*r, b) {
                Ok(Some(list_form(alloc, *r, b)?))
            } else {
                Ok(None)
            }
        }
        FormRange::Distinct(f) => {
            if is_list_head(facts, f.head.as_slice(), b) {
                Ok(Some(f.copy(alloc)?))
            } else {
                Ok(None)
            }
        }
    }
}

/// Some row of the form matches the values.
fn in_form(alloc: Global, x: Expr, form: Form) -> Result<Cond, AllocError>
    ensures { IfOk result (λ c. cond_seen c ≡ is_in x form.head (terms_seen form.terms)) }
{
    Ok(Cond::In(x, Box::new(alloc, form)?))
}

/// Adds the term with an In of the form in the place of a Join, without a variable.
#[tactic(auto, using(crate::proofs::Lists::append_none))]
fn push_in(
    alloc: Global,
    term: &Term,
    left: &[&FormRange],
    v: u32,
    before: &[&Cond],
    after: &[&Cond],
    e: Expr,
    form: Form,
    out: &mut Vec<Terms>,
) -> Result<(), AllocError>
    ensures { OnOk result (map terms_seen out.new.items ≡ map terms_seen out.old.items ++ in_term (map range_behind left.now) term.now.pieces v (map cond_behind before.now) (map cond_behind after.now) e form.head (terms_seen form.terms) ∷ []) }
{
    let change = Change::Down(v);
    let tail = changed_conds(alloc, change, after, Conds::Empty)?;
    let inside = in_form(alloc, changed_expr(change, e), form)?;
    let rest = cond_before(alloc, inside, tail)?;
    let conds = changed_conds(alloc, change, before, rest)?;
    let pieces = changed_pieces(alloc, change, &term.pieces)?;
    push_term(alloc, ranges_from(alloc, left)?, conds, pieces, out)
}

/// The same for a list of a variable, if its range has a form.
fn push_by_range(
    alloc: Global,
    facts: &Facts,
    nested: bool,
    term: &Term,
    ranges: &[&FormRange],
    v: u32,
    b: u8,
    before: &[&Cond],
    after: &[&Cond],
    e: Expr,
    out: &mut Vec<Terms>,
) -> Result<(), AllocError>
    requires { v < length ranges.now }
    ensures { OnOk result (Gained (map terms_seen out.old.items) (map terms_seen out.new.items) (InByRange (known_of facts.now) nested (map range_behind ranges.now) term.now.pieces v b (map cond_behind before.now) (map cond_behind after.now) e)) }
{
    let found = joined_form(alloc, facts, nested, ranges[v as usize], b)?;
    match found {
        Some(form) => {
            let left = without(alloc, ranges, v as usize)?;
            push_in(alloc, term, left.as_slice(), v, before, after, e, form, out)
        }
        None => Ok(()),
    }
}

/// The same, if there is such a variable.
fn push_in_range(
    alloc: Global,
    facts: &Facts,
    nested: bool,
    term: &Term,
    ranges: &[&FormRange],
    v: u32,
    b: u8,
    before: &[&Cond],
    after: &[&Cond],
    e: Expr,
    out: &mut Vec<Terms>,
) -> Result<(), AllocError>
    ensures { OnOk result (Gained (map terms_seen out.old.items) (map terms_seen out.new.items) (InByRange (known_of facts.now) nested (map range_behind ranges.now) term.now.pieces v b (map cond_behind before.now) (map cond_behind after.now) e)) }
{
    if (v as usize) < ranges.len() {
        push_by_range(
            alloc, facts, nested, term, ranges, v, b, before, after, e, out,
        )
    } else {
        Ok(())
    }
}

/// The same, if the variable occurs nowhere else.
fn push_nowhere(
    alloc: Global,
    facts: &Facts,
    nested: bool,
    term: &Term,
    ranges: &[&FormRange],
    v: u32,
    b: u8,
    before: &[&Cond],
    after: &[&Cond],
    e: Expr,
    out: &mut Vec<Terms>,
) -> Result<(), AllocError>
    ensures { OnOk result (Gained (map terms_seen out.old.items) (map terms_seen out.new.items) (InNowhere (known_of facts.now) nested (map range_behind ranges.now) term.now.pieces v b (map cond_behind before.now) (map cond_behind after.now) e)) }
{
    if is_nowhere(v, e, before, after, term.pieces.as_slice()) {
        push_in_range(
            alloc, facts, nested, term, ranges, v, b, before, after, e, out,
        )
    } else {
        Ok(())
    }
}

/// The same for the two sides of a Join, the second being a list of a variable.
fn push_becoming_in(
    alloc: Global,
    facts: &Facts,
    nested: bool,
    term: &Term,
    ranges: &[&FormRange],
    before: &[&Cond],
    after: &[&Cond],
    e: Expr,
    f: Expr,
    out: &mut Vec<Terms>,
) -> Result<(), AllocError>
    ensures { OnOk result (Gained (map terms_seen out.old.items) (map terms_seen out.new.items) (BecomesIn (known_of facts.now) nested (map range_behind ranges.now) term.now.pieces (map cond_behind before.now) (map cond_behind after.now) e f)) }
{
    match first_list(f) {
        Some((v, b)) => push_nowhere(
            alloc, facts, nested, term, ranges, v, b, before, after, e, out,
        ),
        None => Ok(()),
    }
}

/// The same for the two sides of a Join, either way.
fn push_both_ways(
    alloc: Global,
    facts: &Facts,
    nested: bool,
    term: &Term,
    ranges: &[&FormRange],
    before: &[&Cond],
    after: &[&Cond],
    x: Expr,
    y: Expr,
    out: &mut Vec<Terms>,
) -> Result<(), AllocError>
    ensures { OnOk result (Gained (map terms_seen out.old.items) (map terms_seen out.new.items) (InEitherWay (known_of facts.now) nested (map range_behind ranges.now) term.now.pieces (map cond_behind before.now) (map cond_behind after.now) x y)) }
{
    push_becoming_in(alloc, facts, nested, term, ranges, before, after, x, y, out)?;
    push_becoming_in(alloc, facts, nested, term, ranges, before, after, y, x, out)?;
    Ok(())
}

fn push_in_at(
    alloc: Global,
    facts: &Facts,
    nested: bool,
    term: &Term,
    ranges: &[&FormRange],
    before: &[&Cond],
    c: &Cond,
    after: &[&Cond],
    out: &mut Vec<Terms>,
) -> Result<(), AllocError>
    ensures { OnOk result (Gained (map terms_seen out.old.items) (map terms_seen out.new.items) (InAt (known_of facts.now) nested (map range_behind ranges.now) term.now.pieces (map cond_behind before.now) (cond_seen c.now) (map cond_behind after.now))) }
{
    match c {
        Cond::Join(x, y) => push_both_ways(
            alloc, facts, nested, term, ranges, before, after, *x, *y, out,
        ),
        Cond::Pred(_, _) | Cond::In(_, _) | Cond::NotIn(_, _) => Ok(()),
    }
}

/// The same for each condition.
fn push_in_each(
    alloc: Global,
    facts: &Facts,
    nested: bool,
    term: &Term,
    ranges: &[&FormRange],
    refs: &[&Cond],
    out: &mut Vec<Terms>,
) -> Result<(), AllocError>
    ensures { OnOk result (Gained (map terms_seen out.old.items) (map terms_seen out.new.items) (Upto (AtPlace (InAt (known_of facts.now) nested (map range_behind ranges.now) term.now.pieces) (map cond_behind refs.now)) (length refs.now))) }
{
    for j in 0..refs.len() {
        let after = past(refs, j);
        push_in_at(
            alloc,
            facts,
            nested,
            term,
            ranges,
            &refs[..j],
            refs[j],
            after,
            out,
        )?;
    }
    Ok(())
}

/// Adds the term with a Join made an In, in every way.
pub fn push_joins_to_in(
    alloc: Global,
    facts: &Facts,
    nested: bool,
    term: &Term,
    out: &mut Vec<Terms>,
) -> Result<(), AllocError>
    ensures { OnOk result (Gained (map terms_seen out.old.items) (map terms_seen out.new.items) (JoinToIn (known_of facts.now) nested (ranges_seen term.now.ranges) (conds_seen term.now.conds) term.now.pieces)) }
{
    let ranges = range_refs(alloc, &term.ranges)?;
    let refs = cond_refs(alloc, &term.conds)?;
    push_in_each(
        alloc,
        facts,
        nested,
        term,
        ranges.as_slice(),
        refs.as_slice(),
        out,
    )?;
    Ok(())
}
