//! Conditions that the rest of their term makes true or false.
ghost use Rattle.std.specs.Prelude.{◌≡◌, ◌↔◌, ◌⊎◌, ℕ, map, IsTrue, IfOk, MatchOption};
ghost use Rattle.wt_symbol.specs.declared.head.PartCols.TheVariants.{List as Listed};
ghost use Rattle.wt_form.specs.declared.form.Expr.TheVariants.{Of};
ghost use Rattle.wt_form.specs.Trees.{no_terms, no_ranges, range_then, no_conds, Rel as OneLeaf};
ghost use Rattle.wt_form.specs.Parts.{ranges_list};
ghost use Rattle.wt_form.specs.Places.{list_rows};
ghost use Rattle.wt_form.specs.Views.{terms_seen, ranges_seen, range_seen, conds_seen, cond_seen};
ghost use Rattle.wt_facts.specs.Facts.{known_of};
ghost use Rattle.wt_congruent.specs.Refs.{cond_behind};
ghost use Rattle.wt_not_null.specs.NeverNull.{IsNeverNull};
ghost use Rattle.wt_drops.specs.Truths.{SomeSame, RefersFrom, ReferenceIn, LeafSame, AreOfRows, SideJoins, CondJoins, SomeJoins, InIsTrue, CondTrue, CondFalse, Denied, one_list};

use std::alloc::{AllocError, Global};
use wt_congruent::{same_cond, same_expr};
use wt_facts::{Facts, LeafList};
use wt_form::{Cond, Conds, Expr, FormRange, Ranges, Terms};
use wt_not_null::{first_list, is_null, leaf_at, never_null};

/// Whether one of the conditions is the same as this one.
pub fn same_as_some(
    alloc: Global,
    facts: &Facts,
    ks: &[usize],
    before: &[&Cond],
    c: &Cond,
) -> Result<bool, AllocError>
    ensures { IfOk result (λ yes. IsTrue yes ↔ SomeSame (known_of facts.now) ks.now (map cond_behind before.now) (cond_seen c.now)) }
{
    match before {
        [] => Ok(false),
        [d, rest @ ..] => {
            if same_cond(alloc, facts, ks, d, c)? {
                return Ok(true);
            }
            same_as_some(alloc, facts, ks, rest, c)
        }
    }
}

fn leaf_alone(ranges: &Ranges) -> Option<u8>
    ensures { MatchOption result ((s : ℕ) → ranges_seen ranges.now ≡ range_then (OneLeaf s) no_ranges → ⊥) (λ s. ranges_seen ranges.now ≡ range_then (OneLeaf s) no_ranges) }
{
    match ranges {
        Ranges::Empty => None,
        Ranges::More(range, rest) => match &**rest {
            Ranges::Empty => match range {
                FormRange::Rel(s) => Some(*s),
                FormRange::Distinct(_) => None,
            },
            Ranges::More(_, _) => None,
        },
    }
}

fn list_alone(pieces: &[Expr]) -> Option<u8>
    ensures { MatchOption result ((b : ℕ) → pieces.now ≡ one_list b → ⊥) (λ b. pieces.now ≡ one_list b) }
{
    match pieces {
        [x] => match first_list(*x) {
            Some((v, b)) => { if v == 0 { Some(b) } else { None } }
            None => None,
        },
        _ => None,
    }
}

fn are_no_terms(terms: &Terms) -> bool
    ensures { IsTrue result ↔ (terms_seen terms.now ≡ no_terms) }
{
    match terms {
        Terms::Empty => true,
        Terms::More(_, _) => false,
    }
}

fn are_no_conds(conds: &Conds) -> bool
    ensures { IsTrue result ↔ (conds_seen conds.now ≡ no_conds) }
{
    match conds {
        Conds::Empty => true,
        Conds::More(_, _) => false,
    }
}

/// The leaf and the list of the values of one list in a leaf's rows.
pub fn rows_of_list(terms: &Terms) -> Option<LeafList>
    ensures { MatchOption result ((s b : ℕ) → terms_seen terms.now ≡ list_rows s b → ⊥) (λ l. terms_seen terms.now ≡ list_rows l.leaf l.list) }
{
    match terms {
        Terms::Empty => None,
        Terms::More(term, rest) => {
            let leaf = leaf_alone(&term.ranges)?;
            let list = list_alone(term.pieces.as_slice())?;
            if are_no_conds(&term.conds) && are_no_terms(rest) {
                Some(LeafList { leaf, list })
            } else {
                None
            }
        }
    }
}

fn refers_from(facts: &Facts, ranges: &Ranges, x: u32, a: u8, rows: LeafList) -> bool
    ensures { IsTrue result ↔ RefersFrom (known_of facts.now) (ranges_list (ranges_seen ranges.now)) x a rows.leaf rows.list }
{
    match leaf_at(ranges, x) {
        Some(r) => facts.refers(r, a, rows.leaf, rows.list),
        None => false,
    }
}

/// Whether a list of a variable refers to the rows, and an expression is never NULL.
fn refers_without_null(
    facts: &Facts,
    ranges: &Ranges,
    others: &[&Cond],
    x: u32,
    a: u8,
    e: Expr,
    rows: LeafList,
) -> bool
    ensures { IsTrue result ↔ (RefersFrom (known_of facts.now) (ranges_list (ranges_seen ranges.now)) x a rows.leaf rows.list × IsNeverNull (known_of facts.now) (ranges_list (ranges_seen ranges.now)) (map cond_behind others.now) e) }
{
    refers_from(facts, ranges, x, a, rows) && never_null(facts, ranges, others, e)
}

fn by_reference(facts: &Facts, ranges: &Ranges, others: &[&Cond], e: Expr, rows: LeafList) -> bool
    ensures { IsTrue result ↔ ReferenceIn (known_of facts.now) (ranges_list (ranges_seen ranges.now)) (map cond_behind others.now) e rows.leaf rows.list }
{
    match first_list(e) {
        Some((x, a)) => refers_without_null(facts, ranges, others, x, a, e, rows),
        None => false,
    }
}

fn leaf_is_same(facts: &Facts, ranges: &Ranges, y: u32, s: u8) -> bool
    ensures { IsTrue result ↔ LeafSame (known_of facts.now) (ranges_list (ranges_seen ranges.now)) y s }
{
    match leaf_at(ranges, y) {
        Some(r) => facts.same_leaf(r, s),
        None => false,
    }
}

/// Whether two expressions are the same, and list b of a variable is the one of the rows.
fn are_of_rows(
    facts: &Facts,
    ks: &[usize],
    ranges: &Ranges,
    e: Expr,
    rows: LeafList,
    x: Expr,
    v: u32,
    b: u8,
) -> bool
    ensures { IsTrue result ↔ AreOfRows (known_of facts.now) ks.now (ranges_list (ranges_seen ranges.now)) e rows.leaf rows.list x v b }
{
    same_expr(facts, ks, e, x)
        && facts.same_list(b, rows.list)
        && leaf_is_same(facts, ranges, v, rows.leaf)
}

/// Whether the first two expressions are the same, and the third is the list of a variable in the rows.
fn side_joins(
    facts: &Facts,
    ks: &[usize],
    ranges: &Ranges,
    e: Expr,
    rows: LeafList,
    x: Expr,
    y: Expr,
) -> bool
    ensures { IsTrue result ↔ SideJoins (known_of facts.now) ks.now (ranges_list (ranges_seen ranges.now)) e rows.leaf rows.list x y }
{
    match first_list(y) {
        Some((v, b)) => are_of_rows(facts, ks, ranges, e, rows, x, v, b),
        None => false,
    }
}

fn cond_joins(
    facts: &Facts,
    ks: &[usize],
    ranges: &Ranges,
    e: Expr,
    rows: LeafList,
    q: &Cond,
) -> bool
    ensures { IsTrue result ↔ CondJoins (known_of facts.now) ks.now (ranges_list (ranges_seen ranges.now)) e rows.leaf rows.list (cond_seen q.now) }
{
    match q {
        Cond::Join(x, y) => side_joins(facts, ks, ranges, e, rows, *x, *y)
            || side_joins(facts, ks, ranges, e, rows, *y, *x),
        Cond::Pred(_, _) | Cond::In(_, _) | Cond::NotIn(_, _) => false,
    }
}

fn some_joins(
    facts: &Facts,
    ks: &[usize],
    ranges: &Ranges,
    e: Expr,
    rows: LeafList,
    conds: &[&Cond],
) -> bool
    ensures { IsTrue result ↔ SomeJoins (known_of facts.now) ks.now (ranges_list (ranges_seen ranges.now)) e rows.leaf rows.list (map cond_behind conds.now) }
{
    match conds {
        [] => false,
        [q, rest @ ..] => cond_joins(facts, ks, ranges, e, rows, q)
            || some_joins(facts, ks, ranges, e, rows, rest),
    }
}

/// Whether an In of these rows is true by a reference, or by a Join of the same values.
fn is_true_by_rows(
    facts: &Facts,
    ks: &[usize],
    ranges: &Ranges,
    others: &[&Cond],
    e: Expr,
    rows: LeafList,
) -> bool
    ensures { IsTrue result ↔ (ReferenceIn (known_of facts.now) (ranges_list (ranges_seen ranges.now)) (map cond_behind others.now) e rows.leaf rows.list ⊎ SomeJoins (known_of facts.now) ks.now (ranges_list (ranges_seen ranges.now)) e rows.leaf rows.list (map cond_behind others.now)) }
{
    by_reference(facts, ranges, others, e, rows) || some_joins(facts, ks, ranges, e, rows, others)
}

/// Whether an In is true by a reference, or by a Join of the same values.
fn in_is_true(
    facts: &Facts,
    ks: &[usize],
    ranges: &Ranges,
    others: &[&Cond],
    e: Expr,
    terms: &Terms,
) -> bool
    ensures { IsTrue result ↔ InIsTrue (known_of facts.now) ks.now (ranges_list (ranges_seen ranges.now)) (map cond_behind others.now) e (terms_seen terms.now) }
{
    match rows_of_list(terms) {
        Some(rows) => is_true_by_rows(facts, ks, ranges, others, e, rows),
        None => false,
    }
}

/// Whether the others make the condition true.
pub fn cond_is_true(
    facts: &Facts,
    ks: &[usize],
    ranges: &Ranges,
    others: &[&Cond],
    c: &Cond,
) -> bool
    ensures { IsTrue result ↔ CondTrue (known_of facts.now) ks.now (ranges_list (ranges_seen ranges.now)) (map cond_behind others.now) (cond_seen c.now) }
{
    match c {
        Cond::Pred(_, _) => false,
        Cond::Join(x, y) => same_expr(facts, ks, *x, *y) && never_null(facts, ranges, others, *x),
        Cond::In(e, f) => in_is_true(facts, ks, ranges, others, *e, &f.terms),
        Cond::NotIn(e, _) => is_null(*e),
    }
}

/// Whether one of the others is the same as a NotIn of these values in this form would deny.
fn is_denied(
    alloc: Global,
    facts: &Facts,
    ks: &[usize],
    others: &[&Cond],
    c: &Cond,
) -> Result<bool, AllocError>
    ensures { IfOk result (λ yes. IsTrue yes ↔ Denied (known_of facts.now) ks.now (map cond_behind others.now) (cond_seen c.now)) }
{
    match c {
        Cond::NotIn(e, f) => {
            let denied = Cond::In(*e, Box::new(alloc, f.copy(alloc)?)?);
            same_as_some(alloc, facts, ks, others, &denied)
        }
        Cond::Pred(_, _) | Cond::Join(_, _) | Cond::In(_, _) => Ok(false),
    }
}

/// Whether the condition is never true beside the others, but for one that it denies.
fn is_never_true(facts: &Facts, ks: &[usize], ranges: &Ranges, others: &[&Cond], c: &Cond) -> bool
    ensures { IsTrue result ↔ CondFalse (known_of facts.now) ks.now (ranges_list (ranges_seen ranges.now)) (map cond_behind others.now) (cond_seen c.now) }
{
    match c {
        Cond::Pred(_, _) => false,
        Cond::Join(x, y) => is_null(*x) || is_null(*y),
        Cond::In(e, _) => is_null(*e),
        Cond::NotIn(e, f) => in_is_true(facts, ks, ranges, others, *e, &f.terms),
    }
}

/// Whether the others make the condition false.
pub fn cond_is_false(
    alloc: Global,
    facts: &Facts,
    ks: &[usize],
    ranges: &Ranges,
    others: &[&Cond],
    c: &Cond,
) -> Result<bool, AllocError>
    ensures { IfOk result (λ yes. IsTrue yes ↔ (CondFalse (known_of facts.now) ks.now (ranges_list (ranges_seen ranges.now)) (map cond_behind others.now) (cond_seen c.now)
        ⊎ Denied (known_of facts.now) ks.now (map cond_behind others.now) (cond_seen c.now))) }
{
    if is_never_true(facts, ks, ranges, others, c) {
        return Ok(true);
    }
    is_denied(alloc, facts, ks, others, c)
}
