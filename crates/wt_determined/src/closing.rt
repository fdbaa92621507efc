//! The variables of a term that are determined.
ghost use Rattle.std.specs.Prelude.{◌≡◌, ◌<◌, ◌^◌, ◌↔◌, ℕ, map, length, IsTrue, IfOk, MatchOption};
ghost use Rattle.wt_bag.specs.Bags.{Each};
ghost use Rattle.wt_bag.specs.Choices.{At, Has};
ghost use Rattle.wt_form.specs.Parts.{ranges_count, ranges_list};
ghost use Rattle.wt_form.specs.Facts.{Determined};
ghost use Rattle.wt_form.specs.Opening.{AllDetermined};
ghost use Rattle.wt_form.specs.Views.{ranges_seen, conds_seen};
ghost use Rattle.wt_facts.specs.Facts.{known_of};
ghost use Rattle.wt_congruent.specs.Refs.{cond_behind};
ghost use Rattle.wt_determined.specs.Linked.{Follows};

use crate::linked::{follows, is_among};
use std::alloc::{AllocError, Global};
use wt_congruent::cond_refs;
use wt_facts::Facts;
use wt_form::{Cond, Expr, Ranges, Term};

/// The number of ranges.
pub fn range_count(ranges: &Ranges) -> u32
    requires narrow { ranges_count (ranges_seen ranges.now) < 2 ^ 32 }
    ensures { result ≡ ranges_count (ranges_seen ranges.now) }
{
    match ranges {
        Ranges::Empty => 0,
        Ranges::More(_, rest) => 1 + range_count(rest),
    }
}

/// The variables below a number.
fn variables(alloc: Global, n: u32) -> Result<Vec<u32>, AllocError>
    ensures { IfOk result (λ out. (v : ℕ) → v < n → Has v out.items) }
{
    let mut out = Vec::new(alloc);
    for v in 0..n {
        out.push(v)?;
    }
    Ok(out)
}

/// The place of the first of some variables that follows from those that are determined.
fn first_that_follows(
    facts: &Facts,
    ranges: &Ranges,
    conds: &[&Cond],
    pieces: &[Expr],
    vars: &[u32],
    left: &[u32],
) -> Option<usize>
    ensures { MatchOption result (Each (λ u. Follows facts.now (ranges_list (ranges_seen ranges.now)) (map cond_behind conds.now) pieces.now vars.now u → ⊥) left.now)
        (λ j. (j < length left.now) × At (Follows facts.now (ranges_list (ranges_seen ranges.now)) (map cond_behind conds.now) pieces.now vars.now) j left.now) }
{
    for j in 0..left.len() {
        if follows(facts, ranges, conds, pieces, vars, left[j]) {
            return Some(j);
        }
    }
    None
}

/// The variables of a term that are determined.
pub fn determined(
    alloc: Global,
    facts: &Facts,
    ranges: &Ranges,
    conds: &[&Cond],
    pieces: &[Expr],
) -> Result<Vec<u32>, AllocError>
    requires narrow { ranges_count (ranges_seen ranges.now) < 2 ^ 32 }
    ensures exact { IfOk result (λ vars. (u : ℕ) → (Has u vars.items ↔ Determined (known_of facts.now) (ranges_list (ranges_seen ranges.now)) (map cond_behind conds.now) pieces.now u)) }
{
    let mut vars = Vec::new(alloc);
    let mut left = variables(alloc, range_count(ranges))?;
    'rounds: while let Some(j) = first_that_follows(facts, ranges, conds, pieces, &vars, &left) {
        let u = left.remove(j);
        vars.push(u)?;
    }
    Ok(vars)
}

/// Whether the variables below a number are among these.
fn are_all_among(vars: &[u32], n: u32) -> bool
    ensures { IsTrue result ↔ ((v : ℕ) → v < n → Has v vars.now) }
{
    for v in 0..n {
        if !is_among(vars, v) {
            return false;
        }
    }
    true
}

/// Whether each variable of a term is determined.
pub fn are_all_determined(alloc: Global, facts: &Facts, term: &Term) -> Result<bool, AllocError>
    requires narrow { ranges_count (ranges_seen term.now.ranges) < 2 ^ 32 }
    ensures exact { IfOk result (λ yes. IsTrue yes ↔ AllDetermined (known_of facts.now) (ranges_seen term.now.ranges) (conds_seen term.now.conds) term.now.pieces) }
{
    let conds = cond_refs(alloc, &term.conds)?;
    let vars = determined(alloc, facts, &term.ranges, &conds, term.pieces.as_slice())?;
    Ok(are_all_among(&vars, range_count(&term.ranges)))
}
