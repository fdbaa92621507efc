//! What the rows of the table give at a place.
ghost use Rattle.std.specs.Prelude.{◌≡◌, ◌↔◌, ◌<◌, ◌^◌, map, IfOk};
ghost use Rattle.wt_bag.specs.Choices.{Has};
ghost use Rattle.wt_form.specs.Trees.{Terms as Sum};
ghost use Rattle.wt_form.specs.Parts.{one_term};
ghost use Rattle.wt_form.specs.Closed.{VariablesExist};
ghost use Rattle.wt_form.specs.Weights.{terms_size};
ghost use Rattle.wt_form.specs.Steps.{Row};
ghost use Rattle.wt_form.specs.Views.{terms_seen, ranges_seen, conds_seen};
ghost use Rattle.wt_facts.specs.Facts.{known_of};
ghost use Rattle.wt_two_terms.specs.Pairs.{TwoStep};

use crate::joins::push_by_joins;
use std::alloc::{AllocError, Global};
use wt_drops::drops;
use wt_facts::Facts;
use wt_form::{Term, Terms};
use wt_open::push_opened;
use wt_two_terms::push_pairs;

/// What stands in the place of a term.
pub fn rows(
    alloc: Global,
    facts: &Facts,
    nested: bool,
    term: &Term,
) -> Result<Vec<Terms>, AllocError>
    requires exist { VariablesExist (one_term (ranges_seen term.now.ranges) (conds_seen term.now.conds) term.now.pieces) }
    requires narrow { terms_size (one_term (ranges_seen term.now.ranges) (conds_seen term.now.conds) term.now.pieces) < 2 ^ 32 }
    ensures { IfOk result (λ out. (us : Sum) → (Has us (map terms_seen out.items) ↔ Row (known_of facts.now) nested (ranges_seen term.now.ranges) (conds_seen term.now.conds) term.now.pieces us)) }
{
    let mut out = drops(alloc, facts, term)?;
    push_by_joins(alloc, facts, nested, term, &mut out)?;
    push_opened(alloc, facts, nested, term, &mut out)?;
    Ok(out)
}

/// What stands in the place of a term and those after it, one of which is taken away.
pub fn pairs(
    alloc: Global,
    facts: &Facts,
    nested: bool,
    term: &Term,
    rest: &Terms,
) -> Result<Vec<Terms>, AllocError>
    ensures { IfOk result (λ out. (us : Sum) → (Has us (map terms_seen out.items) ↔ TwoStep (known_of facts.now) nested (ranges_seen term.now.ranges) (conds_seen term.now.conds) term.now.pieces (terms_seen rest.now) us)) }
{
    let mut out = Vec::new(alloc);
    push_pairs(alloc, facts, nested, term, rest, &mut out)?;
    Ok(out)
}
