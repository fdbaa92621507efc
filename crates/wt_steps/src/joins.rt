//! What rests on a Join.
ghost use Rattle.std.specs.Prelude.{◌↔◌, map, IsTrue, OnOk};
ghost use Rattle.wt_form.specs.Views.{terms_seen, ranges_seen, conds_seen, cond_seen};
ghost use Rattle.wt_facts.specs.Facts.{known_of};
ghost use Rattle.wt_places.specs.Gained.{Gained};
ghost use Rattle.wt_steps.specs.Joins.{IsJoin, HasJoin, ByJoins};

use std::alloc::{AllocError, Global};
use wt_facts::Facts;
use wt_form::{Cond, Conds, Term, Terms};
use wt_joining::{push_joins_to_in, push_merged, push_rewritten};

fn is_join(cond: &Cond) -> bool
    ensures { IsTrue result ↔ IsJoin (cond_seen cond.now) }
{
    match cond {
        Cond::Join(_, _) => true,
        Cond::Pred(_, _) | Cond::In(_, _) | Cond::NotIn(_, _) => false,
    }
}

/// Whether one of the conditions is a Join.
fn has_join(conds: &Conds) -> bool
    ensures { IsTrue result ↔ HasJoin (conds_seen conds.now) }
{
    match conds {
        Conds::Empty => false,
        Conds::More(cond, rest) => is_join(cond) || has_join(rest),
    }
}

/// Adds what rests on a Join. Most terms have none, and are looked at without a list.
pub fn push_by_joins(
    alloc: Global,
    facts: &Facts,
    nested: bool,
    term: &Term,
    out: &mut Vec<Terms>,
) -> Result<(), AllocError>
    ensures { OnOk result (Gained (map terms_seen out.old.items) (map terms_seen out.new.items) (ByJoins (known_of facts.now) nested (ranges_seen term.now.ranges) (conds_seen term.now.conds) term.now.pieces)) }
{
    if !has_join(&term.conds) {
        return Ok(());
    }
    push_joins_to_in(alloc, facts, nested, term, out)?;
    push_merged(alloc, facts, term, out)?;
    push_rewritten(alloc, term, out)?;
    Ok(())
}
