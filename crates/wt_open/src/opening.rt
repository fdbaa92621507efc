//! The term where a variable over the distinct rows of one term is opened.
ghost use Rattle.std.specs.Prelude.{◌≡◌, ◌-◌, ◌^◌, ◌<◌, ◌↔◌, ◌⊎◌, ◌++◌, [], ◌∷◌, true, map, length, IsTrue, IfOk, OnOk};
ghost use Rattle.wt_bag.specs.Bags.{Each};
ghost use Rattle.wt_form.specs.Parts.{ranges_count};
ghost use Rattle.wt_form.specs.Closed.{IsWithin, ExistInConds};
ghost use Rattle.wt_form.specs.Opening.{AllDetermined};
ghost use Rattle.wt_form.specs.Views.{terms_seen, ranges_seen, conds_seen};
ghost use Rattle.wt_facts.specs.Facts.{known_of};
ghost use Rattle.wt_congruent.specs.Refs.{range_behind};
ghost use Rattle.wt_places.specs.Gained.{Gained};
ghost use Rattle.wt_opening.specs.Opened.{opening_seen};
ghost use Rattle.wt_open.specs.Opens.{opening_of, opened_term, TermCanOpen, OpensBy, MayOpen, OpensTerm, Room};

use crate::parts::{copied_head, opened_ranges};
use std::alloc::{AllocError, Global};
use wt_determined::{are_all_determined, range_count};
use wt_facts::Facts;
use wt_form::{FormRange, Term, Terms};
use wt_opening::{
    Opening, can_open_conds, can_open_pieces, opened_conds, opened_pieces, raised_conds,
    raised_pieces,
};
use wt_places::push_term;
use wt_symbol::Parts;

/// How a variable is opened that stands for a row of a form with this head and this one term.
fn opening_of(alloc: Global, at: u32, head: &Parts, inner: &Term) -> Result<Opening, AllocError>
    requires pieces { Each (IsWithin (2 ^ 32 - at)) inner.now.pieces }
    requires narrow { ranges_count (ranges_seen inner.now.ranges) < 2 ^ 32 }
    ensures { IfOk result (λ o. opening_seen o ≡ opening_of at head.now (ranges_seen inner.now.ranges) inner.now.pieces) }
{
    Ok(Opening {
        at,
        count: range_count(&inner.ranges),
        head: copied_head(head)?,
        pieces: raised_pieces(alloc, at, inner.pieces.as_slice())?,
    })
}

/// Whether each expression of the term can be opened.
fn can_open_term(opening: &Opening, term: &Term) -> bool
    requires conds { ExistInConds (2 ^ 32 - opening.now.count) (conds_seen term.now.conds) }
    requires pieces { Each (IsWithin (2 ^ 32 - opening.now.count)) term.now.pieces }
    ensures { IsTrue result ↔ TermCanOpen (opening_seen opening.now) (conds_seen term.now.conds) term.now.pieces }
{
    can_open_conds(opening, &term.conds) && can_open_pieces(opening, term.pieces.as_slice())
}

/// Adds the term where the variable is opened.
fn push_opened_term(
    alloc: Global,
    opening: &Opening,
    term: &Term,
    before: &[&FormRange],
    inner: &Term,
    after: &[&FormRange],
    out: &mut Vec<Terms>,
) -> Result<(), AllocError>
    requires conds { ExistInConds (2 ^ 32 - opening.now.count) (conds_seen term.now.conds) }
    requires pieces { Each (IsWithin (2 ^ 32 - opening.now.count)) term.now.pieces }
    requires inner_conds { ExistInConds (2 ^ 32 - opening.now.at) (conds_seen inner.now.conds) }
    ensures { OnOk result (map terms_seen out.new.items ≡ map terms_seen out.old.items ++ opened_term (opening_seen opening.now) (map range_behind before.now) (ranges_seen inner.now.ranges) (conds_seen inner.now.conds) (map range_behind after.now) (conds_seen term.now.conds) term.now.pieces ∷ []) }
{
    let last = raised_conds(alloc, opening.at, &inner.conds)?;
    let conds = opened_conds(alloc, opening, &term.conds, last)?;
    let pieces = opened_pieces(alloc, opening, term.pieces.as_slice())?;
    let ranges = opened_ranges(alloc, before, &inner.ranges, after)?;
    push_term(alloc, ranges, conds, pieces, out)
}

/// The same, if each expression of the term can be opened.
fn push_by(
    alloc: Global,
    opening: &Opening,
    term: &Term,
    before: &[&FormRange],
    inner: &Term,
    after: &[&FormRange],
    out: &mut Vec<Terms>,
) -> Result<(), AllocError>
    requires conds { ExistInConds (2 ^ 32 - opening.now.count) (conds_seen term.now.conds) }
    requires pieces { Each (IsWithin (2 ^ 32 - opening.now.count)) term.now.pieces }
    requires inner_conds { ExistInConds (2 ^ 32 - opening.now.at) (conds_seen inner.now.conds) }
    ensures { OnOk result (Gained (map terms_seen out.old.items) (map terms_seen out.new.items) (OpensBy (opening_seen opening.now) (map range_behind before.now) (ranges_seen inner.now.ranges) (conds_seen inner.now.conds) (map range_behind after.now) (conds_seen term.now.conds) term.now.pieces)) }
{
    if can_open_term(opening, term) {
        push_opened_term(alloc, opening, term, before, inner, after, out)
    } else {
        Ok(())
    }
}

/// Whether a variable over distinct rows of a term may be opened: inside a nested form, or where each
/// variable of that term is determined.
fn may_open(alloc: Global, facts: &Facts, nested: bool, inner: &Term) -> Result<bool, AllocError>
    requires narrow { ranges_count (ranges_seen inner.now.ranges) < 2 ^ 32 }
    ensures { IfOk result (λ yes. IsTrue yes ↔ MayOpen (known_of facts.now) nested (ranges_seen inner.now.ranges) (conds_seen inner.now.conds) inner.now.pieces) }
{
    if nested {
        return Ok(true);
    }
    are_all_determined(alloc, facts, inner)
}

/// Adds the term where the variable after some is opened, which is over the distinct rows of a form
/// with this head and this one term.
fn push_over(
    alloc: Global,
    term: &Term,
    before: &[&FormRange],
    head: &Parts,
    inner: &Term,
    after: &[&FormRange],
    out: &mut Vec<Terms>,
) -> Result<(), AllocError>
    requires room { Room (length before.now) (conds_seen term.now.conds) term.now.pieces (ranges_seen inner.now.ranges) (conds_seen inner.now.conds) inner.now.pieces }
    ensures { OnOk result (Gained (map terms_seen out.old.items) (map terms_seen out.new.items) (OpensBy (opening_of (length before.now) head.now (ranges_seen inner.now.ranges) inner.now.pieces) (map range_behind before.now) (ranges_seen inner.now.ranges) (conds_seen inner.now.conds) (map range_behind after.now) (conds_seen term.now.conds) term.now.pieces)) }
{
    let opening = opening_of(alloc, before.len() as u32, head, inner)?;
    push_by(alloc, &opening, term, before, inner, after, out)
}

/// The same, if the variable may be opened.
pub fn push_opened_over(
    alloc: Global,
    facts: &Facts,
    nested: bool,
    term: &Term,
    before: &[&FormRange],
    head: &Parts,
    inner: &Term,
    after: &[&FormRange],
    out: &mut Vec<Terms>,
) -> Result<(), AllocError>
    requires room { Room (length before.now) (conds_seen term.now.conds) term.now.pieces (ranges_seen inner.now.ranges) (conds_seen inner.now.conds) inner.now.pieces }
    ensures { OnOk result (Gained (map terms_seen out.old.items) (map terms_seen out.new.items) (OpensTerm (known_of facts.now) nested (conds_seen term.now.conds) term.now.pieces (map range_behind before.now) head.now (ranges_seen inner.now.ranges) (conds_seen inner.now.conds) inner.now.pieces (map range_behind after.now))) }
{
    if may_open(alloc, facts, nested, inner)? {
        push_over(alloc, term, before, head, inner, after, out)
    } else {
        Ok(())
    }
}
