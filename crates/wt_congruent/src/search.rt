//! Whether two forms are congruent.
ghost use Rattle.std.specs.Prelude.{◌≡◌, ◌↔◌, IsTrue, IfOk};
ghost use Rattle.wt_symbol.specs.Sides.{pair_of};
ghost use Rattle.wt_symbol.specs.Lawful.{IsLawful};
ghost use Rattle.wt_constraint.specs.Atoms.{atoms_of_pair};
ghost use Rattle.wt_form.specs.Known.{Known};
ghost use Rattle.wt_form.specs.Congruent.{Congruent};
ghost use Rattle.wt_form.specs.Under.{Under};
ghost use Rattle.wt_form.specs.Views.{form_seen};
ghost use Rattle.wt_facts.specs.Facts.{known_of};

use crate::refs::term_refs;
use crate::same::same_terms;
use std::alloc::{AllocError, Global};
use wt_constraint::{AtomSet, Atoms};
use wt_facts::Facts;
use wt_form::Form;
use wt_symbol::Pair;

/// Whether two forms are congruent where this is known.
///
/// Congruent forms weigh the same, so most others are refused at once.
pub fn congruent_with(alloc: Global, facts: &Facts, f: &Form, g: &Form) -> Result<bool, AllocError>
    ensures { IfOk result (λ yes. IsTrue yes ↔ Congruent (known_of facts.now) (form_seen f.now) (form_seen g.now)) }
{
    if f.weight().0 != g.weight().0 {
        return Ok(false);
    }
    let left = term_refs(alloc, &g.terms)?;
    same_terms(alloc, facts, &f.terms, left.as_slice())
}

/// Whether two forms are congruent under a set of a pair's atoms.
pub fn congruent(
    alloc: Global,
    pair: &Pair,
    atoms: &Atoms,
    f: &Form,
    g: &Form,
    set: AtomSet,
) -> Result<bool, AllocError>
    requires lawful { IsLawful (pair_of pair.now) }
    requires atoms { atoms.now ≡ atoms_of_pair (pair_of pair.now) }
    ensures { IfOk result (λ yes. (K : Known) → Under (pair_of pair.now) set K → (IsTrue yes ↔ Congruent K (form_seen f.now) (form_seen g.now))) }
{
    let facts = Facts::of(alloc, pair, atoms, set)?;
    congruent_with(alloc, &facts, f, g)
}
