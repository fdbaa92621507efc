//! Whether forms that are reached from both sides are congruent.
ghost use Rattle.std.specs.Prelude.{◌≡◌, ◌↔◌, ℕ, map, IsTrue, IfOk};
ghost use Rattle.wt_bag.specs.Choices.{At};
ghost use Rattle.wt_form.specs.Congruent.{Congruent};
ghost use Rattle.wt_form.specs.Provable.{ProvableForms};
ghost use Rattle.wt_form.specs.Views.{form_seen};
ghost use Rattle.wt_facts.specs.Facts.{known_of};
ghost use Rattle.wt_search.specs.Room.{HasRoom};
ghost use Rattle.wt_search.specs.Found.{Meets, size_shown};

use crate::pieces::cannot_meet;
use crate::reach::reached;
use std::alloc::{AllocError, Global};
use wt_congruent::congruent_with;
use wt_facts::Facts;
use wt_form::Form;

/// The sizes of the forms, which congruent ones share.
fn sizes_of(alloc: Global, forms: &[Form]) -> Result<Vec<u64>, AllocError>
    ensures { IfOk result (λ sizes. sizes.items ≡ map size_shown forms.now) }
{
    let mut sizes = Vec::new(alloc);
    for i in 0..forms.len() {
        sizes.push(forms[i].terms.size())?;
    }
    Ok(sizes)
}

/// Whether one of the others is congruent to a form.
fn meets(
    alloc: Global,
    facts: &Facts,
    form: &Form,
    others: &[Form],
    sizes: &[u64],
) -> Result<bool, AllocError>
    requires sizes { sizes.now ≡ map size_shown others.now }
    ensures { IfOk result (λ yes. IsTrue yes ↔ Meets (known_of facts.now) (map form_seen others.now) (form_seen form.now)) }
{
    let size = form.terms.size();
    for j in 0..others.len() {
        if sizes[j] == size && congruent_with(alloc, facts, form, &others[j])? {
            return Ok(true);
        }
    }
    Ok(false)
}

/// Whether one of the forms is congruent to one of the others.
fn some_meets(
    alloc: Global,
    facts: &Facts,
    forms: &[Form],
    others: &[Form],
) -> Result<bool, AllocError>
    ensures { IfOk result (λ yes. IsTrue yes ↔ ((i : ℕ) × At (Meets (known_of facts.now) (map form_seen others.now)) i (map form_seen forms.now))) }
{
    let sizes = sizes_of(alloc, others)?;
    for i in 0..forms.len() {
        if meets(alloc, facts, &forms[i], others, sizes.as_slice())? {
            return Ok(true);
        }
    }
    Ok(false)
}

/// Whether chains of at most so many steps from both forms end in congruent forms.
///
/// Steps keep how many pieces the terms have, and congruent terms have equally many; so most pairs whose
/// sides have different heads need no search from the source.
pub fn proves(
    alloc: Global,
    facts: &Facts,
    source: &Form,
    dest: &Form,
    steps: u32,
) -> Result<bool, AllocError>
    requires source { HasRoom (form_seen source.now) }
    requires dest { HasRoom (form_seen dest.now) }
    ensures { IfOk result (λ yes. IsTrue yes ↔ ProvableForms (known_of facts.now) steps (form_seen source.now) (form_seen dest.now)) }
{
    let from_dest = reached(alloc, facts, dest, steps)?;
    if cannot_meet(source, dest, from_dest.as_slice()) {
        return Ok(false);
    }
    let from_source = reached(alloc, facts, source, steps)?;
    let proved = some_meets(alloc, facts, from_source.as_slice(), from_dest.as_slice())?;
    Ok(proved)
}
