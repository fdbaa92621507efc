//! Every form that one step gives.
ghost use Rattle.std.specs.Prelude.{◌≡◌, ◌↔◌, ◌<◌, ◌^◌, map, IfOk};
ghost use Rattle.wt_bag.specs.Choices.{Has, Apart};
ghost use Rattle.wt_form.specs.Trees.{Form as OneForm};
ghost use Rattle.wt_form.specs.Closed.{VariablesExist};
ghost use Rattle.wt_form.specs.Weights.{terms_size};
ghost use Rattle.wt_form.specs.Steps.{Step};
ghost use Rattle.wt_form.specs.Views.{terms_seen, form_seen};
ghost use Rattle.wt_facts.specs.Facts.{known_of};

use crate::inside::steps_of_terms;
use crate::once::push_new;
use std::alloc::{AllocError, Global};
use wt_facts::Facts;
use wt_form::{Form, Terms};
use wt_symbol::Parts;

fn copied_head(head: &Parts) -> Result<Parts, AllocError>
    ensures { IfOk result (λ copy. copy ≡ head.now) }
{
    head.clone()
}

/// A form of each of the sums with this head, each form once.
fn forms_of(alloc: Global, head: &Parts, sums: Vec<Terms>) -> Result<Vec<Form>, AllocError>
    ensures exact { IfOk result (λ out. (g : OneForm) → (Has g (map form_seen out.items) ↔ ((g.head ≡ head.now) × Has g.terms (map terms_seen sums.items)))) }
    ensures once { IfOk result (λ out. Apart (map form_seen out.items)) }
{
    let mut left = sums;
    let mut out = Vec::new(alloc);
    'sums: while let Some(terms) = left.pop() {
        let form = Form {
            head: copied_head(head)?,
            terms,
        };
        push_new(&mut out, form)?;
    }
    Ok(out)
}

/// Every form that one step gives, each once.
///
/// The form names variables of its own terms alone, and its weight is below 2 to the 32.
pub fn steps(alloc: Global, facts: &Facts, form: &Form) -> Result<Vec<Form>, AllocError>
    requires exist { VariablesExist (terms_seen form.now.terms) }
    requires narrow { terms_size (terms_seen form.now.terms) < 2 ^ 32 }
    ensures exact { IfOk result (λ out. (g : OneForm) → (Has g (map form_seen out.items) ↔ Step (known_of facts.now) (form_seen form.now) g)) }
    ensures once { IfOk result (λ out. Apart (map form_seen out.items)) }
{
    let sums = steps_of_terms(alloc, facts, false, &form.terms)?;
    let forms = forms_of(alloc, &form.head, sums)?;
    Ok(forms)
}
