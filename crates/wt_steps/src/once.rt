//! Forms of a list, each once.
ghost use Rattle.std.specs.Prelude.{◌≡◌, ◌↔◌, ◌⊎◌, map, IsTrue, IfOk, OnOk};
ghost use Rattle.wt_bag.specs.Choices.{Has, Apart};
ghost use Rattle.wt_form.specs.Trees.{Form as OneForm};
ghost use Rattle.wt_form.specs.Views.{form_seen};

use std::alloc::AllocError;
use wt_form::Form;

/// Whether the form is one of these.
pub fn is_among(forms: &[Form], form: &Form) -> bool
    ensures { IsTrue result ↔ Has (form_seen form.now) (map form_seen forms.now) }
{
    for other in forms {
        if form.same(other) {
            return true;
        }
    }
    false
}

/// Adds the form, if it is not there yet.
pub fn push_new(out: &mut Vec<Form>, form: Form) -> Result<(), AllocError>
    requires { Apart (map form_seen out.old.items) }
    ensures gains { OnOk result ((g : OneForm) → (Has g (map form_seen out.new.items) ↔ (Has g (map form_seen out.old.items) ⊎ (g ≡ form_seen form)))) }
    ensures once { OnOk result (Apart (map form_seen out.new.items)) }
{
    if is_among(out, &form) {
        return Ok(());
    }
    out.push(form)?;
    Ok(())
}
