//! The forms that chains of steps reach.
ghost use Rattle.std.specs.Prelude.{◌↔◌, map, IfOk};
ghost use Rattle.wt_bag.specs.Choices.{Has};
ghost use Rattle.wt_form.specs.Trees.{Form as FormTree};
ghost use Rattle.wt_form.specs.Provable.{Chain};
ghost use Rattle.wt_form.specs.Views.{form_seen};
ghost use Rattle.wt_facts.specs.Facts.{known_of};
ghost use Rattle.wt_search.specs.Room.{HasRoom};

use crate::found::Found;
use std::alloc::{AllocError, Global};
use wt_facts::Facts;
use wt_form::Form;

/// The forms that a chain of at most so many steps reaches.
pub fn reached(
    alloc: Global,
    facts: &Facts,
    start: &Form,
    steps: u32,
) -> Result<Vec<Form>, AllocError>
    requires room { HasRoom (form_seen start.now) }
    ensures exact { IfOk result (λ out. (g : FormTree) → (Has g (map form_seen out.items) ↔ Chain (known_of facts.now) steps (form_seen start.now) g)) }
{
    let mut found = Found::new(alloc);
    found.push(alloc, start)?;
    let mut first = 0;
    for round in 0..steps {
        let last = found.forms.len();
        if first == last {
            return Ok(found.forms);
        }
        found.push_round(alloc, facts, first)?;
        first = last;
    }
    Ok(found.forms)
}
