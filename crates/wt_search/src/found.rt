//! Forms that are found, each once.
ghost use Rattle.std.specs.Prelude.{◌≡◌, ◌⊎◌, ◌<◌, ◌≤◌, [], map, length, IfOk, OnOk};
ghost use Rattle.wt_bag.specs.Choices.{Has, At};
ghost use Rattle.wt_form.specs.Trees.{Form as FormTree};
ghost use Rattle.wt_form.specs.Steps.{Step};
ghost use Rattle.wt_form.specs.Views.{form_seen};
ghost use Rattle.wt_facts.specs.Facts.{known_of};
ghost use Rattle.wt_search.specs.Found.{AllRoom, IsNumbered, Grown, GoesBetween, forms_of};

use indexmap::IndexSet;
use std::alloc::{AllocError, Global};
use wt_facts::Facts;
use wt_form::Form;
use wt_form_table::FormTable;
use wt_steps::{is_among, steps};

/// How many forms are looked through one by one. Most searches find no more, and have no table.
const FEW: usize = 8;

/// Forms in the order in which they are found. Those behind the first few have numbers in a table.
#[derive(Drop)]
pub struct Found {
    pub forms: Vec<Form>,
    pub numbers: IndexSet<usize>,
    pub table: FormTable,
}

impl Found {
    pub fn new(alloc: Global) -> Found
        ensures none { forms_of result ≡ [] }
        ensures numbered { IsNumbered result }
    {
        Found {
            forms: Vec::new(alloc),
            numbers: IndexSet::new(alloc),
            table: FormTable::new(alloc),
        }
    }

    /// The first few forms, which have no number.
    fn first_few(&self) -> &[Form]
        ensures { (g : FormTree) → Has g (map form_seen result.now) → Has g (forms_of self.now) }
    {
        let few = self.forms.len().min(FEW);
        &self.forms[..few]
    }

    /// Adds a form behind the first few, where its number is not there.
    fn push_numbered(&mut self, alloc: Global, form: &Form) -> Result<(), AllocError>
        requires behind { 8 ≤ length self.old.forms.items }
        requires numbered { IsNumbered self.old }
        ensures numbered { OnOk result (IsNumbered self.new) }
        ensures grown { OnOk result (Grown (forms_of self.old) (forms_of self.new) (λ g. g ≡ form_seen form.now)) }
    {
        let number = self.table.intern(form)?;
        if self.numbers.insert(number)? {
            let copy = form.copy(alloc)?;
            self.forms.push(copy)?;
        }
        Ok(())
    }

    /// Adds a form where it is not there.
    pub fn push(&mut self, alloc: Global, form: &Form) -> Result<(), AllocError>
        requires numbered { IsNumbered self.old }
        ensures numbered { OnOk result (IsNumbered self.new) }
        ensures grown { OnOk result (Grown (forms_of self.old) (forms_of self.new) (λ g. g ≡ form_seen form.now)) }
    {
        if is_among(self.first_few(), form) {
            return Ok(());
        }
        if self.forms.len() >= FEW {
            return self.push_numbered(alloc, form);
        }
        let copy = form.copy(alloc)?;
        self.forms.push(copy)?;
        Ok(())
    }

    /// Adds each of the forms where it is not there.
    pub fn push_all(&mut self, alloc: Global, forms: &[Form]) -> Result<(), AllocError>
        requires numbered { IsNumbered self.old }
        ensures numbered { OnOk result (IsNumbered self.new) }
        ensures grown { OnOk result (Grown (forms_of self.old) (forms_of self.new) (λ g. Has g (map form_seen forms.now))) }
    {
        match forms {
            [] => Ok(()),
            [first, rest @ ..] => {
                self.push(alloc, first)?;
                self.push_all(alloc, rest)?;
                Ok(())
            }
        }
    }

    /// Adds what one step gives from the i-th form.
    pub fn push_steps(&mut self, alloc: Global, facts: &Facts, i: usize) -> Result<(), AllocError>
        requires numbered { IsNumbered self.old }
        requires room { AllRoom (forms_of self.old) }
        requires there { i < length self.old.forms.items }
        ensures numbered { OnOk result (IsNumbered self.new) }
        ensures grown { OnOk result (Grown (forms_of self.old) (forms_of self.new) (λ g. At (λ h. Step (known_of facts.now) h g) i (forms_of self.old))) }
        ensures room { OnOk result (AllRoom (forms_of self.new)) }
    {
        let next = steps(alloc, facts, &self.forms[i])?;
        self.push_all(alloc, next.as_slice())?;
        Ok(())
    }

    /// Adds what one step gives from the forms behind the first ones.
    pub fn push_round(
        &mut self,
        alloc: Global,
        facts: &Facts,
        first: usize,
    ) -> Result<(), AllocError>
        requires numbered { IsNumbered self.old }
        requires room { AllRoom (forms_of self.old) }
        ensures numbered { OnOk result (IsNumbered self.new) }
        ensures grown { OnOk result (Grown (forms_of self.old) (forms_of self.new) (GoesBetween (known_of facts.now) (forms_of self.old) first (length self.old.forms.items))) }
        ensures room { OnOk result (AllRoom (forms_of self.new)) }
    {
        for i in first..self.forms.len() {
            self.push_steps(alloc, facts, i)?;
        }
        Ok(())
    }
}
