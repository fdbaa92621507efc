//! A list of rules, made ready once for all plans.
ghost use Rattle.std.specs.Prelude.{◌≡◌, ◌<◌, ◌^◌, length, map, IfOk};
ghost use Rattle.wt_symbol.specs.Sides.{pair_of};
ghost use Rattle.wt_rule.specs.declared.Rule.{Rule};
ghost use Rattle.wt_match.specs.Asking.{asked};
ghost use Rattle.wt_chains.specs.Chains.{AreLawful};
ghost use Rattle.wt_rewrite.specs.Books.{IsReady};

use crate::runs::{Run, runs_of};
use std::alloc::Global;
use wt_constraint::Atoms;
use wt_match::asked_atoms;
use wt_rule::Rules;
use wt_value::{Seq, WantOfMemory};

/// Rules by their numbers from 0, and for each the atoms that it asks for in the order in which they are asked for.
#[derive(Drop)]
pub struct Book {
    pub rules: Rules,
    pub atoms: Seq<Atoms>,
    pub runs: Vec<Run>,
}

/// For each rule the atoms that it asks for.
fn atoms_of_all(alloc: Global, rules: &Rules) -> Result<Seq<Atoms>, WantOfMemory>
    requires { AreLawful rules.now }
    ensures { IfOk result (λ atoms. atoms ≡ map (λ (r : Rule). asked (pair_of r.pair) r.set) rules.now) }
{
    let mut atoms = Seq::new(alloc);
    for rule in rules.as_slice() {
        atoms.push(Seq::from_vec(asked_atoms(alloc, rule)?))?;
    }
    Ok(atoms)
}

impl Book {
    /// The book of a list of rules.
    pub fn new(alloc: Global, rules: Rules) -> Result<Book, WantOfMemory>
        requires lawful { AreLawful rules }
        requires few { length rules < 2 ^ 32 }
        ensures ready { IfOk result (λ book. IsReady book) }
        ensures rules { IfOk result (λ book. book.rules ≡ rules) }
    {
        let atoms = atoms_of_all(alloc, &rules)?;
        let runs = runs_of(alloc, rules.as_slice())?;
        Ok(Book { rules, atoms, runs })
    }
}
