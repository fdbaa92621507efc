//! The atoms of a rule in the order in which they are asked for.
ghost use Rattle.std.specs.Prelude.{◌≡◌, ◌++◌, ◌∷◌, [], ◌≤◌, length, IfOk, OnOk, if◌then◌else◌};
ghost use Rattle.wt_symbol.specs.Sides.{pair_of};
ghost use Rattle.wt_symbol.specs.Lawful.{IsLawful};
ghost use Rattle.wt_rule.specs.Texts as texts;
ghost use Rattle.wt_match.specs.Asking as spec;

use std::alloc::Global;
use wt_constraint::{Atom, AtomSet, atoms_of, has};
use wt_rule::Rule;
use wt_value::WantOfMemory;

/// When an atom is asked for: those first whose test costs least.
fn rank(atom: Atom) -> u8
    ensures { result ≡ spec.rank atom }
{
    match atom {
        Atom::AttrsEq(_, _) => 0,
        Atom::PredEq(_, _) => 1,
        Atom::RelEq(_, _) => 2,
        Atom::NotNull(_) => 3,
        Atom::Unique(_) => 4,
        Atom::RefAttrs(_, _) => 5,
    }
}

/// Adds an atom if it is chosen.
fn push_if(kept: &mut Vec<Atom>, is_chosen: bool, atom: Atom) -> Result<(), WantOfMemory>
    ensures { OnOk result (kept.new.items ≡ (if is_chosen then kept.old.items ++ atom ∷ [] else kept.old.items)) }
{
    if is_chosen {
        kept.push(atom)?;
    }
    Ok(())
}

/// Adds the atoms of a rank.
fn push_rank(wanted: u8, atoms: &[Atom], out: &mut Vec<Atom>) -> Result<(), WantOfMemory>
    ensures { OnOk result (out.new.items ≡ out.old.items ++ spec.of_rank wanted atoms.now) }
{
    for atom in atoms {
        push_if(out, rank(*atom) == wanted, *atom)?;
    }
    Ok(())
}

/// The atoms by their ranks.
fn ranked(alloc: Global, atoms: &[Atom]) -> Result<Vec<Atom>, WantOfMemory>
    ensures { IfOk result (λ sorted. sorted.items ≡ spec.ranked atoms.now) }
{
    let mut sorted = Vec::new(alloc);
    push_rank(0, atoms, &mut sorted)?;
    push_rank(1, atoms, &mut sorted)?;
    push_rank(2, atoms, &mut sorted)?;
    push_rank(3, atoms, &mut sorted)?;
    push_rank(4, atoms, &mut sorted)?;
    push_rank(5, atoms, &mut sorted)?;
    Ok(sorted)
}

/// The atoms of a set in their order.
fn chosen(alloc: Global, atoms: &[Atom], set: AtomSet) -> Result<Vec<Atom>, WantOfMemory>
    requires { length atoms.now ≤ 64 }
    ensures { IfOk result (λ kept. kept.items ≡ texts.chosen set 0 atoms.now) }
{
    let mut kept = Vec::new(alloc);
    for (k, atom) in atoms.iter().enumerate() {
        push_if(&mut kept, has(set, k as u32), *atom)?;
    }
    Ok(kept)
}

/// The atoms that a rule asks for.
pub fn asked_atoms(alloc: Global, rule: &Rule) -> Result<Vec<Atom>, WantOfMemory>
    requires { IsLawful (pair_of rule.now.pair) }
    ensures { IfOk result (λ atoms. atoms.items ≡ spec.asked (pair_of rule.now.pair) rule.now.set) }
{
    let all = atoms_of(alloc, &rule.pair)?;
    let kept = chosen(alloc, all.as_slice(), rule.set)?;
    ranked(alloc, &kept)
}
