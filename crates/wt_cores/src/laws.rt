//! Laws of cores: each is a function with an empty body, and its contract is the law.
ghost use Rattle.std.specs.Prelude.{ℕ, ◌^◌, ◌<◌, ◌≤◌, ◌↔◌, length};
ghost use Rattle.wt_symbol.specs.Sides.{PairTree};
ghost use Rattle.wt_constraint.specs.declared.set.AtomSet.{AtomSet};
ghost use Rattle.wt_constraint.specs.Atoms.{atoms_of_pair};
ghost use Rattle.wt_form.specs.Under.{Provable};
ghost use Rattle.wt_form.specs.Relaxed.{IsRule};
ghost use Rattle.wt_form.specs.Shrunk.{Shrunk};
ghost use Rattle.wt_cores.specs.Cores.{Within, IsCore, IsCoreWithin};

/// A law: the rules of a pair are its cores that leave out at most so many atoms, in whatever order atoms are dropped.
pub fn rules_are_cores()
    ensures { (pair : PairTree) (steps depth : ℕ) (set : AtomSet) → length (atoms_of_pair pair) ≤ 64 →
        (IsRule pair steps depth set ↔ IsCoreWithin pair steps depth set) }
{}

/// A law: what is left of a provable set, when each atom is left out wherever what remains is provable, is a core within it.
pub fn what_is_left_is_a_core()
    ensures { (pair : PairTree) (steps : ℕ) (set left : AtomSet) → set.0 < 2 ^ 64 → Provable pair set steps → Shrunk pair steps 64 set left →
        IsCore pair steps left × Within left set }
{}
