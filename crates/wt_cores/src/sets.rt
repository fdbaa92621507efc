//! Sets of atoms with one atom more, and what two sets share.
ghost use Rattle.std.specs.Prelude.{ℕ, ◌≡◌, ◌<◌, ◌↔◌, ◌⊎◌, IsTrue};
ghost use Rattle.wt_constraint.specs.Sets.{HasAtom};

use wt_constraint::{AtomSet, has};

/// The number of atoms that a set may have.
pub const ATOMS: u32 = 64;

/// The set with the i-th atom.
pub fn with(set: AtomSet, i: u32) -> AtomSet
    requires { i < 64 }
    ensures { (j : ℕ) → HasAtom result j ↔ (HasAtom set j ⊎ (j ≡ i)) }
{
    AtomSet(set.0 | 1 << i)
}

/// The atoms that both sets have.
pub fn shared(a: AtomSet, b: AtomSet) -> AtomSet
    ensures { (j : ℕ) → HasAtom result j ↔ (HasAtom a j × HasAtom b j) }
{
    AtomSet(a.0 & b.0)
}

/// Whether the first set has the atom i and the second has it not.
pub fn lacks(all: AtomSet, set: AtomSet, i: u32) -> bool
    requires { i < 64 }
    ensures { IsTrue result ↔ (HasAtom all i × (HasAtom set i → ⊥)) }
{
    has(all, i) && !has(set, i)
}
