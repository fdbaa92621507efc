//! Sets of a pair's atoms.
ghost use Rattle.std.specs.Prelude.{◌≡◌, ◌≢◌, ℕ, ◌+◌, ◌-◌, ◌*◌, ◌^◌, ◌<◌, ◌↔◌, min, length, IsTrue};
ghost use Rattle.std.specs.Int.{bit_at};

use crate::atom::Atoms;

/// A set of atoms of a pair: bit i is the i-th atom.
#[derive(Clone, Copy, Debug, PartialEq, Eq)]
pub struct AtomSet(pub u64);

ghost use Rattle.wt_constraint.specs.Sets.{HasAtom};

/// The set of all atoms.
pub fn full(atoms: &Atoms) -> AtomSet
    ensures number { result.0 ≡ 2 ^ min (length atoms.now) 64 - 1 }
    ensures members { (i : ℕ) → HasAtom result i ↔ (i < min (length atoms.now) 64) }
{
    if atoms.len() < 64 {
        AtomSet((1 << atoms.len()) - 1)
    } else {
        AtomSet(u64::MAX)
    }
}

/// Whether the set has the i-th atom.
pub fn has(set: AtomSet, i: u32) -> bool
    requires { i < 64 }
    ensures { IsTrue result ↔ HasAtom set i }
{
    set.0 >> i & 1 == 1
}

/// The set without the i-th atom.
pub fn without(set: AtomSet, i: u32) -> AtomSet
    requires { i < 64 }
    ensures members { (j : ℕ) → HasAtom result j ↔ (HasAtom set j × (j ≢ i)) }
    ensures number { result.0 + bit_at set.0 i * 2 ^ i ≡ set.0 }
{
    AtomSet(set.0 & !(1 << i))
}

/// Whether the first set contains the second.
pub fn contains(a: AtomSet, b: AtomSet) -> bool
    ensures { IsTrue result ↔ ((i : ℕ) → HasAtom b i → HasAtom a i) }
{
    b.0 & !a.0 == 0
}
