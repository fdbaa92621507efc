//! The atoms that a set leaves out.
ghost use Rattle.std.specs.Prelude.{◌≡◌, ◌↔◌, ◌<◌, IsTrue};
ghost use Rattle.wt_constraint.specs.Sets.{HasAtom};
ghost use Rattle.wt_cores.specs.Cores.{missing};
ghost use Rattle.wt_board.specs.Covering.{Outside};

use wt_constraint::{AtomSet, has};

/// The number of atoms that a set may have.
pub(crate) const ATOMS: u32 = 64;

/// Whether the first set has the atom i and the second has it not.
fn lacks(all: AtomSet, set: AtomSet, i: u32) -> bool
    requires { i < 64 }
    ensures { IsTrue result ↔ (HasAtom all i × (HasAtom set i → ⊥)) }
{
    has(all, i) && !has(set, i)
}

/// The first atom of the set that the other has not.
pub(crate) fn first_outside(set: AtomSet, other: AtomSet) -> Option<u32>
    ensures { Outside set other result }
{
    // so all of its atoms have numbers below 64
    prove!(set.0 <= u64::MAX);
    for i in 0..ATOMS {
        if lacks(set, other, i) {
            return Some(i);
        }
    }
    None
}

/// How many of the atoms the set leaves out.
pub(crate) fn left_out(all: AtomSet, set: AtomSet) -> u32
    ensures { result ≡ missing 64 all set }
{
    let mut count = 0;
    for i in 0..ATOMS {
        if lacks(all, set, i) {
            count += 1;
        }
    }
    count
}
