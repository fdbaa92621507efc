//! The symbols that a set of atoms makes the same.
ghost use Rattle.std.specs.Prelude.{◌≡◌, ◌≢◌, ℕ, ◌<◌, ◌↔◌, ◌⊎◌, List, length, true, false, IsTrue, IfSome, IfNone, Some, slice_get, slice_index_or, ◌==◌, ◌||◌, if◌then◌else◌, MatchOption};
ghost use Rattle.wt_constraint.specs.Atoms.{equal};
ghost use Rattle.wt_constraint.specs.Sets.{HasAtom};
ghost use Rattle.wt_constraint.specs.Sameness.{IsLink, AreSame};
ghost use Rattle.wt_constraint.specs.declared.atom.Kind.TheVariants.{Leaves, Lists, Preds};

use crate::atom::{Atom, Atoms, Kind};
use crate::set::{AtomSet, has, without};

/// An atom that makes two symbols equal, by its number.
#[derive(Clone, Copy)]
struct Link {
    atom: u32,
    x: u8,
    y: u8,
}

impl Kind {
    /// The symbols that an atom of this kind makes equal.
    fn ends(self, atom: Atom) -> Option<(u8, u8)>
        ensures { MatchOption result ((x y : ℕ) → atom ≢ equal self x y) (λ e. atom ≡ equal self e.0 e.1) }
    {
        match self {
            Kind::Leaves => match atom {
                Atom::RelEq(x, y) => Some((x, y)),
                _ => None,
            },
            Kind::Lists => match atom {
                Atom::AttrsEq(x, y) => Some((x, y)),
                _ => None,
            },
            Kind::Preds => match atom {
                Atom::PredEq(x, y) => Some((x, y)),
                _ => None,
            },
        }
    }
}

/// The k-th atom as a link with a symbol that is reached, if it is one of the set.
fn link_at(kind: Kind, atom: Atom, k: u32, set: AtomSet, reached: &[bool]) -> Option<Link>
    requires within { k < 64 }
    requires room { length reached.now ≡ 256 }
    ensures link { IfSome result (λ l. (l.atom ≡ k) × HasAtom set k × (atom ≡ equal kind l.x l.y) × ((slice_index_or reached.now l.x false ≡ true) ⊎ (slice_index_or reached.now l.y false ≡ true))) }
    ensures none { IfNone result ((x y : ℕ) → HasAtom set k → atom ≡ equal kind x y → (slice_index_or reached.now x false ≡ false) × (slice_index_or reached.now y false ≡ false)) }
{
    let (x, y) = kind.ends(atom)?;
    if has(set, k) && (reached[x as usize] || reached[y as usize]) {
        Some(Link { atom: k, x, y })
    } else {
        None
    }
}

/// The first atom of the set that links a reached symbol, or None where there is none.
fn next_link(kind: Kind, atoms: &Atoms, set: AtomSet, reached: &[bool]) -> Option<Link>
    requires { length reached.now ≡ 256 }
    ensures link { IfSome result (λ l. (l.atom < 64) × IsLink kind atoms.now set l.atom l.x l.y × ((slice_index_or reached.now l.x false ≡ true) ⊎ (slice_index_or reached.now l.y false ≡ true))) }
    ensures none { IfNone result ((k x y : ℕ) → IsLink kind atoms.now set k x y → (slice_index_or reached.now x false ≡ false) × (slice_index_or reached.now y false ≡ false)) }
{
    for (k, atom) in atoms.as_slice().iter().enumerate() {
        if k >= 64 {
            return None;
        }
        if let Some(link) = link_at(kind, *atom, k as u32, set, reached) {
            return Some(link);
        }
    }
    None
}

/// Marks both ends of a link.
fn mark(reached: &mut [bool], x: u8, y: u8)
    requires { length reached.old ≡ 256 }
    ensures room { length reached.new ≡ 256 }
    ensures marked { (z : ℕ) → slice_index_or reached.new z false ≡ (if (z == x) || (z == y) then true else slice_index_or reached.old z false) }
{
    reached[x as usize] = true;
    reached[y as usize] = true;
}

/// Marks what is the same as i, along the links of the set, each of which is followed once.
fn spread(kind: Kind, atoms: &Atoms, set: AtomSet, i: u8, reached: &mut [bool])
    requires room { length reached.old ≡ 256 }
    requires none { (x : ℕ) → slice_index_or reached.old x false ≡ false }
    ensures start { slice_index_or reached.new i false ≡ true }
    ensures closed { (k x y : ℕ) → IsLink kind atoms.now set k x y → slice_index_or reached.new x false ≡ slice_index_or reached.new y false }
    ensures from { (x : ℕ) → slice_index_or reached.new x false ≡ true → AreSame kind atoms.now set i x }
{
    reached[i as usize] = true;
    let mut left = set;
    'links: while let Some(link) = next_link(kind, atoms, left, reached) {
        mark(reached, link.x, link.y);
        left = without(left, link.atom);
    }
}

/// Whether the set makes two symbols of a kind the same.
fn are_same(kind: Kind, atoms: &Atoms, set: AtomSet, i: u8, j: u8) -> bool
    ensures { IsTrue result ↔ AreSame kind atoms.now set i j }
{
    let mut reached = [false; 256];
    spread(kind, atoms, set, i, &mut reached);
    reached[j as usize]
}

/// Whether the set makes two leaves the same, by the closure of its RelEq atoms.
pub fn same_rel(atoms: &Atoms, set: AtomSet, i: u8, j: u8) -> bool
    ensures { IsTrue result ↔ AreSame Leaves atoms.now set i j }
{
    are_same(Kind::Leaves, atoms, set, i, j)
}

/// Whether the set makes two lists the same, by the closure of its AttrsEq atoms.
pub fn same_attr(atoms: &Atoms, set: AtomSet, i: u8, j: u8) -> bool
    ensures { IsTrue result ↔ AreSame Lists atoms.now set i j }
{
    are_same(Kind::Lists, atoms, set, i, j)
}

/// Whether the set makes two predicates the same, by the closure of its PredEq atoms.
pub fn same_pred(atoms: &Atoms, set: AtomSet, i: u8, j: u8) -> bool
    ensures { IsTrue result ↔ AreSame Preds atoms.now set i j }
{
    are_same(Kind::Preds, atoms, set, i, j)
}
