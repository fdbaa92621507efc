//! Symbols in classes of the same ones.
ghost use Rattle.std.specs.Prelude.{◌≡◌, ◌≢◌, ◌↔◌, ◌<◌, ◌≤◌, ℕ, length, true, IfOk, IfSome, IfNone, MatchOption, slice_index_or, if◌then◌else◌, ◌==◌};
ghost use Rattle.wt_constraint.specs.Atoms.{equal};
ghost use Rattle.wt_constraint.specs.Sameness.{AreSame};
ghost use Rattle.wt_constraint.specs.declared.atom.Kind.TheVariants.{Leaves, Lists, Preds};
ghost use Rattle.wt_facts.specs.Sames.{same_class, Merged, Linked};

use std::alloc::{AllocError, Global};
use wt_constraint::{Atom, AtomSet, Atoms, Kind, has};
use wt_value::Seq;

/// For each leaf, each list and each predicate a class, which two of them share exactly where they
/// are the same. A symbol past the end is the same as itself alone.
#[derive(Debug, Drop)]
pub struct Sames {
    pub leaves: Seq<u8>,
    pub lists: Seq<u8>,
    pub preds: Seq<u8>,
}

/// How many symbols of a kind have a class in a list of classes.
const SYMBOLS: usize = 256;

fn are_same(classes: &Seq<u8>, i: u8, j: u8) -> bool
    ensures { result ≡ same_class classes.now i j }
{
    let classes = classes.as_slice();
    if (i as usize) < classes.len() && (j as usize) < classes.len() {
        classes[i as usize] == classes[j as usize]
    } else {
        i == j
    }
}

impl Sames {
    /// Whether two leaves are the same.
    pub fn same_leaf(&self, r: u8, s: u8) -> bool
        ensures { result ≡ same_class self.now.leaves r s }
    {
        are_same(&self.leaves, r, s)
    }

    /// Whether two lists are the same.
    pub fn same_list(&self, a: u8, b: u8) -> bool
        ensures { result ≡ same_class self.now.lists a b }
    {
        are_same(&self.lists, a, b)
    }

    /// Whether two predicates are the same.
    pub fn same_pred(&self, p: u8, q: u8) -> bool
        ensures { result ≡ same_class self.now.preds p q }
    {
        are_same(&self.preds, p, q)
    }
}

/// The class, or another one in its place.
fn relabel(class: u8, from: u8, to: u8) -> u8
    ensures { result ≡ (if class == from then to else class) }
{
    if class == from { to } else { class }
}

/// Makes the classes of two symbols one.
fn merge(classes: &mut Vec<u8>, x: u8, y: u8)
    requires first { x < length classes.old.items }
    requires second { y < length classes.old.items }
    ensures { Merged classes.old.items classes.new.items x y }
{
    let from = classes[x as usize];
    let to = classes[y as usize];
    for i in 0..classes.len() {
        classes[i] = relabel(classes[i], from, to);
    }
}

/// The symbols that an atom makes equal, if they are of this kind.
fn ends(kind: Kind, atom: Atom) -> Option<(u8, u8)>
    ensures { MatchOption result ((x y : ℕ) → atom ≢ equal kind x y) (λ e. atom ≡ equal kind e.0 e.1) }
{
    match kind {
        Kind::Leaves => match atom {
            Atom::RelEq(x, y) => Some((x, y)),
            _ => None,
        },
        Kind::Lists => match atom {
            Atom::AttrsEq(x, y) => Some((x, y)),
            _ => None,
        },
        Kind::Preds => match atom {
            Atom::PredEq(x, y) => Some((x, y)),
            _ => None,
        },
    }
}

/// Makes the classes of the symbols that an atom makes equal one, if it is asked.
fn link(kind: Kind, asked: bool, atom: Atom, classes: &mut Vec<u8>)
    requires { length classes.old.items ≡ 256 }
    ensures { Linked kind asked atom classes.old.items classes.new.items }
{
    if asked {
        if let Some((x, y)) = ends(kind, atom) {
            merge(classes, x, y);
        }
    }
}

/// Each symbol in a class of its own.
fn own_classes(alloc: Global, symbols: usize) -> Result<Vec<u8>, AllocError>
    requires { symbols ≤ 256 }
    ensures size { IfOk result (λ classes. length classes.items ≡ symbols) }
    ensures own { IfOk result (λ classes. (i : ℕ) → i < symbols → slice_index_or classes.items i 0 ≡ i) }
{
    let mut classes = Vec::with_capacity(alloc, symbols)?;
    for symbol in 0..symbols {
        classes.push(symbol as u8)?;
    }
    Ok(classes)
}

/// The classes of the symbols of a kind that a set makes the same.
fn classes_of(alloc: Global, kind: Kind, atoms: &Atoms, set: AtomSet) -> Result<Seq<u8>, AllocError>
    requires few { length atoms.now ≤ 64 }
    ensures { IfOk result (λ classes. (i j : ℕ) → ((same_class classes i j ≡ true) ↔ AreSame kind atoms.now set i j)) }
{
    let mut classes = own_classes(alloc, SYMBOLS)?;
    for (k, atom) in atoms.as_slice().iter().enumerate() {
        let asked = has(set, k as u32);
        link(kind, asked, *atom, &mut classes);
    }
    Ok(Seq::from_vec(classes))
}

impl Sames {
    /// What the set makes the same.
    pub fn of(alloc: Global, atoms: &Atoms, set: AtomSet) -> Result<Sames, AllocError>
        requires few { length atoms.now ≤ 64 }
        ensures leaves { IfOk result (λ sames. (i j : ℕ) → ((same_class sames.leaves i j ≡ true) ↔ AreSame Leaves atoms.now set i j)) }
        ensures lists { IfOk result (λ sames. (i j : ℕ) → ((same_class sames.lists i j ≡ true) ↔ AreSame Lists atoms.now set i j)) }
        ensures preds { IfOk result (λ sames. (i j : ℕ) → ((same_class sames.preds i j ≡ true) ↔ AreSame Preds atoms.now set i j)) }
    {
        let leaves = classes_of(alloc, Kind::Leaves, atoms, set)?;
        let lists = classes_of(alloc, Kind::Lists, atoms, set)?;
        let preds = classes_of(alloc, Kind::Preds, atoms, set)?;
        Ok(Sames {
            leaves,
            lists,
            preds,
        })
    }
}
