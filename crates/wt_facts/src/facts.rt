//! The facts that a set of a pair's atoms asks for.
ghost use Rattle.std.specs.Prelude.{◌≡◌, ◌++◌, ◌≤◌, ◌↔◌, flat_map, map, length, IfOk, OnOk};
ghost use Rattle.std.specs.List.{list_any};
ghost use Rattle.wt_bag.specs.Choices.{Has};
ghost use Rattle.wt_symbol.specs.Sides.{pair_of};
ghost use Rattle.wt_symbol.specs.Lawful.{IsLawful};
ghost use Rattle.wt_constraint.specs.Atoms.{atoms_of_pair};
ghost use Rattle.wt_form.specs.Under.{Under, kept_below};
ghost use Rattle.wt_facts.specs.Facts.{known_of, is_at, is_reference, is_kept, leaf_list, unique_of, not_null_of, reference_of, kept_of, IsAskedBelow};

use crate::kept::{Kept, leaf_of, push_kept};
use crate::sames::Sames;
use std::alloc::{AllocError, Global};
use wt_constraint::{Atom, AtomSet, Atoms, has};
use wt_symbol::{Anchors, Pair};
use wt_value::Seq;

/// A list of columns in the rows of a leaf.
#[derive(Clone, Copy, Debug, PartialEq, Eq)]
pub struct LeafList {
    pub leaf: u8,
    pub list: u8,
}

/// A list without NULL whose values are always among those of another list.
#[derive(Clone, Copy, Debug, PartialEq, Eq)]
pub struct Reference {
    pub from: LeafList,
    pub to: LeafList,
}

/// What is known under a set: the symbols that are the same, and up to these the lists that are
/// unique, those that are not NULL, those that refer to another one, and those that are among the
/// columns of another one.
#[derive(Debug, Drop)]
pub struct Facts {
    pub sames: Sames,
    pub unique: Seq<LeafList>,
    pub not_null: Seq<LeafList>,
    pub refs: Seq<Reference>,
    pub kept: Seq<Kept>,
}

impl Facts {
    /// Whether two leaves are the same.
    pub fn same_leaf(&self, r: u8, s: u8) -> bool
        ensures { result ≡ (known_of self.now).rel r s }
    {
        self.sames.same_leaf(r, s)
    }

    /// Whether two lists are the same.
    pub fn same_list(&self, a: u8, b: u8) -> bool
        ensures { result ≡ (known_of self.now).attr a b }
    {
        self.sames.same_list(a, b)
    }

    /// Whether two predicates are the same.
    pub fn same_pred(&self, p: u8, q: u8) -> bool
        ensures { result ≡ (known_of self.now).pred p q }
    {
        self.sames.same_pred(p, q)
    }

    /// Whether these are the same leaf and list as those.
    pub fn is_at(&self, r: u8, a: u8, at: LeafList) -> bool
        ensures { result ≡ is_at self.now.sames r a at }
    {
        self.sames.same_leaf(r, at.leaf) && self.sames.same_list(a, at.list)
    }

    /// Whether no two rows of a leaf match at a list.
    pub fn is_unique(&self, r: u8, a: u8) -> bool
        ensures { result ≡ (known_of self.now).unique r a }
    {
        self.unique
            .as_slice()
            .iter()
            .any(|at| self.is_at(r, a, *at))
    }

    /// Whether no row of a leaf has a NULL at a list.
    pub fn is_not_null(&self, r: u8, a: u8) -> bool
        ensures { result ≡ (known_of self.now).not_null r a }
    {
        self.not_null
            .as_slice()
            .iter()
            .any(|at| self.is_at(r, a, *at))
    }

    fn is_reference(&self, r: u8, a: u8, s: u8, b: u8, reference: Reference) -> bool
        ensures { result ≡ is_reference self.now.sames r a s b reference }
    {
        self.is_at(r, a, reference.from) && self.is_at(s, b, reference.to)
    }

    /// Whether each row of a leaf without NULL at a list matches a row of another leaf at a list.
    pub fn refers(&self, r: u8, a: u8, s: u8, b: u8) -> bool
        ensures { result ≡ (known_of self.now).refs r a s b }
    {
        self.refs
            .as_slice()
            .iter()
            .any(|reference| self.is_reference(r, a, s, b, *reference))
    }

    fn is_kept(&self, a: u8, b: u8, kept: Kept) -> bool
        ensures { result ≡ is_kept self.now.sames a b kept }
    {
        self.sames.same_list(a, kept.upper) && self.sames.same_list(b, kept.lower)
    }

    /// Whether a Proj keeps the second list below the first one.
    fn is_kept_below(&self, a: u8, b: u8) -> bool
        ensures { result ≡ list_any (is_kept self.now.sames a b) self.now.kept }
    {
        self.kept
            .as_slice()
            .iter()
            .any(|kept| self.is_kept(a, b, *kept))
    }

    /// Whether the columns of the first list are among those of the second.
    pub fn is_within(&self, a: u8, b: u8) -> bool
        ensures { result ≡ (known_of self.now).within a b }
    {
        self.sames.same_list(a, b) || self.is_kept_below(a, b)
    }
}

/// The atoms of a set.
fn asked_atoms(alloc: Global, atoms: &Atoms, set: AtomSet) -> Result<Vec<Atom>, AllocError>
    requires few { length atoms.now ≤ 64 }
    ensures { IfOk result (λ asked. (x : Atom) → (Has x asked.items ↔ IsAskedBelow atoms.now set (length atoms.now) x)) }
{
    let mut asked = Vec::new(alloc);
    for (k, atom) in atoms.as_slice().iter().enumerate() {
        if has(set, k as u32) {
            asked.push(*atom)?;
        }
    }
    Ok(asked)
}

/// A list with its leaf.
fn at_leaf(anchors: &Anchors, list: u8) -> LeafList
    ensures { result ≡ leaf_list anchors.now list }
{
    LeafList {
        leaf: leaf_of(anchors, list),
        list,
    }
}

fn push_unique(anchors: &Anchors, atom: Atom, out: &mut Seq<LeafList>) -> Result<(), AllocError>
    ensures { OnOk result (out.new ≡ out.old ++ unique_of anchors.now atom) }
{
    match atom {
        Atom::Unique(a) => out.push(at_leaf(anchors, a)),
        _ => Ok(()),
    }
}

fn push_uniques(
    anchors: &Anchors,
    asked: &[Atom],
    out: &mut Seq<LeafList>,
) -> Result<(), AllocError>
    ensures { OnOk result (out.new ≡ out.old ++ flat_map (unique_of anchors.now) asked.now) }
{
    match asked {
        [] => Ok(()),
        [atom, rest @ ..] => {
            push_unique(anchors, *atom, out)?;
            push_uniques(anchors, rest, out)
        }
    }
}

fn push_not_null(anchors: &Anchors, atom: Atom, out: &mut Seq<LeafList>) -> Result<(), AllocError>
    ensures { OnOk result (out.new ≡ out.old ++ not_null_of anchors.now atom) }
{
    match atom {
        Atom::NotNull(a) => out.push(at_leaf(anchors, a)),
        _ => Ok(()),
    }
}

fn push_not_nulls(
    anchors: &Anchors,
    asked: &[Atom],
    out: &mut Seq<LeafList>,
) -> Result<(), AllocError>
    ensures { OnOk result (out.new ≡ out.old ++ flat_map (not_null_of anchors.now) asked.now) }
{
    match asked {
        [] => Ok(()),
        [atom, rest @ ..] => {
            push_not_null(anchors, *atom, out)?;
            push_not_nulls(anchors, rest, out)
        }
    }
}

fn push_reference(anchors: &Anchors, atom: Atom, out: &mut Seq<Reference>) -> Result<(), AllocError>
    ensures { OnOk result (out.new ≡ out.old ++ reference_of anchors.now atom) }
{
    match atom {
        Atom::RefAttrs(a, b) => out.push(Reference {
            from: at_leaf(anchors, a),
            to: at_leaf(anchors, b),
        }),
        _ => Ok(()),
    }
}

fn push_references(
    anchors: &Anchors,
    asked: &[Atom],
    out: &mut Seq<Reference>,
) -> Result<(), AllocError>
    ensures { OnOk result (out.new ≡ out.old ++ flat_map (reference_of anchors.now) asked.now) }
{
    match asked {
        [] => Ok(()),
        [atom, rest @ ..] => {
            push_reference(anchors, *atom, out)?;
            push_references(anchors, rest, out)
        }
    }
}

/// The lists that a Proj below keeps, of both sides.
fn kept_lists(alloc: Global, pair: &Pair) -> Result<Seq<Kept>, AllocError>
    ensures { IfOk result (λ out. out ≡ map kept_of (kept_below (pair_of pair.now).source pair.now.anchors) ++ map kept_of (kept_below (pair_of pair.now).dest pair.now.anchors)) }
{
    let mut kept = Seq::new(alloc);
    push_kept(&pair.source, &pair.anchors, &mut kept)?;
    push_kept(&pair.dest, &pair.anchors, &mut kept)?;
    Ok(kept)
}

impl Facts {
    /// What is known under a set of a pair's atoms.
    pub fn of(alloc: Global, pair: &Pair, atoms: &Atoms, set: AtomSet) -> Result<Facts, AllocError>
        requires lawful { IsLawful (pair_of pair.now) }
        requires atoms { atoms.now ≡ atoms_of_pair (pair_of pair.now) }
        ensures under { IfOk result (λ facts. Under (pair_of pair.now) set (known_of facts)) }
    {
        let asked = asked_atoms(alloc, atoms, set)?;
        let mut unique = Seq::new(alloc);
        push_uniques(&pair.anchors, &asked, &mut unique)?;
        let mut not_null = Seq::new(alloc);
        push_not_nulls(&pair.anchors, &asked, &mut not_null)?;
        let mut refs = Seq::new(alloc);
        push_references(&pair.anchors, &asked, &mut refs)?;
        let kept = kept_lists(alloc, pair)?;
        let sames = Sames::of(alloc, atoms, set)?;
        Ok(Facts {
            sames,
            unique,
            not_null,
            refs,
            kept,
        })
    }
}
