//! The atoms of a pair in their order.
ghost use Rattle.std.specs.Prelude.{◌≡◌, ◌≤◌, ◌++◌, map, length, IfOk, OnOk};
ghost use Rattle.std.specs.Option.{option_to_list, option_map};
ghost use Rattle.wt_symbol.specs.Sides.{tree_of, pair_of};
ghost use Rattle.wt_symbol.specs.Lawful.{IsLawful};
ghost use Rattle.wt_constraint.specs.Atoms.{equal, each_two, key_lists_of, root_list, references_of, atoms_over, atoms_of_pair};
ghost use Rattle.wt_constraint.specs.declared.atom.Atom.TheVariants.{Unique, NotNull, RefAttrs};

use std::alloc::{AllocError, Global};
use wt_symbol::{Pair, Side};
use wt_value::Seq;

/// What a constraint asks of an instance: that two leaves, lists or predicates are equal, that a
/// list is unique or has no NULL at its anchor, or that it refers to another list. Lists go by
/// their numbers.
#[derive(Clone, Copy, Debug, PartialEq, Eq)]
pub enum Atom {
    RelEq(u8, u8),
    AttrsEq(u8, u8),
    PredEq(u8, u8),
    Unique(u8),
    NotNull(u8),
    RefAttrs(u8, u8),
}

/// The atoms of a pair, by number.
pub type Atoms = Seq<Atom>;

/// A kind of symbols that atoms make equal.
#[derive(Clone, Copy, Debug, PartialEq, Eq)]
pub enum Kind {
    Leaves,
    Lists,
    Preds,
}

impl Kind {
    /// The atom that makes two symbols of this kind equal.
    pub fn equal(self, x: u8, y: u8) -> Atom
        ensures { result ≡ equal self x y }
    {
        match self {
            Kind::Leaves => Atom::RelEq(x, y),
            Kind::Lists => Atom::AttrsEq(x, y),
            Kind::Preds => Atom::PredEq(x, y),
        }
    }
}

/// Adds the atoms that make a symbol equal to each of the others.
fn push_equals(kind: Kind, x: u8, others: &[u8], atoms: &mut Atoms) -> Result<(), AllocError>
    ensures { OnOk result (atoms.new ≡ atoms.old ++ map (equal kind x) others.now) }
{
    for y in others {
        atoms.push(kind.equal(x, *y))?;
    }
    Ok(())
}

/// Adds the atoms that make each two symbols equal.
fn push_each_two(kind: Kind, symbols: &[u8], atoms: &mut Atoms) -> Result<(), AllocError>
    ensures { OnOk result (atoms.new ≡ atoms.old ++ each_two kind symbols.now) }
{
    for i in 0..symbols.len() {
        push_equals(kind, symbols[i], &symbols[i + 1..], atoms)?;
    }
    Ok(())
}

fn push_unique(lists: &[u8], atoms: &mut Atoms) -> Result<(), AllocError>
    ensures { OnOk result (atoms.new ≡ atoms.old ++ map Unique lists.now) }
{
    for a in lists {
        atoms.push(Atom::Unique(*a))?;
    }
    Ok(())
}

fn push_not_null(lists: &[u8], atoms: &mut Atoms) -> Result<(), AllocError>
    ensures { OnOk result (atoms.new ≡ atoms.old ++ map NotNull lists.now) }
{
    for a in lists {
        atoms.push(Atom::NotNull(*a))?;
    }
    Ok(())
}

/// Adds the lists of every Proj, join and InSub in preorder.
fn push_key_lists(side: &Side, lists: &mut Vec<u8>) -> Result<(), AllocError>
    ensures { OnOk result (lists.new.items ≡ lists.old.items ++ key_lists_of (tree_of side.now)) }
{
    match side {
        Side::Input(_) => Ok(()),
        Side::Proj(a, s) => {
            lists.push(*a)?;
            push_key_lists(s, lists)
        }
        Side::InnerJoin(a, b, s, t) | Side::LeftJoin(a, b, s, t) => {
            lists.push(*a)?;
            lists.push(*b)?;
            push_key_lists(s, lists)?;
            push_key_lists(t, lists)
        }
        Side::InSub(a, s, t) => {
            lists.push(*a)?;
            push_key_lists(s, lists)?;
            push_key_lists(t, lists)
        }
        Side::Filter(_, _, s) | Side::Dedup(s) => push_key_lists(s, lists),
    }
}

/// The list of a Proj at the root.
fn list_at_root(side: &Side) -> Option<u8>
    ensures { result ≡ root_list (tree_of side.now) }
{
    match side {
        Side::Proj(b, _) => Some(*b),
        _ => None,
    }
}

/// Adds the references that the joins and InSubs may rest on, in preorder.
fn push_references(side: &Side, atoms: &mut Atoms) -> Result<(), AllocError>
    ensures { OnOk result (atoms.new ≡ atoms.old ++ references_of (tree_of side.now)) }
{
    match side {
        Side::Input(_) => Ok(()),
        Side::Proj(_, s) | Side::Filter(_, _, s) | Side::Dedup(s) => push_references(s, atoms),
        Side::InnerJoin(a, b, s, t) => {
            atoms.push(Atom::RefAttrs(*a, *b))?;
            atoms.push(Atom::RefAttrs(*b, *a))?;
            push_references(s, atoms)?;
            push_references(t, atoms)
        }
        Side::LeftJoin(a, b, s, t) => {
            atoms.push(Atom::RefAttrs(*a, *b))?;
            push_references(s, atoms)?;
            push_references(t, atoms)
        }
        Side::InSub(a, s, t) => {
            push_reference_to(*a, list_at_root(t), atoms)?;
            push_references(s, atoms)?;
            push_references(t, atoms)
        }
    }
}

/// Adds the reference from a list to another one, if there is another.
fn push_reference_to(a: u8, b: Option<u8>, atoms: &mut Atoms) -> Result<(), AllocError>
    ensures { OnOk result (atoms.new ≡ atoms.old ++ option_to_list (option_map (RefAttrs a) b)) }
{
    match b {
        Some(b) => atoms.push(Atom::RefAttrs(a, b)),
        None => Ok(()),
    }
}

/// The atoms over a source of any size.
fn atoms_over_source(alloc: Global, source: &Side) -> Result<Atoms, AllocError>
    ensures { IfOk result (λ atoms. atoms ≡ atoms_over (tree_of source.now)) }
{
    let mut atoms = Atoms::new(alloc);
    let mut leaves = Vec::new(alloc);
    source.push_leaves(&mut leaves)?;
    push_each_two(Kind::Leaves, &leaves, &mut atoms)?;
    let mut lists = Vec::new(alloc);
    source.push_lists(&mut lists)?;
    push_each_two(Kind::Lists, &lists, &mut atoms)?;
    let mut preds = Vec::new(alloc);
    source.push_preds(&mut preds)?;
    push_each_two(Kind::Preds, &preds, &mut atoms)?;
    let mut keys = Vec::new(alloc);
    push_key_lists(source, &mut keys)?;
    push_unique(&keys, &mut atoms)?;
    push_not_null(&keys, &mut atoms)?;
    push_references(source, &mut atoms)?;
    Ok(atoms)
}

/// The atoms of a pair that a constraint set may have, in order: the equalities of leaves, lists and
/// predicates, then Unique and NotNull by list, then references by operator in preorder.
pub fn atoms_of(alloc: Global, pair: &Pair) -> Result<Atoms, AllocError>
    requires { IsLawful (pair_of pair.now) }
    ensures atoms { IfOk result (λ atoms. atoms ≡ atoms_of_pair (pair_of pair.now)) }
    ensures few { IfOk result (λ atoms. length atoms ≤ 64) }
{
    atoms_over_source(alloc, &pair.source)
}
