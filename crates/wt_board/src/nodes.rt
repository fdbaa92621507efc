//! Nodes: what is not known of a pair's sets is covered by them.
ghost use Rattle.std.specs.Prelude.{ℕ, ◌≡◌, ◌≢◌, ◌<◌, ◌+◌, ◌↔◌, ◌⊎◌, OnOk, get_or, length};
ghost use Rattle.wt_constraint.specs.declared.set.AtomSet.{AtomSet};
ghost use Rattle.wt_constraint.specs.Sets.{HasAtom};
ghost use Rattle.wt_board.specs.Covering.{LiesIn, IsCovered, EachWithin, Sees, turns_left, no_node};
ghost use Rattle.wt_board.specs.Viewing.{lore_with};

use crate::known::{View, has_core, refused_around};
use crate::near::first_outside;
use std::alloc::AllocError;
use wt_constraint::{AtomSet, without};

/// The sets that have each atom of one set, and none but those of another. `least` says that the first was looked at already:
/// all sets with one atom less are known.
#[derive(Clone, Copy, Debug, PartialEq, Eq)]
pub(crate) struct Node {
    pub must: AtomSet,
    pub may: AtomSet,
    pub least: bool,
}

/// What is known of a node: its sets are known; or they are told apart by an atom; or the least of them is not known.
#[derive(Clone, Copy, Debug, PartialEq, Eq)]
pub(crate) enum Sight {
    Known,
    Splits(u32),
    Unknown,
}

/// The set with the i-th atom.
pub(crate) fn with(set: AtomSet, i: u32) -> AtomSet
    requires { i < 64 }
    ensures { (j : ℕ) → HasAtom result j ↔ (HasAtom set j ⊎ (j ≡ i)) }
{
    AtomSet(set.0 | 1 << i)
}

/// The sets of a node that have the i-th atom.
pub(crate) fn half_with(node: Node, i: u32) -> Node
    requires below { i < 64 }
    requires may { HasAtom node.may i }
    requires not_must { HasAtom node.must i → ⊥ }
    ensures must { (j : ℕ) → HasAtom result.must j ↔ (HasAtom node.must j ⊎ (j ≡ i)) }
    ensures may { result.may ≡ node.may }
{
    Node {
        must: with(node.must, i),
        may: node.may,
        least: false,
    }
}

/// The sets of a node without the i-th atom.
pub(crate) fn half_without(node: Node, i: u32) -> Node
    requires below { i < 64 }
    ensures must { result.must ≡ node.must }
    ensures may { (j : ℕ) → HasAtom result.may j ↔ (HasAtom node.may j × (j ≢ i)) }
{
    Node {
        must: node.must,
        may: without(node.may, i),
        least: true,
    }
}

/// What is known of a node of the pair. Refused sets are few, so they are asked first.
///
/// Where the least of its sets lies in a refused one, those that are not known have an atom that this one has not.
pub(crate) fn look(view: &View, node: Node) -> Sight
    ensures { Sees (lore_with view.now.cores.now view.now.refused.now view.now.rest.now view.now.pair) node result }
{
    let Some(refused) = refused_around(view, node.must) else {
        return if has_core(view, node.must) {
            Sight::Known
        } else {
            Sight::Unknown
        };
    };
    match first_outside(node.may, refused) {
        Some(i) => Sight::Splits(i),
        None => Sight::Known,
    }
}

/// Makes two nodes of the one at the place: of its sets with the atom i, and of those without it.
pub(crate) fn split(nodes: &mut Vec<Node>, k: usize, i: u32) -> Result<(), AllocError>
    requires within { k < length nodes.old.items }
    requires below { i < 64 }
    requires may { HasAtom (get_or nodes.old.items k no_node).may i }
    requires not_must { HasAtom (get_or nodes.old.items k no_node).must i → ⊥ }
    ensures covers { (s : AtomSet) → IsCovered nodes.old.items s → IsCovered nodes.new.items s }
    ensures within { (all : AtomSet) → EachWithin all nodes.old.items → EachWithin all nodes.new.items }
    ensures less { OnOk result (turns_left nodes.new.items < turns_left nodes.old.items) }
    ensures longer { OnOk result (length nodes.new.items ≡ length nodes.old.items + 1) }
{
    let node = nodes[k];
    nodes.insert(k + 1, half_with(node, i))?;
    nodes[k] = half_without(node, i);
    Ok(())
}
