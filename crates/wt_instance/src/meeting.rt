//! Whether an instance of a pair meets a set of its atoms.
ghost use Rattle.std.specs.Prelude.{◌≡◌, ◌↔◌, ◌<◌, IsTrue, true, nat_lt};
ghost use Rattle.std.specs.List.{list_all};
ghost use Rattle.wt_bag.specs.Bags.{among, Each};
ghost use Rattle.wt_value.specs.Values.{Tuple, row_same};
ghost use Rattle.wt_symbol.specs.Sides.{tree_of, pair_of, leaves_of};
ghost use Rattle.wt_symbol.specs.Lawful.{occurs, all_in};
ghost use Rattle.wt_symbol.specs.Heads as heads;
ghost use Rattle.wt_constraint.specs.Atoms.{atoms_of_pair};
ghost use Rattle.wt_constraint.specs.Sets.{HasAtom};
ghost use Rattle.wt_instance.specs.Instances as instances;
ghost use Rattle.wt_instance.specs.Meeting as spec;

use crate::instance::{Instance, anchor, is_among};
use crate::picked::{is_not_null, is_unique, refers};
use wt_constraint::{Atom, AtomSet, Atoms, has};
use wt_symbol::{Anchors, Pair, Side};
use wt_value::Row;

/// Whether each row is one of the others.
fn are_among(mut rows: &[Row], others: &[Row]) -> bool
    ensures { IsTrue result ↔ Each (λ row. among row_same others.now row ≡ true) rows.entry.now }
{
    'rows: while let [row, more @ ..] = rows {
        if !is_among(row, others) {
            return false;
        }
        rows = more;
    }
    true
}

/// Whether both lists have the same rows, in whatever order and however often.
fn have_same_rows(a: &[Row], b: &[Row]) -> bool
    ensures { IsTrue result ↔ ((row : Tuple) → among row_same a.now row ≡ among row_same b.now row) }
{
    are_among(a, b) && are_among(b, a)
}

fn are_same_rows(a: &[Row], b: &[Row]) -> bool
    ensures { IsTrue result ↔ (a.now ≡ b.now) }
{
    a == b
}

fn atom_holds(anchors: &Anchors, instance: &Instance, atom: Atom) -> bool
    ensures { IsTrue result ↔ spec.Holds anchors.now instance.now atom }
{
    match atom {
        Atom::RelEq(r, s) => instance.width(r) == instance.width(s)
            && are_same_rows(instance.table(r), instance.table(s)),
        Atom::AttrsEq(a, b) => instance.numbers(a) == instance.numbers(b),
        Atom::PredEq(p, q) => have_same_rows(instance.trues_of(p), instance.trues_of(q)),
        Atom::Unique(a) => is_unique(instance.numbers(a), instance.table(anchor(anchors, a))),
        Atom::NotNull(a) => is_not_null(instance.numbers(a), instance.table(anchor(anchors, a))),
        Atom::RefAttrs(a, b) => refers(
            instance.numbers(a),
            instance.numbers(b),
            instance.table(anchor(anchors, a)),
            instance.table(anchor(anchors, b)),
        ),
    }
}

/// Whether the k-th atom holds, if it is one of the set.
fn atom_passes(anchors: &Anchors, instance: &Instance, set: AtomSet, k: u32, atom: Atom) -> bool
    requires { k < 64 }
    ensures { IsTrue result ↔ (HasAtom set k → spec.Holds anchors.now instance.now atom) }
{
    !has(set, k) || atom_holds(anchors, instance, atom)
}

/// Whether each atom of the set holds.
fn atoms_hold(anchors: &Anchors, instance: &Instance, atoms: &Atoms, set: AtomSet) -> bool
    ensures { IsTrue result ↔ spec.AtomsHold atoms.now set anchors.now instance.now }
{
    for (k, atom) in atoms.as_slice().iter().enumerate() {
        if k >= 64 {
            return true;
        }
        if !atom_passes(anchors, instance, set, k as u32, *atom) {
            return false;
        }
    }
    true
}

/// Whether a leaf is one of the side's.
fn has_leaf(side: &Side, leaf: u8) -> bool
    ensures { result ≡ occurs leaf (leaves_of (tree_of side.now)) }
{
    match side {
        Side::Input(r) => *r == leaf,
        Side::Proj(_, s) | Side::Filter(_, _, s) | Side::Dedup(s) => has_leaf(s, leaf),
        Side::InnerJoin(_, _, s, t) | Side::LeftJoin(_, _, s, t) | Side::InSub(_, s, t) => has_leaf(
            s, leaf,
        ) || has_leaf(t, leaf),
    }
}

fn are_below(numbers: &[u32], width: u32) -> bool
    ensures { result ≡ list_all (λ n. nat_lt n width) numbers.now }
{
    numbers.iter().all(|n| *n < width)
}

/// Whether each number is one of the others.
fn are_kept(numbers: &[u32], others: &[u32]) -> bool
    ensures { result ≡ all_in others.now numbers.now }
{
    numbers.iter().all(|n| others.contains(n))
}

/// Whether a list has its columns from a leaf: each Proj on the way down keeps them, and the leaf has
/// them.
fn comes_from(side: &Side, instance: &Instance, leaf: u8, list: u8) -> bool
    ensures { result ≡ spec.comes_from (tree_of side.now) instance.now leaf list }
{
    match side {
        Side::Input(_) => are_below(instance.numbers(list), instance.width(leaf)),
        Side::Proj(b, s) => are_kept(instance.numbers(list), instance.numbers(*b))
            && comes_from(s, instance, leaf, list),
        Side::Filter(_, _, s) | Side::InSub(_, s, _) | Side::Dedup(s) => comes_from(
            s, instance, leaf, list,
        ),
        Side::InnerJoin(_, _, s, t) | Side::LeftJoin(_, _, s, t) => {
            if has_leaf(s, leaf) {
                comes_from(s, instance, leaf, list)
            } else {
                comes_from(t, instance, leaf, list)
            }
        }
    }
}

/// Whether a list that is used on a side has its columns from its anchor.
fn list_comes(side: &Side, anchors: &Anchors, instance: &Instance, list: u8) -> bool
    ensures { result ≡ spec.comes_from (tree_of side.now) instance.now (heads.anchor anchors.now list) list }
{
    comes_from(side, instance, anchor(anchors, list), list)
}

/// Whether each list of a side has its columns from its anchor.
fn lists_come(side: &Side, anchors: &Anchors, instance: &Instance) -> bool
    ensures { result ≡ spec.lists_come (tree_of side.now) anchors.now instance.now }
{
    match side {
        Side::Input(_) => true,
        Side::Proj(a, s) | Side::Filter(_, a, s) => list_comes(s, anchors, instance, *a)
            && lists_come(s, anchors, instance),
        Side::InnerJoin(a, b, s, t) | Side::LeftJoin(a, b, s, t) => list_comes(
            s, anchors, instance, *a,
        ) && list_comes(t, anchors, instance, *b)
            && lists_come(s, anchors, instance)
            && lists_come(t, anchors, instance),
        Side::InSub(a, s, t) => list_comes(s, anchors, instance, *a)
            && lists_come(s, anchors, instance)
            && lists_come(t, anchors, instance),
        Side::Dedup(s) => lists_come(s, anchors, instance),
    }
}

/// Whether an instance meets a set of a pair's atoms: each of them holds, and in both sides each list
/// has its columns from its anchor.
pub fn meets(pair: &Pair, atoms: &Atoms, set: AtomSet, instance: &Instance) -> bool
    requires { atoms.now ≡ atoms_of_pair (pair_of pair.now) }
    ensures exact { IsTrue result ↔ spec.Meets (pair_of pair.now) set instance.now }
{
    atoms_hold(&pair.anchors, instance, atoms, set)
        && lists_come(&pair.source, &pair.anchors, instance)
        && lists_come(&pair.dest, &pair.anchors, instance)
}
