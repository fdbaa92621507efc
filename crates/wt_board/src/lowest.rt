//! Sets that are not known, with as few atoms as can be.
ghost use Rattle.std.specs.Prelude.{◌≡◌, ◌<◌, ◌++◌, false, IfSome};
ghost use Rattle.wt_cores.specs.Cores.{Within};
ghost use Rattle.wt_board.specs.Covering.{IsOpen, knows};
ghost use Rattle.wt_board.specs.Knowledge.{refused_of};
ghost use Rattle.wt_board.specs.Viewing.{lore_with, AreRefusedWithout};

use crate::claims::is_out;
use crate::known::{View, is_unknown, refused_around};
use crate::near::ATOMS;
use crate::nodes::{Node, with};
use wt_constraint::{AtomSet, has, without};

/// The set without one of its atoms, where that is not known.
fn unknown_without_one(view: &View, set: AtomSet) -> Option<AtomSet>
    ensures { IfSome result (λ less. (knows (lore_with view.now.cores.now view.now.refused.now view.now.rest.now view.now.pair) less ≡ false) × Within less set × (less.0 < set.0)) }
{
    for i in 0..ATOMS {
        if has(set, i) && is_unknown(view, without(set, i)) {
            return Some(without(set, i));
        }
    }
    None
}

/// A set that is not known and lies in one that is not: without any of its atoms it would be known.
fn lowest(view: &View, set: AtomSet) -> AtomSet
    requires unknown { knows (lore_with view.now.cores.now view.now.refused.now view.now.rest.now view.now.pair) set ≡ false }
    ensures unknown { knows (lore_with view.now.cores.now view.now.refused.now view.now.rest.now view.now.pair) result ≡ false }
    ensures within { Within result set }
{
    let mut low = set;
    'down: while let Some(less) = unknown_without_one(view, low) {
        low = less;
    }
    low
}

/// A lowest set in one that is not known, if that is not out.
pub(crate) fn open_below(view: &View, set: AtomSet) -> Option<AtomSet>
    requires unknown { knows (lore_with view.now.cores.now view.now.refused.now view.now.rest.now view.now.pair) set ≡ false }
    ensures { IfSome result (λ low. Within low set × IsOpen (lore_with view.now.cores.now view.now.refused.now view.now.rest.now view.now.pair) view.now.out.now view.now.pair low) }
{
    let low = lowest(view, set);
    if is_out(view.out, view.pair, low) {
        return None;
    }
    Some(low)
}

/// The least set of a node without one of its atoms, where that is not known.
pub(crate) fn unknown_below(view: &View, node: Node) -> Option<AtomSet>
    ensures { IfSome result (λ less. (knows (lore_with view.now.cores.now view.now.refused.now view.now.rest.now view.now.pair) less ≡ false) × Within less node.must) }
{
    if node.least {
        return None;
    }
    unknown_without_one(view, node.must)
}

/// The set with the i-th atom, if a set without this atom lies in a refused one.
fn needed_with(view: &View, set: AtomSet, i: u32, atoms: AtomSet) -> AtomSet
    requires below { i < 64 }
    requires needed { AreRefusedWithout (view.now.refused.now ++ refused_of view.now.pair view.now.rest.now) set atoms }
    ensures needed { AreRefusedWithout (view.now.refused.now ++ refused_of view.now.pair view.now.rest.now) set result }
{
    if has(set, i) && refused_around(view, without(set, i)).is_some() {
        with(atoms, i)
    } else {
        atoms
    }
}

/// The atoms of a set without which it lies in a refused one.
pub(crate) fn needed(view: &View, set: AtomSet) -> AtomSet
    ensures { AreRefusedWithout (view.now.refused.now ++ refused_of view.now.pair view.now.rest.now) set result }
{
    let mut atoms = AtomSet(0);
    for i in 0..ATOMS {
        atoms = needed_with(view, set, i, atoms);
    }
    atoms
}
