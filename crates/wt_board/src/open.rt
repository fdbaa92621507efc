//! The search for any set that is neither known nor out. No memory is taken.
ghost use Rattle.std.specs.Prelude.{◌<◌, ◌≡◌, false};
ghost use Rattle.wt_constraint.specs.Sets.{HasAtom};
ghost use Rattle.wt_cores.specs.Cores.{Within};
ghost use Rattle.wt_board.specs.Covering.{OpenIn, OpenAmong, EachWithin, knows};
ghost use Rattle.wt_board.specs.Viewing.{lore_with};

use crate::claims::is_out;
use crate::known::View;
use crate::near::first_outside;
use crate::nodes::{Node, Sight, half_with, half_without, look};
use wt_constraint::AtomSet;

/// An open set of the node.
#[cycle(open)]
fn open_in(view: &View, node: Node) -> Option<AtomSet>
    requires within { Within node.must node.may }
    ensures { OpenIn (lore_with view.now.cores.now view.now.refused.now view.now.rest.now view.now.pair) view.now.out.now view.now.pair node result }
{
    match look(view, node) {
        Sight::Known => None,
        Sight::Splits(i) => open_halves(&*view, node, i),
        Sight::Unknown => open_around(&*view, node),
    }
}

/// The same where the least of its sets is not known.
#[cycle(open)]
fn open_around(view: &View, node: Node) -> Option<AtomSet>
    requires within { Within node.must node.may }
    requires unknown { knows (lore_with view.now.cores.now view.now.refused.now view.now.rest.now view.now.pair) node.must ≡ false }
    ensures { OpenIn (lore_with view.now.cores.now view.now.refused.now view.now.rest.now view.now.pair) view.now.out.now view.now.pair node result }
{
    if !is_out(view.out, view.pair, node.must) {
        return Some(node.must);
    }
    match first_outside(node.may, node.must) {
        Some(i) => open_halves(&*view, node, i),
        None => None,
    }
}

/// An open set of the node's sets with the i-th atom, or of those without it.
#[cycle(open)]
fn open_halves(view: &View, node: Node, i: u32) -> Option<AtomSet>
    requires within { Within node.must node.may }
    requires below { i < 64 }
    requires may { HasAtom node.may i }
    requires not_must { HasAtom node.must i → ⊥ }
    ensures { OpenIn (lore_with view.now.cores.now view.now.refused.now view.now.rest.now view.now.pair) view.now.out.now view.now.pair node result }
{
    let more = half_with(node, i);
    let less = half_without(node, i);
    let found = open_in(&*view, more);
    if found.is_some() {
        return found;
    }
    open_in(&*view, less)
}

/// An open set of the nodes.
pub(crate) fn open_among(view: &View, nodes: &[Node]) -> Option<AtomSet>
    requires within { EachWithin view.now.all nodes.now }
    ensures { OpenAmong (lore_with view.now.cores.now view.now.refused.now view.now.rest.now view.now.pair) view.now.out.now view.now.pair nodes.now result }
{
    for n in nodes {
        let found = open_in(view, *n);
        if found.is_some() {
            return found;
        }
    }
    None
}
