//! Lists whose columns a Proj below keeps.
ghost use Rattle.std.specs.Prelude.{◌≡◌, ◌++◌, map, OnOk};
ghost use Rattle.wt_symbol.specs.Sides.{tree_of, leaves_of};
ghost use Rattle.wt_symbol.specs.Lawful.{occurs};
ghost use Rattle.wt_symbol.specs.Heads.{anchor};
ghost use Rattle.wt_form.specs.Under.{way_down, below, kept_below};
ghost use Rattle.wt_facts.specs.Facts.{kept_of};

use std::alloc::AllocError;
use wt_symbol::{Anchors, Side};
use wt_value::Seq;

/// Two lists, the columns of the first being among those of the second.
#[derive(Clone, Copy, Debug, PartialEq, Eq)]
pub struct Kept {
    pub upper: u8,
    pub lower: u8,
}

/// The leaf that a list is anchored at.
pub fn leaf_of(anchors: &Anchors, list: u8) -> u8
    ensures { result ≡ anchor anchors.now list }
{
    let anchors = anchors.as_slice();
    if (list as usize) < anchors.len() {
        anchors[list as usize]
    } else {
        0
    }
}

/// Whether the leaf is one of the side.
fn has_leaf(side: &Side, leaf: u8) -> bool
    ensures { result ≡ occurs leaf (leaves_of (tree_of side.now)) }
{
    match side {
        Side::Input(r) => *r == leaf,
        Side::Proj(_, s) | Side::Filter(_, _, s) | Side::Dedup(s) => has_leaf(s, leaf),
        Side::InnerJoin(_, _, s, t) | Side::LeftJoin(_, _, s, t) | Side::InSub(_, s, t) => {
            has_leaf(s, leaf) || has_leaf(t, leaf)
        }
    }
}

/// Adds a list with each list of the Projs on the way down to a leaf.
fn push_below(side: &Side, list: u8, leaf: u8, out: &mut Seq<Kept>) -> Result<(), AllocError>
    ensures { OnOk result (out.new ≡ out.old ++ map kept_of (below list (way_down (tree_of side.now) leaf))) }
{
    match side {
        Side::Input(_) => Ok(()),
        Side::Proj(b, s) => {
            out.push(Kept {
                upper: list,
                lower: *b,
            })?;
            push_below(s, list, leaf, out)
        }
        Side::Filter(_, _, s) | Side::InSub(_, s, _) | Side::Dedup(s) => {
            push_below(s, list, leaf, out)
        }
        Side::InnerJoin(_, _, s, t) | Side::LeftJoin(_, _, s, t) => {
            if has_leaf(s, leaf) {
                push_below(s, list, leaf, out)
            } else {
                push_below(t, list, leaf, out)
            }
        }
    }
}

/// Adds each list of a side that is used above a Proj, with the list that the Proj keeps.
pub fn push_kept(side: &Side, anchors: &Anchors, out: &mut Seq<Kept>) -> Result<(), AllocError>
    ensures { OnOk result (out.new ≡ out.old ++ map kept_of (kept_below (tree_of side.now) anchors.now)) }
{
    match side {
        Side::Input(_) => Ok(()),
        Side::Proj(a, s) | Side::Filter(_, a, s) => {
            push_below(s, *a, leaf_of(anchors, *a), out)?;
            push_kept(s, anchors, out)
        }
        Side::InnerJoin(a, b, s, t) | Side::LeftJoin(a, b, s, t) => {
            push_below(s, *a, leaf_of(anchors, *a), out)?;
            push_below(t, *b, leaf_of(anchors, *b), out)?;
            push_kept(s, anchors, out)?;
            push_kept(t, anchors, out)
        }
        Side::InSub(a, s, t) => {
            push_below(s, *a, leaf_of(anchors, *a), out)?;
            push_kept(s, anchors, out)?;
            push_kept(t, anchors, out)
        }
        Side::Dedup(s) => push_kept(s, anchors, out),
    }
}
