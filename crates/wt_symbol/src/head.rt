//! What of a side can be seen from above.
ghost use Rattle.std.specs.Prelude.{◌≡◌, ◌<◌, ◌++◌, All, IfOk, OnOk};
ghost use Rattle.wt_symbol.specs.Sides.{tree_of};
ghost use Rattle.wt_symbol.specs.Lawful.{visible_leaves};
ghost use Rattle.wt_symbol.specs.Heads.{head_of, HasAnchors, HasSmallLeaves, IsMask};

use crate::side::{Anchors, Side};
use std::alloc::{AllocError, Global};
use wt_value::Seq;

/// The columns of a part of a head: an input's whole width, or those of a list.
#[derive(Clone, Copy, Debug, PartialEq, Eq)]
pub enum PartCols {
    Whole,
    List(u8),
}

/// A part of a head: columns of one leaf.
#[derive(Clone, Copy, Debug, PartialEq, Eq)]
pub struct Part {
    pub leaf: u8,
    pub cols: PartCols,
}

/// The parts of a head from left to right.
pub type Parts = Seq<Part>;

/// The mask of the leaves that can be seen above a side.
pub fn visible(side: &Side, anchors: &Anchors) -> u8
    requires leaves { HasSmallLeaves (tree_of side.now) }
    requires anchors { All (λ r. r < 8) anchors.now }
    requires lists { HasAnchors (tree_of side.now) anchors.now }
    ensures { IsMask result (visible_leaves (tree_of side.now) anchors.now) }
{
    match side {
        Side::Input(r) => 1 << *r,
        Side::Proj(a, _) => 1 << anchors.as_slice()[*a as usize],
        Side::Filter(_, _, s) | Side::InSub(_, s, _) | Side::Dedup(s) => visible(s, anchors),
        Side::InnerJoin(_, _, s, t) | Side::LeftJoin(_, _, s, t) => visible(s, anchors)
            | visible(t, anchors),
    }
}

/// Adds the parts of a side's head to the end of a list.
fn push_head(side: &Side, anchors: &Anchors, parts: &mut Parts) -> Result<(), AllocError>
    requires { HasAnchors (tree_of side.now) anchors.now }
    ensures { OnOk result (parts.new ≡ parts.old ++ head_of (tree_of side.now) anchors.now) }
{
    match side {
        Side::Input(r) => parts.push(Part {
            leaf: *r,
            cols: PartCols::Whole,
        }),
        Side::Proj(a, _) => parts.push(Part {
            leaf: anchors.as_slice()[*a as usize],
            cols: PartCols::List(*a),
        }),
        Side::Filter(_, _, s) | Side::InSub(_, s, _) | Side::Dedup(s) => push_head(
            s, anchors, parts,
        ),
        Side::InnerJoin(_, _, s, t) | Side::LeftJoin(_, _, s, t) => {
            push_head(s, anchors, parts)?;
            push_head(t, anchors, parts)
        }
    }
}

/// The parts of a side's head.
pub fn segments(alloc: Global, side: &Side, anchors: &Anchors) -> Result<Parts, AllocError>
    requires { HasAnchors (tree_of side.now) anchors.now }
    ensures { IfOk result (λ parts. parts ≡ head_of (tree_of side.now) anchors.now) }
{
    let mut parts = Parts::new(alloc);
    push_head(side, anchors, &mut parts)?;
    Ok(parts)
}
