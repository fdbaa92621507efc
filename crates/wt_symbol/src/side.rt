//! Sides and pairs of sides.
ghost use Rattle.std.specs.Prelude.{◌≡◌, ◌↔◌, ◌-◌, ◌^◌, ◌++◌, min, IsTrue, IfOk, OnOk};
ghost use Rattle.wt_symbol.specs.Sides.{tree_of, pair_of, leaves_of, lists_of, preds_of, size_of, weight_of};

use std::alloc::{AllocError, Global};
use wt_value::Seq;

/// A tree of operators with numbered symbols: leaves at the inputs, lists and predicates at the
/// operators. A Filter has its predicate first; a join has the list of its left operand first.
#[derive(Debug, Drop)]
pub enum Side {
    Input(u8),
    Proj(u8, Box<Side>),
    Filter(u8, u8, Box<Side>),
    InnerJoin(u8, u8, Box<Side>, Box<Side>),
    LeftJoin(u8, u8, Box<Side>, Box<Side>),
    InSub(u8, Box<Side>, Box<Side>),
    Dedup(Box<Side>),
}

/// The leaf that each list is anchored at, by the list's number.
pub type Anchors = Seq<u8>;

/// A source and a destination, with the anchors of the source's lists.
#[derive(Debug, Drop)]
pub struct Pair {
    pub source: Side,
    pub dest: Side,
    pub anchors: Anchors,
}

impl Side {
    /// The same side.
    pub fn copy(&self, alloc: Global) -> Result<Side, AllocError>
        ensures { IfOk result (λ s. tree_of s ≡ tree_of self.now) }
    {
        match self {
            Side::Input(r) => Ok(Side::Input(*r)),
            Side::Proj(a, s) => Ok(Side::Proj(*a, Box::new(alloc, s.copy(alloc)?)?)),
            Side::Filter(p, a, s) => Ok(Side::Filter(*p, *a, Box::new(alloc, s.copy(alloc)?)?)),
            Side::InnerJoin(a, b, s, t) => {
                let left = Box::new(alloc, s.copy(alloc)?)?;
                Ok(Side::InnerJoin(*a, *b, left, Box::new(alloc, t.copy(alloc)?)?))
            }
            Side::LeftJoin(a, b, s, t) => {
                let left = Box::new(alloc, s.copy(alloc)?)?;
                Ok(Side::LeftJoin(*a, *b, left, Box::new(alloc, t.copy(alloc)?)?))
            }
            Side::InSub(a, s, t) => {
                let left = Box::new(alloc, s.copy(alloc)?)?;
                Ok(Side::InSub(*a, left, Box::new(alloc, t.copy(alloc)?)?))
            }
            Side::Dedup(s) => Ok(Side::Dedup(Box::new(alloc, s.copy(alloc)?)?)),
        }
    }

    /// Whether both are the same side.
    pub fn same(&self, other: &Side) -> bool
        ensures { IsTrue result ↔ (tree_of self.now ≡ tree_of other.now) }
    {
        match self {
            Side::Input(r) => match other {
                Side::Input(x) => *r == *x,
                _ => false,
            },
            Side::Proj(a, s) => match other {
                Side::Proj(x, u) => *a == *x && s.same(u),
                _ => false,
            },
            Side::Filter(p, a, s) => match other {
                Side::Filter(q, x, u) => *p == *q && *a == *x && s.same(u),
                _ => false,
            },
            Side::InnerJoin(a, b, s, t) => match other {
                Side::InnerJoin(x, y, u, v) => *a == *x && *b == *y && s.same(u) && t.same(v),
                _ => false,
            },
            Side::LeftJoin(a, b, s, t) => match other {
                Side::LeftJoin(x, y, u, v) => *a == *x && *b == *y && s.same(u) && t.same(v),
                _ => false,
            },
            Side::InSub(a, s, t) => match other {
                Side::InSub(x, u, v) => *a == *x && s.same(u) && t.same(v),
                _ => false,
            },
            Side::Dedup(s) => match other {
                Side::Dedup(u) => s.same(u),
                _ => false,
            },
        }
    }

    /// How many operators it has, an input being none, up to the type's greatest number.
    pub fn size(&self) -> u32
        ensures { result ≡ min (size_of (tree_of self.now)) (2 ^ 32 - 1) }
    {
        match self {
            Side::Input(_) => 0,
            Side::Proj(_, s) | Side::Filter(_, _, s) | Side::Dedup(s) => s.size().saturating_add(1),
            Side::InnerJoin(_, _, s, t) | Side::LeftJoin(_, _, s, t) | Side::InSub(_, s, t) => {
                s.size().saturating_add(t.size()).saturating_add(1)
            }
        }
    }

    /// The sum of its operators' weights, up to the type's greatest number.
    pub fn weight(&self) -> u32
        ensures { result ≡ min (weight_of (tree_of self.now)) (2 ^ 32 - 1) }
    {
        match self {
            Side::Input(_) => 0,
            Side::Proj(_, s) | Side::Filter(_, _, s) => s.weight().saturating_add(1),
            Side::InnerJoin(_, _, s, t) => s.weight().saturating_add(t.weight()).saturating_add(6),
            Side::LeftJoin(_, _, s, t) => s.weight().saturating_add(t.weight()).saturating_add(7),
            Side::InSub(_, s, t) => s.weight().saturating_add(t.weight()).saturating_add(4),
            Side::Dedup(s) => s.weight().saturating_add(3),
        }
    }

    /// Adds its leaves in preorder to the end of a list.
    pub fn push_leaves(&self, leaves: &mut Vec<u8>) -> Result<(), AllocError>
        ensures { OnOk result (leaves.new.items ≡ leaves.old.items ++ leaves_of (tree_of self.now)) }
    {
        match self {
            Side::Input(r) => Ok(leaves.push(*r)?),
            Side::Proj(_, s) | Side::Filter(_, _, s) | Side::Dedup(s) => s.push_leaves(leaves),
            Side::InnerJoin(_, _, s, t) | Side::LeftJoin(_, _, s, t) | Side::InSub(_, s, t) => {
                s.push_leaves(leaves)?;
                t.push_leaves(leaves)
            }
        }
    }

    /// Adds its lists in preorder to the end of a list.
    pub fn push_lists(&self, lists: &mut Vec<u8>) -> Result<(), AllocError>
        ensures { OnOk result (lists.new.items ≡ lists.old.items ++ lists_of (tree_of self.now)) }
    {
        match self {
            Side::Input(_) => Ok(()),
            Side::Proj(a, s) | Side::Filter(_, a, s) => {
                lists.push(*a)?;
                s.push_lists(lists)
            }
            Side::InnerJoin(a, b, s, t) | Side::LeftJoin(a, b, s, t) => {
                lists.push(*a)?;
                lists.push(*b)?;
                s.push_lists(lists)?;
                t.push_lists(lists)
            }
            Side::InSub(a, s, t) => {
                lists.push(*a)?;
                s.push_lists(lists)?;
                t.push_lists(lists)
            }
            Side::Dedup(s) => s.push_lists(lists),
        }
    }

    /// Adds its predicates in preorder to the end of a list.
    pub fn push_preds(&self, preds: &mut Vec<u8>) -> Result<(), AllocError>
        ensures { OnOk result (preds.new.items ≡ preds.old.items ++ preds_of (tree_of self.now)) }
    {
        match self {
            Side::Input(_) => Ok(()),
            Side::Filter(p, _, s) => {
                preds.push(*p)?;
                s.push_preds(preds)
            }
            Side::Proj(_, s) | Side::Dedup(s) => s.push_preds(preds),
            Side::InnerJoin(_, _, s, t) | Side::LeftJoin(_, _, s, t) | Side::InSub(_, s, t) => {
                s.push_preds(preds)?;
                t.push_preds(preds)
            }
        }
    }
}

impl Pair {
    /// The same pair.
    pub fn copy(&self, alloc: Global) -> Result<Pair, AllocError>
        ensures { IfOk result (λ p. pair_of p ≡ pair_of self.now) }
    {
        Ok(Pair {
            source: self.source.copy(alloc)?,
            dest: self.dest.copy(alloc)?,
            anchors: self.anchors.clone()?,
        })
    }

    /// Whether both are the same pair.
    pub fn same(&self, other: &Pair) -> bool
        ensures { IsTrue result ↔ (pair_of self.now ≡ pair_of other.now) }
    {
        self.source.same(&other.source)
            && self.dest.same(&other.dest)
            && self.anchors == other.anchors
    }
}
