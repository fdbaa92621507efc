//! The pairs of bounds, lot by lot.
ghost use Rattle.std.specs.Prelude.{◌≡◌, ◌↔◌, ◌<◌, ◌≤◌, length, IfOk, IfSome, IfNone, IsNone, OnErr};
ghost use Rattle.wt_pair.specs.Candidates.{pairs_of, IsWithinLimits};
ghost use Rattle.wt_pair.specs.Lots.{AreNext, IsNextLot};

use crate::bounds::Bounds;
use crate::lot::Lot;
use crate::walk::{Cursor, PairList, Spot, fill};
use std::alloc::{AllocError, Global};
use std::marker::Model;

/// How many pairs a lot has, if there are so many.
const LOT: usize = 4096;

/// The pairs of bounds from a place on: contracts see the bounds, and how many pairs were given. The number of the next
/// pair stands still at the last number of 64 bits.
#[derive(Debug, Drop)]
pub struct Pairs {
    bounds: Bounds,
    cursor: Cursor,
    first: u64,
}

impl Model for Pairs {
    ghost use Rattle.wt_pair.specs.Walk.{Progress};
    ghost use Rattle.wt_pair.specs.Track.{IsOnTrack, given};

    ghost Value = { Progress };

    ghost view = { λ p. record { bounds = p.bounds; first = given p.bounds p.cursor } };

    ghost invariant = { λ p. IsOnTrack p.bounds p.cursor p.first };
}

impl Pairs {
    /// All pairs of the bounds.
    pub fn new(bounds: Bounds) -> Pairs
        requires { IsWithinLimits bounds }
        ensures bounds { result.bounds ≡ bounds }
        ensures first { result.first ≡ 0 }
    {
        let spot = Spot {
            anchoring: 0,
            dest: 0,
        };
        Pairs {
            bounds,
            cursor: Cursor { template: 0, spot },
            first: 0,
        }
    }

    /// The next pairs, as many as are asked for or the rest, or None at the end; after want of memory all is as before.
    pub fn next_pairs(&mut self, alloc: Global, most: usize) -> Result<Option<Lot>, AllocError>
        requires some { 0 < most }
        ensures lot { IfOk result (λ lot. IfSome lot (λ l. AreNext most self.old self.new l)) }
        ensures bounds { self.new.bounds ≡ self.old.bounds }
        ensures end { IfOk result (λ lot. IsNone lot ↔ (length (pairs_of self.old.bounds) ≤ self.old.first)) }
        ensures none { IfOk result (λ lot. IfNone lot (self.new ≡ self.old)) }
        ensures err { OnErr result (self.new ≡ self.old) }
    {
        let mut pairs = PairList::new(alloc);
        let cursor = fill(alloc, &self.bounds, self.cursor, most, &mut pairs)?;
        if pairs.is_empty() {
            return Ok(None);
        }
        let first = self.first;
        self.first = first.saturating_add(pairs.len() as u64);
        self.cursor = cursor;
        Ok(Some(Lot {
            bounds: self.bounds,
            first,
            pairs,
        }))
    }

    /// The next lot of pairs, or None at the end; after want of memory all is as before.
    pub fn next_lot(&mut self, alloc: Global) -> Result<Option<Lot>, AllocError>
        ensures lot { IfOk result (λ lot. IfSome lot (λ l. IsNextLot self.old self.new l)) }
        ensures bounds { self.new.bounds ≡ self.old.bounds }
        ensures end { IfOk result (λ lot. IsNone lot ↔ (length (pairs_of self.old.bounds) ≤ self.old.first)) }
        ensures none { IfOk result (λ lot. IfNone lot (self.new ≡ self.old)) }
        ensures err { OnErr result (self.new ≡ self.old) }
    {
        self.next_pairs(alloc, LOT)
    }
}
