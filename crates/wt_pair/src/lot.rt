//! Lots of pairs.
use crate::bounds::Bounds;
use crate::walk::PairList;

/// Pairs of bounds in a row, and the number of the first of them, which stands still at the last number of 64 bits.
#[derive(Debug, Drop)]
pub struct Lot {
    pub bounds: Bounds,
    pub first: u64,
    pub pairs: PairList,
}
