//! The lawful pairs of bounds, in parts that are shared out one after another.
ghost use Rattle.std.specs.Prelude.{◌≡◌, IfOk, OnErr};
ghost use Rattle.wt_sharing.specs.Parts.{Gives};

use std::alloc::{AllocError, Global};
use wt_pair::{Lot, Pairs};

/// How many pairs are shared out at once, if there are so many.
const PART: usize = 512;

/// The next part, or None at the end; after want of memory no pair is lost.
pub(crate) fn next_part(pairs: &mut Pairs, alloc: Global) -> Result<Option<Lot>, AllocError>
    ensures part { IfOk result (Gives pairs.old pairs.new) }
    ensures bounds { pairs.new.bounds ≡ pairs.old.bounds }
    ensures err { OnErr result (pairs.new ≡ pairs.old) }
{
    pairs.next_pairs(alloc, PART)
}
