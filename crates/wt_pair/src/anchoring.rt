//! The anchors of a source by number.
ghost use Rattle.std.specs.Prelude.{◌≡◌, ◌+◌, ◌*◌, ◌^◌, ◌<◌, ◌≤◌, ◌++◌, IfOk, OnOk};
ghost use Rattle.wt_pair.specs.Walk.{nth_anchoring};

use std::alloc::{AllocError, Global};
use wt_symbol::Anchors;

/// How many ways there are to anchor lists among leaves.
pub fn count_anchorings(leaves: u8, lists: u8) -> u64
    requires leaves { leaves ≤ 5 }
    requires lists { lists ≤ 8 }
    ensures { result ≡ leaves ^ lists }
{
    u64::from(leaves).pow(u32::from(lists))
}

/// Adds the anchors of the k-th way.
fn push_anchoring(leaves: u8, lists: u8, k: u64, anchors: &mut Vec<u8>) -> Result<(), AllocError>
    requires leaves { leaves ≤ 5 }
    requires lists { lists ≤ 8 }
    requires exists { k < leaves ^ lists }
    ensures { OnOk result (anchors.new.items ≡ anchors.old.items ++ nth_anchoring leaves lists k) }
{
    if lists == 0 {
        return Ok(());
    }
    let block = count_anchorings(leaves, lists - 1);
    anchors.push((k / block) as u8)?;
    push_anchoring(leaves, lists - 1, k % block, anchors)?;
    Ok(())
}

/// The k-th way to anchor lists among leaves.
pub fn anchoring(alloc: Global, leaves: u8, lists: u8, k: u64) -> Result<Anchors, AllocError>
    requires leaves { leaves ≤ 5 }
    requires lists { lists ≤ 8 }
    requires exists { k < leaves ^ lists }
    ensures { IfOk result (λ anchors. anchors ≡ nth_anchoring leaves lists k) }
{
    let mut anchors = Vec::new(alloc);
    push_anchoring(leaves, lists, k, &mut anchors)?;
    Ok(Anchors::from_vec(anchors))
}
