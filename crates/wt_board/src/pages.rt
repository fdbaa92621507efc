//! A page for each pair of a lot.
ghost use Rattle.std.specs.Prelude.{ℕ, ◌≡◌, ◌<◌, ◌↔◌, [], length, IfOk, IsTrue};
ghost use Rattle.wt_constraint.specs.declared.set.AtomSet.{AtomSet};
ghost use Rattle.wt_symbol.specs.Sides.{pair_of};
ghost use Rattle.wt_symbol.specs.Lawful.{IsLawful};
ghost use Rattle.wt_cores.specs.Cores.{all_atoms};
ghost use Rattle.wt_board.specs.Lots.{IsLot, lot_tree};
ghost use Rattle.wt_board.specs.Machine.{Pending};
ghost use Rattle.wt_board.specs.Keeping.{Keeps, Chosen, PendingOf, at_work, page_at};

use crate::page::Page;
use crate::words::{Entry, Ticket};
use std::alloc::{AllocError, Global};
use wt_constraint::{AtomSet, atoms_of, full};
use wt_pair::Lot;
use wt_symbol::Pair;

/// A page of a pair of which nothing was found.
fn new_page(alloc: Global, pair: &Pair) -> Result<Page, AllocError>
    requires lawful { IsLawful (pair_of pair.now) }
    ensures { IfOk result (λ page. page ≡ page_at (all_atoms (pair_of pair.now))) }
{
    let atoms = atoms_of(alloc, pair)?;
    Page::new(alloc, full(&atoms))
}

/// The pages of a lot of which nothing was found.
pub(crate) fn new_pages(alloc: Global, lot: &Lot) -> Result<Vec<Page>, AllocError>
    requires lot { IsLot (lot_tree lot.now) }
    ensures { IfOk result (λ pages. Keeps (lot_tree lot.now) [] pages.items) }
{
    let mut pages = Vec::new(alloc);
    for pair in lot.pairs.as_slice() {
        pages.push(new_page(alloc, pair)?)?;
    }
    Ok(pages)
}

/// A pending set of the pair of the number, if there is one.
fn pending_of(
    pages: &mut Vec<Page>,
    lot: &Lot,
    out: &[Ticket],
    log: &[Entry],
    pair: u32,
) -> Result<Option<AtomSet>, AllocError>
    requires within { pair < length (lot_tree lot.now).pairs }
    requires keeps { Keeps (lot_tree lot.now) log.now pages.old.items }
    ensures keeps { Keeps (lot_tree lot.now) log.now pages.new.items }
    ensures pending { IfOk result (PendingOf (lot_tree lot.now) (at_work out.now log.now) pair) }
{
    let found = pages[pair as usize].next_pending(log, out, pair)?;
    Ok(found)
}

/// A set of a pair that is pending, if there is one.
pub(crate) fn choose(
    pages: &mut Vec<Page>,
    lot: &Lot,
    out: &[Ticket],
    log: &[Entry],
) -> Result<Option<(u32, AtomSet)>, AllocError>
    requires lot { IsLot (lot_tree lot.now) }
    requires keeps { Keeps (lot_tree lot.now) log.now pages.old.items }
    ensures keeps { Keeps (lot_tree lot.now) log.now pages.new.items }
    ensures chosen { IfOk result (Chosen (lot_tree lot.now) (at_work out.now log.now)) }
{
    for p in 0..lot.pairs.len() as u32 {
        let found = pending_of(pages, lot, out, log, p)?;
        if let Some(set) = found {
            return Ok(Some((p, set)));
        }
    }
    Ok(None)
}

/// Whether a set of the pair is pending.
fn has_pending(pages: &[Page], lot: &Lot, out: &[Ticket], log: &[Entry], pair: u32) -> bool
    requires within { pair < length (lot_tree lot.now).pairs }
    requires keeps { Keeps (lot_tree lot.now) log.now pages.now }
    ensures { IsTrue result ↔ ((s : AtomSet) × Pending (lot_tree lot.now) (at_work out.now log.now) pair s) }
{
    pages[pair as usize].any_pending(log, out, pair).is_some()
}

/// Whether no set of a pair is pending. No memory is taken.
pub(crate) fn are_calm(pages: &[Page], lot: &Lot, out: &[Ticket], log: &[Entry]) -> bool
    requires lot { IsLot (lot_tree lot.now) }
    requires keeps { Keeps (lot_tree lot.now) log.now pages.now }
    ensures { IsTrue result ↔ ((p : ℕ) (s : AtomSet) → Pending (lot_tree lot.now) (at_work out.now log.now) p s → ⊥) }
{
    for p in 0..lot.pairs.len() as u32 {
        if has_pending(pages, lot, out, log, p) {
            return false;
        }
    }
    true
}
