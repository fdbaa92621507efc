//! The claims that are out.
ghost use Rattle.std.specs.Prelude.{◌≡◌, ◌+◌, ◌≤◌, Option, Some, None, is_some, IfSome, vec_len};
ghost use Rattle.wt_board.specs.Machine as spec;

use crate::words::Ticket;
use wt_constraint::AtomSet;

/// Whether a claim of the set of this pair is out.
pub(crate) fn is_out(out: &[Ticket], pair: u32, set: AtomSet) -> bool
    ensures { result ≡ spec.is_out out.now pair set }
{
    for t in out {
        if t.pair == pair && t.set.0 == set.0 {
            return true;
        }
    }
    false
}

/// Takes the claim of this number out of the list.
pub(crate) fn end_claim(out: &mut Vec<Ticket>, number: u64) -> Option<Ticket>
    ensures found { result ≡ spec.find_ticket number out.old.items }
    ensures rest { out.new.items ≡ spec.end_claim number out.old.items }
    ensures fewer { IfSome result (λ t. vec_len out.new + 1 ≡ vec_len out.old) }
    ensures same { result ≡ None → out.new.items ≡ out.old.items }
{
    for k in 0..out.len() {
        if out[k].number == number {
            return Some(out.remove(k));
        }
    }
    None
}

/// Whether a claim of this number is out.
pub(crate) fn is_claimed(out: &[Ticket], number: u64) -> bool
    ensures { result ≡ is_some (spec.find_ticket number out.now) }
{
    for t in out {
        if t.number == number {
            return true;
        }
    }
    false
}
