//! Ascending lists of sets.
ghost use Rattle.std.specs.Prelude.{◌≡◌, ◌==◌, ◌<◌, ◌≤◌, ◌↔◌, ℕ, List, length, take, drop, IsTrue, OnOk};
ghost use Rattle.std.specs.List.{list_any};
ghost use Rattle.wt_bag.specs.Bags.{Each};
ghost use Rattle.wt_bag.specs.Choices.{Has};
ghost use Rattle.wt_cores.specs.SetLists.{Ascending, Gains};

use std::alloc::AllocError;
use wt_constraint::AtomSet;

fn has_number(sets: &[AtomSet], number: u64) -> bool
    ensures { result ≡ list_any (λ other. other.0 == number) sets.now }
{
    sets.iter().any(|other| other.0 == number)
}

/// Whether the set is one of these.
pub fn is_among(sets: &[AtomSet], set: AtomSet) -> bool
    ensures { IsTrue result ↔ Has set sets.now }
{
    has_number(sets, set.0)
}

/// How many sets are below this one.
fn count_below(sets: &[AtomSet], set: AtomSet) -> usize
    requires { Ascending sets.now }
    ensures within { result ≤ length sets.now }
    ensures before { Each (λ s. s.0 < set.0) (take result sets.now) }
    ensures after { Each (λ s. set.0 ≤ s.0) (drop result sets.now) }
{
    for (at, other) in sets.iter().enumerate() {
        if other.0 >= set.0 {
            return at;
        }
    }
    sets.len()
}

/// Puts the set into its place, if it is not there yet.
pub fn insert(sets: &mut Vec<AtomSet>, set: AtomSet) -> Result<(), AllocError>
    requires { Ascending sets.old.items }
    ensures sets { OnOk result (Gains sets.old.items sets.new.items (λ s. s ≡ set)) }
    ensures ascending { OnOk result (Ascending sets.new.items) }
{
    if is_among(sets, set) {
        return Ok(());
    }
    let at = count_below(sets, set);
    sets.insert(at, set)?;
    Ok(())
}
