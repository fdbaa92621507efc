//! What is known of the sets of a pair.
ghost use Rattle.std.specs.Prelude.{◌≡◌, ◌↔◌, ◌==◌, IsTrue, false, []};
ghost use Rattle.wt_board.specs.Knowledge as spec;
ghost use Rattle.wt_board.specs.Covering.{Refuses, knows};
ghost use Rattle.wt_board.specs.Viewing.{lore_with};

use crate::words::{Entry, Ticket, Verdict};
use wt_constraint::AtomSet;

/// What a search for a set goes by: the atoms of a pair, cores and refused sets of it, entries of the log that are not among these
/// yet, the claims that are out, and the pair's number.
#[derive(Clone, Copy)]
pub(crate) struct View<'a> {
    pub all: AtomSet,
    pub cores: &'a [AtomSet],
    pub refused: &'a [AtomSet],
    pub rest: &'a [Entry],
    pub out: &'a [Ticket],
    pub pair: u32,
}

/// Whether each atom of the first set is one of the second.
pub(crate) fn lies_in(core: AtomSet, set: AtomSet) -> bool
    ensures { result ≡ spec.lies_in core set }
{
    core.0 & set.0 == core.0
}

/// Whether one of the cores lies in the set.
fn has_core_among(cores: &[AtomSet], set: AtomSet) -> bool
    ensures { result ≡ spec.has_core cores.now set }
{
    cores.iter().any(|core| lies_in(*core, set))
}

/// Whether the entry has a core of the pair that lies in the set.
fn has_core_in(entry: Entry, pair: u32, set: AtomSet) -> bool
    ensures { result ≡ spec.has_core (spec.core_before (entry.pair == pair) entry.verdict []) set }
{
    if entry.pair != pair {
        return false;
    }
    match entry.verdict {
        Verdict::Proved(core) => lies_in(core, set),
        Verdict::Refused(_) => false,
    }
}

/// Whether one of the entries has a core of the pair that lies in the set.
fn has_core_logged(entries: &[Entry], pair: u32, set: AtomSet) -> bool
    ensures { result ≡ spec.has_core (spec.cores_of pair entries.now) set }
{
    for e in entries {
        if has_core_in(*e, pair, set) {
            return true;
        }
    }
    false
}

/// Whether a core is known that lies in the set.
pub(crate) fn has_core(view: &View, set: AtomSet) -> bool
    ensures { result ≡ spec.has_core (lore_with view.now.cores.now view.now.refused.now view.now.rest.now view.now.pair).cores set }
{
    has_core_among(view.cores, set) || has_core_logged(view.rest, view.pair, set)
}

/// One of the refused sets, in which the set lies.
fn refused_among(refused: &[AtomSet], set: AtomSet) -> Option<AtomSet>
    ensures { Refuses refused.now set result }
{
    for r in refused {
        if lies_in(set, *r) {
            return Some(*r);
        }
    }
    None
}

/// The entry's refused set of the pair, if the set lies in it.
fn refused_in(entry: Entry, pair: u32, set: AtomSet) -> Option<AtomSet>
    ensures { Refuses (spec.refused_before (entry.pair == pair) entry.verdict []) set result }
{
    if entry.pair != pair {
        return None;
    }
    match entry.verdict {
        Verdict::Proved(_) => None,
        Verdict::Refused(refused) => {
            if lies_in(set, refused) {
                Some(refused)
            } else {
                None
            }
        }
    }
}

/// A refused set of the pair in one of the entries, in which the set lies.
fn refused_logged(entries: &[Entry], pair: u32, set: AtomSet) -> Option<AtomSet>
    ensures { Refuses (spec.refused_of pair entries.now) set result }
{
    for e in entries {
        let refused = refused_in(*e, pair, set);
        if refused.is_some() {
            return refused;
        }
    }
    None
}

/// A refused set that is known, in which the set lies.
pub(crate) fn refused_around(view: &View, set: AtomSet) -> Option<AtomSet>
    ensures { Refuses (lore_with view.now.cores.now view.now.refused.now view.now.rest.now view.now.pair).refused set result }
{
    let refused = refused_among(view.refused, set);
    if refused.is_some() {
        return refused;
    }
    refused_logged(view.rest, view.pair, set)
}

/// Whether the set is neither known proved nor known refused. Refused sets are few, so they are asked first.
pub(crate) fn is_unknown(view: &View, set: AtomSet) -> bool
    ensures { IsTrue result ↔ (knows (lore_with view.now.cores.now view.now.refused.now view.now.rest.now view.now.pair) set ≡ false) }
{
    match refused_around(view, set) {
        Some(_) => false,
        None => !has_core(view, set),
    }
}
