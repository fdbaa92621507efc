//! The board: which sets of a lot's pairs are still to be proved, who is at which, and what was found.
#![tactic(auto)]

mod board;
mod claims;
mod known;
mod laws;
mod lowest;
mod near;
mod nodes;
mod open;
mod page;
mod pages;
mod rules;
mod words;

pub use board::Board;
pub use laws::{
    a_settled_board_settles_its_lot, findings_are_true, no_core_is_found_twice_alone,
    runs_keep_verdicts_true, settled_lots_tell_their_rules,
};
pub use std::alloc::AllocError as WantOfMemory;
pub use words::{Entries, Entry, Event, NotClaimed, Ticket, Verdict};

fn may_be_shared<T: Send + Sync>() {}

/// A statement to the compiler: threads may share these types, and hand them over.
pub fn threads_share_boards() {
    may_be_shared::<Board>();
    may_be_shared::<Entries>();
    may_be_shared::<Event>();
    may_be_shared::<Ticket>();
    may_be_shared::<Verdict>();
}
