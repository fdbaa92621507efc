//! What the calls of a board hand over.
use wt_constraint::AtomSet;
use wt_value::Seq;

/// A claim under its number: a set of a pair, the pair by its number in the lot, is with a worker.
#[derive(Clone, Copy, Debug, PartialEq, Eq)]
pub struct Ticket {
    pub number: u64,
    pub worker: u32,
    pub pair: u32,
    pub set: AtomSet,
}

/// What was found of a set: a core that lies in it, or a set around it, or it itself, under which its pair is not provable.
#[derive(Clone, Copy, Debug, PartialEq, Eq)]
pub enum Verdict {
    Proved(AtomSet),
    Refused(AtomSet),
}

/// A verdict on a set of a pair.
#[derive(Clone, Copy, Debug, PartialEq, Eq)]
pub struct Entry {
    pub pair: u32,
    pub set: AtomSet,
    pub verdict: Verdict,
}

/// A log.
pub type Entries = Seq<Entry>;

/// What may happen to a board.
#[derive(Clone, Copy, Debug, PartialEq, Eq)]
pub enum Event {
    Claimed(Ticket),
    Posted(Ticket, Verdict),
    GivenBack(Ticket),
}

/// No claim of this number is out.
#[derive(Clone, Copy, Debug, PartialEq, Eq)]
pub struct NotClaimed {
    pub number: u64,
}
