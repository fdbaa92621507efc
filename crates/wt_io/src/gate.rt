//! A gate is told of each worker's moments, and promises nothing.

/// What a worker's section under the lock did: it handed out a ticket, logged a verdict, took a
/// ticket back, or found nothing to do.
#[derive(Clone, Copy, Debug, PartialEq, Eq)]
pub enum Moment {
    Claimed,
    Posted,
    GivenBack,
    Idle,
}

/// Whoever wants to be told of the moments of the workers, by their numbers.
pub trait Gate {
    /// Called outside the lock, after the section that the moment names.
    fn at(&self, worker: u32, moment: Moment);
}

/// A gate that does nothing.
#[derive(Clone, Copy, Debug, PartialEq, Eq)]
pub struct NoGate;

impl Gate for NoGate {
    fn at(&self, _worker: u32, _moment: Moment) {}
}
