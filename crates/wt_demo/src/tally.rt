//! What was counted.
ghost use Rattle.std.specs.Prelude.{◌≡◌, ◌+◌, ◌≤◌, ◌^◌};
ghost use Rattle.wt_demo.specs.Tallies as spec;

/// How many statements were rewritten and how many refused; how often a rule was applied, and what the plans cost before and after.
#[derive(Clone, Copy, Debug, PartialEq, Eq)]
pub struct Tally {
    pub printed: u64,
    pub refused: u64,
    pub matches: u64,
    pub before: u64,
    pub after: u64,
}

impl Tally {
    /// Nothing was counted.
    pub fn new() -> Tally
        ensures { result ≡ spec.nothing_counted }
    {
        Tally {
            printed: 0,
            refused: 0,
            matches: 0,
            before: 0,
            after: 0,
        }
    }

    /// Both together, as far as 64 bits go.
    pub fn and(self, other: Tally) -> Tally
        ensures { result ≡ spec.both self other }
    {
        Tally {
            printed: self.printed.saturating_add(other.printed),
            refused: self.refused.saturating_add(other.refused),
            matches: self.matches.saturating_add(other.matches),
            before: self.before.saturating_add(other.before),
            after: self.after.saturating_add(other.after),
        }
    }
}
