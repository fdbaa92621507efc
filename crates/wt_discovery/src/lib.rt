//! `discover` on the caller's thread: the rule file of bounds, written to a sink.
#![tactic(auto)]

mod discovering;

pub use discovering::discover_alone;
