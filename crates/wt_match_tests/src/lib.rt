//! Tests of the matches of rules in plans.
#![tactic(auto)]

#[cfg(test)]
mod tests;
