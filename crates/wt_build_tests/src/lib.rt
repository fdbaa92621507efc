//! Tests of the plans of statements on examples whose answers come from outside.
#![tactic(auto)]

#[cfg(test)]
mod tests;
