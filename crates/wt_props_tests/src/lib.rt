//! Tests of known facts of plans on examples whose answers come from outside.
#![tactic(auto)]

#[cfg(test)]
mod tests;
