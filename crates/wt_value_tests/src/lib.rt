//! Tests of values, rows and predicates, on worked examples whose answers come from the standard.
#![tactic(auto)]

#[cfg(test)]
mod tests;
