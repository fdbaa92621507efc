//! Tests of the plans of statements as text, and of their rows, on examples whose answers come from outside.
#![tactic(auto)]

#[cfg(test)]
mod tests;
