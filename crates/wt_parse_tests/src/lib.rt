//! Tests of the reader of statements and of the trees that it gives: that the definitions are the ones that were meant, on
//! examples whose answers come from outside.
#![tactic(auto)]

#[cfg(test)]
mod tests;
