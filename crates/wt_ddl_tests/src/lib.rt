//! Tests of tokens, schemas and their reader: that the definitions are the ones that were meant, on examples whose answers
//! come from outside.
#![tactic(auto)]

#[cfg(test)]
mod tests;
