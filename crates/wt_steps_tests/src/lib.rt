//! Tests of the steps between forms and of the search for proofs, on worked examples whose answers come
//! from outside the program.
#![tactic(auto)]

#[cfg(test)]
mod tests;
