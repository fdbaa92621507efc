//! Tests of the rows of forms and of congruence, on worked examples whose answers come from outside the
//! program.
#![tactic(auto)]

#[cfg(test)]
mod tests;
