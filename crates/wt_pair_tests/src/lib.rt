//! Tests of templates, pairs, constraints, rules, instances and the prover, on worked examples whose answers come from outside
//! the program.
#![tactic(auto)]

#[cfg(test)]
mod tests;
