//! Tests of the reader of rule files, on worked examples whose answers come from outside the program.
#![tactic(auto)]

#[cfg(test)]
mod tests;
