//! Tests of the program's call over files in memory, on worked examples whose answers come from outside the program.
#![tactic(auto)]

#[cfg(test)]
mod tests;
