//! Tests of several workers, on pairs whose rules are known, and by what one worker finds.
#![tactic(auto)]

#[cfg(test)]
mod tests;
