//! Tests of the texts of queries: what is printed, and that it is read again and printed to itself.
#![tactic(auto)]

#[cfg(test)]
mod tests;
