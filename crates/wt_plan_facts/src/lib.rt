//! What may be asked of plans over a schema: columns without NULL, unique sets of columns, references, and whether a plan is
//! regular. Matching and rewriting ask whatever answers this.
#![tactic(auto)]

mod facts;

pub use facts::Facts;
