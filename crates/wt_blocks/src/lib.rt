//! The query tree of a plan, as a definition, and the laws between the two.
//!
//! The definitions stand in `specs/`: a plan is cut into blocks and zones, their FROM items are counted in the order of the
//! text, and the tree of the whole is made from them.
#![tactic(auto)]

mod laws;

pub use laws::{plans_of_queries_have_texts, printed_tree_is_built_again, printed_tree_is_formed};
