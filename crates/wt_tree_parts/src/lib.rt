//! Parts of the query tree of a plan: the names that it gives, the columns of FROM items, and conditions over them.
#![tactic(auto)]

mod condition;
mod items;
mod leaf;
mod name;

pub use condition::{push_pairs, test, together, where_of};
pub use items::{have_names, plain, star, with_names};
pub use leaf::{Leaf, LeafColumns, Sight, column_at, columns_at, table_name};
pub use name::{alias_of, place_names};
