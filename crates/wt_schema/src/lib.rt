//! Schemas of tables with their keys and references, and the databases that satisfy them.
#![tactic(auto)]

mod database;
mod lookup;
mod satisfying;
mod schema;

pub use database::{Database, RowsList};
pub use lookup::column_number;
pub use schema::{
    ColKind, Column, Columns, Key, Keys, Reference, References, Schema, Table, Tables,
};

fn may_be_shared<T: Send + Sync>() {}

/// A statement to the compiler: threads may share these types, and hand them over.
pub fn threads_share_schemas() {
    may_be_shared::<Schema>();
    may_be_shared::<Database>();
}
