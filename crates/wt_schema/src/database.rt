use wt_value::{Rows, Seq};

/// The rows of each table.
pub type RowsList = Seq<Rows>;

/// A database: a list of rows for each table, in the order of a schema's tables.
#[derive(Clone, Debug, PartialEq, Eq, Drop)]
pub struct Database {
    pub tables: RowsList,
}
