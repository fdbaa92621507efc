//! Tables as they stand until every table is known.
use crate::syntax::Target;
use wt_schema::{Columns, Keys};
use wt_value::{Cols, Name, Seq};

/// A reference whose target is not looked up yet.
#[derive(Debug, Drop)]
pub struct OpenReference {
    pub columns: Cols,
    pub target: Target,
}

/// The references of a table whose targets are not looked up yet.
pub type OpenReferences = Seq<OpenReference>;

/// A table that was read, its keys and references by column numbers, in text order.
#[derive(Debug, Drop)]
pub struct TableRead {
    pub name: Name,
    pub columns: Columns,
    pub keys: Keys,
    pub references: OpenReferences,
}

/// The tables that were read.
pub type TablesRead = Seq<TableRead>;
