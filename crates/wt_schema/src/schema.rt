ghost use Rattle.wt_schema.specs.Lawful.{IsSchema, IsSchema-prop};

use wt_value::{Cols, Name, Seq};

/// The kind of a column: 64-bit whole numbers, or texts.
#[derive(Clone, Copy, Debug, PartialEq, Eq)]
pub enum ColKind {
    Int,
    Text,
}

/// A column; `not_null` says that NOT NULL was written.
#[derive(Clone, Debug, PartialEq, Eq, Drop)]
pub struct Column {
    pub name: Name,
    pub kind: ColKind,
    pub not_null: bool,
}

/// The columns of a table.
pub type Columns = Seq<Column>;

/// A PRIMARY KEY or UNIQUE key, by column numbers.
#[derive(Clone, Debug, PartialEq, Eq, Drop)]
pub struct Key {
    pub columns: Cols,
    pub primary: bool,
}

/// The keys of a table.
pub type Keys = Seq<Key>;

/// A FOREIGN KEY with MATCH SIMPLE: its columns, the number of the table that it refers to, and that table's columns.
#[derive(Clone, Debug, PartialEq, Eq, Drop)]
pub struct Reference {
    pub columns: Cols,
    pub table: u32,
    pub target: Cols,
}

/// The references of a table.
pub type References = Seq<Reference>;

/// A table with its columns, keys and references.
#[derive(Clone, Debug, PartialEq, Eq, Drop)]
pub struct Table {
    pub name: Name,
    pub columns: Columns,
    pub keys: Keys,
    pub references: References,
}

/// The tables of a schema.
pub type Tables = Seq<Table>;

/// A schema of at most 256 tables with different names, each with 1 to 64 columns with different names, and keys and
/// references over columns that are there.
#[derive(Debug, Drop)]
pub struct Schema {
    pub tables: Tables,
    pub ghost lawful: { IsSchema tables } by { IsSchema-prop tables },
}
