//! The parts of CREATE TABLE statements as they are written.
use wt_schema::ColKind;
use wt_value::{Name, Seq};

/// A name and its offset.
#[derive(Debug, Drop)]
pub struct Named {
    pub name: Name,
    pub at: u32,
}

/// Names in a list.
pub type NamedList = Seq<Named>;

/// The target of a reference; without columns it is the table's primary key.
#[derive(Debug, Drop)]
pub struct Target {
    pub table: Named,
    pub columns: Option<NamedList>,
}

/// A rule of one column.
#[derive(Debug, Drop)]
pub enum ColumnRule {
    NotNull,
    Null,
    PrimaryKey,
    Unique,
    References(Target),
}

/// The rules of one column.
pub type ColumnRules = Seq<ColumnRule>;

/// A column with its rules.
#[derive(Debug, Drop)]
pub struct ColumnPart {
    pub name: Named,
    pub kind: ColKind,
    pub rules: ColumnRules,
}

/// A rule of a table over listed columns.
#[derive(Debug, Drop)]
pub enum TableRule {
    PrimaryKey(NamedList),
    Unique(NamedList),
    ForeignKey(NamedList, Target),
}

/// What stands between the commas of a table.
#[derive(Debug, Drop)]
pub enum Element {
    Column(ColumnPart),
    Rule(TableRule),
}

/// The elements of a table.
pub type Elements = Seq<Element>;
