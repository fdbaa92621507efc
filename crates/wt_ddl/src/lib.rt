//! Reads the CREATE TABLE statements of a schema.
#![tactic(auto)]

mod fault;
mod kinds;
mod linking;
mod names;
mod places;
mod reading;
mod rest;
mod rules;
mod settling;
mod statements;
mod syntax;
mod table;
mod targets;

pub use fault::{DdlError, DdlFault};
pub use reading::read_schema;
pub use syntax::{
    ColumnPart, ColumnRule, ColumnRules, Element, Elements, Named, NamedList, TableRule, Target,
};
pub use table::{OpenReference, OpenReferences, TableRead, TablesRead};
