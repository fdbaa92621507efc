//! FROM items, and the names of their columns.
ghost use Rattle.std.specs.Prelude.{◌≡◌, ◌<◌, length, get_or, map, IfOk};
ghost use Rattle.wt_query_rows.specs.Scopes.{in_scope, column_names};
ghost use Rattle.wt_blocks.specs.Printed as spec;
ghost use Rattle.wt_tree_parts.specs.Leaves.{leaf_names, leaf_scope, scope_of_leaves};

use crate::name::place_name;
use std::alloc::Global;
use wt_ast::{ColumnName, ColumnNames};
use wt_schema::{Column, Schema};
use wt_value::{Name, WantOfMemory};

/// What columns a FROM item has: those of the table of a number, or so many places of a derived table.
#[derive(Clone, Copy)]
pub enum LeafColumns {
    Table(u32),
    Places(u32),
}

/// A FROM item.
#[derive(Drop)]
pub struct Leaf {
    pub alias: Name,
    pub columns: LeafColumns,
}

/// The columns that a condition may name: those of some FROM items, over the tables of a schema.
#[derive(Clone, Copy)]
pub struct Sight<'a> {
    pub schema: &'a Schema,
    pub leaves: &'a [Leaf],
}

/// The columns of the table of a number.
#[tactic(auto, using(crate::proofs::Views::tables))]
pub fn table_columns(schema: &Schema, number: u32) -> &[Column]
    ensures { column_names result.now ≡ spec.table_columns schema.now.tables number }
{
    let tables = schema.tables.as_slice();
    let number = number as usize;
    if number < tables.len() {
        tables[number].columns.as_slice()
    } else {
        &[]
    }
}

/// The name of the table of a number.
#[tactic(auto, using(crate::proofs::Views::tables))]
pub fn table_name(alloc: Global, schema: &Schema, number: u32) -> Result<Name, WantOfMemory>
    ensures { IfOk result (λ name. name ≡ spec.table_name schema.now.tables number) }
{
    let tables = schema.tables.as_slice();
    let number = number as usize;
    if number < tables.len() {
        Ok(tables[number].name.clone()?)
    } else {
        Name::from_bytes(alloc, &[])
    }
}

#[tactic(auto, using(crate::proofs::Views::places))]
fn width(schema: &Schema, columns: LeafColumns) -> usize
    ensures { result ≡ length (leaf_names schema.now.tables columns) }
{
    match columns {
        LeafColumns::Table(number) => table_columns(schema, number).len(),
        LeafColumns::Places(width) => width as usize,
    }
}

/// The name of a column of a FROM item.
#[tactic(auto, using(crate::proofs::Views::places))]
fn leaf_name(
    alloc: Global,
    schema: &Schema,
    columns: LeafColumns,
    place: u32,
) -> Result<Name, WantOfMemory>
    requires { place < length (leaf_names schema.now.tables columns) }
    ensures { IfOk result (λ name. name ≡ get_or (leaf_names schema.now.tables columns) place name) }
{
    match columns {
        LeafColumns::Table(number) => Ok(
            table_columns(schema, number)[place as usize].name.clone()?,
        ),
        LeafColumns::Places(_) => place_name(alloc, place),
    }
}

/// The column at a place among those of the FROM items.
pub fn column_at(alloc: Global, sight: &Sight, place: u32) -> Result<ColumnName, WantOfMemory>
    ensures { IfOk result (λ c. c ≡ spec.column_at (scope_of_leaves sight.now.schema.now.tables sight.now.leaves.now) place) }
{
    let schema = sight.schema;
    let mut leaves = sight.leaves;
    let mut place = place;
    'leaves: while let [leaf, others @ ..] = leaves {
        let columns = width(schema, leaf.columns);
        if (place as usize) < columns {
            return Ok(ColumnName {
                table: Some(leaf.alias.clone()?),
                name: leaf_name(alloc, schema, leaf.columns, place)?,
                at: 0,
            });
        }
        place -= columns as u32;
        leaves = others;
    }
    Ok(ColumnName {
        table: Some(Name::from_bytes(alloc, &[])?),
        name: Name::from_bytes(alloc, &[])?,
        at: 0,
    })
}

/// The columns at these places.
pub fn columns_at(alloc: Global, sight: &Sight, cols: &[u32]) -> Result<ColumnNames, WantOfMemory>
    ensures { IfOk result (λ cs. cs ≡ spec.columns_at (scope_of_leaves sight.now.schema.now.tables sight.now.leaves.now) cols.now) }
{
    let mut columns = ColumnNames::new(alloc);
    for k in cols {
        columns.push(column_at(alloc, sight, *k)?)?;
    }
    Ok(columns)
}
