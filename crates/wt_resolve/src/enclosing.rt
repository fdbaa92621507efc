//! The columns of enclosing queries. They are looked for only where a name fits no column in scope, so they are gathered then.
ghost use Rattle.std.specs.Prelude.{◌≡◌, ◌++◌, List, [], ◌∷◌, map, filter, flat_map, IfOk, OnOk};
ghost use Rattle.std.specs.List.{list_any};
ghost use Rattle.std.specs.Option.{unwrap_or};
ghost use Rattle.wt_ast.specs.Tree.{query_tree, from_tree};
ghost use Rattle.wt_query_rows.specs.Scopes as scopes;
ghost use Rattle.wt_resolve.specs.Scoping as spec;

use std::alloc::Global;
use wt_ast::{ColumnName, FromPart, Item, Query};
use wt_query_rows::ScopeColumn;
use wt_schema::{Column, Schema};
use wt_value::{Name, Names, WantOfMemory};

/// The columns of the table of a name, none where the schema has no such table.
fn columns_named<'a>(schema: &'a Schema, name: &Name) -> &'a [Column]
    ensures { result.now ≡ scopes.columns_named schema.now.tables name.now }
{
    let mut tables = schema.tables.as_slice();
    'tables: while let [table, others @ ..] = tables {
        if table.name == *name {
            return table.columns.as_slice();
        }
        tables = others;
    }
    &[]
}

/// Adds a column for each name.
fn push_columns(
    alias: &Name,
    names: &[Name],
    out: &mut Vec<ScopeColumn>,
) -> Result<(), WantOfMemory>
    ensures { OnOk result (out.new.items ≡ out.old.items ++ map (scopes.in_scope alias.now) names.now) }
{
    for name in names {
        out.push(ScopeColumn {
            alias: alias.clone()?,
            name: name.clone()?,
        })?;
    }
    Ok(())
}

/// The names of a table's columns.
fn column_names(alloc: Global, columns: &[Column]) -> Result<Names, WantOfMemory>
    ensures { IfOk result (λ names. names ≡ scopes.column_names columns.now) }
{
    let mut names = Names::new(alloc);
    for column in columns {
        names.push(column.name.clone()?)?;
    }
    Ok(names)
}

/// Adds the name of each column.
fn push_all_names(scope: &[ScopeColumn], out: &mut Vec<Name>) -> Result<(), WantOfMemory>
    ensures { OnOk result (out.new.items ≡ out.old.items ++ map (λ (s : ScopeColumn). s.name) scope.now) }
{
    for column in scope {
        out.push(column.name.clone()?)?;
    }
    Ok(())
}

/// Adds the columns that a FROM clause has in scope.
#[cycle(scope)]
fn push_scope(
    alloc: Global,
    schema: &Schema,
    from: &FromPart,
    out: &mut Vec<ScopeColumn>,
) -> Result<(), WantOfMemory>
    ensures { OnOk result (out.new.items ≡ out.old.items ++ scopes.scope_of schema.now.tables (from_tree from.now)) }
{
    match from {
        FromPart::Table { name, alias, .. } => {
            let names = column_names(alloc, columns_named(schema, name))?;
            match alias {
                None => push_columns(name, names.as_slice(), out),
                Some(alias) => push_columns(alias, names.as_slice(), out),
            }
        }
        FromPart::Derived {
            query,
            alias,
            columns,
            ..
        } => match columns {
            None => {
                let mut names = Vec::new(alloc);
                push_names(alloc, schema, query, &mut names)?;
                push_columns(alias, &names, out)
            }
            Some(names) => push_columns(alias, names.as_slice(), out),
        },
        FromPart::Inner { left, right, .. }
        | FromPart::Left { left, right, .. }
        | FromPart::Right { left, right, .. }
        | FromPart::Comma { left, right, .. } => {
            push_scope(alloc, schema, left, out)?;
            push_scope(alloc, schema, right, out)
        }
    }
}

/// Adds the output names of a query.
#[cycle(scope)]
fn push_names(
    alloc: Global,
    schema: &Schema,
    query: &Query,
    out: &mut Vec<Name>,
) -> Result<(), WantOfMemory>
    ensures { OnOk result (out.new.items ≡ out.old.items ++ scopes.output_names schema.now.tables (query_tree query.now)) }
{
    let mut scope = Vec::new(alloc);
    push_scope(alloc, schema, &query.from, &mut scope)?;
    push_item_names(&scope, query.items.as_slice(), out)
}

/// Adds the output names of the items.
fn push_item_names(
    scope: &[ScopeColumn],
    items: &[Item],
    out: &mut Vec<Name>,
) -> Result<(), WantOfMemory>
    ensures { OnOk result (out.new.items ≡ out.old.items ++ flat_map (scopes.item_names scope.now) items.now) }
{
    for item in items {
        push_one(scope, item, out)?;
    }
    Ok(())
}

/// Adds the output names of one item.
fn push_one(scope: &[ScopeColumn], item: &Item, out: &mut Vec<Name>) -> Result<(), WantOfMemory>
    ensures { OnOk result (out.new.items ≡ out.old.items ++ scopes.item_names scope.now item.now) }
{
    match item {
        Item::Star { .. } => push_all_names(scope, out),
        Item::AllOf { alias, .. } => push_names_of(alias, scope, out),
        Item::Column { column, output } => {
            let name = match output {
                None => column.name.clone()?,
                Some(name) => name.clone()?,
            };
            out.push(name)?;
            Ok(())
        }
    }
}

/// Adds the name of each column of the alias.
fn push_names_of(
    alias: &Name,
    scope: &[ScopeColumn],
    out: &mut Vec<Name>,
) -> Result<(), WantOfMemory>
    ensures { OnOk result (out.new.items ≡ out.old.items ++ map (λ (s : ScopeColumn). s.name) (filter (scopes.is_of alias.now) scope.now)) }
{
    for column in scope {
        if *alias == column.alias {
            out.push(column.name.clone()?)?;
        }
    }
    Ok(())
}

/// Whether the name fits the column.
fn fits(c: &ColumnName, s: &ScopeColumn) -> bool
    ensures { result ≡ scopes.fits c.now s.now }
{
    match &c.table {
        None => c.name == s.name,
        Some(alias) => *alias == s.alias && c.name == s.name,
    }
}

/// The columns of enclosing queries.
fn outer_columns(
    alloc: Global,
    schema: &Schema,
    outer: &[&FromPart],
) -> Result<Vec<ScopeColumn>, WantOfMemory>
    ensures { IfOk result (λ columns. columns.items ≡ spec.outer_columns schema.now.tables outer.now) }
{
    let mut columns = Vec::new(alloc);
    for from in outer {
        push_scope(alloc, schema, from, &mut columns)?;
    }
    Ok(columns)
}

fn some_fits(columns: &[ScopeColumn], c: &ColumnName) -> bool
    ensures { result ≡ list_any (scopes.fits c.now) columns.now }
{
    columns.iter().any(|s| fits(c, s))
}

fn some_is_of(columns: &[ScopeColumn], alias: &Name) -> bool
    ensures { result ≡ list_any (scopes.is_of alias.now) columns.now }
{
    columns.iter().any(|s| *alias == s.alias)
}

/// Whether a column of an enclosing query has the name.
pub fn seen_outside(
    alloc: Global,
    schema: &Schema,
    outer: &[&FromPart],
    c: &ColumnName,
) -> Result<bool, WantOfMemory>
    ensures { IfOk result (λ seen. seen ≡ list_any (scopes.fits c.now) (spec.outer_columns schema.now.tables outer.now)) }
{
    let columns = outer_columns(alloc, schema, outer)?;
    Ok(some_fits(&columns, c))
}

/// Whether a FROM item of an enclosing query has the alias.
pub fn alias_outside(
    alloc: Global,
    schema: &Schema,
    outer: &[&FromPart],
    alias: &Name,
) -> Result<bool, WantOfMemory>
    ensures { IfOk result (λ seen. seen ≡ list_any (scopes.is_of alias.now) (spec.outer_columns schema.now.tables outer.now)) }
{
    let columns = outer_columns(alloc, schema, outer)?;
    Ok(some_is_of(&columns, alias))
}
