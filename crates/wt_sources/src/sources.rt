//! What a FROM clause brings, table by table.
ghost use Rattle.std.specs.Prelude.{◌≡◌, ◌<◌, ◌++◌, ◌∷◌, [], not, nat_eq, map, length, slice_get, Some, IfOk, OnOk};
ghost use Rattle.std.specs.List.{list_any};
ghost use Rattle.std.specs.Option.{option_map, unwrap_or};
ghost use Rattle.std.specs.Str.{bytes_eq};
ghost use Rattle.wt_schema.specs.declared.schema.Column as declared;
ghost use Rattle.wt_schema.specs.declared.schema.Table.{Table};
ghost use Rattle.wt_plan.specs.Tree.{plan_tree};
ghost use Rattle.wt_plan.specs.Tree as plans;
ghost use Rattle.wt_query_rows.specs.Scopes as scopes;
ghost use Rattle.wt_query_plan.specs.Building as spec;
ghost use Rattle.wt_query_plan.specs.Faults as faults;
ghost use Rattle.wt_query_plan.specs.Faults.{first_of, fault_if};
ghost use Rattle.wt_query_plan.specs.declared.fault.BuildFault.TheVariants as kinds;
ghost use Rattle.wt_query_plan.specs.Telling.{Tells};
ghost use Rattle.wt_resolve.specs.declared.lookup.ScopeItem.{ScopeItem};
ghost use Rattle.wt_resolve.specs.Items.{item};
ghost use Rattle.wt_clause.specs.Items.{aliases, leaf};
ghost use Rattle.wt_sources.specs.Sources.{leaves_tree, Adds};

use crate::leaves::Leaves;
use std::alloc::Global;
use wt_plan::Plan;
use wt_query_plan::{BuildError, BuildFault};
use wt_resolve::ScopeItem;
use wt_schema::{ColKind, Column, Schema};
use wt_value::{Name, Names, WantOfMemory};

/// A query's plan, the names of its columns and their kinds.
#[derive(Drop)]
pub struct Built {
    pub plan: Plan,
    pub names: Vec<Name>,
    pub kinds: Vec<ColKind>,
}

/// The items of a FROM clause in the order of the text, and the kinds of their columns.
#[derive(Drop)]
pub struct Sources<'a> {
    pub items: Vec<ScopeItem<'a>>,
    pub kinds: Vec<ColKind>,
}

impl<'a> Sources<'a> {
    /// No items.
    pub fn new(alloc: Global) -> Sources<'a>
        ensures items { result.items.items ≡ [] }
        ensures kinds { result.kinds.items ≡ [] }
    {
        Sources {
            items: Vec::new(alloc),
            kinds: Vec::new(alloc),
        }
    }
}

/// The columns of the table of a number.
fn columns_at(schema: &Schema, number: usize) -> &[Column]
    requires { number < length schema.now.tables }
    ensures { option_map (λ (t : Table). t.columns) (slice_get schema.now.tables number) ≡ Some result.now }
{
    schema.tables.as_slice()[number].columns.as_slice()
}

/// The number of the table of a name, and its columns.
#[tactic(auto, using(crate::proofs::Names::tables))]
fn known_table<'a>(
    schema: &'a Schema,
    name: &Name,
    at: u32,
) -> Result<(u32, &'a [Column]), BuildError>
    ensures { Tells (fault_if (not (list_any (λ (t : Table). bytes_eq t.name name.now) schema.now.tables)) kinds.UnknownTable at)
        (λ found. (found.0 ≡ spec.table_number schema.now.tables name.now) × (found.1.now ≡ scopes.columns_named schema.now.tables name.now)) result }
{
    match schema.table_number(name) {
        Some(number) => Ok((number as u32, columns_at(schema, number))),
        None => Err(BuildError::Refused(BuildFault::UnknownTable, at)),
    }
}

fn has_alias(items: &[ScopeItem], alias: &Name) -> bool
    ensures { result ≡ list_any (λ (i : ScopeItem). bytes_eq alias.now i.alias) items.now }
{
    items.iter().any(|item| item.has_alias(alias))
}

/// Refuses an alias that an item has.
fn alias_told(items: &[ScopeItem], alias: &Name, at: u32) -> Result<(), BuildError>
    ensures { Tells (faults.alias_fault (aliases items.now) alias.now at) (λ _. Unit {0}) result }
{
    if has_alias(items, alias) {
        Err(BuildError::Refused(BuildFault::DuplicateAlias, at))
    } else {
        Ok(())
    }
}

/// The alias of a table, its name where none is written.
fn alias_of<'a>(name: &'a Name, alias: &'a Option<Name>) -> &'a Name
    ensures { result.now ≡ unwrap_or alias.now name.now }
{
    match alias {
        None => name,
        Some(alias) => alias,
    }
}

fn push_kinds(columns: &[Column], out: &mut Vec<ColKind>) -> Result<(), WantOfMemory>
    ensures { OnOk result (out.new.items ≡ out.old.items ++ map (λ (c : declared.Column). c.kind) columns.now) }
{
    for column in columns {
        out.push(column.kind)?;
    }
    Ok(())
}

/// Adds a table.
fn push_table<'a>(
    alias: &'a Name,
    columns: &'a [Column],
    out: &mut Sources<'a>,
) -> Result<(), WantOfMemory>
    ensures { OnOk result (Adds (item alias.now (scopes.column_names columns.now) ∷ []) (map (λ (c : declared.Column). c.kind) columns.now) out.old out.new) }
{
    out.items.push(ScopeItem::table(alias, columns))?;
    push_kinds(columns, &mut out.kinds)
}

/// A table in FROM.
pub fn table_leaf<'a>(
    schema: &'a Schema,
    name: &'a Name,
    alias: &'a Option<Name>,
    at: u32,
    alias_at: u32,
    out: &mut Sources<'a>,
) -> Result<Leaves, BuildError>
    ensures { Tells (first_of (fault_if (not (list_any (λ (t : Table). bytes_eq t.name name.now) schema.now.tables)) kinds.UnknownTable at) (faults.alias_fault (aliases out.old.items.items) (unwrap_or alias.now name.now) alias_at))
        (λ leaves. (leaves_tree leaves ≡ leaf (plans.table (spec.table_number schema.now.tables name.now) (length (scopes.columns_named schema.now.tables name.now)))) × Adds (item (unwrap_or alias.now name.now) (scopes.column_names (scopes.columns_named schema.now.tables name.now)) ∷ []) (map (λ (c : declared.Column). c.kind) (scopes.columns_named schema.now.tables name.now)) out.old out.new) result }
{
    let (number, columns) = known_table(schema, name, at)?;
    let alias = alias_of(name, alias);
    alias_told(&out.items, alias, alias_at)?;
    push_table(alias, columns, out)?;
    Ok(Leaves::One(Plan::Table(number, columns.len() as u32)))
}

/// The names of a derived table's columns: those of its column list, if it has one.
fn derived_names(columns: &Option<Names>, names: Vec<Name>, at: u32) -> Result<Names, BuildError>
    ensures { Tells (fault_if (not (nat_eq (length (unwrap_or columns.now names.items)) (length names.items))) kinds.ColumnListWidth at) (λ ns. ns ≡ unwrap_or columns.now names.items) result }
{
    match columns {
        None => Ok(Names::from_vec(names)),
        Some(written) => {
            if written.len() != names.len() {
                return Err(BuildError::Refused(BuildFault::ColumnListWidth, at));
            }
            Ok(written.clone()?)
        }
    }
}

/// Adds a derived table.
fn push_derived<'a>(
    alias: &'a Name,
    names: Names,
    kinds: &[ColKind],
    out: &mut Sources<'a>,
) -> Result<(), WantOfMemory>
    ensures { OnOk result (Adds (item alias.now names ∷ []) kinds.now out.old out.new) }
{
    out.items.push(ScopeItem::derived(alias, names))?;
    out.kinds.extend_from_slice(kinds)?;
    Ok(())
}

/// A derived table.
pub fn derived_leaf<'a>(
    built: Built,
    alias: &'a Name,
    columns: &Option<Names>,
    at: u32,
    out: &mut Sources<'a>,
) -> Result<Leaves, BuildError>
    ensures { Tells (first_of (fault_if (not (nat_eq (length (unwrap_or columns.now built.names.items)) (length built.names.items))) kinds.ColumnListWidth at) (faults.alias_fault (aliases out.old.items.items) alias.now at))
        (λ leaves. (leaves_tree leaves ≡ leaf (plan_tree built.plan)) × Adds (item alias.now (unwrap_or columns.now built.names.items) ∷ []) built.kinds.items out.old out.new) result }
{
    let Built { plan, names, kinds } = built;
    let names = derived_names(columns, names, at)?;
    alias_told(&out.items, alias, at)?;
    push_derived(alias, names, &kinds, out)?;
    Ok(Leaves::One(plan))
}
