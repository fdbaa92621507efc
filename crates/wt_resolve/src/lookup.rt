//! Names become places among the columns in scope.
ghost use Rattle.std.specs.Prelude.{◌≡◌, ◌+◌, ◌-◌, ◌^◌, ◌<◌, ◌≤◌, ◌++◌, min, length, filter, slice_get, Some, OnOk};
ghost use Rattle.std.specs.Str.{bytes_eq};
ghost use Rattle.wt_query_plan.specs.Building as building;
ghost use Rattle.wt_query_plan.specs.Faults as faults;
ghost use Rattle.wt_query_plan.specs.Telling.{Tells};
ghost use Rattle.wt_query_rows.specs.Scopes as scopes;
ghost use Rattle.wt_resolve.specs.Items.{item};
ghost use Rattle.wt_resolve.specs.Scoping as spec;

use crate::enclosing::seen_outside;
use std::alloc::Global;
use std::marker::Model;
use wt_ast::{ColumnName, FromPart};
use wt_query_plan::{BuildError, BuildFault};
use wt_schema::{ColKind, Column, Schema};
use wt_value::{Name, Names, WantOfMemory};

/// The names of an item's columns: those of a table stand in the schema.
#[derive(Drop)]
pub(crate) enum ItemNames<'a> {
    OfTable(&'a [Column]),
    Own(Names),
}

#[tactic(auto, using(crate::proofs::Lookups::name_at))]
fn column_name(columns: &[Column], i: usize) -> &Name
    requires { i < length columns.now }
    ensures { slice_get (scopes.column_names columns.now) i ≡ Some result.now }
{
    &columns[i].name
}

fn own_name(names: &[Name], i: usize) -> &Name
    requires { i < length names.now }
    ensures { slice_get names.now i ≡ Some result.now }
{
    &names[i]
}

/// A FROM item in scope, seen as its alias and the names of its columns. It borrows the alias, and the names of a table.
#[derive(Drop)]
pub struct ScopeItem<'a> {
    alias: &'a Name,
    names: ItemNames<'a>,
}

impl<'a> Model for ScopeItem<'a> {
    ghost use Rattle.wt_resolve.specs.Items.{Item};

    ghost Value = { Item };

    ghost use Rattle.wt_resolve.specs.Views.{names_of};

    ghost view = { λ i. record { alias = i.alias.now; names = names_of i.names } };
}

impl<'a> ScopeItem<'a> {
    /// A table.
    pub fn table(alias: &'a Name, columns: &'a [Column]) -> ScopeItem<'a>
        ensures { result ≡ item alias.now (scopes.column_names columns.now) }
    {
        ScopeItem {
            alias,
            names: ItemNames::OfTable(columns),
        }
    }

    /// A derived table.
    pub fn derived(alias: &'a Name, names: Names) -> ScopeItem<'a>
        ensures { result ≡ item alias.now names }
    {
        ScopeItem {
            alias,
            names: ItemNames::Own(names),
        }
    }

    /// Whether this is the alias.
    pub fn has_alias(&self, alias: &Name) -> bool
        ensures { result ≡ bytes_eq alias.now self.now.alias }
    {
        *alias == *self.alias
    }

    /// How many columns it has.
    pub fn width(&self) -> usize
        ensures { result ≡ length self.now.names }
    {
        match &self.names {
            ItemNames::OfTable(columns) => columns.len(),
            ItemNames::Own(names) => names.len(),
        }
    }

    /// The name of a column.
    pub fn name(&self, i: usize) -> &Name
        requires { i < length self.now.names }
        ensures { slice_get self.now.names i ≡ Some result.now }
    {
        match &self.names {
            ItemNames::OfTable(columns) => column_name(columns, i),
            ItemNames::Own(names) => own_name(names.as_slice(), i),
        }
    }

    /// Adds the names of its columns.
    pub fn push_names(&self, out: &mut Vec<Name>) -> Result<(), WantOfMemory>
        ensures { OnOk result (out.new.items ≡ out.old.items ++ self.now.names) }
    {
        let mut i = 0;
        'names: while i < self.width() {
            out.push(self.name(i).clone()?)?;
            i += 1;
        }
        Ok(())
    }
}

/// Whether no alias is written, or the one of the item.
fn alias_fits(written: &Option<Name>, item: &ScopeItem) -> bool
    ensures { result ≡ scopes.alias_fits written.now item.now.alias }
{
    match written {
        None => true,
        Some(written) => item.has_alias(written),
    }
}

/// How many columns of the item have the name.
#[tactic(auto, using(crate::proofs::Lookups::get_drop))]
fn count_named(name: &Name, item: &ScopeItem) -> usize
    ensures { result ≡ length (filter (bytes_eq name.now) item.now.names) }
{
    let mut count = 0;
    let mut i = 0;
    'names: while i < item.width() {
        if *name == *item.name(i) {
            count += 1;
        }
        i += 1;
    }
    count
}

/// How many columns of the item the name fits.
fn fitting_in(item: &ScopeItem, c: &ColumnName) -> usize
    ensures { result ≡ length (filter (scopes.fits c.now) (spec.item_columns item.now)) }
{
    if alias_fits(&c.table, item) {
        count_named(&c.name, item)
    } else {
        0
    }
}

/// How many columns the name fits. A number that would pass 64 bits stands at their greatest.
fn fitting(items: &[ScopeItem], c: &ColumnName) -> usize
    ensures { result ≡ min (2 ^ 64 - 1) (length (filter (scopes.fits c.now) (spec.columns_of items.now))) }
{
    let mut count: usize = 0;
    let mut i = 0;
    'items: while i < items.len() {
        let item = &items[i];
        count = count.saturating_add(fitting_in(item, c));
        i += 1;
    }
    count
}

/// The place of the first column of the item that has the name, the number of its columns where there is none.
#[tactic(auto, using(crate::proofs::Lookups::get_drop))]
fn first_named(name: &Name, item: &ScopeItem) -> usize
    ensures { result ≡ spec.named_at item.now.names name.now }
{
    let mut i = 0;
    'names: while i < item.width() {
        if *name == *item.name(i) {
            return i;
        }
        i += 1;
    }
    item.width()
}

/// The place of the first column of the item that the name fits, the number of its columns where there is none.
fn place_in(item: &ScopeItem, c: &ColumnName) -> usize
    ensures { result ≡ building.place_of (spec.item_columns item.now) c.now }
{
    if alias_fits(&c.table, item) {
        first_named(&c.name, item)
    } else {
        item.width()
    }
}

/// The place of the first column that the name fits, the number of columns where there is none.
fn place_of(items: &[ScopeItem], c: &ColumnName) -> usize
    requires narrow { length (spec.columns_of items.now) < 2 ^ 32 }
    ensures exact { result ≡ building.place_of (spec.columns_of items.now) c.now }
    ensures within { result ≤ length (spec.columns_of items.now) }
{
    let mut before = 0;
    let mut i = 0;
    'items: while i < items.len() {
        let item = &items[i];
        let place = place_in(item, c);
        if place < item.width() {
            return before + place;
        }
        before += place;
        i += 1;
    }
    before
}

/// What the names of a condition are looked up in: the schema, the FROM clauses of enclosing queries, the FROM items in scope,
/// and the kinds of their columns.
#[derive(Clone, Copy)]
pub struct Scope<'a> {
    pub schema: &'a Schema,
    pub outer: &'a [&'a FromPart],
    pub items: &'a [ScopeItem<'a>],
    pub kinds: &'a [ColKind],
}

/// The place of the one column that the name fits.
pub fn column(alloc: Global, scope: &Scope, c: &ColumnName) -> Result<u32, BuildError>
    requires narrow { length (spec.inside scope.now) < 2 ^ 32 }
    ensures { Tells (faults.column_fault (spec.outside scope.now) (spec.inside scope.now) c.now) (λ k. k ≡ building.place_of (spec.inside scope.now) c.now) result }
{
    match fitting(scope.items, c) {
        0 => {
            if seen_outside(alloc, scope.schema, scope.outer, c)? {
                Err(BuildError::Refused(BuildFault::CorrelatedColumn, c.at))
            } else {
                Err(BuildError::Refused(BuildFault::UnknownColumn, c.at))
            }
        }
        1 => Ok(place_of(scope.items, c) as u32),
        _ => Err(BuildError::Refused(BuildFault::AmbiguousColumn, c.at)),
    }
}
