//! A select list, item by item.
ghost use Rattle.std.specs.Prelude.{◌≡◌, ◌+◌, ◌<◌, ◌^◌, ◌++◌, [], length, map, filter, not, nat_lt, if◌then◌else◌, IfOk, OnOk};
ghost use Rattle.std.specs.List.{list_any};
ghost use Rattle.std.specs.Str.{bytes_eq};
ghost use Rattle.wt_ast.specs.declared.tree.Item.TheVariants as items;
ghost use Rattle.wt_plan.specs.Regular as regular;
ghost use Rattle.wt_query_rows.specs.Scopes as scopes;
ghost use Rattle.wt_query_plan.specs.Building as building;
ghost use Rattle.wt_query_plan.specs.Faults as faults;
ghost use Rattle.wt_query_plan.specs.Faults.{fault_if};
ghost use Rattle.wt_query_plan.specs.declared.fault.BuildFault.TheVariants as fault_kinds;
ghost use Rattle.wt_query_plan.specs.Telling.{Tells};
ghost use Rattle.wt_resolve.specs.Scoping.{outside, inside, columns_of};
ghost use Rattle.wt_query_rows.specs.declared.scope.ScopeColumn.{ScopeColumn};
ghost use Rattle.wt_select.specs.Listing.{Adds, Lists, item_told};

use std::alloc::Global;
use wt_ast::Item;
use wt_query_plan::{BuildError, BuildFault};
use wt_resolve::{Scope, ScopeItem, alias_outside, column, kind_at};
use wt_schema::ColKind;
use wt_value::{Name, WantOfMemory};

/// The columns of a query's output, in order: their names, their kinds, and their places among the columns in scope.
#[derive(Debug, Drop)]
pub struct Selected {
    pub names: Vec<Name>,
    pub kinds: Vec<ColKind>,
    pub places: Vec<u32>,
}

/// Adds so many numbers from the first one on.
#[tactic(auto, using(crate::proofs::Ranges::range_next))]
fn push_range(first: u32, count: u32, out: &mut Vec<u32>) -> Result<(), WantOfMemory>
    requires { first + count < 2 ^ 32 }
    ensures { OnOk result (out.new.items ≡ out.old.items ++ map (λ k. first + k) (regular.upto count)) }
{
    for k in 0..count {
        out.push(first + k)?;
    }
    Ok(())
}

/// The numbers below n.
#[tactic(auto, using(crate::proofs::Ranges::upto_next))]
pub fn upto(alloc: Global, n: u32) -> Result<Vec<u32>, WantOfMemory>
    ensures { IfOk result (λ numbers. numbers.items ≡ regular.upto n) }
{
    let mut numbers = Vec::with_capacity(alloc, n as usize)?;
    for k in 0..n {
        numbers.push(k)?;
    }
    Ok(numbers)
}

/// Adds the places of the columns of an item from its first one on, if it has the alias.
fn push_if_under(
    alias: &Name,
    item: &ScopeItem,
    first: u32,
    out: &mut Vec<u32>,
) -> Result<(), WantOfMemory>
    requires { first + length item.now.names < 2 ^ 32 }
    ensures { OnOk result (out.new.items ≡ out.old.items ++ map (λ k. first + k) (if bytes_eq alias.now item.now.alias then regular.upto (length item.now.names) else [])) }
{
    if item.has_alias(alias) {
        push_range(first, item.width() as u32, out)?;
    }
    Ok(())
}

/// The places of the columns of the alias.
fn places_under(alloc: Global, items: &[ScopeItem], alias: &Name) -> Result<Vec<u32>, WantOfMemory>
    requires narrow { length (columns_of items.now) < 2 ^ 32 }
    ensures { IfOk result (λ places. places.items ≡ building.places_where (scopes.is_of alias.now) (columns_of items.now)) }
{
    let mut places = Vec::new(alloc);
    let mut first: u32 = 0;
    let mut i = 0;
    'items: while i < items.len() {
        let item = &items[i];
        let count = item.width() as u32;
        push_if_under(alias, item, first, &mut places)?;
        first += count;
        i += 1;
    }
    Ok(places)
}

fn is_some_there(places: &[u32]) -> bool
    ensures { result ≡ not (faults.is_empty places.now) }
{
    !places.is_empty()
}

/// The fault of an alias that no item in scope has.
fn alias_kind(alloc: Global, scope: &Scope, alias: &Name) -> Result<BuildFault, WantOfMemory>
    ensures { IfOk result (λ fault. fault ≡ (if list_any (scopes.is_of alias.now) (outside scope.now) then fault_kinds.CorrelatedColumn else fault_kinds.UnknownColumn)) }
{
    if alias_outside(alloc, scope.schema, scope.outer, alias)? {
        Ok(BuildFault::CorrelatedColumn)
    } else {
        Ok(BuildFault::UnknownColumn)
    }
}

/// The places of the columns of `alias.*`.
fn places_of_alias(
    alloc: Global,
    scope: &Scope,
    alias: &Name,
    at: u32,
) -> Result<Vec<u32>, BuildError>
    requires narrow { length (inside scope.now) < 2 ^ 32 }
    ensures { Tells (faults.item_fault (outside scope.now) (inside scope.now) (items.AllOf alias.now at)) (λ places. places.items ≡ building.places_where (scopes.is_of alias.now) (inside scope.now)) result }
{
    let places = places_under(alloc, scope.items, alias)?;
    if is_some_there(&places) {
        return Ok(places);
    }
    let fault = alias_kind(alloc, scope, alias)?;
    Err(BuildError::Refused(fault, at))
}

/// Adds the names of all columns.
fn push_all(items: &[ScopeItem], out: &mut Vec<Name>) -> Result<(), WantOfMemory>
    ensures { OnOk result (out.new.items ≡ out.old.items ++ map (λ (s : ScopeColumn). s.name) (columns_of items.now)) }
{
    for item in items {
        item.push_names(out)?;
    }
    Ok(())
}

/// Adds the names of the columns of the alias.
fn push_under(items: &[ScopeItem], alias: &Name, out: &mut Vec<Name>) -> Result<(), WantOfMemory>
    ensures { OnOk result (out.new.items ≡ out.old.items ++ map (λ (s : ScopeColumn). s.name) (filter (scopes.is_of alias.now) (columns_of items.now))) }
{
    for item in items {
        if item.has_alias(alias) {
            item.push_names(out)?;
        }
    }
    Ok(())
}

/// Adds the output names of an item.
fn push_names(items: &[ScopeItem], item: &Item, out: &mut Vec<Name>) -> Result<(), WantOfMemory>
    ensures { OnOk result (out.new.items ≡ out.old.items ++ scopes.item_names (columns_of items.now) item.now) }
{
    match item {
        Item::Star { .. } => push_all(items, out),
        Item::AllOf { alias, .. } => push_under(items, alias, out),
        Item::Column { column, output } => {
            let name = match output {
                None => column.name.clone()?,
                Some(name) => name.clone()?,
            };
            out.push(name)?;
            Ok(())
        }
    }
}

/// Adds the kinds at the places.
fn push_kinds(kinds: &[ColKind], places: &[u32], out: &mut Vec<ColKind>) -> Result<(), WantOfMemory>
    ensures { OnOk result (out.new.items ≡ out.old.items ++ regular.kinds_at kinds.now places.now) }
{
    for place in places {
        out.push(kind_at(kinds, *place))?;
    }
    Ok(())
}

fn item_at(item: &Item) -> u32
    ensures { result ≡ faults.item_at item.now }
{
    match item {
        Item::Star { at } | Item::AllOf { at, .. } => *at,
        Item::Column { column, .. } => column.at,
    }
}

/// Adds the names and kinds of an item whose places are known, and the places.
#[tactic(auto, using(crate::proofs::Columns::item_kinds_at))]
fn push_columns(
    scope: &Scope,
    item: &Item,
    places: &[u32],
    out: &mut Selected,
) -> Result<(), WantOfMemory>
    requires even { length scope.now.kinds.now ≡ length (inside scope.now) }
    requires known { places.now ≡ building.item_places (inside scope.now) item.now }
    ensures { OnOk result (Adds (inside scope.now) scope.now.kinds.now item.now out.old out.new) }
{
    push_names(scope.items, item, &mut out.names)?;
    push_kinds(scope.kinds, places, &mut out.kinds)?;
    out.places.extend_from_slice(places)?;
    Ok(())
}

/// Whether so many columns more, behind others, are more than 16,384.
fn is_too_wide(before: usize, more: usize) -> bool
    ensures { result ≡ nat_lt 16384 (before + more) }
{
    before.saturating_add(more) > 16384
}

/// Adds the columns of an item whose places are known. A query has at most 16,384.
#[tactic(auto, using(crate::proofs::Columns::item_width))]
fn push_placed(
    scope: &Scope,
    item: &Item,
    places: &[u32],
    out: &mut Selected,
) -> Result<(), BuildError>
    requires even { length scope.now.kinds.now ≡ length (inside scope.now) }
    requires known { places.now ≡ building.item_places (inside scope.now) item.now }
    ensures { Tells (fault_if (nat_lt 16384 (length out.old.kinds.items + length (faults.item_kinds (inside scope.now) scope.now.kinds.now item.now))) fault_kinds.TooWide (faults.item_at item.now)) (λ _. Adds (inside scope.now) scope.now.kinds.now item.now out.old out.new) result }
{
    if is_too_wide(out.kinds.len(), places.len()) {
        return Err(BuildError::Refused(BuildFault::TooWide, item_at(item)));
    }
    push_columns(scope, item, places, out)?;
    Ok(())
}

/// Adds the columns of an item.
fn push_item(
    alloc: Global,
    scope: &Scope,
    item: &Item,
    out: &mut Selected,
) -> Result<(), BuildError>
    requires narrow { length (inside scope.now) < 2 ^ 32 }
    requires even { length scope.now.kinds.now ≡ length (inside scope.now) }
    ensures { Tells (item_told (outside scope.now) (inside scope.now) scope.now.kinds.now (length out.old.kinds.items) item.now) (λ _. Adds (inside scope.now) scope.now.kinds.now item.now out.old out.new) result }
{
    match item {
        Item::Star { .. } => {
            let places = upto(alloc, scope.kinds.len() as u32)?;
            push_placed(scope, item, &places, out)
        }
        Item::AllOf { alias, at } => {
            let places = places_of_alias(alloc, scope, alias, *at)?;
            push_placed(scope, item, &places, out)
        }
        Item::Column { column: name, .. } => {
            let place = column(alloc, scope, name)?;
            push_placed(scope, item, &[place], out)
        }
    }
}

/// The columns of a query's output.
pub fn select(alloc: Global, scope: &Scope, items: &[Item]) -> Result<Selected, BuildError>
    requires narrow { length (inside scope.now) < 2 ^ 32 }
    requires even { length scope.now.kinds.now ≡ length (inside scope.now) }
    ensures { Tells (faults.items_fault (outside scope.now) (inside scope.now) scope.now.kinds.now 0 items.now) (λ s. Lists (inside scope.now) scope.now.kinds.now items.now s) result }
{
    let mut selected = Selected {
        names: Vec::with_capacity(alloc, items.len())?,
        kinds: Vec::with_capacity(alloc, items.len())?,
        places: Vec::with_capacity(alloc, items.len())?,
    };
    let mut rest = items;
    'items: while let [item, more @ ..] = rest {
        push_item(alloc, scope, item, &mut selected)?;
        rest = more;
    }
    Ok(selected)
}
