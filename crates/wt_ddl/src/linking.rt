//! The targets of references, behind the last statement.
ghost use Rattle.std.specs.Prelude.{◌≡◌, ◌==◌, ◌≤◌, ◌<◌, [], length, Some, IfSome, IfOk, IfErr};
ghost use Rattle.std.specs.List.{All, list_all, list_any};
ghost use Rattle.wt_ddl.specs.Linking as spec;
ghost use Rattle.wt_ddl.specs.Giving.{Agrees, Puts};
ghost use Rattle.wt_ddl.specs.Places as spec_places;
ghost use Rattle.wt_ddl.specs.Places.{Placed};
ghost use Rattle.wt_ddl.specs.Settling.{in_turn, is_among};

use crate::fault::{DdlError, DdlFault};
use crate::places::{KeyPlaces, places_of};
use crate::settling::{copied, is_among};
use crate::syntax::{Named, NamedList};
use crate::table::{OpenReference, TableRead, TablesRead};
use std::alloc::Global;
use wt_schema::{ColKind, Column, Key, Reference, References, Table, Tables, column_number};
use wt_value::{Cols, Name, Seq};

fn table_number(tables: &[TableRead], name: &Name) -> Option<usize>
    ensures value { result ≡ spec.table_number tables.now name.now }
    ensures within { IfSome result (λ n. n < length tables.now) }
{
    tables.iter().position(|table| table.name == *name)
}

fn find_one(columns: &[Column], numbers: &mut Cols, named: &Named) -> Result<(), DdlError>
    requires { length columns.now ≤ 64 }
    ensures { Puts result numbers.new (spec.find_one columns.now numbers.old named.now) }
{
    let Some(number) = column_number(columns, &named.name) else {
        return Err(DdlError::Fault(DdlFault::UnknownColumn, named.at));
    };
    numbers.push(number as u32)?;
    Ok(())
}

fn found(alloc: Global, columns: &[Column], names: &[Named]) -> Result<Cols, DdlError>
    requires { length columns.now ≤ 64 }
    ensures { Agrees result (in_turn (spec.find_one columns.now) [] names.now) }
{
    let mut numbers = Cols::new(alloc);
    let mut i = 0;
    'names: while i < names.len() {
        find_one(columns, &mut numbers, &names[i])?;
        i += 1;
    }
    Ok(numbers)
}

fn has_exactly(columns: &[u32], key: &Key) -> bool
    ensures { result ≡ spec.has_exactly columns.now key.now }
{
    as_many(key.columns.as_slice(), columns) && all_among(key.columns.as_slice(), columns)
}

fn as_many(a: &[u32], b: &[u32]) -> bool
    ensures { result ≡ (length a.now == length b.now) }
{
    a.len() == b.len()
}

fn all_among(numbers: &[u32], columns: &[u32]) -> bool
    ensures { result ≡ list_all (λ c. is_among c columns.now) numbers.now }
{
    numbers.iter().all(|number| is_among(*number, columns))
}

fn is_key(columns: &[u32], keys: &[Key], places: &KeyPlaces) -> bool
    ensures { result ≡ list_any (spec.has_exactly columns.now) keys.now }
{
    if let Some(place) = places.find(columns) {
        if place < keys.len() && has_exactly(columns, &keys[place]) {
            return true;
        }
    }
    any_exactly(columns, keys)
}

fn any_exactly(columns: &[u32], keys: &[Key]) -> bool
    ensures { result ≡ list_any (spec.has_exactly columns.now) keys.now }
{
    keys.iter().any(|key| has_exactly(columns, key))
}

fn same_kind(a: ColKind, b: ColKind) -> bool
    ensures { result ≡ spec.same_kind a b }
{
    match (a, b) {
        (ColKind::Int, ColKind::Int) => true,
        (ColKind::Text, ColKind::Text) => true,
        _ => false,
    }
}

// The kind of a column, by its number.
fn kind_at(columns: &[Column], number: u32) -> ColKind
    ensures { result ≡ spec.kind_at columns.now number }
{
    let place = number as usize;
    if place < columns.len() {
        columns[place].kind
    } else {
        ColKind::Int
    }
}

fn same_kinds(here: &[Column], mut from: &[u32], there: &[Column], mut to: &[u32]) -> bool
    ensures { result ≡ spec.same_kinds here.now from.entry.now there.now to.entry.now }
{
    'pairs: while let [column, more_columns @ ..] = from {
        let [other, more_others @ ..] = to else {
            return true;
        };
        if !same_kind(kind_at(here, *column), kind_at(there, *other)) {
            return false;
        }
        from = more_columns;
        to = more_others;
    }
    true
}

fn of_width(key: &Key, width: usize, at: u32) -> Result<Cols, DdlError>
    ensures { Agrees result (spec.of_width (Some key.now) width at) }
{
    if key.columns.len() != width {
        return Err(DdlError::Fault(DdlFault::ReferenceWidth, at));
    }
    copied(&key.columns)
}

fn primary_target(keys: &[Key], places: &KeyPlaces, width: usize, at: u32) -> Result<Cols, DdlError>
    requires { places.now.primary ≡ spec_places.primary_place keys.now }
    ensures { Agrees result (spec.primary_target keys.now width at) }
{
    match places.primary {
        None => Err(DdlError::Fault(DdlFault::ReferenceNotKey, at)),
        Some(place) => of_width(&keys[place], width, at),
    }
}

fn named_target(
    alloc: Global,
    table: &TableRead,
    places: &KeyPlaces,
    names: &[Named],
    width: usize,
    at: u32,
) -> Result<Cols, DdlError>
    requires { length table.now.columns ≤ 64 }
    ensures { Agrees result (spec.named_target table.now names.now width at) }
{
    if names.len() != width {
        return Err(DdlError::Fault(DdlFault::ReferenceWidth, at));
    }
    let columns = found(alloc, table.columns.as_slice(), names)?;
    if !is_key(columns.as_slice(), table.keys.as_slice(), places) {
        return Err(DdlError::Fault(DdlFault::ReferenceNotKey, at));
    }
    Ok(columns)
}

fn target_columns(
    alloc: Global,
    table: &TableRead,
    places: &KeyPlaces,
    names: &Option<NamedList>,
    width: usize,
    at: u32,
) -> Result<Cols, DdlError>
    requires narrow { length table.now.columns ≤ 64 }
    requires placed { places.now.primary ≡ spec_places.primary_place table.now.keys }
    ensures { Agrees result (spec.target_columns table.now names.now width at) }
{
    match names {
        None => primary_target(table.keys.as_slice(), places, width, at),
        Some(names) => named_target(alloc, table, places, names.as_slice(), width, at),
    }
}

// The reference to a table that is there.
fn linked_to(
    alloc: Global,
    columns: &[Column],
    reference: &OpenReference,
    number: u32,
    table: &TableRead,
    places: &KeyPlaces,
) -> Result<Reference, DdlError>
    requires narrow { length table.now.columns ≤ 64 }
    requires placed { places.now.primary ≡ spec_places.primary_place table.now.keys }
    ensures { Agrees result (spec.linked_to columns.now reference.now number table.now) }
{
    let at = reference.target.table.at;
    let target = target_columns(
        alloc,
        table,
        places,
        &reference.target.columns,
        reference.columns.len(),
        at,
    )?;
    if !same_kinds(
        columns,
        reference.columns.as_slice(),
        table.columns.as_slice(),
        target.as_slice(),
    ) {
        return Err(DdlError::Fault(DdlFault::ReferenceTypes, at));
    }
    let columns = copied(&reference.columns)?;
    Ok(Reference {
        columns,
        table: number,
        target,
    })
}

#[tactic(auto, unfolding(crate::specs::Linking::linked))]
fn linked(
    alloc: Global,
    tables: &[TableRead],
    places: &[KeyPlaces],
    columns: &[Column],
    reference: &OpenReference,
) -> Result<Reference, DdlError>
    requires few { length tables.now ≤ 256 }
    requires narrow { All (λ t. length t.columns ≤ 64) tables.now }
    requires placed { Placed tables.now places.now }
    ensures { Agrees result (spec.linked tables.now columns.now reference.now) }
{
    let Some(number) = table_number(tables, &reference.target.table.name) else {
        return Err(DdlError::Fault(DdlFault::UnknownTable, reference.target.table.at));
    };
    linked_to(
        alloc,
        columns,
        reference,
        number as u32,
        &tables[number],
        &places[number],
    )
}

fn link_one(
    alloc: Global,
    tables: &[TableRead],
    places: &[KeyPlaces],
    columns: &[Column],
    done: &mut References,
    reference: &OpenReference,
) -> Result<(), DdlError>
    requires few { length tables.now ≤ 256 }
    requires narrow { All (λ t. length t.columns ≤ 64) tables.now }
    requires placed { Placed tables.now places.now }
    ensures { Puts result done.new (spec.link_one tables.now columns.now done.old reference.now) }
{
    let one = linked(alloc, tables, places, columns, reference)?;
    done.push(one)?;
    Ok(())
}

fn table_links(
    alloc: Global,
    tables: &[TableRead],
    places: &[KeyPlaces],
    columns: &[Column],
    unlinked: &[OpenReference],
) -> Result<References, DdlError>
    requires few { length tables.now ≤ 256 }
    requires narrow { All (λ t. length t.columns ≤ 64) tables.now }
    requires placed { Placed tables.now places.now }
    ensures { Agrees result (in_turn (spec.link_one tables.now columns.now) [] unlinked.now) }
{
    let mut done = References::new(alloc);
    let mut i = 0;
    'references: while i < unlinked.len() {
        link_one(alloc, tables, places, columns, &mut done, &unlinked[i])?;
        i += 1;
    }
    Ok(done)
}

fn link_table(
    alloc: Global,
    tables: &[TableRead],
    places: &[KeyPlaces],
    done: &mut Seq<References>,
    table: &TableRead,
) -> Result<(), DdlError>
    requires few { length tables.now ≤ 256 }
    requires narrow { All (λ t. length t.columns ≤ 64) tables.now }
    requires placed { Placed tables.now places.now }
    ensures { Puts result done.new (spec.link_table tables.now done.old table.now) }
{
    let links = table_links(
        alloc,
        tables,
        places,
        table.columns.as_slice(),
        table.references.as_slice(),
    )?;
    done.push(links)?;
    Ok(())
}

fn all_links(alloc: Global, tables: &[TableRead]) -> Result<Seq<References>, DdlError>
    requires few { length tables.now ≤ 256 }
    requires narrow { All (λ t. length t.columns ≤ 64) tables.now }
    ensures { Agrees result (in_turn (spec.link_table tables.now) [] tables.now) }
{
    let places = places_of(alloc, tables)?;
    let mut done = Seq::new(alloc);
    let mut i = 0;
    'tables: while i < tables.len() {
        link_table(alloc, tables, &places, &mut done, &tables[i])?;
        i += 1;
    }
    Ok(done)
}

fn with_links(table: TableRead, references: References) -> Table
    ensures { result ≡ spec.with_links table references }
{
    Table {
        name: table.name,
        columns: table.columns,
        keys: table.keys,
        references,
    }
}

fn all_with_links(
    alloc: Global,
    tables: TablesRead,
    links: Seq<References>,
) -> Result<Tables, DdlError>
    ensures ok { IfOk result (λ all. all ≡ spec.all_with_links tables links) }
    ensures err { IfErr result (λ e. e ≡ DdlError.Memory) }
{
    let mut left = links.into_vec();
    left.reverse();
    let mut all = Tables::new(alloc);
    for table in tables.into_vec() {
        let Some(references) = left.pop() else {
            break;
        };
        all.push(with_links(table, references))?;
    }
    Ok(all)
}

/// The tables with their references, or the first fault of a reference.
#[tactic(auto, unfolding(crate::specs::Linking::linked_tables))]
pub(crate) fn linked_tables(alloc: Global, tables: TablesRead) -> Result<Tables, DdlError>
    requires few { length tables ≤ 256 }
    requires narrow { All (λ t. length t.columns ≤ 64) tables }
    ensures { Agrees result (spec.linked_tables tables) }
{
    let links = all_links(alloc, tables.as_slice())?;
    all_with_links(alloc, tables, links)
}
