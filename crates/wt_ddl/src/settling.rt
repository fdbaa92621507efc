//! The column lists of a table, at its closing parenthesis.
ghost use Rattle.std.specs.Prelude.{◌≡◌, ◌≤◌, ◌<◌, [], ◌∷◌, length, IfOk, IfErr};
ghost use Rattle.std.specs.List.{list_any};
ghost use Rattle.wt_ddl.specs.Giving.{Agrees, Puts};
ghost use Rattle.wt_ddl.specs.Settling as spec;

use crate::fault::{DdlError, DdlFault};
use crate::syntax::{ColumnPart, ColumnRule, Element, Elements, Named, TableRule, Target};
use crate::table::{OpenReference, OpenReferences, TableRead};
use std::alloc::Global;
use wt_schema::{Column, Columns, Key, Keys, column_number};
use wt_value::{Cols, Name};

/// Whether a number is among some.
pub(crate) fn is_among(number: u32, numbers: &[u32]) -> bool
    ensures { result ≡ spec.is_among number numbers.now }
{
    numbers.iter().any(|other| *other == number)
}

fn list_one(columns: &[Column], numbers: &mut Cols, named: &Named) -> Result<(), DdlError>
    requires { length columns.now ≤ 64 }
    ensures { Puts result numbers.new (spec.list_one columns.now numbers.old named.now) }
{
    let Some(number) = column_number(columns, &named.name) else {
        return Err(DdlError::Fault(DdlFault::UnknownColumn, named.at));
    };
    let number = number as u32;
    if is_among(number, numbers.as_slice()) {
        return Err(DdlError::Fault(DdlFault::DuplicateColumn, named.at));
    }
    numbers.push(number)?;
    Ok(())
}

fn numbers(alloc: Global, columns: &[Column], names: &[Named]) -> Result<Cols, DdlError>
    requires { length columns.now ≤ 64 }
    ensures { Agrees result (spec.numbers columns.now names.now) }
{
    let mut numbers = Cols::new(alloc);
    let mut i = 0;
    'names: while i < names.len() {
        list_one(columns, &mut numbers, &names[i])?;
        i += 1;
    }
    Ok(numbers)
}

// The number of one column.
fn one_number(alloc: Global, columns: &[Column], named: &Named) -> Result<Cols, DdlError>
    requires { length columns.now ≤ 64 }
    ensures { Agrees result (spec.numbers columns.now (named.now ∷ [])) }
{
    let mut numbers = Cols::new(alloc);
    list_one(columns, &mut numbers, named)?;
    Ok(numbers)
}

/// A copy of column numbers.
pub(crate) fn copied(columns: &Cols) -> Result<Cols, DdlError>
    ensures ok { IfOk result (λ copy. copy ≡ columns.now) }
    ensures err { IfErr result (λ e. e ≡ DdlError.Memory) }
{
    Ok(columns.clone()?)
}

fn add_key(table: &mut TableRead, primary: bool, columns: Cols) -> Result<(), DdlError>
    ensures { Puts result table.new (spec.with_key table.old primary columns) }
{
    table.keys.push(Key { columns, primary })?;
    Ok(())
}

fn add_reference(table: &mut TableRead, columns: Cols, target: Target) -> Result<(), DdlError>
    ensures { Puts result table.new (spec.with_reference table.old target columns) }
{
    table.references.push(OpenReference { columns, target })?;
    Ok(())
}

// The rule of a column.
fn add_own(
    alloc: Global,
    named: &Named,
    table: &mut TableRead,
    rule: ColumnRule,
) -> Result<(), DdlError>
    requires { length table.old.columns ≤ 64 }
    ensures { Puts result table.new (spec.add_own named.now table.old rule) }
{
    match rule {
        ColumnRule::NotNull | ColumnRule::Null => Ok(()),
        ColumnRule::PrimaryKey => {
            let columns = one_number(alloc, table.columns.as_slice(), named)?;
            add_key(table, true, columns)
        }
        ColumnRule::Unique => {
            let columns = one_number(alloc, table.columns.as_slice(), named)?;
            add_key(table, false, columns)
        }
        ColumnRule::References(target) => {
            let columns = one_number(alloc, table.columns.as_slice(), named)?;
            add_reference(table, columns, target)
        }
    }
}

fn add_all_own(
    alloc: Global,
    named: &Named,
    table: &mut TableRead,
    rules: Vec<ColumnRule>,
) -> Result<(), DdlError>
    requires { length table.old.columns ≤ 64 }
    ensures { Puts result table.new (spec.in_turn (spec.add_own named.now) table.old rules.items) }
{
    for rule in rules {
        add_own(alloc, named, table, rule)?;
    }
    Ok(())
}

fn add_rule(alloc: Global, table: &mut TableRead, rule: TableRule) -> Result<(), DdlError>
    requires { length table.old.columns ≤ 64 }
    ensures { Puts result table.new (spec.add_rule table.old rule) }
{
    match rule {
        TableRule::PrimaryKey(names) => {
            let columns = numbers(alloc, table.columns.as_slice(), names.as_slice())?;
            add_key(table, true, columns)
        }
        TableRule::Unique(names) => {
            let columns = numbers(alloc, table.columns.as_slice(), names.as_slice())?;
            add_key(table, false, columns)
        }
        TableRule::ForeignKey(names, target) => {
            let columns = numbers(alloc, table.columns.as_slice(), names.as_slice())?;
            add_reference(table, columns, target)
        }
    }
}

fn add_element(alloc: Global, table: &mut TableRead, element: Element) -> Result<(), DdlError>
    requires { length table.old.columns ≤ 64 }
    ensures { Puts result table.new (spec.add_element table.old element) }
{
    match element {
        Element::Column(ColumnPart { name, rules, .. }) => {
            add_all_own(alloc, &name, table, rules.into_vec())
        }
        Element::Rule(rule) => add_rule(alloc, table, rule),
    }
}

fn add_elements(
    alloc: Global,
    table: &mut TableRead,
    elements: Vec<Element>,
) -> Result<(), DdlError>
    requires { length table.old.columns ≤ 64 }
    ensures { Puts result table.new (spec.in_turn spec.add_element table.old elements.items) }
{
    for element in elements {
        add_element(alloc, table, element)?;
    }
    Ok(())
}

fn is_not_null(rule: &ColumnRule) -> bool
    ensures { result ≡ spec.is_not_null rule.now }
{
    matches!(rule, ColumnRule::NotNull)
}

fn has_not_null(rules: &[ColumnRule]) -> bool
    ensures { result ≡ list_any spec.is_not_null rules.now }
{
    rules.iter().any(is_not_null)
}

// The column itself. Its name is copied, since its rules stand at it too.
fn column_of(column: &ColumnPart) -> Result<Column, DdlError>
    ensures ok { IfOk result (λ c. c ≡ spec.column_of column.now) }
    ensures err { IfErr result (λ e. e ≡ DdlError.Memory) }
{
    Ok(Column {
        name: column.name.name.clone()?,
        kind: column.kind,
        not_null: has_not_null(column.rules.as_slice()),
    })
}

fn columns_of(alloc: Global, elements: &[Element]) -> Result<Columns, DdlError>
    ensures ok { IfOk result (λ columns. columns ≡ spec.columns_of elements.now) }
    ensures err { IfErr result (λ e. e ≡ DdlError.Memory) }
{
    let mut columns = Columns::new(alloc);
    let mut i = 0;
    'elements: while i < elements.len() {
        if let Element::Column(column) = &elements[i] {
            columns.push(column_of(column)?)?;
        }
        i += 1;
    }
    Ok(columns)
}

/// The table of these elements, with its keys and references by column numbers.
#[tactic(auto, unfolding(crate::specs::Settling::settled))]
pub(crate) fn settled(alloc: Global, name: Name, elements: Elements) -> Result<TableRead, DdlError>
    requires { length (spec.columns_of elements) ≤ 64 }
    ensures { Agrees result (spec.settled name elements) }
{
    let mut table = TableRead {
        name,
        columns: columns_of(alloc, elements.as_slice())?,
        keys: Keys::new(alloc),
        references: OpenReferences::new(alloc),
    };
    add_elements(alloc, &mut table, elements.into_vec())?;
    Ok(table)
}
