//! Statements, and the bodies of tables.
ghost use Rattle.std.specs.Prelude.{◌≡◌, ◌≤◌, [], length, true, IfOk};
ghost use Rattle.wt_ddl.specs.Giving.{Gives, Leaves, Takes};
ghost use Rattle.wt_ddl.specs.Reading as spec;
ghost use Rattle.wt_reading.specs.Readings.{one_more, repeat};

use crate::fault::{DdlError, DdlFault};
use crate::names::{name, symbol, word};
use crate::rest::{Rest, Text, at_mark, is_end};
use crate::rules::{element, more_elements};
use crate::settling::settled;
use crate::syntax::Elements;
use crate::table::{TableRead, TablesRead};
use std::alloc::Global;
use wt_lex::Sym;
use wt_value::Name;

/// The greatest number of tables.
const MOST_TABLES: usize = 256;

fn has_table(tables: &[TableRead], name: &Name) -> bool
    ensures { result ≡ spec.has_table tables.now name.now }
{
    tables.iter().any(|table| table.name == *name)
}

// The elements of a table in parentheses.
#[tactic(auto, unfolding(crate::specs::Reading::elements_of))]
fn elements_of(alloc: Global, text: &Text, rest: &Rest) -> Result<(Elements, usize), DdlError>
    ensures exact { Gives result (spec.elements_of text.now rest.now) }
    ensures within { IfOk result (λ x. x.1 ≤ length rest.now) }
{
    let a = rest.after(symbol(text, rest, Sym::Open)?);
    let (first, n) = element(alloc, text, &[], &a)?;
    let mut all = Elements::new(alloc);
    all.push(first)?;
    let b = a.after(n);
    let m = more_elements(alloc, text, &mut all, &b)?;
    let k = symbol(text, &b.after(m), Sym::Close)?;
    Ok((all, 1 + n + m + k))
}

// The table of these elements.
#[tactic(auto, unfolding(crate::specs::Reading::body))]
fn body(
    alloc: Global,
    text: &Text,
    table: Name,
    rest: &Rest,
) -> Result<(TableRead, usize), DdlError>
    ensures exact { Gives result (spec.body text.now table rest.now) }
    ensures within { IfOk result (λ x. x.1 ≤ length rest.now) }
{
    let (elements, n) = elements_of(alloc, text, rest)?;
    Ok((settled(alloc, table, elements)?, n))
}

#[tactic(auto, unfolding(crate::specs::Reading::ending))]
fn ending(text: &Text, rest: &Rest) -> Result<usize, DdlError>
    ensures exact { Takes result (spec.ending text.now rest.now) }
    ensures within { IfOk result (λ n. n ≤ length rest.now) }
{
    if is_end(rest) {
        return Ok(0);
    }
    symbol(text, rest, Sym::Semi)
}

#[tactic(auto, unfolding(crate::specs::Reading::if_not_exists))]
fn if_not_exists(text: &Text, rest: &Rest) -> Result<usize, DdlError>
    ensures exact { Takes result (spec.if_not_exists text.now rest.now) }
    ensures within { IfOk result (λ n. n ≤ length rest.now) }
{
    if text.at_word(rest, b"if") && text.at_word(&rest.after(1), b"not") {
        return Ok(2 + word(text, &rest.after(2), b"exists")?);
    }
    Ok(0)
}

// The name of a table, which is new where there may be one more.
#[tactic(auto, unfolding(crate::specs::Reading::table_name))]
fn table_name(
    alloc: Global,
    text: &Text,
    tables: &[TableRead],
    rest: &Rest,
) -> Result<(Name, usize), DdlError>
    ensures exact { Gives result (spec.table_name text.now tables.now rest.now) }
    ensures one { IfOk result (λ x. (x.1 ≡ 1) × (1 ≤ length rest.now)) }
{
    let (named, n) = name(alloc, text, rest)?;
    if has_table(tables, &named.name) {
        return Err(DdlError::Fault(DdlFault::DuplicateTable, named.at));
    }
    if tables.len() >= MOST_TABLES {
        return Err(DdlError::Fault(DdlFault::TooManyTables, named.at));
    }
    Ok((named.name, n))
}

// What stands behind CREATE TABLE.
#[tactic(auto, unfolding(crate::specs::Reading::create))]
fn create(
    alloc: Global,
    text: &Text,
    tables: &[TableRead],
    rest: &Rest,
) -> Result<(TableRead, usize), DdlError>
    ensures exact { Gives result (spec.create text.now tables.now rest.now) }
    ensures within { IfOk result (λ x. x.1 ≤ length rest.now) }
{
    let n = if_not_exists(text, rest)?;
    let a = rest.after(n);
    let (name, m) = table_name(alloc, text, tables, &a)?;
    let b = a.after(m);
    let (table, k) = body(alloc, text, name, &b)?;
    let i = ending(text, &b.after(k))?;
    Ok((table, n + m + k + i))
}

#[tactic(auto, unfolding(wt_reading::specs::Readings::one_more))]
fn next_table(
    alloc: Global,
    text: &Text,
    tables: &mut TablesRead,
    rest: &Rest,
) -> Result<usize, DdlError>
    ensures exact { Leaves result tables.new (one_more (spec.create text.now) tables.old rest.now) }
    ensures within { IfOk result (λ n. n ≤ length rest.now) }
{
    let (table, n) = create(alloc, text, tables.as_slice(), rest)?;
    tables.push(table)?;
    Ok(n)
}

#[tactic(auto, unfolding(crate::specs::Reading::statement))]
fn statement(
    alloc: Global,
    text: &Text,
    tables: &mut TablesRead,
    rest: &Rest,
) -> Result<usize, DdlError>
    ensures exact { Leaves result tables.new (spec.statement text.now tables.old rest.now) }
    ensures within { IfOk result (λ n. (1 ≤ n) × (n ≤ length rest.now)) }
{
    if at_mark(rest, Sym::Semi) {
        return Ok(1);
    }
    if text.at_word(rest, b"create") && text.at_word(&rest.after(1), b"table") {
        return Ok(2 + next_table(alloc, text, tables, &rest.after(2))?);
    }
    Err(text.no(DdlFault::UnsupportedStatement, rest))
}

/// All statements of a text.
pub(crate) fn statements(
    alloc: Global,
    text: &Text,
    rest: &Rest,
) -> Result<(TablesRead, usize), DdlError>
    ensures { Gives result (spec.statements text.now rest.now) }
{
    let mut tables = TablesRead::new(alloc);
    let n = more_statements(alloc, text, &mut tables, rest)?;
    Ok((tables, n))
}

fn more_statements(
    alloc: Global,
    text: &Text,
    tables: &mut TablesRead,
    rest: &Rest,
) -> Result<usize, DdlError>
    ensures exact { Leaves result tables.new (repeat spec.some_left (spec.statement text.now) 0 tables.old rest.now) }
    ensures within { IfOk result (λ n. n ≤ length rest.now) }
{
    let mut at = 0;
    'parts: while !is_end(&rest.after(at)) {
        at += statement(alloc, text, tables, &rest.after(at))?;
    }
    Ok(at)
}
