//! Columns with their rules, and the rules of tables.
ghost use Rattle.std.specs.Prelude.{◌≡◌, ◌≤◌, length, true, IfOk};
ghost use Rattle.std.specs.List.{list_any};
ghost use Rattle.wt_ddl.specs.Giving.{Gives, Leaves, Takes};
ghost use Rattle.wt_ddl.specs.Reading as spec;
ghost use Rattle.wt_ddl.specs.Settling.{columns_of};
ghost use Rattle.wt_reading.specs.Readings.{one_more};

use crate::fault::{DdlError, DdlFault};
use crate::kinds::kind_of;
use crate::names::{name, names, word};
use crate::rest::{Rest, Text, at_mark, at_some_word};
use crate::syntax::{
    ColumnPart, ColumnRule, ColumnRules, Element, Elements, Named, TableRule, Target,
};
use crate::targets::target;
use std::alloc::Global;
use wt_lex::Sym;
use wt_value::Name;

/// The greatest number of columns of a table.
const MOST_COLUMNS: usize = 64;

fn is_own_primary(rule: &ColumnRule) -> bool
    ensures { result ≡ spec.is_own_primary rule.now }
{
    matches!(rule, ColumnRule::PrimaryKey)
}

fn has_own_primary(rules: &[ColumnRule]) -> bool
    ensures { result ≡ list_any spec.is_own_primary rules.now }
{
    rules.iter().any(is_own_primary)
}

fn is_primary(element: &Element) -> bool
    ensures { result ≡ spec.is_primary element.now }
{
    match element {
        Element::Column(column) => has_own_primary(column.rules.as_slice()),
        Element::Rule(TableRule::PrimaryKey(_)) => true,
        Element::Rule(_) => false,
    }
}

fn has_primary(elements: &[Element]) -> bool
    ensures { result ≡ spec.has_primary elements.now }
{
    elements.iter().any(is_primary)
}

fn is_column(element: &Element, name: &Name) -> bool
    ensures { result ≡ spec.is_column name.now element.now }
{
    match element {
        Element::Column(column) => column.name.name == *name,
        Element::Rule(_) => false,
    }
}

fn has_column(elements: &[Element], name: &Name) -> bool
    ensures { result ≡ spec.has_column elements.now name.now }
{
    elements.iter().any(|element| is_column(element, name))
}

// How many columns there are.
fn width(elements: &[Element]) -> usize
    ensures { result ≡ length (columns_of elements.now) }
{
    let mut count = 0;
    let mut i = 0;
    'elements: while i < elements.len() {
        if let Element::Column(_) = &elements[i] {
            count += 1;
        }
        i += 1;
    }
    count
}

// PRIMARY KEY at a column.
#[tactic(auto, unfolding(crate::specs::Reading::own_primary))]
fn own_primary(
    text: &Text,
    before: &[Element],
    rules: &[ColumnRule],
    rest: &Rest,
) -> Result<(ColumnRule, usize), DdlError>
    ensures exact { Gives result (spec.own_primary text.now before.now rules.now rest.now) }
    ensures within { IfOk result (λ x. (1 ≤ x.1) × (x.1 ≤ length rest.now)) }
{
    let n = word(text, &rest.after(1), b"key")?;
    if has_primary(before) || has_own_primary(rules) {
        return Err(text.no(DdlFault::SecondPrimaryKey, rest));
    }
    Ok((ColumnRule::PrimaryKey, 1 + n))
}

// The rule of a column, behind its name.
#[tactic(auto, unfolding(crate::specs::Reading::bare_rule))]
fn bare_rule(
    alloc: Global,
    text: &Text,
    before: &[Element],
    rules: &[ColumnRule],
    rest: &Rest,
) -> Result<(ColumnRule, usize), DdlError>
    ensures exact { Gives result (spec.bare_rule text.now before.now rules.now rest.now) }
    ensures within { IfOk result (λ x. (1 ≤ x.1) × (x.1 ≤ length rest.now)) }
{
    if text.at_word(rest, b"not") {
        let n = word(text, &rest.after(1), b"null")?;
        return Ok((ColumnRule::NotNull, 1 + n));
    }
    if text.at_word(rest, b"null") {
        return Ok((ColumnRule::Null, 1));
    }
    if text.at_word(rest, b"primary") {
        return own_primary(text, before, rules, rest);
    }
    if text.at_word(rest, b"unique") {
        return Ok((ColumnRule::Unique, 1));
    }
    if text.at_word(rest, b"references") {
        let (target, n) = target(alloc, text, &rest.after(1))?;
        return Ok((ColumnRule::References(target), 1 + n));
    }
    Err(text.other(DdlFault::UnsupportedClause, rest))
}

#[tactic(auto, unfolding(crate::specs::Reading::rule))]
fn rule(
    alloc: Global,
    text: &Text,
    before: &[Element],
    rules: &[ColumnRule],
    rest: &Rest,
) -> Result<(ColumnRule, usize), DdlError>
    ensures exact { Gives result (spec.rule text.now before.now rules.now rest.now) }
    ensures within { IfOk result (λ x. (1 ≤ x.1) × (x.1 ≤ length rest.now)) }
{
    if !text.at_word(rest, b"constraint") {
        return bare_rule(alloc, text, before, rules, rest);
    }
    let a = rest.after(1);
    let (_name, n) = name(alloc, text, &a)?;
    let (rule, m) = bare_rule(alloc, text, before, rules, &a.after(n))?;
    Ok((rule, 1 + n + m))
}

#[tactic(auto, unfolding(wt_reading::specs::Readings::one_more))]
fn next_rule(
    alloc: Global,
    text: &Text,
    before: &[Element],
    rules: &mut ColumnRules,
    rest: &Rest,
) -> Result<usize, DdlError>
    ensures exact { Leaves result rules.new (one_more (spec.rule text.now before.now) rules.old rest.now) }
    ensures within { IfOk result (λ n. (1 ≤ n) × (n ≤ length rest.now)) }
{
    let (next, n) = rule(alloc, text, before, rules.as_slice(), rest)?;
    rules.push(next)?;
    Ok(n)
}

fn column_rules(
    alloc: Global,
    text: &Text,
    before: &[Element],
    rest: &Rest,
) -> Result<(ColumnRules, usize), DdlError>
    ensures exact { Gives result (spec.column_rules text.now before.now rest.now) }
    ensures within { IfOk result (λ x. x.1 ≤ length rest.now) }
{
    let mut rules = ColumnRules::new(alloc);
    let mut at = 0;
    'parts: while at_some_word(&rest.after(at)) {
        at += next_rule(alloc, text, before, &mut rules, &rest.after(at))?;
    }
    Ok((rules, at))
}

// The name of a column, which is new in a table that may have one more.
#[tactic(auto, unfolding(crate::specs::Reading::column_name))]
fn column_name(
    alloc: Global,
    text: &Text,
    before: &[Element],
    rest: &Rest,
) -> Result<(Named, usize), DdlError>
    ensures exact { Gives result (spec.column_name text.now before.now rest.now) }
    ensures one { IfOk result (λ x. (x.1 ≡ 1) × (1 ≤ length rest.now)) }
{
    let (named, n) = name(alloc, text, rest)?;
    if has_column(before, &named.name) {
        return Err(DdlError::Fault(DdlFault::DuplicateColumn, named.at));
    }
    if width(before) >= MOST_COLUMNS {
        return Err(DdlError::Fault(DdlFault::TooManyColumns, named.at));
    }
    Ok((named, n))
}

#[tactic(auto, unfolding(crate::specs::Reading::column))]
fn column(
    alloc: Global,
    text: &Text,
    before: &[Element],
    rest: &Rest,
) -> Result<(ColumnPart, usize), DdlError>
    ensures exact { Gives result (spec.column text.now before.now rest.now) }
    ensures within { IfOk result (λ x. x.1 ≤ length rest.now) }
{
    let (name, n) = column_name(alloc, text, before, rest)?;
    let a = rest.after(n);
    let (kind, m) = kind_of(text, &a)?;
    let (rules, k) = column_rules(alloc, text, before, &a.after(m))?;
    Ok((ColumnPart { name, kind, rules }, n + m + k))
}

#[tactic(auto, unfolding(crate::specs::Reading::behind_target))]
fn behind_target(text: &Text, rest: &Rest) -> Result<usize, DdlError>
    ensures exact { Takes result (spec.behind_target text.now rest.now) }
    ensures none { IfOk result (λ n. n ≡ 0) }
{
    if at_some_word(rest) {
        return Err(text.no(DdlFault::UnsupportedClause, rest));
    }
    Ok(0)
}

#[tactic(auto, unfolding(crate::specs::Reading::primary_rule))]
fn primary_rule(
    alloc: Global,
    text: &Text,
    before: &[Element],
    rest: &Rest,
) -> Result<(TableRule, usize), DdlError>
    ensures exact { Gives result (spec.primary_rule text.now before.now rest.now) }
    ensures within { IfOk result (λ x. x.1 ≤ length rest.now) }
{
    let a = rest.after(1);
    let n = word(text, &a, b"key")?;
    if has_primary(before) {
        return Err(text.no(DdlFault::SecondPrimaryKey, rest));
    }
    let (all, m) = names(alloc, text, &a.after(n))?;
    Ok((TableRule::PrimaryKey(all), 1 + n + m))
}

#[tactic(auto, unfolding(crate::specs::Reading::unique_rule))]
fn unique_rule(alloc: Global, text: &Text, rest: &Rest) -> Result<(TableRule, usize), DdlError>
    ensures exact { Gives result (spec.unique_rule text.now rest.now) }
    ensures within { 1 ≤ length rest.now → IfOk result (λ x. x.1 ≤ length rest.now) }
{
    let (all, n) = names(alloc, text, &rest.after(1))?;
    Ok((TableRule::Unique(all), 1 + n))
}

#[tactic(auto, unfolding(crate::specs::Reading::foreign_target))]
fn foreign_target(alloc: Global, text: &Text, rest: &Rest) -> Result<(Target, usize), DdlError>
    ensures exact { Gives result (spec.foreign_target text.now rest.now) }
    ensures within { IfOk result (λ x. x.1 ≤ length rest.now) }
{
    let n = word(text, rest, b"references")?;
    let a = rest.after(n);
    let (target, m) = target(alloc, text, &a)?;
    let k = behind_target(text, &a.after(m))?;
    Ok((target, n + m + k))
}

#[tactic(auto, unfolding(crate::specs::Reading::foreign_rule))]
fn foreign_rule(alloc: Global, text: &Text, rest: &Rest) -> Result<(TableRule, usize), DdlError>
    ensures exact { Gives result (spec.foreign_rule text.now rest.now) }
    ensures within { IfOk result (λ x. x.1 ≤ length rest.now) }
{
    let a = rest.after(1);
    let n = word(text, &a, b"key")?;
    let b = a.after(n);
    let (all, m) = names(alloc, text, &b)?;
    let (target, k) = foreign_target(alloc, text, &b.after(m))?;
    Ok((TableRule::ForeignKey(all, target), 1 + n + m + k))
}

fn at_table_rule(text: &Text, rest: &Rest) -> bool
    ensures value { result ≡ spec.at_table_rule text.now rest.now }
    ensures some { result ≡ true → 1 ≤ length rest.now }
{
    text.at_word(rest, b"primary")
        || text.at_word(rest, b"unique")
        || text.at_word(rest, b"foreign")
}

#[tactic(auto, unfolding(crate::specs::Reading::table_rule))]
fn table_rule(
    alloc: Global,
    text: &Text,
    before: &[Element],
    rest: &Rest,
) -> Result<(TableRule, usize), DdlError>
    ensures exact { Gives result (spec.table_rule text.now before.now rest.now) }
    ensures within { 1 ≤ length rest.now → IfOk result (λ x. x.1 ≤ length rest.now) }
{
    if text.at_word(rest, b"primary") {
        return primary_rule(alloc, text, before, rest);
    }
    if text.at_word(rest, b"unique") {
        return unique_rule(alloc, text, rest);
    }
    foreign_rule(alloc, text, rest)
}

// A rule of the table behind its name.
#[tactic(auto, unfolding(crate::specs::Reading::named_rule))]
fn named_rule(
    alloc: Global,
    text: &Text,
    before: &[Element],
    rest: &Rest,
) -> Result<(TableRule, usize), DdlError>
    ensures exact { Gives result (spec.named_rule text.now before.now rest.now) }
    ensures within { IfOk result (λ x. x.1 ≤ length rest.now) }
{
    if text.at_word(rest, b"check") {
        return Err(text.no(DdlFault::UnsupportedClause, rest));
    }
    if at_table_rule(text, rest) {
        return table_rule(alloc, text, before, rest);
    }
    Err(text.no(DdlFault::Syntax, rest))
}

/// A column, or a rule of the table, behind the elements that were read.
#[tactic(auto, unfolding(crate::specs::Reading::element))]
pub(crate) fn element(
    alloc: Global,
    text: &Text,
    before: &[Element],
    rest: &Rest,
) -> Result<(Element, usize), DdlError>
    ensures exact { Gives result (spec.element text.now before.now rest.now) }
    ensures within { IfOk result (λ x. x.1 ≤ length rest.now) }
{
    if text.at_word(rest, b"constraint") {
        let a = rest.after(1);
        let (_name, n) = name(alloc, text, &a)?;
        let (rule, m) = named_rule(alloc, text, before, &a.after(n))?;
        return Ok((Element::Rule(rule), 1 + n + m));
    }
    if text.at_word(rest, b"check") {
        return Err(text.no(DdlFault::UnsupportedClause, rest));
    }
    if at_table_rule(text, rest) {
        let (rule, n) = table_rule(alloc, text, before, rest)?;
        return Ok((Element::Rule(rule), n));
    }
    let (column, n) = column(alloc, text, before, rest)?;
    Ok((Element::Column(column), n))
}

// What stands behind a comma.
#[tactic(auto, unfolding(wt_reading::specs::Readings::one_more, crate::specs::Reading::next_element))]
fn next_element(
    alloc: Global,
    text: &Text,
    all: &mut Elements,
    rest: &Rest,
) -> Result<usize, DdlError>
    ensures exact { Leaves result all.new (one_more (spec.next_element text.now) all.old rest.now) }
    ensures within { 1 ≤ length rest.now → IfOk result (λ n. (1 ≤ n) × (n ≤ length rest.now)) }
{
    let (next, n) = element(alloc, text, all.as_slice(), &rest.after(1))?;
    all.push(next)?;
    Ok(1 + n)
}

/// The elements behind the first, each with its comma.
pub(crate) fn more_elements(
    alloc: Global,
    text: &Text,
    all: &mut Elements,
    rest: &Rest,
) -> Result<usize, DdlError>
    ensures exact { Leaves result all.new (spec.more_elements text.now all.old rest.now) }
    ensures within { IfOk result (λ n. n ≤ length rest.now) }
{
    let mut at = 0;
    'parts: while at_mark(&rest.after(at), Sym::Comma) {
        at += next_element(alloc, text, all, &rest.after(at))?;
    }
    Ok(at)
}
