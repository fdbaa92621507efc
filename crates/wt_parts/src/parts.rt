//! Names, columns, literals, operands, items and lists of them: the parts that hold no condition and no query.
ghost use Rattle.std.specs.Prelude.{◌≡◌, ◌<◌, ◌≤◌, ◌+◌, ◌^◌, ◌-◌, length, drop, IfOk, neg_ℤ, pos};
ghost use Rattle.wt_reading.specs.Lexemes.{place, is_comma, kind};
ghost use Rattle.wt_grammar.specs.Reading as spec;
ghost use Rattle.wt_front.specs.Giving.{Gives, Adds};

use std::alloc::Global;
use wt_ast::{ColumnName, Item, Scalar};
use wt_front::QueryError;
use wt_front::front::{beyond, expect, no, no_item, no_literal, no_operand};
use wt_grammar::QueryFault;
use wt_lex::{LexFault, Sym, Word, name_of, text_of};
use wt_reading::front::{after, at_key, at_mark, at_name, kind, place};
use wt_reading::{Kind, Lexeme};
use wt_value::{Name, Text, Value, WantOfMemory};

/// The name of the token at the front.
#[tactic(auto, unfolding(wt_grammar::specs::Reading::name_at))]
pub fn name_at(alloc: Global, bytes: &[u8], ts: &[Lexeme]) -> Result<Name, WantOfMemory>
    ensures { IfOk result (λ name. name ≡ spec.name_at bytes.now ts.now) }
{
    match ts {
        [] => Name::from_bytes(alloc, &[]),
        [t, ..] => name_of(alloc, bytes, &t.token),
    }
}

#[tactic(auto, unfolding(wt_grammar::specs::Reading::text_at))]
fn text_at(alloc: Global, bytes: &[u8], ts: &[Lexeme]) -> Result<Text, WantOfMemory>
    ensures { IfOk result (λ text. text ≡ spec.text_at bytes.now ts.now) }
{
    match ts {
        [] => Text::from_bytes(alloc, &[]),
        [t, ..] => text_of(alloc, bytes, &t.token),
    }
}

#[tactic(auto, unfolding(wt_grammar::specs::Reading::name))]
pub fn name(
    alloc: Global,
    bytes: &[u8],
    ts: &[Lexeme],
    end: u32,
) -> Result<(Name, usize), QueryError>
    ensures exact { Gives (λ x. x) result (spec.name end bytes.now ts.now) }
    ensures within { IfOk result (λ x. x.1 ≤ length ts.now) }
{
    if !at_name(ts) {
        return Err(no(QueryFault::Syntax, ts, end));
    }
    let rest = after(ts, 1);
    if at_mark(rest, Sym::Open) {
        return Err(no(QueryFault::Function, rest, end));
    }
    Ok((name_at(alloc, bytes, ts)?, 1))
}

#[tactic(auto, unfolding(wt_grammar::specs::Reading::column))]
pub fn column(
    alloc: Global,
    bytes: &[u8],
    ts: &[Lexeme],
    end: u32,
) -> Result<(ColumnName, usize), QueryError>
    ensures exact { Gives (λ x. x) result (spec.column end bytes.now ts.now) }
    ensures within { IfOk result (λ x. x.1 ≤ length ts.now) }
{
    if !at_name(ts) {
        return Err(no(no_operand(kind(ts), kind(after(ts, 1))), ts, end));
    }
    let at = place(ts, end);
    if at_mark(after(ts, 1), Sym::Dot) {
        let (name, n) = name(alloc, bytes, after(ts, 2), end)?;
        let table = Some(name_at(alloc, bytes, ts)?);
        return Ok((ColumnName { table, name, at }, n + 2));
    }
    let (name, n) = name(alloc, bytes, ts, end)?;
    Ok((
        ColumnName {
            table: None,
            name,
            at,
        },
        n,
    ))
}

// The number at the front, without a sign; the greatest one needs a minus.
fn unsigned(n: u64, ts: &[Lexeme], end: u32) -> Result<(Value, usize), QueryError>
    requires { 0 < length ts.now }
    ensures exact { Gives (λ x. x) result (spec.unsigned end n ts.now) }
    ensures within { IfOk result (λ x. x.1 ≤ length ts.now) }
{
    if n < 9_223_372_036_854_775_808 {
        Ok((Value::Int(n as i64), 1))
    } else {
        Err(QueryError::Lex(LexFault::NumberRange, place(ts, end)))
    }
}

// A minus and a number behind it.
fn negative(n: u64, ts: &[Lexeme], end: u32) -> Result<(Value, usize), QueryError>
    requires { 1 < length ts.now }
    ensures exact { Gives (λ x. x) result (spec.negative end n ts.now) }
    ensures within { IfOk result (λ x. x.1 ≤ length ts.now) }
{
    if n < 9_223_372_036_854_775_808 {
        Ok((Value::Int(-(n as i64)), 2))
    } else if n == 9_223_372_036_854_775_808 {
        Ok((Value::Int(i64::MIN), 2))
    } else {
        Err(QueryError::Lex(LexFault::NumberRange, place(after(ts, 1), end)))
    }
}

fn operand_front(
    alloc: Global,
    bytes: &[u8],
    ts: &[Lexeme],
    end: u32,
) -> Result<(Scalar, usize), QueryError>
    ensures exact { Gives (λ x. x) result (spec.operand_by end bytes.now (kind ts.now) ts.now) }
    ensures within { IfOk result (λ x. x.1 ≤ length ts.now) }
{
    let at = place(ts, end);
    let (value, n) = match kind(ts) {
        Kind::Number(n) => unsigned(n, ts, end)?,
        Kind::Text => (Value::Text(text_at(alloc, bytes, ts)?), 1),
        Kind::Mark(Sym::Minus) => match kind(after(ts, 1)) {
            Kind::Number(n) => negative(n, ts, end)?,
            _ => return Err(no(QueryFault::Arithmetic, ts, end)),
        },
        _ => {
            let (column, n) = column(alloc, bytes, ts, end)?;
            return Ok((Scalar::Column(column), n));
        }
    };
    Ok((Scalar::Literal(value, at), n))
}

/// A column or a literal, and no token behind it that an operand never has there.
#[tactic(auto, unfolding(wt_grammar::specs::Reading::operand))]
pub fn operand(
    alloc: Global,
    bytes: &[u8],
    ts: &[Lexeme],
    end: u32,
) -> Result<(Scalar, usize), QueryError>
    ensures exact { Gives (λ x. x) result (spec.operand end bytes.now ts.now) }
    ensures within { IfOk result (λ x. x.1 ≤ length ts.now) }
{
    let (operand, n) = operand_front(alloc, bytes, ts, end)?;
    let rest = after(ts, n);
    match beyond(kind(rest)) {
        Some(fault) => Err(no(fault, rest, end)),
        None => Ok((operand, n)),
    }
}

/// A literal of an IN list.
#[tactic(auto, unfolding(wt_grammar::specs::Reading::literal))]
pub fn literal(
    alloc: Global,
    bytes: &[u8],
    ts: &[Lexeme],
    end: u32,
) -> Result<(Value, usize), QueryError>
    ensures exact { Gives (λ x. x) result (spec.literal end bytes.now ts.now) }
    ensures within { IfOk result (λ x. x.1 ≤ length ts.now) }
{
    match kind(ts) {
        Kind::Number(n) => unsigned(n, ts, end),
        Kind::Text => Ok((Value::Text(text_at(alloc, bytes, ts)?), 1)),
        Kind::Mark(Sym::Minus) => match kind(after(ts, 1)) {
            Kind::Number(n) => negative(n, ts, end),
            _ => Err(no(QueryFault::Syntax, after(ts, 1), end)),
        },
        other => Err(no(no_literal(other), ts, end)),
    }
}

/// `[AS] name`, or nothing; with the place of the name.
#[tactic(auto, unfolding(wt_grammar::specs::Reading::alias))]
pub fn alias(
    alloc: Global,
    bytes: &[u8],
    ts: &[Lexeme],
    end: u32,
) -> Result<(Option<(Name, u32)>, usize), QueryError>
    ensures exact { Gives (λ x. x) result (spec.alias end bytes.now ts.now) }
    ensures within { IfOk result (λ x. x.1 ≤ length ts.now) }
{
    if at_key(ts, Word::As) {
        let rest = after(ts, 1);
        let (name, n) = name(alloc, bytes, rest, end)?;
        return Ok((Some((name, place(rest, end))), n + 1));
    }
    if !at_name(ts) {
        return Ok((None, 0));
    }
    let (name, n) = name(alloc, bytes, ts, end)?;
    Ok((Some((name, place(ts, end))), n))
}

/// A name that may be written, without its place.
pub fn name_only(alias: Option<(Name, u32)>) -> Option<Name>
    ensures { result ≡ spec.name_only alias }
{
    match alias {
        Some((name, _)) => Some(name),
        None => None,
    }
}

#[tactic(auto, unfolding(wt_grammar::specs::Reading::item_front))]
fn item_front(
    alloc: Global,
    bytes: &[u8],
    ts: &[Lexeme],
    end: u32,
) -> Result<(Item, usize), QueryError>
    ensures exact { Gives (λ x. x) result (spec.item_front end bytes.now ts.now) }
    ensures within { IfOk result (λ x. x.1 ≤ length ts.now) }
{
    let at = place(ts, end);
    if at_mark(ts, Sym::Star) {
        return Ok((Item::Star { at }, 1));
    }
    if !at_name(ts) {
        return Err(no(no_item(kind(ts), kind(after(ts, 1))), ts, end));
    }
    if at_mark(after(ts, 1), Sym::Dot) && at_mark(after(ts, 2), Sym::Star) {
        let alias = name_at(alloc, bytes, ts)?;
        return Ok((Item::AllOf { alias, at }, 3));
    }
    let (column, n) = column(alloc, bytes, ts, end)?;
    let (output, m) = alias(alloc, bytes, after(ts, n), end)?;
    let output = name_only(output);
    Ok((Item::Column { column, output }, n + m))
}

/// An item of the SELECT list.
#[tactic(auto, unfolding(wt_grammar::specs::Reading::item))]
pub fn item(
    alloc: Global,
    bytes: &[u8],
    ts: &[Lexeme],
    end: u32,
) -> Result<(Item, usize), QueryError>
    ensures exact { Gives (λ x. x) result (spec.item end bytes.now ts.now) }
    ensures within { IfOk result (λ x. x.1 ≤ length ts.now) }
{
    let (item, n) = item_front(alloc, bytes, ts, end)?;
    let rest = after(ts, n);
    match beyond(kind(rest)) {
        Some(fault) => Err(no(fault, rest, end)),
        None => Ok((item, n)),
    }
}
