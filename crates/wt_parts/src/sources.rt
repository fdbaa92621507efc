//! The parts of SELECT and FROM that hold no query, and the lookahead for tuples.
ghost use Rattle.std.specs.Prelude.{◌≡◌, ◌<◌, ◌≤◌, ◌+◌, ℕ, List, length, drop, map, IfOk, IfSome, Ok};
ghost use Rattle.wt_ast.specs.Tree.{from_tree};
ghost use Rattle.wt_reading.specs.Lexemes as lexemes;
ghost use Rattle.wt_grammar.specs.Reading as spec;
ghost use Rattle.wt_reading.specs.Readings as readings;
ghost use Rattle.wt_ast.specs.Tree.{condition_tree, query_tree, derived, comma};
ghost use Rattle.wt_front.specs.Giving.{Gives, size_of};

use crate::lists::listed;
use crate::parts::{alias, name, name_at, name_only};
use std::alloc::Global;
use wt_ast::{Condition, FromPart, Query};
use wt_front::QueryError;
use wt_front::front::{expect, no};
use wt_grammar::{JoinKind, QueryFault};
use wt_lex::{Sym, Word};
use wt_reading::Lexeme;
use wt_reading::front::{after, at_key, at_mark, at_name, place};
use wt_value::{Name, Names, WantOfMemory};

fn in_follows(ts: &[Lexeme]) -> bool
    ensures { result ≡ spec.in_follows ts.now }
{
    at_key(ts, Word::In) || (at_key(ts, Word::Not) && at_key(after(ts, 1), Word::In))
}

// How many tokens the column at the front has, if one stands there.
fn column_front(ts: &[Lexeme]) -> Option<usize>
    ensures exact { result ≡ size_of (spec.column_front ts.now) }
    ensures within { IfSome result (λ n. n ≤ length ts.now) }
{
    if !at_name(ts) {
        None
    } else if !at_mark(after(ts, 1), Sym::Dot) {
        Some(1)
    } else if at_name(after(ts, 2)) {
        Some(3)
    } else {
        None
    }
}

// How many tokens the columns with commas at the front have, if they stand there.
fn columns_front(ts: &[Lexeme]) -> Option<usize>
    ensures exact { result ≡ size_of (readings.list spec.column_front ts.now) }
    ensures within { IfSome result (λ n. n ≤ length ts.now) }
{
    let mut at = column_front(ts)?;
    'columns: while at_mark(after(ts, at), Sym::Comma) {
        let n = column_front(after(ts, at + 1))?;
        at += n + 1;
    }
    Some(at)
}

/// Whether the parenthesis at the front opens a tuple: columns with commas, `)`, and IN or NOT IN.
#[tactic(auto, using(crate::proofs::Sizes::closings), unfolding(wt_grammar::specs::Reading::opens_tuple, wt_grammar::specs::Reading::is_tuple))]
pub fn opens_tuple(ts: &[Lexeme]) -> bool
    ensures { result ≡ spec.opens_tuple ts.now }
{
    let inside = after(ts, 1);
    match columns_front(inside) {
        None => false,
        Some(n) => {
            let rest = after(inside, n);
            at_mark(rest, Sym::Close) && in_follows(after(rest, 1))
        }
    }
}

#[tactic(auto, unfolding(wt_grammar::specs::Reading::bare_name))]
fn bare_name(
    alloc: Global,
    bytes: &[u8],
    ts: &[Lexeme],
    end: u32,
) -> Result<((Name, u32), usize), QueryError>
    ensures exact { Gives (λ x. x) result (spec.bare_name end bytes.now ts.now) }
    ensures within { IfOk result (λ x. x.1 ≤ length ts.now) }
{
    if !at_name(ts) {
        return Err(no(QueryFault::Syntax, ts, end));
    }
    Ok(((name_at(alloc, bytes, ts)?, place(ts, end)), 1))
}

/// The alias of a query in parentheses, with its place.
#[tactic(auto, unfolding(wt_grammar::specs::Reading::derived_name))]
pub fn derived_name(
    alloc: Global,
    bytes: &[u8],
    ts: &[Lexeme],
    end: u32,
) -> Result<((Name, u32), usize), QueryError>
    ensures exact { Gives (λ x. x) result (spec.derived_name end bytes.now ts.now) }
    ensures within { IfOk result (λ x. x.1 ≤ length ts.now) }
{
    if !at_key(ts, Word::As) {
        return bare_name(alloc, bytes, ts, end);
    }
    let (name, n) = bare_name(alloc, bytes, after(ts, 1), end)?;
    Ok((name, n + 1))
}

/// The names of the columns of a query in parentheses, where they are written.
#[tactic(auto, unfolding(wt_grammar::specs::Reading::columns))]
pub fn derived_columns(
    alloc: Global,
    bytes: &[u8],
    ts: &[Lexeme],
    end: u32,
    levels: u32,
) -> Result<(Option<Names>, usize), QueryError>
    ensures exact { Gives (λ x. x) result (spec.columns end bytes.now (spec.nest end bytes.now levels) ts.now) }
    ensures within { IfOk result (λ x. x.1 ≤ length ts.now) }
{
    if !at_mark(ts, Sym::Open) {
        return Ok((None, 0));
    }
    let (names, n) = listed::<Name>(alloc, bytes, ts, end, levels)?;
    Ok((Some(Names::from_vec(names)), n))
}

fn place_or(alias: &Option<(Name, u32)>, at: u32) -> u32
    ensures { result ≡ spec.place_or alias.now at }
{
    match alias {
        Some((_, place)) => *place,
        None => at,
    }
}

/// A table and its alias, if one is written.
#[tactic(auto, unfolding(wt_grammar::specs::Reading::table_part))]
pub fn table_part(
    alloc: Global,
    bytes: &[u8],
    ts: &[Lexeme],
    end: u32,
) -> Result<(Box<FromPart>, usize), QueryError>
    ensures exact { Gives (λ f. from_tree f.value) result (spec.table_part end bytes.now ts.now) }
    ensures within { IfOk result (λ x. x.1 ≤ length ts.now) }
{
    let at = place(ts, end);
    let (name, n) = name(alloc, bytes, ts, end)?;
    let (alias, m) = alias(alloc, bytes, after(ts, n), end)?;
    let alias_at = place_or(&alias, at);
    let table = FromPart::Table {
        name,
        alias: name_only(alias),
        at,
        alias_at,
    };
    Ok((Box::new(alloc, table)?, n + m))
}

#[tactic(auto, unfolding(wt_grammar::specs::Reading::outer_join, wt_reading::specs::Readings::expect))]
fn outer_join(kind: JoinKind, ts: &[Lexeme], end: u32) -> Result<(JoinKind, usize), QueryError>
    ensures exact { Gives (λ x. x) result (spec.outer_join end kind ts.now) }
    ensures within { IfOk result (λ x. x.1 ≤ length ts.now) }
{
    if !at_key(ts, Word::Outer) {
        let (_, n) = expect(at_key(ts, Word::Join), QueryFault::Syntax, ts, end)?;
        return Ok((kind, n));
    }
    let rest = after(ts, 1);
    let (_, n) = expect(at_key(rest, Word::Join), QueryFault::Syntax, rest, end)?;
    Ok((kind, n + 1))
}

/// The words of a join, which begin here.
#[tactic(auto, unfolding(wt_grammar::specs::Reading::join_words, wt_reading::specs::Readings::expect))]
pub fn join_words(ts: &[Lexeme], end: u32) -> Result<(JoinKind, usize), QueryError>
    requires { 0 < length ts.now }
    ensures exact { Gives (λ x. x) result (spec.join_words end ts.now) }
    ensures within { IfOk result (λ x. (1 ≤ x.1) × (x.1 ≤ length ts.now)) }
{
    if at_key(ts, Word::Join) {
        return Ok((JoinKind::Inner, 1));
    }
    let rest = after(ts, 1);
    if at_key(ts, Word::Inner) {
        let (_, n) = expect(at_key(rest, Word::Join), QueryFault::Syntax, rest, end)?;
        return Ok((JoinKind::Inner, n + 1));
    }
    let kind = if at_key(ts, Word::Left) {
        JoinKind::Left
    } else {
        JoinKind::Right
    };
    let (kind, n) = outer_join(kind, rest, end)?;
    Ok((kind, n + 1))
}

/// Whether DISTINCT stands behind SELECT.
#[tactic(auto, unfolding(wt_grammar::specs::Reading::quantifier))]
pub fn quantifier(ts: &[Lexeme]) -> (bool, usize)
    ensures exact { spec.quantifier ts.now ≡ Ok result }
    ensures within { result.1 ≤ length ts.now }
{
    if at_key(ts, Word::Distinct) {
        (true, 1)
    } else if at_key(ts, Word::All) {
        (false, 1)
    } else {
        (false, 0)
    }
}

fn join_by(
    kind: JoinKind,
    left: Box<FromPart>,
    right: Box<FromPart>,
    on: Condition,
    on_at: u32,
) -> FromPart
    ensures { from_tree result ≡ spec.join_of kind (from_tree left.value) (from_tree right.value) (condition_tree on) on_at }
{
    match kind {
        JoinKind::Inner => FromPart::Inner {
            left,
            right,
            on,
            on_at,
        },
        JoinKind::Left => FromPart::Left {
            left,
            right,
            on,
            on_at,
        },
        JoinKind::Right => FromPart::Right {
            left,
            right,
            on,
            on_at,
        },
    }
}

/// Two FROM items joined as the words say.
pub fn joined_from(
    alloc: Global,
    kind: JoinKind,
    left: Box<FromPart>,
    right: Box<FromPart>,
    on: Condition,
    on_at: u32,
) -> Result<Box<FromPart>, WantOfMemory>
    ensures { IfOk result (λ f. from_tree f.value ≡ spec.join_of kind (from_tree left.value) (from_tree right.value) (condition_tree on) on_at) }
{
    Ok(Box::new(alloc, join_by(kind, left, right, on, on_at))?)
}

/// A list with commas and the item behind its next comma.
pub fn listed_from(
    alloc: Global,
    left: Box<FromPart>,
    right: Box<FromPart>,
    comma_at: u32,
) -> Result<Box<FromPart>, WantOfMemory>
    ensures { IfOk result (λ f. from_tree f.value ≡ comma (from_tree left.value) (from_tree right.value) comma_at) }
{
    let list = FromPart::Comma {
        left,
        right,
        comma_at,
    };
    Ok(Box::new(alloc, list)?)
}

/// A query in parentheses with its alias, and with names of its columns where they are written.
pub fn derived_from(
    alloc: Global,
    query: Box<Query>,
    alias: Name,
    columns: Option<Names>,
    at: u32,
    alias_at: u32,
) -> Result<Box<FromPart>, WantOfMemory>
    ensures { IfOk result (λ f. from_tree f.value ≡ derived (query_tree query.value) alias columns at alias_at) }
{
    let derived = FromPart::Derived {
        query,
        alias,
        columns,
        at,
        alias_at,
    };
    Ok(Box::new(alloc, derived)?)
}
