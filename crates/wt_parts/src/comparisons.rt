//! What follows the first operand of a condition, as far as it holds no query. `at` is where the condition begins.
ghost use Rattle.std.specs.Prelude.{◌≡◌, ◌<◌, ◌≤◌, ◌+◌, ℕ, List, [], ◌∷◌, length, drop, map, IfOk};
ghost use Rattle.wt_ast.specs.Tree.{condition_tree, condition_trees, all_of, any_of, negated, compare};
ghost use Rattle.wt_reading.specs.Lexemes as lexemes;
ghost use Rattle.wt_grammar.specs.Reading as spec;
ghost use Rattle.wt_front.specs.Giving.{Gives};

use crate::lists::listed;
use crate::parts::operand;
use std::alloc::Global;
use wt_ast::{CmpWord, ColumnName, CondKind, Condition, Conditions, Scalar};
use wt_front::QueryError;
use wt_front::front::{cmp_of, expect, no, no_negated};
use wt_grammar::QueryFault;
use wt_lex::{Sym, Word};
use wt_reading::Lexeme;
use wt_reading::front::{after, at_key, at_mark, kind, place};
use wt_value::{Value, Values, WantOfMemory};

fn and_of(alloc: Global, at: u32, parts: Vec<Condition>) -> Result<Condition, WantOfMemory>
    ensures { IfOk result (λ c. condition_tree c ≡ all_of at (condition_trees parts.items)) }
{
    let kind = CondKind::And(Conditions::from_vec(alloc, parts)?);
    Ok(Condition { at, kind })
}

fn or_of(alloc: Global, at: u32, parts: Vec<Condition>) -> Result<Condition, WantOfMemory>
    ensures { IfOk result (λ c. condition_tree c ≡ any_of at (condition_trees parts.items)) }
{
    let kind = CondKind::Or(Conditions::from_vec(alloc, parts)?);
    Ok(Condition { at, kind })
}

/// The And of a first condition and more, or the first alone.
pub fn all_or_one(
    alloc: Global,
    first: Condition,
    mut more: Vec<Condition>,
) -> Result<Condition, WantOfMemory>
    ensures { IfOk result (λ c. condition_tree c ≡ spec.one_or all_of (condition_tree first) (map condition_tree more.items)) }
{
    if more.is_empty() {
        return Ok(first);
    }
    let at = first.at;
    more.insert(0, first)?;
    and_of(alloc, at, more)
}

/// The Or of a first condition and more, or the first alone.
pub fn any_or_one(
    alloc: Global,
    first: Condition,
    mut more: Vec<Condition>,
) -> Result<Condition, WantOfMemory>
    ensures { IfOk result (λ c. condition_tree c ≡ spec.one_or any_of (condition_tree first) (map condition_tree more.items)) }
{
    if more.is_empty() {
        return Ok(first);
    }
    let at = first.at;
    more.insert(0, first)?;
    or_of(alloc, at, more)
}

pub fn negation(alloc: Global, at: u32, inner: Condition) -> Result<Condition, WantOfMemory>
    ensures { IfOk result (λ c. condition_tree c ≡ negated at (condition_tree inner)) }
{
    let kind = CondKind::Not(Box::new(alloc, inner)?);
    Ok(Condition { at, kind })
}

fn comparison(at: u32, word: CmpWord, a: Scalar, b: Scalar, word_at: u32) -> Condition
    ensures { condition_tree result ≡ compare at word a b word_at }
{
    Condition {
        at,
        kind: CondKind::Compare(word, a, b, word_at),
    }
}

fn and_of_two(
    alloc: Global,
    at: u32,
    one: Condition,
    other: Condition,
) -> Result<Condition, WantOfMemory>
    ensures { IfOk result (λ c. condition_tree c ≡ all_of at (condition_trees (one ∷ other ∷ []))) }
{
    let mut parts = Vec::new(alloc);
    parts.push(one)?;
    parts.push(other)?;
    and_of(alloc, at, parts)
}

// `a BETWEEN low AND high`, which is the And of `a >= low` and `a <= high`.
fn between_of(
    alloc: Global,
    at: u32,
    a: Scalar,
    low: Scalar,
    high: Scalar,
    word: u32,
) -> Result<Condition, WantOfMemory>
    ensures { IfOk result (λ c. condition_tree c ≡ spec.between_of at a low high word) }
{
    let above = comparison(at, CmpWord::Ge, a.clone()?, low, word);
    let below = comparison(at, CmpWord::Le, a, high, word);
    and_of_two(alloc, at, above, below)
}

/// Behind BETWEEN.
#[tactic(auto, unfolding(wt_grammar::specs::Reading::between, wt_reading::specs::Readings::expect))]
pub fn between(
    alloc: Global,
    bytes: &[u8],
    at: u32,
    a: Scalar,
    word: u32,
    ts: &[Lexeme],
    end: u32,
) -> Result<(Condition, usize), QueryError>
    ensures exact { Gives condition_tree result (spec.between end bytes.now at a word ts.now) }
    ensures within { IfOk result (λ x. x.1 ≤ length ts.now) }
{
    let (low, n) = operand(alloc, bytes, ts, end)?;
    let rest = after(ts, n);
    let (_, m) = expect(at_key(rest, Word::And), QueryFault::Syntax, rest, end)?;
    let rest = after(rest, m);
    let (high, k) = operand(alloc, bytes, rest, end)?;
    Ok((between_of(alloc, at, a, low, high, word)?, n + m + k))
}

/// Behind a column and IS.
#[tactic(auto, unfolding(wt_grammar::specs::Reading::is_part, wt_reading::specs::Readings::expect))]
pub fn is_part(
    at: u32,
    column: ColumnName,
    ts: &[Lexeme],
    end: u32,
) -> Result<(Condition, usize), QueryError>
    ensures exact { Gives condition_tree result (spec.is_part end at column ts.now) }
    ensures within { IfOk result (λ x. x.1 ≤ length ts.now) }
{
    if at_key(ts, Word::Not) {
        let rest = after(ts, 1);
        let (_, n) = expect(at_key(rest, Word::Null), QueryFault::Syntax, rest, end)?;
        let kind = CondKind::IsNotNull(column);
        return Ok((Condition { at, kind }, n + 1));
    }
    let (_, n) = expect(at_key(ts, Word::Null), QueryFault::Syntax, ts, end)?;
    let kind = CondKind::IsNull(column);
    Ok((Condition { at, kind }, n))
}

/// Behind a column and IN, or NOT IN, a list of literals in parentheses.
#[tactic(auto, unfolding(wt_grammar::specs::Reading::values))]
pub fn values(
    alloc: Global,
    bytes: &[u8],
    at: u32,
    column: ColumnName,
    word: u32,
    ts: &[Lexeme],
    end: u32,
    levels: u32,
) -> Result<(Condition, usize), QueryError>
    requires { 0 < length ts.now }
    ensures exact { Gives condition_tree result (spec.values end bytes.now (spec.nest end bytes.now levels) at column word ts.now) }
    ensures within { IfOk result (λ x. x.1 ≤ length ts.now) }
{
    let (values, n) = listed::<Value>(alloc, bytes, ts, end, levels)?;
    let kind = CondKind::InList(column, Values::from_vec(values), word);
    Ok((Condition { at, kind }, n))
}

// Behind a column and NOT IN, where NOT stands at `not_at` and IN at `word`.
#[tactic(auto, unfolding(wt_grammar::specs::Reading::not_in_part))]
fn not_in_part(
    alloc: Global,
    bytes: &[u8],
    at: u32,
    column: ColumnName,
    not_at: u32,
    word: u32,
    ts: &[Lexeme],
    end: u32,
    levels: u32,
) -> Result<(Condition, usize), QueryError>
    ensures exact { Gives condition_tree result (spec.not_in_part end bytes.now (spec.nest end bytes.now levels) at column not_at word ts.now) }
    ensures within { IfOk result (λ x. x.1 ≤ length ts.now) }
{
    if !at_mark(ts, Sym::Open) {
        return Err(no(QueryFault::Syntax, ts, end));
    }
    if at_key(after(ts, 1), Word::Select) {
        return Err(QueryError::Refused(QueryFault::NotInSubquery, not_at));
    }
    let (list, n) = values(alloc, bytes, at, column, word, ts, end, levels)?;
    Ok((negation(alloc, at, list)?, n))
}

/// Behind an operand and NOT, where NOT stands at `not_at`.
#[tactic(auto, unfolding(wt_grammar::specs::Reading::after_not))]
pub fn after_not(
    alloc: Global,
    bytes: &[u8],
    at: u32,
    a: Scalar,
    not_at: u32,
    ts: &[Lexeme],
    end: u32,
    levels: u32,
) -> Result<(Condition, usize), QueryError>
    ensures exact { Gives condition_tree result (spec.after_not end bytes.now (spec.nest end bytes.now levels) at a not_at ts.now) }
    ensures within { IfOk result (λ x. x.1 ≤ length ts.now) }
{
    let word = place(ts, end);
    if at_key(ts, Word::Between) {
        let (inner, n) = between(alloc, bytes, at, a, word, after(ts, 1), end)?;
        return Ok((negation(alloc, at, inner)?, n + 1));
    }
    if !at_key(ts, Word::In) {
        return Err(no(no_negated(kind(ts)), ts, end));
    }
    match a {
        Scalar::Literal(_, _) => Err(no(QueryFault::Syntax, ts, end)),
        Scalar::Column(column) => {
            let (list, n) = not_in_part(
                alloc,
                bytes,
                at,
                column,
                not_at,
                word,
                after(ts, 1),
                end,
                levels,
            )?;
            Ok((list, n + 1))
        }
    }
}

/// Behind an operand, where a comparison has to stand.
pub fn compared(
    alloc: Global,
    bytes: &[u8],
    at: u32,
    a: Scalar,
    ts: &[Lexeme],
    end: u32,
) -> Result<(Condition, usize), QueryError>
    ensures exact { Gives condition_tree result (spec.compared_by end bytes.now (spec.cmp_of (lexemes.kind ts.now)) at a ts.now) }
    ensures within { IfOk result (λ x. x.1 ≤ length ts.now) }
{
    match cmp_of(kind(ts)) {
        None => Err(no(QueryFault::Syntax, ts, end)),
        Some(word) => {
            let (b, n) = operand(alloc, bytes, after(ts, 1), end)?;
            let kind = CondKind::Compare(word, a, b, place(ts, end));
            Ok((Condition { at, kind }, n + 1))
        }
    }
}
