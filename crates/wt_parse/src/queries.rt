//! Conditions, FROM and queries, by recursive descent. Each function reads what the definition of its name reads.
ghost use Rattle.std.specs.Prelude.{◌≡◌, ◌<◌, ◌≤◌, ◌+◌, length, drop, map, IfOk, true};
ghost use Rattle.wt_ast.specs.Tree.{condition_tree, filter_tree, from_tree, query_tree};
ghost use Rattle.wt_reading.specs.Lexemes as lexemes;
ghost use Rattle.wt_grammar.specs.Kinds.{is_and, is_or, begins_join};
ghost use Rattle.wt_reading.specs.Lexemes.{is_comma};
ghost use Rattle.wt_grammar.specs.Reading as spec;
ghost use Rattle.wt_reading.specs.Readings as readings;
ghost use Rattle.wt_front.specs.Giving.{Gives, Adds, is_joint};

use std::alloc::Global;
use wt_ast::{ColumnName, ColumnNames, CondKind, Condition, FromPart, Item, Items, Query, Scalar};
use wt_front::QueryError;
use wt_front::front::{at_join_words, expect, no, no_end, no_join, no_join_or_end, no_statement};
use wt_grammar::QueryFault;
use wt_lex::{Sym, Word};
use wt_parts::comparisons::{
    after_not, all_or_one, any_or_one, between, compared, is_part, negation, values,
};
use wt_parts::lists::{list, listed};
use wt_parts::parts::operand;
use wt_parts::sources::{
    derived_columns, derived_from, derived_name, join_words, joined_from, listed_from, opens_tuple,
    quantifier, table_part,
};
use wt_reading::front::{after, at_end, at_key, at_mark, at_name, kind, place};
use wt_reading::{Kind, Lexeme};

// Whether the word between the parts of a run stands here.
fn at_joint(word: Word, ts: &[Lexeme]) -> bool
    ensures value { result ≡ is_joint word (lexemes.kind ts.now) }
    ensures some { result ≡ true → 0 < length ts.now }
{
    match word {
        Word::And => at_key(ts, Word::And),
        Word::Or => at_key(ts, Word::Or),
        _ => false,
    }
}

#[cycle(read)]
#[tactic(auto, unfolding(wt_grammar::specs::Reading::cond, wt_grammar::specs::Reading::run))]
fn cond(
    alloc: Global,
    bytes: &[u8],
    ts: &[Lexeme],
    end: u32,
    levels: u32,
) -> Result<(Condition, usize), QueryError>
    ensures exact { Gives condition_tree result (spec.cond end bytes.now (spec.nest end bytes.now levels) ts.now) }
    ensures within { IfOk result (λ x. x.1 ≤ length ts.now) }
{
    let (first, n) = conj(alloc, bytes, ts, end, levels)?;
    let mut parts = Vec::new(alloc);
    let m = more_conj(alloc, bytes, &mut parts, after(ts, n), end, levels)?;
    Ok((any_or_one(alloc, first, parts)?, n + m))
}

#[cycle(read)]
fn more_conj(
    alloc: Global,
    bytes: &[u8],
    parts: &mut Vec<Condition>,
    ts: &[Lexeme],
    end: u32,
    levels: u32,
) -> Result<usize, QueryError>
    ensures exact { Adds result (map condition_tree parts.old.items) (map condition_tree parts.new.items) (readings.more is_or (spec.conj end bytes.now (spec.nest end bytes.now levels)) 0 ts.now) }
    ensures within { IfOk result (λ n. n ≤ length ts.now) }
{
    let mut at = 0;
    'parts: while at_joint(Word::Or, after(ts, at)) {
        let (part, m) = conj(alloc, bytes, after(ts, at + 1), end, levels)?;
        parts.push(part)?;
        at += m + 1;
    }
    Ok(at)
}

#[cycle(read)]
#[tactic(auto, unfolding(wt_grammar::specs::Reading::conj, wt_grammar::specs::Reading::run))]
fn conj(
    alloc: Global,
    bytes: &[u8],
    ts: &[Lexeme],
    end: u32,
    levels: u32,
) -> Result<(Condition, usize), QueryError>
    ensures exact { Gives condition_tree result (spec.conj end bytes.now (spec.nest end bytes.now levels) ts.now) }
    ensures within { IfOk result (λ x. x.1 ≤ length ts.now) }
{
    let (first, n) = neg(alloc, bytes, ts, end, levels)?;
    let mut parts = Vec::new(alloc);
    let m = more_neg(alloc, bytes, &mut parts, after(ts, n), end, levels)?;
    Ok((all_or_one(alloc, first, parts)?, n + m))
}

#[cycle(read)]
fn more_neg(
    alloc: Global,
    bytes: &[u8],
    parts: &mut Vec<Condition>,
    ts: &[Lexeme],
    end: u32,
    levels: u32,
) -> Result<usize, QueryError>
    ensures exact { Adds result (map condition_tree parts.old.items) (map condition_tree parts.new.items) (readings.more is_and (spec.neg end bytes.now (spec.nest end bytes.now levels)) 0 ts.now) }
    ensures within { IfOk result (λ n. n ≤ length ts.now) }
{
    let mut at = 0;
    'parts: while at_joint(Word::And, after(ts, at)) {
        let (part, m) = neg(alloc, bytes, after(ts, at + 1), end, levels)?;
        parts.push(part)?;
        at += m + 1;
    }
    Ok(at)
}

#[cycle(read)]
#[tactic(auto, using(wt_parts::proofs::Nesting::openings), unfolding(wt_grammar::specs::Reading::neg))]
fn neg(
    alloc: Global,
    bytes: &[u8],
    ts: &[Lexeme],
    end: u32,
    levels: u32,
) -> Result<(Condition, usize), QueryError>
    ensures exact { Gives condition_tree result (spec.neg end bytes.now (spec.nest end bytes.now levels) ts.now) }
    ensures within { IfOk result (λ x. x.1 ≤ length ts.now) }
{
    if !at_key(ts, Word::Not) {
        return basic(alloc, bytes, ts, end, levels);
    }
    if levels == 0 {
        return Err(no(QueryFault::TooDeep, ts, end));
    }
    let (inner, n) = neg(alloc, bytes, after(ts, 1), end, levels - 1)?;
    Ok((negation(alloc, place(ts, end), inner)?, n + 1))
}

#[cycle(read)]
#[tactic(auto, using(wt_parts::proofs::Nesting::openings), unfolding(wt_grammar::specs::Reading::basic, wt_reading::specs::Readings::expect))]
fn basic(
    alloc: Global,
    bytes: &[u8],
    ts: &[Lexeme],
    end: u32,
    levels: u32,
) -> Result<(Condition, usize), QueryError>
    ensures exact { Gives condition_tree result (spec.basic end bytes.now (spec.nest end bytes.now levels) ts.now) }
    ensures within { IfOk result (λ x. x.1 ≤ length ts.now) }
{
    if !at_mark(ts, Sym::Open) {
        let (a, n) = operand(alloc, bytes, ts, end)?;
        let (c, m) = after_operand(alloc, bytes, place(ts, end), a, after(ts, n), end, levels)?;
        return Ok((c, n + m));
    }
    let inside = after(ts, 1);
    if at_key(inside, Word::Select) {
        return Err(no(QueryFault::Subquery, ts, end));
    }
    if opens_tuple(ts) {
        return tuple_in(alloc, bytes, ts, end, levels);
    }
    if levels == 0 {
        return Err(no(QueryFault::TooDeep, ts, end));
    }
    let (c, n) = cond(alloc, bytes, inside, end, levels - 1)?;
    let rest = after(inside, n);
    let (_, m) = expect(at_mark(rest, Sym::Close), QueryFault::Syntax, rest, end)?;
    Ok((c, n + m + 1))
}

#[cycle(read)]
#[tactic(auto, unfolding(wt_grammar::specs::Reading::after_operand))]
fn after_operand(
    alloc: Global,
    bytes: &[u8],
    at: u32,
    a: Scalar,
    ts: &[Lexeme],
    end: u32,
    levels: u32,
) -> Result<(Condition, usize), QueryError>
    ensures exact { Gives condition_tree result (spec.after_operand end bytes.now (spec.nest end bytes.now levels) at a ts.now) }
    ensures within { IfOk result (λ x. x.1 ≤ length ts.now) }
{
    let word = place(ts, end);
    if at_key(ts, Word::Between) {
        let (c, n) = between(alloc, bytes, at, a, word, after(ts, 1), end)?;
        return Ok((c, n + 1));
    }
    if at_key(ts, Word::Not) {
        let (c, n) = after_not(alloc, bytes, at, a, word, after(ts, 1), end, levels)?;
        return Ok((c, n + 1));
    }
    if at_key(ts, Word::Is) {
        return match a {
            Scalar::Literal(_, _) => Err(no(QueryFault::Syntax, ts, end)),
            Scalar::Column(column) => {
                let (c, n) = is_part(at, column, after(ts, 1), end)?;
                Ok((c, n + 1))
            }
        };
    }
    if at_key(ts, Word::In) {
        return match a {
            Scalar::Literal(_, _) => Err(no(QueryFault::Syntax, ts, end)),
            Scalar::Column(column) => {
                let (c, n) = in_part(alloc, bytes, at, column, word, after(ts, 1), end, levels)?;
                Ok((c, n + 1))
            }
        };
    }
    compared(alloc, bytes, at, a, ts, end)
}

// Behind a column and IN, which stands at `word`.
#[cycle(read)]
#[tactic(auto, unfolding(wt_grammar::specs::Reading::in_part))]
fn in_part(
    alloc: Global,
    bytes: &[u8],
    at: u32,
    column: ColumnName,
    word: u32,
    ts: &[Lexeme],
    end: u32,
    levels: u32,
) -> Result<(Condition, usize), QueryError>
    ensures exact { Gives condition_tree result (spec.in_part end bytes.now (spec.nest end bytes.now levels) at column word ts.now) }
    ensures within { IfOk result (λ x. x.1 ≤ length ts.now) }
{
    if !at_mark(ts, Sym::Open) {
        return Err(no(QueryFault::Syntax, ts, end));
    }
    if !at_key(after(ts, 1), Word::Select) {
        return values(alloc, bytes, at, column, word, ts, end, levels);
    }
    let mut columns = Vec::new(alloc);
    columns.push(column)?;
    subquery(alloc, bytes, at, columns, word, ts, end, levels)
}

#[cycle(read)]
#[tactic(auto, unfolding(wt_grammar::specs::Reading::subquery))]
fn subquery(
    alloc: Global,
    bytes: &[u8],
    at: u32,
    columns: Vec<ColumnName>,
    word: u32,
    ts: &[Lexeme],
    end: u32,
    levels: u32,
) -> Result<(Condition, usize), QueryError>
    requires { 0 < length ts.now }
    ensures exact { Gives condition_tree result (spec.subquery end bytes.now (spec.nest end bytes.now levels) at columns.items word ts.now) }
    ensures within { IfOk result (λ x. x.1 ≤ length ts.now) }
{
    let (query, n) = query(alloc, bytes, ts, end, levels)?;
    let kind = CondKind::InQuery(ColumnNames::from_vec(columns), query, word);
    Ok((Condition { at, kind }, n))
}

#[cycle(read)]
#[tactic(auto, unfolding(wt_grammar::specs::Reading::tuple_in))]
fn tuple_in(
    alloc: Global,
    bytes: &[u8],
    ts: &[Lexeme],
    end: u32,
    levels: u32,
) -> Result<(Condition, usize), QueryError>
    requires { 0 < length ts.now }
    ensures exact { Gives condition_tree result (spec.tuple_in end bytes.now (spec.nest end bytes.now levels) ts.now) }
    ensures within { IfOk result (λ x. x.1 ≤ length ts.now) }
{
    let (columns, n) = listed::<ColumnName>(alloc, bytes, ts, end, levels)?;
    let (c, m) = after_tuple(
        alloc,
        bytes,
        place(ts, end),
        columns,
        after(ts, n),
        end,
        levels,
    )?;
    Ok((c, n + m))
}

// Behind a tuple, where IN or NOT IN stands.
#[cycle(read)]
#[tactic(auto, unfolding(wt_grammar::specs::Reading::after_tuple))]
fn after_tuple(
    alloc: Global,
    bytes: &[u8],
    at: u32,
    columns: Vec<ColumnName>,
    ts: &[Lexeme],
    end: u32,
    levels: u32,
) -> Result<(Condition, usize), QueryError>
    ensures exact { Gives condition_tree result (spec.after_tuple end bytes.now (spec.nest end bytes.now levels) at columns.items ts.now) }
    ensures within { IfOk result (λ x. x.1 ≤ length ts.now) }
{
    if !at_key(ts, Word::In) {
        let is_query = at_mark(after(ts, 2), Sym::Open) && at_key(after(ts, 3), Word::Select);
        let fault = if is_query {
            QueryFault::NotInSubquery
        } else {
            QueryFault::Syntax
        };
        return Err(no(fault, ts, end));
    }
    let rest = after(ts, 1);
    if !at_mark(rest, Sym::Open) {
        return Err(no(QueryFault::Syntax, rest, end));
    }
    let select = after(ts, 2);
    if !at_key(select, Word::Select) {
        return Err(no(QueryFault::Syntax, select, end));
    }
    let (c, n) = subquery(alloc, bytes, at, columns, place(ts, end), rest, end, levels)?;
    Ok((c, n + 1))
}

// What may stand behind a query.
fn no_query_end(query: &Query, kind: Kind) -> QueryFault
    ensures { result ≡ spec.no_query_end (query_tree query.now) kind }
{
    match &query.filter {
        None => no_join_or_end(kind),
        Some(_) => no_end(kind),
    }
}

// A query in parentheses.
#[cycle(read)]
#[tactic(auto, using(wt_parts::proofs::Nesting::openings), unfolding(wt_reading::specs::Readings::expect))]
fn query(
    alloc: Global,
    bytes: &[u8],
    ts: &[Lexeme],
    end: u32,
    levels: u32,
) -> Result<(Box<Query>, usize), QueryError>
    requires { 0 < length ts.now }
    ensures exact { Gives (λ q. query_tree q.value) result ((spec.nest end bytes.now levels).queries ts.now) }
    ensures within { IfOk result (λ x. x.1 ≤ length ts.now) }
{
    if levels == 0 {
        return Err(no(QueryFault::TooDeep, ts, end));
    }
    let inside = after(ts, 1);
    let (query, n) = body(alloc, bytes, after(inside, 1), end, levels - 1)?;
    let rest = after(inside, 1 + n);
    let (_, m) = expect(
        at_mark(rest, Sym::Close),
        no_query_end(&query, kind(rest)),
        rest,
        end,
    )?;
    Ok((query, n + m + 2))
}

// A query behind SELECT.
#[cycle(read)]
#[tactic(auto, unfolding(wt_grammar::specs::Reading::body, wt_reading::specs::Readings::expect))]
fn body(
    alloc: Global,
    bytes: &[u8],
    ts: &[Lexeme],
    end: u32,
    levels: u32,
) -> Result<(Box<Query>, usize), QueryError>
    ensures exact { Gives (λ q. query_tree q.value) result (spec.body end bytes.now (spec.nest end bytes.now levels) ts.now) }
    ensures within { IfOk result (λ x. x.1 ≤ length ts.now) }
{
    let (distinct, d) = quantifier(ts);
    let rest = after(ts, d);
    let (items, n) = list::<Item>(alloc, bytes, rest, end)?;
    let rest = after(rest, n);
    let (_, f) = expect(at_key(rest, Word::From), QueryFault::Syntax, rest, end)?;
    let rest = after(rest, f);
    let (from, m) = from_list(alloc, bytes, rest, end, levels)?;
    let (filter, k) = filter(alloc, bytes, after(rest, m), end, levels)?;
    let query = Query {
        distinct,
        items: Items::from_vec(items),
        from: Box::into_inner(from),
        filter,
    };
    Ok((Box::new(alloc, query)?, d + n + f + m + k))
}

#[cycle(read)]
#[tactic(auto, unfolding(wt_grammar::specs::Reading::filter))]
fn filter(
    alloc: Global,
    bytes: &[u8],
    ts: &[Lexeme],
    end: u32,
    levels: u32,
) -> Result<(Option<Condition>, usize), QueryError>
    ensures exact { Gives filter_tree result (spec.filter end bytes.now (spec.nest end bytes.now levels) ts.now) }
    ensures within { IfOk result (λ x. x.1 ≤ length ts.now) }
{
    if !at_key(ts, Word::Where) {
        return Ok((None, 0));
    }
    let (c, n) = cond(alloc, bytes, after(ts, 1), end, levels)?;
    Ok((Some(c), n + 1))
}

#[cycle(read)]
#[tactic(auto, using(wt_parts::proofs::Nesting::openings), unfolding(wt_grammar::specs::Reading::primary, wt_reading::specs::Readings::expect))]
fn primary(
    alloc: Global,
    bytes: &[u8],
    ts: &[Lexeme],
    end: u32,
    levels: u32,
) -> Result<(Box<FromPart>, usize), QueryError>
    ensures exact { Gives (λ f. from_tree f.value) result (spec.primary end bytes.now (spec.nest end bytes.now levels) ts.now) }
    ensures within { IfOk result (λ x. x.1 ≤ length ts.now) }
{
    if at_name(ts) {
        return table_part(alloc, bytes, ts, end);
    }
    if !at_mark(ts, Sym::Open) {
        return Err(no(QueryFault::Syntax, ts, end));
    }
    let inside = after(ts, 1);
    if at_key(inside, Word::Select) {
        return derived_part(alloc, bytes, ts, end, levels);
    }
    if levels == 0 {
        return Err(no(QueryFault::TooDeep, ts, end));
    }
    let (part, n) = joined(alloc, bytes, true, inside, end, levels - 1)?;
    let rest = after(inside, n);
    let (_, m) = expect(
        at_mark(rest, Sym::Close),
        no_join(true, kind(rest)),
        rest,
        end,
    )?;
    Ok((part, n + m + 1))
}

// A query in parentheses with its alias, and with names of its columns where they are written.
#[cycle(read)]
#[tactic(auto, unfolding(wt_grammar::specs::Reading::derived_part))]
fn derived_part(
    alloc: Global,
    bytes: &[u8],
    ts: &[Lexeme],
    end: u32,
    levels: u32,
) -> Result<(Box<FromPart>, usize), QueryError>
    requires { 0 < length ts.now }
    ensures exact { Gives (λ f. from_tree f.value) result (spec.derived_part end bytes.now (spec.nest end bytes.now levels) ts.now) }
    ensures within { IfOk result (λ x. x.1 ≤ length ts.now) }
{
    let at = place(ts, end);
    let (query, n) = query(alloc, bytes, ts, end, levels)?;
    let rest = after(ts, n);
    let ((alias, alias_at), m) = derived_name(alloc, bytes, rest, end)?;
    let (columns, k) = derived_columns(alloc, bytes, after(rest, m), end, levels)?;
    Ok((
        derived_from(alloc, query, alias, columns, at, alias_at)?,
        n + m + k,
    ))
}

// A chain of joins. `inside` says that parentheses round it are open.
#[cycle(read)]
#[tactic(auto, unfolding(wt_grammar::specs::Reading::joined))]
fn joined(
    alloc: Global,
    bytes: &[u8],
    inside: bool,
    ts: &[Lexeme],
    end: u32,
    levels: u32,
) -> Result<(Box<FromPart>, usize), QueryError>
    ensures exact { Gives (λ f. from_tree f.value) result (spec.joined end bytes.now (spec.nest end bytes.now levels) inside ts.now) }
    ensures within { IfOk result (λ x. x.1 ≤ length ts.now) }
{
    let (first, n) = primary(alloc, bytes, ts, end, levels)?;
    let (part, m) = joins(alloc, bytes, inside, first, after(ts, n), end, levels)?;
    Ok((part, n + m))
}

#[cycle(read)]
fn joins(
    alloc: Global,
    bytes: &[u8],
    inside: bool,
    first: Box<FromPart>,
    ts: &[Lexeme],
    end: u32,
    levels: u32,
) -> Result<(Box<FromPart>, usize), QueryError>
    ensures exact { Gives (λ f. from_tree f.value) result (readings.repeat (lexemes.at begins_join) (spec.join end bytes.now (spec.nest end bytes.now levels) inside) 0 (from_tree first.value) ts.now) }
    ensures within { IfOk result (λ x. x.1 ≤ length ts.now) }
{
    let mut left = first;
    let mut at = 0;
    'parts: while at_join_words(after(ts, at)) {
        let (wider, m) = join(alloc, bytes, inside, left, after(ts, at), end, levels)?;
        left = wider;
        at += m;
    }
    Ok((left, at))
}

#[cycle(read)]
#[tactic(auto, unfolding(wt_grammar::specs::Reading::join, wt_reading::specs::Readings::expect))]
fn join(
    alloc: Global,
    bytes: &[u8],
    inside: bool,
    left: Box<FromPart>,
    ts: &[Lexeme],
    end: u32,
    levels: u32,
) -> Result<(Box<FromPart>, usize), QueryError>
    requires { 0 < length ts.now }
    ensures exact { Gives (λ f. from_tree f.value) result (spec.join end bytes.now (spec.nest end bytes.now levels) inside (from_tree left.value) ts.now) }
    ensures within { IfOk result (λ x. (1 ≤ x.1) × (x.1 ≤ length ts.now)) }
{
    let (word, n) = join_words(ts, end)?;
    let rest = after(ts, n);
    let (right, m) = primary(alloc, bytes, rest, end, levels)?;
    let rest = after(rest, m);
    let on_at = place(rest, end);
    let (_, f) = expect(
        at_key(rest, Word::On),
        no_join(inside, kind(rest)),
        rest,
        end,
    )?;
    let (on, k) = cond(alloc, bytes, after(rest, f), end, levels)?;
    Ok((
        joined_from(alloc, word, left, right, on, on_at)?,
        n + m + f + k,
    ))
}

// What stands behind FROM: chains of joins with commas between.
#[cycle(read)]
#[tactic(auto, unfolding(wt_grammar::specs::Reading::from_list))]
fn from_list(
    alloc: Global,
    bytes: &[u8],
    ts: &[Lexeme],
    end: u32,
    levels: u32,
) -> Result<(Box<FromPart>, usize), QueryError>
    ensures exact { Gives (λ f. from_tree f.value) result (spec.from_list end bytes.now (spec.nest end bytes.now levels) ts.now) }
    ensures within { IfOk result (λ x. x.1 ≤ length ts.now) }
{
    let (first, n) = joined(alloc, bytes, false, ts, end, levels)?;
    let (list, m) = more_from(alloc, bytes, first, after(ts, n), end, levels)?;
    Ok((list, n + m))
}

#[cycle(read)]
fn more_from(
    alloc: Global,
    bytes: &[u8],
    first: Box<FromPart>,
    ts: &[Lexeme],
    end: u32,
    levels: u32,
) -> Result<(Box<FromPart>, usize), QueryError>
    ensures exact { Gives (λ f. from_tree f.value) result (readings.repeat (lexemes.at is_comma) (spec.listed_part end bytes.now (spec.nest end bytes.now levels)) 0 (from_tree first.value) ts.now) }
    ensures within { IfOk result (λ x. x.1 ≤ length ts.now) }
{
    let mut left = first;
    let mut at = 0;
    'parts: while at_mark(after(ts, at), Sym::Comma) {
        let (wider, m) = listed_part(alloc, bytes, left, after(ts, at), end, levels)?;
        left = wider;
        at += m;
    }
    Ok((left, at))
}

// A comma and the chain of joins behind it.
#[cycle(read)]
#[tactic(auto, unfolding(wt_grammar::specs::Reading::listed_part))]
fn listed_part(
    alloc: Global,
    bytes: &[u8],
    left: Box<FromPart>,
    ts: &[Lexeme],
    end: u32,
    levels: u32,
) -> Result<(Box<FromPart>, usize), QueryError>
    requires { 0 < length ts.now }
    ensures exact { Gives (λ f. from_tree f.value) result (spec.listed_part end bytes.now (spec.nest end bytes.now levels) (from_tree left.value) ts.now) }
    ensures within { IfOk result (λ x. (1 ≤ x.1) × (x.1 ≤ length ts.now)) }
{
    let comma_at = place(ts, end);
    let (right, n) = joined(alloc, bytes, false, after(ts, 1), end, levels)?;
    Ok((listed_from(alloc, left, right, comma_at)?, n + 1))
}

/// The query that the tokens of a statement are.
#[tactic(auto, unfolding(wt_grammar::specs::Reading::statement))]
pub(crate) fn statement(
    alloc: Global,
    bytes: &[u8],
    ts: &[Lexeme],
    end: u32,
) -> Result<(Box<Query>, usize), QueryError>
    ensures exact { Gives (λ q. query_tree q.value) result (spec.statement end bytes.now ts.now) }
{
    if !at_key(ts, Word::Select) {
        return Err(no(no_statement(kind(ts)), ts, end));
    }
    let inside = after(ts, 1);
    let (query, n) = body(alloc, bytes, inside, end, 32)?;
    let rest = after(inside, n);
    if !at_end(rest) {
        return Err(no(no_query_end(&query, kind(rest)), rest, end));
    }
    Ok((query, n + 1))
}
