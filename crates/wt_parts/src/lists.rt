//! Lists with commas, bare or in parentheses.
ghost use Rattle.std.specs.Prelude.{◌≡◌, ◌<◌, ◌≤◌, ◌+◌, ℕ, List, length, drop, IfOk};
ghost use Rattle.wt_reading.specs.Lexemes.{Tokens, is_comma};
ghost use Rattle.wt_grammar.specs.Reading as spec;
ghost use Rattle.wt_grammar.specs.Reading.{Read};
ghost use Rattle.wt_reading.specs.Readings as readings;
ghost use Rattle.wt_front.specs.Giving.{Gives, Adds};

use crate::parts::{column, item, literal, name};
use std::alloc::Global;
use wt_ast::{ColumnName, Item};
use wt_front::QueryError;
use wt_front::front::{expect, no};
use wt_grammar::QueryFault;
use wt_lex::Sym;
use wt_reading::Lexeme;
use wt_reading::front::{after, at_mark};
use wt_value::{Name, Value};

/// What a list is made of, and how it is read from the front of tokens.
pub trait Part: Sized + Drop {
    ghost reading: { ℕ → List ℕ → Tokens → Read Self };

    fn read(
        alloc: Global,
        bytes: &[u8],
        ts: &[Lexeme],
        end: u32,
    ) -> Result<(Self, usize), QueryError>
        ensures exact { Gives (λ x. x) result (reading end bytes.now ts.now) }
        ensures within { IfOk result (λ x. x.1 ≤ length ts.now) };
}

impl Part for ColumnName {
    ghost reading = { spec.column };

    fn read(
        alloc: Global,
        bytes: &[u8],
        ts: &[Lexeme],
        end: u32,
    ) -> Result<(ColumnName, usize), QueryError> {
        column(alloc, bytes, ts, end)
    }
}

impl Part for Value {
    ghost reading = { spec.literal };

    fn read(
        alloc: Global,
        bytes: &[u8],
        ts: &[Lexeme],
        end: u32,
    ) -> Result<(Value, usize), QueryError> {
        literal(alloc, bytes, ts, end)
    }
}

impl Part for Name {
    ghost reading = { spec.name };

    fn read(
        alloc: Global,
        bytes: &[u8],
        ts: &[Lexeme],
        end: u32,
    ) -> Result<(Name, usize), QueryError> {
        name(alloc, bytes, ts, end)
    }
}

impl Part for Item {
    ghost reading = { spec.item };

    fn read(
        alloc: Global,
        bytes: &[u8],
        ts: &[Lexeme],
        end: u32,
    ) -> Result<(Item, usize), QueryError> {
        item(alloc, bytes, ts, end)
    }
}

/// One or more parts.
#[tactic(auto, unfolding(wt_reading::specs::Readings::list))]
pub fn list<T: Part>(
    alloc: Global,
    bytes: &[u8],
    ts: &[Lexeme],
    end: u32,
) -> Result<(Vec<T>, usize), QueryError>
    ensures exact { Gives (λ x. x.items) result (readings.list (T.reading end bytes.now) ts.now) }
    ensures within { IfOk result (λ x. x.1 ≤ length ts.now) }
{
    let (first, n) = T::read(alloc, bytes, ts, end)?;
    let mut all = Vec::new(alloc);
    all.push(first)?;
    let m = more(alloc, bytes, &mut all, after(ts, n), end)?;
    Ok((all, n + m))
}

fn more<T: Part>(
    alloc: Global,
    bytes: &[u8],
    all: &mut Vec<T>,
    ts: &[Lexeme],
    end: u32,
) -> Result<usize, QueryError>
    ensures exact { Adds result all.old.items all.new.items (readings.more is_comma (T.reading end bytes.now) 0 ts.now) }
    ensures within { IfOk result (λ n. n ≤ length ts.now) }
{
    let mut at = 0;
    'parts: while at_mark(after(ts, at), Sym::Comma) {
        let (part, n) = T::read(alloc, bytes, after(ts, at + 1), end)?;
        all.push(part)?;
        at += n + 1;
    }
    Ok(at)
}

/// One or more parts in parentheses, which are a level of nesting.
#[tactic(auto, using(crate::proofs::Nesting::rooms), unfolding(wt_grammar::specs::Reading::listed, wt_reading::specs::Readings::expect))]
pub fn listed<T: Part>(
    alloc: Global,
    bytes: &[u8],
    ts: &[Lexeme],
    end: u32,
    levels: u32,
) -> Result<(Vec<T>, usize), QueryError>
    requires { 0 < length ts.now }
    ensures exact { Gives (λ x. x.items) result (spec.listed end bytes.now (spec.nest end bytes.now levels) (T.reading end bytes.now) ts.now) }
    ensures within { IfOk result (λ x. x.1 ≤ length ts.now) }
{
    if levels == 0 {
        return Err(no(QueryFault::TooDeep, ts, end));
    }
    let inside = after(ts, 1);
    let (parts, n) = list(alloc, bytes, inside, end)?;
    let rest = after(inside, n);
    let (_, m) = expect(at_mark(rest, Sym::Close), QueryFault::Syntax, rest, end)?;
    Ok((parts, n + m + 1))
}
