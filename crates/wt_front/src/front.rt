//! As what the token at the front is refused, and what it begins.
ghost use Rattle.std.specs.Prelude.{◌≡◌, ◌<◌, ◌≤◌, ◌+◌, length, IfOk, Ok, Err, true, if◌then◌else◌};
ghost use Rattle.wt_reading.specs.Lexemes as spec;
ghost use Rattle.wt_grammar.specs.Kinds as kinds;
ghost use Rattle.wt_grammar.specs.Refusals as tables;
ghost use Rattle.wt_grammar.specs.Reading as reading;
ghost use Rattle.wt_front.specs.Giving.{Gives};

use crate::error::QueryError;
use wt_ast::CmpWord;
use wt_grammar::QueryFault;
use wt_lex::{Sym, Word};
use wt_reading::front::{kind, place};
use wt_reading::{Kind, Lexeme};

/// A refusal at the token at the front.
pub fn no(fault: QueryFault, ts: &[Lexeme], end: u32) -> QueryError
    ensures { result ≡ QueryError.Refused fault (spec.place end ts.now) }
{
    QueryError::Refused(fault, place(ts, end))
}

/// One token that has to stand here: it does, or it is refused as `other`.
pub fn expect(
    wanted: bool,
    other: QueryFault,
    ts: &[Lexeme],
    end: u32,
) -> Result<((), usize), QueryError>
    requires { wanted ≡ true → 0 < length ts.now }
    ensures exact { Gives (λ x. x) result (if wanted then Ok (tt, 1) else Err (reading.refused other, spec.place end ts.now)) }
    ensures within { IfOk result (λ x. x.1 ≤ length ts.now) }
{
    if wanted {
        Ok(((), 1))
    } else {
        Err(no(other, ts, end))
    }
}

/// Whether the words of a join begin here.
pub fn at_join_words(ts: &[Lexeme]) -> bool
    ensures value { result ≡ kinds.begins_join (spec.kind ts.now) }
    ensures some { result ≡ true → 0 < length ts.now }
{
    matches!(
        kind(ts),
        Kind::Key(Word::Join)
            | Kind::Key(Word::Inner)
            | Kind::Key(Word::Left)
            | Kind::Key(Word::Right)
    )
}

pub fn cmp_of(kind: Kind) -> Option<CmpWord>
    ensures { result ≡ reading.cmp_of kind }
{
    match kind {
        Kind::Mark(Sym::Eq) => Some(CmpWord::Eq),
        Kind::Mark(Sym::NotEq) | Kind::Mark(Sym::BangEq) => Some(CmpWord::Ne),
        Kind::Mark(Sym::Lt) => Some(CmpWord::Lt),
        Kind::Mark(Sym::Le) => Some(CmpWord::Le),
        Kind::Mark(Sym::Gt) => Some(CmpWord::Gt),
        Kind::Mark(Sym::Ge) => Some(CmpWord::Ge),
        _ => None,
    }
}

pub fn no_statement(kind: Kind) -> QueryFault
    ensures { result ≡ tables.no_statement kind }
{
    match kind {
        Kind::Key(Word::With) => QueryFault::With,
        _ => QueryFault::NotSelect,
    }
}

pub fn no_operand(kind: Kind, behind: Kind) -> QueryFault
    ensures { result ≡ tables.no_operand kind behind }
{
    match kind {
        Kind::Key(Word::Exists) => QueryFault::Exists,
        Kind::Key(Word::Case) => QueryFault::Case,
        Kind::Key(Word::Cast) => QueryFault::Cast,
        Kind::Mark(Sym::Question) | Kind::Mark(Sym::Dollar) | Kind::Mark(Sym::Colon) =>
            QueryFault::Parameter,
        Kind::Mark(Sym::Open) => match behind {
            Kind::Key(Word::Select) => QueryFault::Subquery,
            _ => QueryFault::Syntax,
        },
        Kind::Mark(Sym::Plus) | Kind::Mark(Sym::Minus) => QueryFault::Arithmetic,
        Kind::Key(Word::Null) | Kind::Key(Word::True) | Kind::Key(Word::False) =>
            QueryFault::Literal,
        _ => QueryFault::Syntax,
    }
}

pub fn no_item(kind: Kind, behind: Kind) -> QueryFault
    ensures { result ≡ tables.no_item kind behind }
{
    match kind {
        Kind::Number(_) | Kind::Text => QueryFault::Literal,
        Kind::Mark(Sym::Minus) => match behind {
            Kind::Number(_) => QueryFault::Literal,
            _ => QueryFault::Arithmetic,
        },
        _ => no_operand(kind, behind),
    }
}

pub fn no_literal(kind: Kind) -> QueryFault
    ensures { result ≡ tables.no_literal kind }
{
    match kind {
        Kind::Key(Word::Null) | Kind::Key(Word::True) | Kind::Key(Word::False) =>
            QueryFault::Literal,
        _ => QueryFault::Syntax,
    }
}

pub fn beyond(kind: Kind) -> Option<QueryFault>
    ensures { result ≡ tables.beyond kind }
{
    match kind {
        Kind::Mark(Sym::Plus)
        | Kind::Mark(Sym::Minus)
        | Kind::Mark(Sym::Star)
        | Kind::Mark(Sym::Slash)
        | Kind::Mark(Sym::Percent)
        | Kind::Mark(Sym::Bars) => Some(QueryFault::Arithmetic),
        Kind::Mark(Sym::ColonColon) => Some(QueryFault::Cast),
        Kind::Key(Word::Like) | Kind::Key(Word::Ilike) | Kind::Key(Word::Similar) => Some(
            QueryFault::Like,
        ),
        _ => None,
    }
}

pub fn no_negated(kind: Kind) -> QueryFault
    ensures { result ≡ tables.no_negated kind }
{
    match kind {
        Kind::Key(Word::Like) | Kind::Key(Word::Ilike) | Kind::Key(Word::Similar) =>
            QueryFault::Like,
        _ => QueryFault::Syntax,
    }
}

pub fn no_end(kind: Kind) -> QueryFault
    ensures { result ≡ tables.no_end kind }
{
    match kind {
        Kind::Key(Word::Group) => QueryFault::GroupBy,
        Kind::Key(Word::Having) => QueryFault::Having,
        Kind::Key(Word::Union) | Kind::Key(Word::Intersect) | Kind::Key(Word::Except) =>
            QueryFault::SetOperation,
        Kind::Key(Word::Order) => QueryFault::OrderBy,
        Kind::Key(Word::Limit) | Kind::Key(Word::Offset) | Kind::Key(Word::Fetch) =>
            QueryFault::Limit,
        Kind::Key(Word::Window) => QueryFault::Window,
        _ => QueryFault::Syntax,
    }
}

// `inside` says that parentheses round a join are open.
fn join_fault(inside: bool, kind: Kind) -> Option<QueryFault>
    ensures { result ≡ tables.join_fault inside kind }
{
    match kind {
        Kind::Mark(Sym::Comma) => {
            if inside {
                Some(QueryFault::CommaJoin)
            } else {
                None
            }
        }
        Kind::Key(Word::Full) => Some(QueryFault::FullJoin),
        Kind::Key(Word::Cross) => Some(QueryFault::CrossJoin),
        Kind::Key(Word::Natural) => Some(QueryFault::NaturalJoin),
        Kind::Key(Word::Using) => Some(QueryFault::Using),
        _ => None,
    }
}

pub fn no_join(inside: bool, kind: Kind) -> QueryFault
    ensures { result ≡ tables.no_join inside kind }
{
    match join_fault(inside, kind) {
        Some(fault) => fault,
        None => QueryFault::Syntax,
    }
}

pub fn no_join_or_end(kind: Kind) -> QueryFault
    ensures { result ≡ tables.no_join_or_end kind }
{
    match join_fault(false, kind) {
        Some(fault) => fault,
        None => no_end(kind),
    }
}
