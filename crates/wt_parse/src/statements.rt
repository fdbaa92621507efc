//! The statements of a file.
ghost use Rattle.std.specs.Prelude.{◌≡◌, ◌<◌, ◌≤◌, ◌-◌, ◌+◌, ◌++◌, ◌∷◌, [], ◌^◌, min, map, filter, take, drop, length, slice_get, Some, None, IfOk, true, false};
ghost use Rattle.std.specs.List.{All};
ghost use Rattle.wt_grammar.specs.Statements as spec;
ghost use Rattle.wt_ast.specs.Tree.{query_tree};
ghost use Rattle.wt_ast.specs.Lawful.{IsLawful};
ghost use Rattle.wt_ast.specs.Marks.{marks, places, same};
ghost use Rattle.wt_parse.specs.Held.{kept, shown, Holds, NoOdd, Bars};
ghost use Rattle.wt_parse.specs.Outcomes.{Reads, Answers};

use crate::queries::statement;
use std::alloc::Global;
use std::marker::Model;
use wt_ast::{FromPart, Mark, Marked, Query};
use wt_front::QueryError;
use wt_front::lexemes::lexemes;
use wt_grammar::QueryFault;
use wt_lex::{LexError, Sym, Token, TokenKind, Tokens, lex};
use wt_reading::Lexeme;
use wt_value::WantOfMemory;

/// The greatest length of a statement, in bytes.
const MOST_BYTES: u32 = 65_536;

// The tokens of a statement, from a place to before another, and where the statement ends.
#[derive(Clone, Copy, Debug)]
struct Piece {
    from: usize,
    to: usize,
    end: u32,
}

/// The statements of a file, whose bytes it borrows. Contracts see it as these bytes and statements.
#[derive(Debug, Drop)]
pub struct Queries<'a> {
    bytes: &'a [u8],
    tokens: Tokens<'a>,
    pieces: Vec<Piece>,
}

impl<'a> Model for Queries<'a> {
    ghost use Rattle.std.specs.Prelude.{◌≡◌, map, Ok};
    ghost use Rattle.std.specs.List.{All};
    ghost use Rattle.wt_grammar.specs.Statements.{File, file_of};
    ghost use Rattle.wt_parse.specs.Held.{shown, Holds};

    ghost Value = { File };

    ghost view = { λ q. record { bytes = q.bytes.now; statements = map (shown q.tokens) q.pieces.items } };

    ghost invariant = { λ q. All (Holds q.tokens) q.pieces.items
        × (file_of q.bytes.now ≡ Ok (record { bytes = q.bytes.now; statements = map (shown q.tokens) q.pieces.items })) };
}

fn is_semicolon(kind: TokenKind) -> bool
    ensures { result ≡ spec.is_semicolon kind }
{
    matches!(kind, TokenKind::Symbol(Sym::Semi))
}

// Adds a piece, if it has tokens.
fn add(pieces: &mut Vec<Piece>, from: usize, to: usize, end: u32) -> Result<(), WantOfMemory>
    ensures adds { IfOk result (λ _. pieces.new.items ≡ pieces.old.items ++ kept from to end) }
    ensures few { from ≤ to → IfOk result (λ _. length pieces.new.items + from ≤ length pieces.old.items + to) }
{
    if from < to {
        pieces.push(Piece { from, to, end })?;
    }
    Ok(())
}

// Takes the token at a place: a semicolon ends a piece, and the next one begins behind it.
fn step(pieces: &mut Vec<Piece>, token: Token, from: usize, i: usize) -> Result<usize, WantOfMemory>
    requires { i < 2 ^ 64 - 1 }
    ensures mark { spec.is_semicolon token.kind ≡ true → IfOk result (λ next. (next ≡ i + 1) × (pieces.new.items ≡ pieces.old.items ++ kept from i token.start)) }
    ensures other { spec.is_semicolon token.kind ≡ false → IfOk result (λ next. (next ≡ from) × (pieces.new.items ≡ pieces.old.items)) }
    ensures few { from ≤ i → IfOk result (λ next. length pieces.new.items + from ≤ length pieces.old.items + next) }
{
    if !is_semicolon(token.kind) {
        return Ok(from);
    }
    add(pieces, from, i, token.start)?;
    Ok(i + 1)
}

// The tokens of a file of so many bytes, cut at each semicolon.
fn cut(alloc: Global, tokens: &Tokens, size: u32) -> Result<Vec<Piece>, WantOfMemory>
    ensures shown { IfOk result (λ v. map (shown tokens.now) v.items ≡ spec.statements size tokens.now) }
    ensures holds { IfOk result (λ v. All (Holds tokens.now) v.items) }
    ensures few { IfOk result (λ v. length v.items ≤ length tokens.now) }
{
    let mut pieces = Vec::new(alloc);
    let mut from = 0;
    let mut i = 0;
    'tokens: while i < tokens.len() {
        from = step(&mut pieces, tokens.get(i), from, i)?;
        i += 1;
    }
    add(&mut pieces, from, i, size)?;
    Ok(pieces)
}

/// The statements of a file: its tokens, cut at each semicolon; empty statements are skipped. A file that does not fall into
/// tokens is refused.
pub fn read_queries<'a>(alloc: Global, bytes: &'a [u8]) -> Result<Queries<'a>, LexError>
    ensures exact { Reads (λ q. q) result (spec.file_of bytes.now) }
    // Each statement has a byte, so their number fits in 32 bits.
    ensures few { IfOk result (λ q. length q.statements ≤ 16777216) }
{
    let tokens = lex(alloc, bytes)?;
    let pieces = cut(alloc, &tokens, bytes.len() as u32)?;
    Ok(Queries {
        bytes,
        tokens,
        pieces,
    })
}

impl<'a> Queries<'a> {
    /// The number of statements. It stands at the greatest `u32` where it would pass it.
    pub fn count(&self) -> u32
        ensures { result ≡ min (2 ^ 32 - 1) (length self.now.statements) }
    {
        u32::try_from(self.pieces.len()).unwrap_or(u32::MAX)
    }

    /// The offset of the first byte of the n-th statement, from 0.
    pub fn begin(&self, n: u32) -> u32
        requires { n < length self.now.statements }
        ensures exact { (s : spec.Statement) → slice_get self.now.statements n ≡ Some s → result ≡ spec.begin s s.tokens }
    {
        begin_of(&self.tokens, self.pieces[n as usize])
    }

    /// The query that the n-th statement is, from 0, or its first refusal. Its tree is a lawful one.
    pub fn get(&self, alloc: Global, n: u32) -> Result<Box<Query>, QueryError>
        requires { n < length self.now.statements }
        ensures lawful { IfOk result (λ q. IsLawful (query_tree q.value)) }
        ensures exact { (s : spec.Statement) → slice_get self.now.statements n ≡ Some s → Answers result (spec.answer self.now.bytes s) }
    {
        let piece = self.pieces[n as usize];
        answer(alloc, self.bytes, &self.tokens, piece)
    }
}

// The first token that is refused wherever it stands.
fn no_odd(ts: &[Lexeme]) -> Result<(), QueryError>
    ensures { NoOdd result (map (λ t. t.token) ts.now) }
{
    for t in ts {
        if let TokenKind::Odd(fault) = t.token.kind {
            return Err(QueryError::Lex(fault, t.token.start));
        }
    }
    Ok(())
}

fn earlier(one: Option<u32>, other: Option<u32>) -> Option<u32>
    ensures { result ≡ spec.earlier one other }
{
    match (one, other) {
        (Some(a), Some(b)) => Some(a.min(b)),
        (Some(a), None) => Some(a),
        (None, b) => b,
    }
}

fn is_same(one: Marked, other: Marked) -> bool
    ensures { result ≡ same one other }
{
    matches!(
        (one, other),
        (Marked::FromItem, Marked::FromItem)
            | (Marked::Conjunct, Marked::Conjunct)
            | (Marked::HiddenIn, Marked::HiddenIn)
    )
}

// Where the n-th mark of a kind stands, from 0, if there are so many.
fn nth_place(marks: &[Mark], what: Marked, n: u32) -> Option<u32>
    ensures { result ≡ slice_get (places what marks.now) n }
{
    let mut left = n;
    let mut rest = marks;
    'marks: while let [mark, others @ ..] = rest {
        if is_same(mark.what, what) {
            if left == 0 {
                return Some(mark.at);
            }
            left -= 1;
        }
        rest = others;
    }
    None
}

// Why a tree with these marks is refused: a query in it stands below Or or Not, or it has too many parts.
fn barred(marks: &[Mark]) -> Option<(QueryFault, u32)>
    ensures { result ≡ spec.barred marks.now }
{
    if let Some(at) = nth_place(marks, Marked::HiddenIn, 0) {
        return Some((QueryFault::InUnderOr, at));
    }
    let items = nth_place(marks, Marked::FromItem, 256);
    let conjuncts = nth_place(marks, Marked::Conjunct, 256);
    match earlier(items, conjuncts) {
        Some(at) => Some((QueryFault::TooMany, at)),
        None => None,
    }
}

// Whether a query has one table behind FROM and no condition.
fn is_plain(query: &Query) -> bool
    ensures { result ≡ true → spec.barred (marks (query_tree query.now)) ≡ None }
{
    match &query.from {
        FromPart::Table { .. } => query.filter.is_none(),
        _ => false,
    }
}

// Why a query that was read is not given: it is barred, or memory ran out.
fn limits(alloc: Global, query: &Query) -> Option<QueryError>
    ensures { Bars result (spec.barred (marks (query_tree query.now))) }
{
    if is_plain(query) {
        return None;
    }
    match query.marks(alloc) {
        Err(_) => Some(QueryError::Memory),
        Ok(marks) => match barred(marks.as_slice()) {
            Some((fault, at)) => Some(QueryError::Refused(fault, at)),
            None => None,
        },
    }
}

// A query that was read, unless it is barred.
fn limited(alloc: Global, query: Box<Query>) -> Result<Box<Query>, QueryError>
    ensures { Answers result (spec.unless (spec.barred (marks (query_tree query.value))) (query_tree query.value)) }
{
    match limits(alloc, &query) {
        None => Ok(query),
        Some(error) => Err(error),
    }
}

// The offset of the first byte of a piece of the tokens.
fn begin_of(tokens: &Tokens, piece: Piece) -> u32
    requires { Holds tokens.now piece }
    ensures { result ≡ spec.begin (shown tokens.now piece) (shown tokens.now piece).tokens }
{
    tokens.get(piece.from).start
}

// The query that a piece of the tokens is, or its first refusal.
#[tactic(auto, unfolding(wt_grammar::specs::Statements::answer))]
fn answer(
    alloc: Global,
    bytes: &[u8],
    tokens: &Tokens,
    piece: Piece,
) -> Result<Box<Query>, QueryError>
    requires { Holds tokens.now piece }
    ensures { Answers result (spec.answer bytes.now (shown tokens.now piece)) }
{
    let begin = tokens.get(piece.from).start;
    if piece.end.saturating_sub(begin) > MOST_BYTES {
        return Err(QueryError::Refused(QueryFault::TooLong, begin));
    }
    let ts = lexemes(alloc, bytes, tokens, piece.from, piece.to)?;
    no_odd(&ts)?;
    let (query, _) = statement(alloc, bytes, &ts, piece.end)?;
    limited(alloc, query)
}

fn may_be_shared<T: Send + Sync>() {}

/// A statement to the compiler: threads may share the statements of a file, and hand them over.
pub fn threads_share_queries() {
    may_be_shared::<Queries>();
}
