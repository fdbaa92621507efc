//! The front of the tokens that are left, and what stands there.
ghost use Rattle.std.specs.Prelude.{◌≡◌, ◌≢◌, ◌<◌, length, drop, true};
ghost use Rattle.wt_reading.specs.Lexemes as spec;

use crate::lexeme::{Kind, Lexeme};
use wt_lex::{Sym, Word};

/// The kind of the token at the front.
pub fn kind(ts: &[Lexeme]) -> Kind
    ensures value { result ≡ spec.kind ts.now }
    ensures some { result ≢ Kind.End → 0 < length ts.now }
{
    match ts {
        [] => Kind::End,
        [t, ..] => t.kind,
    }
}

/// The place of the token at the front, or of the end.
pub fn place(ts: &[Lexeme], end: u32) -> u32
    ensures { result ≡ spec.place end ts.now }
{
    match ts {
        [] => end,
        [t, ..] => t.token.start,
    }
}

/// The tokens behind the first n.
pub fn after(ts: &[Lexeme], n: usize) -> &[Lexeme]
    ensures { result.now ≡ drop n ts.now }
{
    let (_, rest) = ts.split_at(n.min(ts.len()));
    rest
}

/// Whether the token at the front is this reserved word.
pub fn at_key(ts: &[Lexeme], wanted: Word) -> bool
    ensures value { result ≡ spec.is_kind (Kind.Key wanted) (spec.kind ts.now) }
    ensures some { result ≡ true → 0 < length ts.now }
{
    match kind(ts) {
        Kind::Key(word) => wanted == word,
        _ => false,
    }
}

/// Whether it is this symbol.
pub fn at_mark(ts: &[Lexeme], wanted: Sym) -> bool
    ensures value { result ≡ spec.is_kind (Kind.Mark wanted) (spec.kind ts.now) }
    ensures some { result ≡ true → 0 < length ts.now }
{
    match kind(ts) {
        Kind::Mark(sym) => wanted == sym,
        _ => false,
    }
}

/// Whether it is a name.
pub fn at_name(ts: &[Lexeme]) -> bool
    ensures value { result ≡ spec.is_name (spec.kind ts.now) }
    ensures some { result ≡ true → 0 < length ts.now }
{
    matches!(kind(ts), Kind::Name)
}

/// Whether no token is left.
pub fn at_end(ts: &[Lexeme]) -> bool
    ensures { result ≡ spec.is_end (spec.kind ts.now) }
{
    matches!(kind(ts), Kind::End)
}
