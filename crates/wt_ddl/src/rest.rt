//! A text, a place in its tokens, and what stands there.
ghost use Rattle.std.specs.Prelude.{◌≡◌, ◌<◌, ◌≤◌, ◌^◌, length, drop, map, if◌then◌else◌, Option, IfSome};
ghost use Rattle.wt_reading.specs.Lexemes as base;
ghost use Rattle.wt_ddl.specs.Fronts as spec;

use crate::fault::{DdlError, DdlFault};
use std::marker::Model;
use wt_lex::{Sym, Token, TokenKind, Tokens, Word, is_word};
use wt_reading::{Kind, lexeme_of};

/// The tokens of a text from a place on.
#[derive(Drop)]
pub(crate) struct Rest<'a> {
    bytes: &'a [u8],
    tokens: &'a Tokens<'a>,
    at: usize,
}

impl<'a> Model for Rest<'a> {
    ghost use Rattle.std.specs.Prelude.{List, map, drop, length, ◌≤◌};
    ghost use Rattle.wt_reading.specs.declared.lexeme.Lexeme.{Lexeme};
    ghost use Rattle.wt_reading.specs.Lexemes.{lexeme};

    ghost Value = { List Lexeme };

    ghost view = { λ r. map (lexeme r.bytes.now) (drop r.at r.tokens.now) };

    ghost invariant = { λ r. r.at ≤ length r.tokens.now };
}

impl<'a> Rest<'a> {
    pub(crate) fn new(bytes: &'a [u8], tokens: &'a Tokens<'a>) -> Rest<'a>
        ensures { result ≡ map (base.lexeme bytes.now) tokens.now }
    {
        Rest {
            bytes,
            tokens,
            at: 0,
        }
    }

    // The tokens behind the first n.
    pub(crate) fn after(&self, n: usize) -> Rest<'a>
        ensures value { result ≡ drop n self.now }
        ensures small { length self.now < 2 ^ 64 }
    {
        let left = self.tokens.len() - self.at;
        Rest {
            bytes: self.bytes,
            tokens: self.tokens,
            at: self.at + n.min(left),
        }
    }

    pub(crate) fn first(&self) -> Option<Token>
        ensures value { result ≡ spec.first self.now }
        ensures kind { IfSome result (λ t. (w : Option Word) × (base.kind self.now ≡ base.kind_by t.kind w)) }
    {
        if self.at < self.tokens.len() {
            Some(self.tokens.get(self.at))
        } else {
            None
        }
    }

    // The kind of the first token. A word is looked for among the reserved ones.
    pub(crate) fn kind(&self) -> Kind
        ensures { result ≡ base.kind self.now }
    {
        if self.at < self.tokens.len() {
            lexeme_of(self.bytes, self.tokens.get(self.at)).kind
        } else {
            Kind::End
        }
    }
}

pub(crate) fn at_name(rest: &Rest) -> bool
    ensures { result ≡ base.at base.is_name rest.now }
{
    matches!(rest.kind(), Kind::Name)
}

pub(crate) fn is_end(rest: &Rest) -> bool
    ensures { result ≡ spec.at_end rest.now }
{
    rest.first().is_none()
}

fn is_symbol(kind: TokenKind, wanted: Sym) -> bool
    ensures { (w : Option Word) → result ≡ base.is_kind (Kind.Mark wanted) (base.kind_by kind w) }
{
    match kind {
        TokenKind::Symbol(sym) => wanted == sym,
        _ => false,
    }
}

pub(crate) fn at_mark(rest: &Rest, wanted: Sym) -> bool
    ensures { result ≡ base.at (base.is_kind (Kind.Mark wanted)) rest.now }
{
    match rest.first() {
        Some(token) => is_symbol(token.kind, wanted),
        None => false,
    }
}

pub(crate) fn at_some_word(rest: &Rest) -> bool
    ensures { result ≡ spec.at_some_word rest.now }
{
    match rest.first() {
        Some(token) => matches!(token.kind, TokenKind::Word),
        None => false,
    }
}

/// The bytes of a text that has tokens.
#[derive(Drop)]
pub(crate) struct Text<'a> {
    bytes: &'a [u8],
}

impl<'a> Model for Text<'a> {
    ghost use Rattle.std.specs.Prelude.{List, ℕ, length, ◌≤◌, ◌^◌};

    ghost Value = { List ℕ };

    ghost view = { λ t. t.bytes.now };

    ghost invariant = { λ t. length t.bytes.now ≤ 2 ^ 24 };
}

impl<'a> Text<'a> {
    pub(crate) fn new(bytes: &'a [u8]) -> Text<'a>
        requires { length bytes.now ≤ 2 ^ 24 }
        ensures { result ≡ bytes.now }
    {
        Text { bytes }
    }

    pub(crate) fn bytes(&self) -> &'a [u8]
        ensures { result.now ≡ self.now }
    {
        self.bytes
    }

    // The place of the first token, or the text's length.
    pub(crate) fn place(&self, rest: &Rest) -> u32
        ensures { result ≡ base.place (length self.now) rest.now }
    {
        match rest.first() {
            Some(token) => token.start,
            None => self.bytes.len() as u32,
        }
    }

    // Whether the first token is this word.
    pub(crate) fn at_word(&self, rest: &Rest, word: &[u8]) -> bool
        ensures { result ≡ spec.at_word self.now word.now rest.now }
    {
        match rest.first() {
            Some(token) => is_word(self.bytes, &token, word),
            None => false,
        }
    }

    pub(crate) fn no(&self, fault: DdlFault, rest: &Rest) -> DdlError
        ensures { result ≡ DdlError.Fault fault (base.place (length self.now) rest.now) }
    {
        DdlError::Fault(fault, self.place(rest))
    }

    // A word without support, where one of some words may stand.
    pub(crate) fn other(&self, fault: DdlFault, rest: &Rest) -> DdlError
        ensures { result ≡ DdlError.Fault (if spec.at_some_word rest.now then fault else DdlFault.Syntax) (base.place (length self.now) rest.now) }
    {
        if at_some_word(rest) {
            self.no(fault, rest)
        } else {
            self.no(DdlFault::Syntax, rest)
        }
    }
}
