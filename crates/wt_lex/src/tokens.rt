ghost use Rattle.std.specs.Prelude.{◌≡◌, ◌==◌, ◌+◌, ◌++◌, ◌∷◌, [], ◌<◌, ◌≤◌, ◌^◌, map, drop, length, slice_get, Some, true, false, List, ℕ, IfOk, IfErr};
ghost use Rattle.wt_lex.specs.Fronts.{front, len_of};
ghost use Rattle.wt_lex.specs.Stored.{StandsIn};
ghost use Rattle.wt_lex.specs.Stored as stores;
ghost use Rattle.wt_lex.specs.Tokens as spec;

use crate::front::{Front, at_front, number_kind};
use crate::names::piece;
use crate::token::{LexError, LexFault, Sym, Token, TokenKind};
use simdutf8::compat::from_utf8;
use std::alloc::Global;
use std::marker::Model;
use std::mem::size_of;

/// The greatest length of a text, in bytes.
const MOST_BYTES: usize = 16_777_216;

// A kind, of a number without its value, which stands in the text.
#[derive(Clone, Copy, Debug)]
enum StoredKind {
    Word,
    Quoted,
    Number,
    Text,
    Symbol(Sym),
    Odd(LexFault),
}

#[derive(Clone, Copy, Debug)]
struct Stored {
    start: u32,
    end: u32,
    kind: StoredKind,
}

const _: () = prove!(size_of::<Stored>() <= 12);

/// The tokens of a text, in order. Each takes 12 bytes beside the text: the value of a number is not kept.
#[derive(Debug, Drop)]
pub struct Tokens<'a> {
    text: &'a [u8],
    stored: Vec<Stored>,
}

impl<'a> Model for Tokens<'a> {
    ghost use Rattle.std.specs.Prelude.{List, map};
    ghost use Rattle.wt_lex.specs.declared.token.Token.{Token};

    ghost Value = { List Token };

    ghost use Rattle.wt_lex.specs.Stored.{shown};

    ghost view = { λ t. map (shown t.text.now) t.stored.items };
}

impl<'a> Tokens<'a> {
    pub fn len(&self) -> usize
        ensures { result ≡ length self.now }
    {
        self.stored.len()
    }

    pub fn is_empty(&self) -> bool
        ensures { result ≡ (length self.now == 0) }
    {
        self.stored.is_empty()
    }

    /// The token at a place, from 0. The value of a number is read again from its digits at each call. A reader asks for
    /// each token a bounded number of times, which is so many passes over the digits of the text at most.
    pub fn get(&self, i: usize) -> Token
        requires { i < length self.now }
        ensures { slice_get self.now i ≡ Some result }
    {
        shown(self.text, self.stored[i])
    }
}

fn shown(text: &[u8], stored: Stored) -> Token
    ensures { result ≡ stores.shown text.now stored }
{
    let Stored { start, end, kind } = stored;
    let kind = match kind {
        StoredKind::Word => TokenKind::Word,
        StoredKind::Quoted => TokenKind::Quoted,
        StoredKind::Number => number_kind(piece(text, start as usize, end as usize)),
        StoredKind::Text => TokenKind::Text,
        StoredKind::Symbol(sym) => TokenKind::Symbol(sym),
        StoredKind::Odd(fault) => TokenKind::Odd(fault),
    };
    Token { kind, start, end }
}

/// The tokens of a text: the words, names, numbers, texts and symbols between its blanks and comments. A text of more
/// than 16,777,216 bytes, one that is not UTF-8, and one with an open quote or comment are refused, in this order.
pub fn lex<'a>(alloc: Global, bytes: &'a [u8]) -> Result<Tokens<'a>, LexError>
    ensures exact { spec.Gives (λ tokens. tokens) result (spec.lexed bytes.now) }
    // Each token has a byte.
    ensures few { IfOk result (λ tokens. length tokens ≤ length bytes.now) }
{
    if bytes.len() > MOST_BYTES {
        return Err(LexError::Fault(LexFault::TooLong, 16_777_216));
    }
    if let Err(error) = from_utf8(bytes) {
        return Err(LexError::Fault(LexFault::NotText, error.valid_up_to() as u32));
    }
    cut(alloc, bytes)
}

// The tokens of a text, or the place of a quote or comment that is not closed.
fn cut<'a>(alloc: Global, text: &'a [u8]) -> Result<Tokens<'a>, LexError>
    requires { length text.now ≤ 2 ^ 24 }
    ensures exact { spec.Gives (λ tokens. tokens) result (spec.open_quote (spec.tokens_from 0 0 text.now)) }
    ensures few { IfOk result (λ tokens. length tokens ≤ length text.now) }
{
    let mut stored = Vec::new(alloc);
    let mut at = 0;
    'fronts: while at < text.len() {
        at += step(&mut stored, text, at)?;
    }
    Ok(Tokens { text, stored })
}

// Adds what stands at a place of the text, and gives its length.
fn step(stored: &mut Vec<Stored>, text: &[u8], at: usize) -> Result<usize, LexError>
    requires within { at < length text.now }
    requires short { length text.now ≤ 2 ^ 24 }
    ensures ok { IfOk result (λ n. (n ≡ len_of (front (drop at text.now))) × (spec.is_closed (front (drop at text.now)) ≡ true)
        × (map (stores.shown text.now) stored.new.items ≡ map (stores.shown text.now) stored.old.items ++ spec.made at (front (drop at text.now)))
        × (1 ≤ n) × (at + n ≤ length text.now)) }
    ensures few { IfOk result (λ n. length stored.new.items ≤ length stored.old.items + n) }
    ensures err { spec.FailsAt result (λ place. (spec.is_closed (front (drop at text.now)) ≡ false) × (place ≡ at)) }
{
    let (_, rest) = text.split_at(at);
    match at_front(rest) {
        Front::Gap(n) => Ok(n),
        Front::Item(kind, n) => {
            add(stored, token(kind, at, n))?;
            Ok(n)
        }
        Front::Spoiled(kind, n) => {
            add(stored, token(kind, at, n))?;
            add(
                stored,
                token(TokenKind::Odd(LexFault::BadCharacter), at + n, 1),
            )?;
            Ok(n + 1)
        }
        Front::Unclosed => Err(LexError::Fault(LexFault::OpenQuote, at as u32)),
    }
}

fn token(kind: TokenKind, start: usize, len: usize) -> Token
    requires { start + len ≤ 2 ^ 24 }
    ensures { result ≡ spec.token kind start len }
{
    Token {
        kind,
        start: start as u32,
        end: (start + len) as u32,
    }
}

// Adds a token. What is stored shows it over each text in which it stands.
fn add(stored: &mut Vec<Stored>, token: Token) -> Result<(), LexError>
    ensures shown { (text : List ℕ) → StandsIn text token
        → IfOk result (λ _. map (stores.shown text) stored.new.items ≡ map (stores.shown text) stored.old.items ++ token ∷ []) }
    ensures few { IfOk result (λ _. length stored.new.items ≤ length stored.old.items + 1) }
    ensures err { IfErr result (λ e. e ≡ LexError.Memory) }
{
    stored.push(without_number(token))?;
    Ok(())
}

fn without_number(token: Token) -> Stored
    ensures { (text : List ℕ) → StandsIn text token → stores.shown text result ≡ token }
{
    let kind = match token.kind {
        TokenKind::Word => StoredKind::Word,
        TokenKind::Quoted => StoredKind::Quoted,
        TokenKind::Number(_) => StoredKind::Number,
        TokenKind::Text => StoredKind::Text,
        TokenKind::Symbol(sym) => StoredKind::Symbol(sym),
        TokenKind::Odd(fault) => StoredKind::Odd(fault),
    };
    Stored {
        start: token.start,
        end: token.end,
        kind,
    }
}
