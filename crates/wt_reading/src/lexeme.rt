//! What each token of a text is to a grammar.
ghost use Rattle.std.specs.Prelude.{◌≡◌};
ghost use Rattle.wt_reading.specs.Lexemes as spec;

use wt_lex::{Sym, Token, TokenKind, Word, keyword};

/// What a token is to a grammar: a reserved word, a name, a number, a text or a symbol. `End` is the kind of no token.
#[derive(Clone, Copy, Debug, PartialEq, Eq)]
pub enum Kind {
    End,
    Key(Word),
    Name,
    Number(u64),
    Text,
    Mark(Sym),
    Odd,
}

/// A token with its kind.
#[derive(Clone, Copy, Debug, PartialEq, Eq)]
pub struct Lexeme {
    pub kind: Kind,
    pub token: Token,
}

fn word_kind(word: Option<Word>) -> Kind
    ensures { result ≡ spec.word_kind word }
{
    match word {
        Some(word) => Kind::Key(word),
        None => Kind::Name,
    }
}

/// A token of a text with its kind.
#[tactic(auto, unfolding(crate::specs::Lexemes::lexeme))]
pub fn lexeme_of(bytes: &[u8], token: Token) -> Lexeme
    ensures { result ≡ spec.lexeme bytes.now token }
{
    let kind = match token.kind {
        TokenKind::Word => word_kind(keyword(bytes, &token)),
        TokenKind::Quoted => Kind::Name,
        TokenKind::Number(n) => Kind::Number(n),
        TokenKind::Text => Kind::Text,
        TokenKind::Symbol(sym) => Kind::Mark(sym),
        TokenKind::Odd(_) => Kind::Odd,
    };
    Lexeme { kind, token }
}
