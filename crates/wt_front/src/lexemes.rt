//! What each token of a text is to the grammar.
ghost use Rattle.std.specs.Prelude.{◌≡◌, ◌<◌, ◌≤◌, ◌-◌, map, take, drop, length, IfOk};
ghost use Rattle.wt_reading.specs.Lexemes as spec;

use std::alloc::Global;
use wt_lex::{Token, TokenKind, Tokens};
use wt_reading::{Kind, Lexeme, lexeme_of};
use wt_value::WantOfMemory;

// A token with its kind. No reserved word has one letter, so such a word is a name.
#[tactic(auto, using(crate::proofs::Short::short_word))]
fn shown(bytes: &[u8], token: Token) -> Lexeme
    ensures { result ≡ spec.lexeme bytes.now token }
{
    match token.kind {
        TokenKind::Word if token.end.saturating_sub(token.start) < 2 => Lexeme {
            kind: Kind::Name,
            token,
        },
        _ => lexeme_of(bytes, token),
    }
}

/// The tokens from a place to before another, with their kinds.
pub fn lexemes(
    alloc: Global,
    bytes: &[u8],
    tokens: &Tokens,
    from: usize,
    to: usize,
) -> Result<Vec<Lexeme>, WantOfMemory>
    requires order { from ≤ to }
    requires within { to ≤ length tokens.now }
    ensures { IfOk result (λ v. v.items ≡ map (spec.lexeme bytes.now) (take (to - from) (drop from tokens.now))) }
{
    let mut all = Vec::with_capacity(alloc, to - from)?;
    for i in from..to {
        all.push(shown(bytes, tokens.get(i)))?;
    }
    Ok(all)
}
