ghost use Rattle.std.specs.Prelude.{◌≡◌, ◌-◌, ◌++◌, take, drop, map, false, not, IfOk};
ghost use Rattle.std.specs.Char.{is_ascii_uppercase};
ghost use Rattle.std.specs.List.{list_all};
ghost use Rattle.wt_lex.specs.Names as spec;

use crate::token::{Token, TokenKind};
use std::alloc::Global;
use wt_value::{Name, Text, WantOfMemory};

/// The name that a token stands for: a Word folded to lower case, a Quoted without its quotes, each doubled quote inside
/// being one. A token of another kind stands for the empty name.
pub fn name_of(alloc: Global, bytes: &[u8], token: &Token) -> Result<Name, WantOfMemory>
    ensures { IfOk result (λ name. name ≡ spec.name_bytes bytes.now token.now) }
{
    let token = *token;
    match token.kind {
        TokenKind::Word => lower_name(alloc, spelled(bytes, token)),
        TokenKind::Quoted => Name::from_bytes(
            alloc,
            &undoubled(alloc, b'"', inside(bytes, token))?,
        ),
        _ => Name::from_bytes(alloc, &[]),
    }
}

/// The content of a Text token, without its quotes, each doubled quote inside being one. A token of another kind has the
/// empty text.
pub fn text_of(alloc: Global, bytes: &[u8], token: &Token) -> Result<Text, WantOfMemory>
    ensures { IfOk result (λ text. text ≡ spec.text_bytes bytes.now token.now) }
{
    let token = *token;
    match token.kind {
        TokenKind::Text => Text::from_bytes(alloc, &undoubled(alloc, b'\'', inside(bytes, token))?),
        _ => Text::from_bytes(alloc, &[]),
    }
}

/// Whether a token is this word, whatever the case of its letters.
pub fn is_word(bytes: &[u8], token: &Token, word: &[u8]) -> bool
    ensures { result ≡ spec.is_word bytes.now token.now word.now }
{
    let token = *token;
    match token.kind {
        TokenKind::Word => is_folded(spelled(bytes, token), word),
        _ => false,
    }
}

pub(crate) fn is_folded(spelled: &[u8], word: &[u8]) -> bool
    ensures { result ≡ spec.is_folded spelled.now word.now }
{
    spelled.eq_ignore_ascii_case(word)
}

pub(crate) fn spelled(bytes: &[u8], token: Token) -> &[u8]
    ensures { result.now ≡ spec.spelled bytes.now token }
{
    piece(bytes, token.start as usize, token.end as usize)
}

fn inside(bytes: &[u8], token: Token) -> &[u8]
    ensures { result.now ≡ spec.inside bytes.now token }
{
    piece(
        bytes,
        token.start as usize + 1,
        (token.end as usize).saturating_sub(1),
    )
}

// The bytes from a place to before another, as far as there are some.
pub(crate) fn piece(bytes: &[u8], from: usize, to: usize) -> &[u8]
    ensures { result.now ≡ spec.piece bytes.now from to }
{
    let (_, rest) = bytes.split_at(from.min(bytes.len()));
    let (front, _) = rest.split_at(to.saturating_sub(from).min(rest.len()));
    front
}

// A word that is in lower case already is copied as it stands.
fn lower_name(alloc: Global, word: &[u8]) -> Result<Name, WantOfMemory>
    ensures { IfOk result (λ name. name ≡ spec.folded word.now) }
{
    if is_lower(word) {
        Name::from_bytes(alloc, word)
    } else {
        Name::from_bytes(alloc, &folded(alloc, word)?)
    }
}

fn is_lower(word: &[u8]) -> bool
    ensures { result ≡ list_all (λ b. not (is_ascii_uppercase b)) word.now }
{
    word.iter().all(|byte| !byte.is_ascii_uppercase())
}

fn folded(alloc: Global, word: &[u8]) -> Result<Vec<u8>, WantOfMemory>
    ensures { IfOk result (λ v. v.items ≡ spec.folded word.now) }
{
    word.iter()
        .map(|byte| byte.to_ascii_lowercase())
        .collect(alloc)
}

fn undoubled(alloc: Global, quote: u8, mut text: &[u8]) -> Result<Vec<u8>, WantOfMemory>
    ensures { IfOk result (λ v. v.items ≡ spec.undoubled quote false text.entry.now) }
{
    let mut out = Vec::new(alloc);
    let mut second = false;
    'bytes: while let [byte, rest @ ..] = text {
        if second && *byte == quote {
            second = false;
        } else {
            out.push(*byte)?;
            second = *byte == quote;
        }
        text = rest;
    }
    Ok(out)
}
