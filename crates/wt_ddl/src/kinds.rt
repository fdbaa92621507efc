//! The type of a column.
ghost use Rattle.std.specs.Prelude.{◌≡◌, ◌≤◌, length, IfOk};
ghost use Rattle.wt_ddl.specs.Giving.{Gives, Takes};
ghost use Rattle.wt_ddl.specs.Reading as spec;

use crate::fault::{DdlError, DdlFault};
use crate::names::{symbol, word};
use crate::rest::{Rest, Text, at_mark};
use wt_lex::{LexFault, Sym, TokenKind};
use wt_schema::ColKind;

#[tactic(auto, unfolding(crate::specs::Reading::number))]
fn number(text: &Text, rest: &Rest) -> Result<usize, DdlError>
    ensures exact { Takes result (spec.number text.now rest.now) }
    ensures one { IfOk result (λ n. (n ≡ 1) × (1 ≤ length rest.now)) }
{
    let Some(token) = rest.first() else {
        return Err(text.no(DdlFault::Syntax, rest));
    };
    match token.kind {
        TokenKind::Number(9_223_372_036_854_775_808) => Err(DdlError::Lex(
            LexFault::NumberRange,
            token.start,
        )),
        TokenKind::Number(_) => Ok(1),
        _ => Err(DdlError::Fault(DdlFault::Syntax, token.start)),
    }
}

// The width in parentheses that may stand behind a text type.
#[tactic(auto, unfolding(crate::specs::Reading::width, wt_reading::specs::Readings::expect))]
fn width(text: &Text, rest: &Rest) -> Result<(ColKind, usize), DdlError>
    ensures exact { Gives result (spec.width text.now rest.now) }
    ensures within { IfOk result (λ x. x.1 ≤ length rest.now) }
{
    if !at_mark(rest, Sym::Open) {
        return Ok((ColKind::Text, 0));
    }
    let a = rest.after(1);
    let n = number(text, &a)?;
    let m = symbol(text, &a.after(n), Sym::Close)?;
    Ok((ColKind::Text, 1 + n + m))
}

fn at_whole(text: &Text, rest: &Rest) -> bool
    ensures { result ≡ spec.at_whole text.now rest.now }
{
    text.at_word(rest, b"integer")
        || text.at_word(rest, b"int")
        || text.at_word(rest, b"bigint")
        || text.at_word(rest, b"smallint")
}

#[tactic(auto, unfolding(crate::specs::Reading::kind_of))]
pub(crate) fn kind_of(text: &Text, rest: &Rest) -> Result<(ColKind, usize), DdlError>
    ensures exact { Gives result (spec.kind_of text.now rest.now) }
    ensures within { IfOk result (λ x. x.1 ≤ length rest.now) }
{
    if at_whole(text, rest) {
        return Ok((ColKind::Int, 1));
    }
    if text.at_word(rest, b"text") {
        return Ok((ColKind::Text, 1));
    }
    if text.at_word(rest, b"varchar") {
        let (kind, n) = width(text, &rest.after(1))?;
        return Ok((kind, 1 + n));
    }
    if text.at_word(rest, b"character") {
        let a = rest.after(1);
        let n = word(text, &a, b"varying")?;
        let (kind, m) = width(text, &a.after(n))?;
        return Ok((kind, 1 + n + m));
    }
    Err(text.other(DdlFault::UnsupportedType, rest))
}
