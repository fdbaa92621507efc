//! The target of a reference, with its options.
ghost use Rattle.std.specs.Prelude.{◌≡◌, ◌≤◌, length, true, IfOk};
ghost use Rattle.wt_ddl.specs.Giving.{Gives, Takes};
ghost use Rattle.wt_ddl.specs.Reading as spec;

use crate::fault::{DdlError, DdlFault};
use crate::names::{name, names, word};
use crate::rest::{Rest, Text, at_mark};
use crate::syntax::{NamedList, Target};
use std::alloc::Global;
use wt_lex::Sym;

#[tactic(auto, unfolding(crate::specs::Reading::null_action))]
fn null_action(text: &Text, rest: &Rest) -> Result<usize, DdlError>
    ensures exact { Takes result (spec.null_action text.now rest.now) }
    ensures within { IfOk result (λ n. n ≤ length rest.now) }
{
    if text.at_word(rest, b"null") {
        return Ok(1);
    }
    if text.at_word(rest, b"default") {
        return Err(text.no(DdlFault::UnsupportedClause, rest));
    }
    Err(text.no(DdlFault::Syntax, rest))
}

#[tactic(auto, unfolding(crate::specs::Reading::action))]
fn action(text: &Text, rest: &Rest) -> Result<usize, DdlError>
    ensures exact { Takes result (spec.action text.now rest.now) }
    ensures within { IfOk result (λ n. n ≤ length rest.now) }
{
    if text.at_word(rest, b"cascade") || text.at_word(rest, b"restrict") {
        return Ok(1);
    }
    if text.at_word(rest, b"set") {
        return Ok(1 + null_action(text, &rest.after(1))?);
    }
    if text.at_word(rest, b"no") {
        return Ok(1 + word(text, &rest.after(1), b"action")?);
    }
    Err(text.no(DdlFault::Syntax, rest))
}

#[tactic(auto, unfolding(crate::specs::Reading::event))]
fn event(text: &Text, rest: &Rest) -> Result<usize, DdlError>
    ensures exact { Takes result (spec.event text.now rest.now) }
    ensures within { IfOk result (λ n. n ≤ length rest.now) }
{
    if text.at_word(rest, b"delete") || text.at_word(rest, b"update") {
        return Ok(1 + action(text, &rest.after(1))?);
    }
    Err(text.no(DdlFault::Syntax, rest))
}

#[tactic(auto, unfolding(crate::specs::Reading::simple))]
fn simple(text: &Text, rest: &Rest) -> Result<usize, DdlError>
    ensures exact { Takes result (spec.simple text.now rest.now) }
    ensures within { IfOk result (λ n. n ≤ length rest.now) }
{
    if text.at_word(rest, b"simple") {
        return Ok(1);
    }
    Err(text.other(DdlFault::UnsupportedClause, rest))
}

fn at_option(text: &Text, rest: &Rest) -> bool
    ensures { result ≡ spec.at_option text.now rest.now }
{
    text.at_word(rest, b"match") || text.at_word(rest, b"on")
}

// What begins with MATCH or ON.
#[tactic(auto, unfolding(crate::specs::Reading::option))]
fn option(text: &Text, rest: &Rest) -> Result<usize, DdlError>
    ensures exact { Takes result (spec.option text.now tt rest.now) }
    ensures within { spec.at_option text.now rest.now ≡ true → IfOk result (λ n. (1 ≤ n) × (n ≤ length rest.now)) }
{
    if text.at_word(rest, b"match") {
        return Ok(1 + simple(text, &rest.after(1))?);
    }
    Ok(1 + event(text, &rest.after(1))?)
}

fn options(text: &Text, rest: &Rest) -> Result<usize, DdlError>
    ensures exact { Takes result (spec.options text.now rest.now) }
    ensures within { IfOk result (λ n. n ≤ length rest.now) }
{
    let mut at = 0;
    'parts: while at_option(text, &rest.after(at)) {
        at += option(text, &rest.after(at))?;
    }
    Ok(at)
}

#[tactic(auto, unfolding(crate::specs::Reading::target_names))]
fn target_names(
    alloc: Global,
    text: &Text,
    rest: &Rest,
) -> Result<(Option<NamedList>, usize), DdlError>
    ensures exact { Gives result (spec.target_names text.now rest.now) }
    ensures within { IfOk result (λ x. x.1 ≤ length rest.now) }
{
    if !at_mark(rest, Sym::Open) {
        return Ok((None, 0));
    }
    let (all, n) = names(alloc, text, rest)?;
    Ok((Some(all), n))
}

/// A table's name, and its columns and options where they stand.
#[tactic(auto, unfolding(crate::specs::Reading::target))]
pub(crate) fn target(alloc: Global, text: &Text, rest: &Rest) -> Result<(Target, usize), DdlError>
    ensures exact { Gives result (spec.target text.now rest.now) }
    ensures within { IfOk result (λ x. x.1 ≤ length rest.now) }
{
    let (table, n) = name(alloc, text, rest)?;
    let a = rest.after(n);
    let (columns, m) = target_names(alloc, text, &a)?;
    let k = options(text, &a.after(m))?;
    Ok((Target { table, columns }, n + m + k))
}
