//! Words, symbols, names and lists of names.
ghost use Rattle.std.specs.Prelude.{◌≡◌, ◌≤◌, length, IfOk};
ghost use Rattle.wt_reading.specs.Lexemes.{is_kind, is_comma};
ghost use Rattle.wt_reading.specs.Readings.{list, more};
ghost use Rattle.wt_ddl.specs.Giving.{Gives, Takes, Adds};
ghost use Rattle.wt_ddl.specs.Reading as spec;

use crate::fault::{DdlError, DdlFault};
use crate::rest::{Rest, Text, at_mark, at_name};
use crate::syntax::{Named, NamedList};
use std::alloc::Global;
use wt_lex::{Sym, name_of};
use wt_reading::Kind;

// A word that must stand here.
#[tactic(auto, unfolding(wt_reading::specs::Readings::expect))]
pub(crate) fn word(text: &Text, rest: &Rest, wanted: &[u8]) -> Result<usize, DdlError>
    ensures exact { Takes result (spec.word text.now wanted.now rest.now) }
    ensures one { IfOk result (λ n. (n ≡ 1) × (1 ≤ length rest.now)) }
{
    if !text.at_word(rest, wanted) {
        return Err(text.no(DdlFault::Syntax, rest));
    }
    Ok(1)
}

// A symbol that must stand here.
#[tactic(auto, unfolding(wt_reading::specs::Readings::expect))]
pub(crate) fn symbol(text: &Text, rest: &Rest, wanted: Sym) -> Result<usize, DdlError>
    ensures exact { Takes result (spec.symbol text.now (is_kind (Kind.Mark wanted)) rest.now) }
    ensures one { IfOk result (λ n. (n ≡ 1) × (1 ≤ length rest.now)) }
{
    if !at_mark(rest, wanted) {
        return Err(text.no(DdlFault::Syntax, rest));
    }
    Ok(1)
}

#[tactic(auto, unfolding(crate::specs::Reading::name))]
pub(crate) fn name(alloc: Global, text: &Text, rest: &Rest) -> Result<(Named, usize), DdlError>
    ensures exact { Gives result (spec.name text.now rest.now) }
    ensures one { IfOk result (λ x. (x.1 ≡ 1) × (1 ≤ length rest.now)) }
{
    if !at_name(rest) {
        return Err(text.no(DdlFault::Syntax, rest));
    }
    let Some(token) = rest.first() else {
        return Err(text.no(DdlFault::Syntax, rest));
    };
    let name = name_of(alloc, text.bytes(), &token)?;
    Ok((
        Named {
            name,
            at: token.start,
        },
        1,
    ))
}

// One or more names with commas, in parentheses.
#[tactic(auto, unfolding(crate::specs::Reading::names, wt_reading::specs::Readings::expect))]
pub(crate) fn names(alloc: Global, text: &Text, rest: &Rest) -> Result<(NamedList, usize), DdlError>
    ensures exact { Gives result (spec.names text.now rest.now) }
    ensures within { IfOk result (λ x. x.1 ≤ length rest.now) }
{
    if !at_mark(rest, Sym::Open) {
        return Err(text.no(DdlFault::Syntax, rest));
    }
    let a = rest.after(1);
    let (all, n) = name_list(alloc, text, &a)?;
    let m = symbol(text, &a.after(n), Sym::Close)?;
    Ok((all, 1 + n + m))
}

#[tactic(auto, unfolding(wt_reading::specs::Readings::list))]
fn name_list(alloc: Global, text: &Text, rest: &Rest) -> Result<(NamedList, usize), DdlError>
    ensures exact { Gives result (list (spec.name text.now) rest.now) }
    ensures within { IfOk result (λ x. x.1 ≤ length rest.now) }
{
    let (first, n) = name(alloc, text, rest)?;
    let mut all = NamedList::new(alloc);
    all.push(first)?;
    let m = more_names(alloc, text, &mut all, &rest.after(n))?;
    Ok((all, n + m))
}

fn more_names(
    alloc: Global,
    text: &Text,
    all: &mut NamedList,
    rest: &Rest,
) -> Result<usize, DdlError>
    ensures exact { Adds result all.old all.new (more is_comma (spec.name text.now) 0 rest.now) }
    ensures within { IfOk result (λ n. n ≤ length rest.now) }
{
    let mut at = 0;
    'parts: while at_mark(&rest.after(at), Sym::Comma) {
        let (next, n) = name(alloc, text, &rest.after(at + 1))?;
        all.push(next)?;
        at += n + 1;
    }
    Ok(at)
}
