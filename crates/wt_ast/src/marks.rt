ghost use Rattle.std.specs.Prelude.{◌≡◌, ◌++◌, List, IfOk, [], ◌∷◌, false};
ghost use Rattle.std.specs.List.{All};
ghost use Rattle.wt_ast.specs.Tree.{condition_tree, conditions_tree, from_tree, query_tree};
ghost use Rattle.wt_ast.specs.Marks as spec;
ghost use Rattle.wt_ast.specs.Private.{from_back};

use crate::tree::{CondKind, Condition, Conditions, FromPart, Query};
use std::alloc::Global;
use wt_value::{Seq, WantOfMemory};

/// What a mark of a query stands for.
#[derive(Clone, Copy, Debug, PartialEq, Eq)]
pub enum Marked {
    /// A table or a query in FROM.
    FromItem,
    /// A conjunct of an ON or of WHERE.
    Conjunct,
    /// The IN of an `x IN (query)` that is no conjunct, since it stands below an Or or a Not.
    HiddenIn,
}

/// What a limit or a rule speaks of, and its offset: a table's name or a query's parenthesis, the first token of a conjunct,
/// or IN.
#[derive(Clone, Copy, Debug, PartialEq, Eq)]
pub struct Mark {
    pub what: Marked,
    pub at: u32,
}

/// Marks in the order of the text.
pub type Marks = Seq<Mark>;

impl Query {
    /// What the limits and the rule for `x IN (query)` speak of, in this query and in all queries inside.
    pub fn marks(&self, alloc: Global) -> Result<Marks, WantOfMemory>
        ensures { IfOk result (λ found. found ≡ spec.marks (query_tree self.now)) }
    {
        let mut out = Vec::new(alloc);
        add_query(alloc, self, &mut out)?;
        Ok(Seq::from_vec(out))
    }
}

fn add(what: Marked, at: u32, out: &mut Vec<Mark>) -> Result<(), WantOfMemory>
    ensures { IfOk result (λ _. out.new.items ≡ out.old.items ++ spec.mark what at ∷ []) }
{
    out.push(Mark { what, at })?;
    Ok(())
}

// `below` says that an Or or a Not stands above.
fn add_conjunct(below: bool, at: u32, out: &mut Vec<Mark>) -> Result<(), WantOfMemory>
    ensures { IfOk result (λ _. out.new.items ≡ out.old.items ++ spec.conjunct_mark below at) }
{
    if below {
        Ok(())
    } else {
        add(Marked::Conjunct, at, out)
    }
}

fn add_in(below: bool, at: u32, word_at: u32, out: &mut Vec<Mark>) -> Result<(), WantOfMemory>
    ensures { IfOk result (λ _. out.new.items ≡ out.old.items ++ spec.in_mark below at word_at) }
{
    if below {
        add(Marked::HiddenIn, word_at, out)
    } else {
        add(Marked::Conjunct, at, out)
    }
}

#[cycle(marks)]
fn add_query(alloc: Global, query: &Query, out: &mut Vec<Mark>) -> Result<(), WantOfMemory>
    ensures { IfOk result (λ _. out.new.items ≡ out.old.items ++ spec.marks (query_tree query.now)) }
{
    add_from(alloc, &query.from, out)?;
    match &query.filter {
        None => Ok(()),
        Some(c) => add_condition(alloc, false, c, out),
    }
}

// A chain of joins or commas is gone through from its last one back, and what stands behind is kept till then.
#[cycle(marks)]
fn add_from(alloc: Global, from: &FromPart, out: &mut Vec<Mark>) -> Result<(), WantOfMemory>
    ensures { IfOk result (λ _. out.new.items ≡ out.old.items ++ spec.marks_in_from (from_tree from.now)) }
{
    let mut behind: Vec<Marks> = Vec::new(alloc);
    let mut part = from;
    'joins: loop {
        match part {
            FromPart::Table { at, .. } => {
                add(Marked::FromItem, *at, out)?;
                return append_back(behind, out);
            }
            FromPart::Derived { query, at, .. } => {
                add(Marked::FromItem, *at, out)?;
                add_query(alloc, query, out)?;
                return append_back(behind, out);
            }
            FromPart::Inner {
                left,
                right,
                on,
                ..
            }
            | FromPart::Left {
                left,
                right,
                on,
                ..
            }
            | FromPart::Right {
                left,
                right,
                on,
                ..
            } => {
                let mut joined = Vec::new(alloc);
                add_from(alloc, right, &mut joined)?;
                add_condition(alloc, false, on, &mut joined)?;
                behind.push(Seq::from_vec(joined))?;
                part = left;
            }
            FromPart::Comma { left, right, .. } => {
                let mut listed = Vec::new(alloc);
                add_from(alloc, right, &mut listed)?;
                behind.push(Seq::from_vec(listed))?;
                part = left;
            }
        }
    }
}

// Appends the lists from the last one back.
fn append_back(mut behind: Vec<Marks>, out: &mut Vec<Mark>) -> Result<(), WantOfMemory>
    ensures { IfOk result (λ _. out.new.items ≡ out.old.items ++ from_back behind.items) }
{
    'lists: while let Some(list) = behind.pop() {
        out.extend_from_slice(list.as_slice())?;
    }
    Ok(())
}

// `below` says that an Or or a Not of the same query stands above.
#[cycle(marks)]
fn add_condition(
    alloc: Global,
    below: bool,
    c: &Condition,
    out: &mut Vec<Mark>,
) -> Result<(), WantOfMemory>
    ensures { IfOk result (λ _. out.new.items ≡ out.old.items ++ spec.marks_in_cond below (condition_tree c.now)) }
{
    match &c.kind {
        CondKind::And(parts) => add_conditions(alloc, below, parts, out),
        CondKind::Or(parts) => {
            add_conjunct(below, c.at, out)?;
            add_conditions(alloc, true, parts, out)
        }
        CondKind::Not(inner) => {
            add_conjunct(below, c.at, out)?;
            add_condition(alloc, true, inner, out)
        }
        CondKind::InQuery(_, query, word_at) => {
            add_in(below, c.at, *word_at, out)?;
            add_query(alloc, query, out)
        }
        _ => add_conjunct(below, c.at, out),
    }
}

#[cycle(marks)]
fn add_conditions(
    alloc: Global,
    below: bool,
    parts: &Conditions,
    out: &mut Vec<Mark>,
) -> Result<(), WantOfMemory>
    ensures { IfOk result (λ _. out.new.items ≡ out.old.items ++ spec.marks_in_conds below (conditions_tree parts.now)) }
{
    let mut rest = parts;
    'parts: loop {
        match rest {
            Conditions::Empty => return Ok(()),
            Conditions::More(part, more) => {
                add_condition(alloc, below, part, out)?;
                rest = more;
            }
        }
    }
}
