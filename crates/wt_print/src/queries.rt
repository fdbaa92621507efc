//! Queries, FROM clauses and conditions.
ghost use Rattle.std.specs.Prelude.{◌≡◌, ◌++◌, codes, false, IfOk};
ghost use Rattle.std.specs.List.{AllByRecursion};
ghost use Rattle.wt_ast.specs.Tree.{condition_tree, conditions_tree, from_tree, query_tree};
ghost use Rattle.wt_print.specs.Links.{link_text, join_text, LinkFits};
ghost use Rattle.wt_spelling.specs.Numbers.{Fits, FitsCond, FitsConds, FitsFrom, FitsValue};
ghost use Rattle.wt_spelling.specs.Spelling as spec;

use crate::links::{left_of, links};
use crate::names::{
    add_as, add_column, add_column_list, add_items, add_name, add_scalar, add_sign, add_tuple,
    add_values,
};
use std::alloc::Global;
use wt_ast::{ColumnName, ColumnNames, CondKind, Condition, Conditions, FromPart, Items, Query};
use wt_value::{Name, Names, Values, WantOfMemory};

fn add_distinct(out: &mut Vec<u8>, distinct: bool) -> Result<(), WantOfMemory>
    ensures { IfOk result (λ _. out.new.items ≡ out.old.items ++ spec.distinct_text distinct) }
{
    if distinct {
        out.extend_from_slice(b"DISTINCT ")
    } else {
        Ok(())
    }
}

// `SELECT [DISTINCT] items FROM `
fn add_head(out: &mut Vec<u8>, distinct: bool, items: &Items) -> Result<(), WantOfMemory>
    ensures { IfOk result (λ _. out.new.items ≡ out.old.items ++ (codes "SELECT " ++ (spec.distinct_text distinct ++ (spec.listed spec.item_text items.now ++ codes " FROM ")))) }
{
    out.extend_from_slice(b"SELECT ")?;
    add_distinct(out, distinct)?;
    add_items(out, items.as_slice())?;
    out.extend_from_slice(b" FROM ")
}

#[cycle(print)]
pub(crate) fn add_query(alloc: Global, out: &mut Vec<u8>, query: &Query) -> Result<(), WantOfMemory>
    ensures text { IfOk result (λ _. out.new.items ≡ out.old.items ++ spec.query_text (query_tree query.now)) }
    ensures fits { IfOk result (λ _. Fits (query_tree query.now)) }
{
    add_head(out, query.distinct, &query.items)?;
    add_from(alloc, out, &query.from)?;
    match &query.filter {
        None => Ok(()),
        Some(c) => add_where(alloc, out, c),
    }
}

#[cycle(print)]
fn add_where(alloc: Global, out: &mut Vec<u8>, c: &Condition) -> Result<(), WantOfMemory>
    ensures text { IfOk result (λ _. out.new.items ≡ out.old.items ++ (codes " WHERE " ++ spec.whole_text (condition_tree c.now))) }
    ensures fits { IfOk result (λ _. FitsCond (condition_tree c.now)) }
{
    out.extend_from_slice(b" WHERE ")?;
    add_whole(alloc, out, c)
}

// ---- FROM

// The chain of joins and commas is gone through by a loop, which takes no stack for its length. A lone part takes no memory.
#[cycle(print)]
fn add_from(alloc: Global, out: &mut Vec<u8>, from: &FromPart) -> Result<(), WantOfMemory>
    ensures text { IfOk result (λ _. out.new.items ≡ out.old.items ++ spec.from_text (from_tree from.now)) }
    ensures fits { IfOk result (λ _. FitsFrom (from_tree from.now)) }
{
    if left_of(from).is_none() {
        return add_link(alloc, out, from);
    }
    let mut parts = links(alloc, from)?;
    'parts: while let Some(part) = parts.pop() {
        add_link(alloc, out, part)?;
    }
    Ok(())
}

fn add_table(out: &mut Vec<u8>, name: &Name, alias: &Option<Name>) -> Result<(), WantOfMemory>
    ensures { IfOk result (λ _. out.new.items ≡ out.old.items ++ (spec.name_text name.now ++ spec.as_text alias.now)) }
{
    add_name(out, name)?;
    add_as(out, alias)
}

fn add_derived_name(
    out: &mut Vec<u8>,
    alias: &Name,
    columns: &Option<Names>,
) -> Result<(), WantOfMemory>
    ensures { IfOk result (λ _. out.new.items ≡ out.old.items ++ (codes ") AS " ++ (spec.name_text alias.now ++ spec.columns_text columns.now))) }
{
    out.extend_from_slice(b") AS ")?;
    add_name(out, alias)?;
    add_column_list(out, columns)
}

// What stands behind the left operand of a join or a comma; a table or a query in parentheses whole.
#[cycle(print)]
fn add_link(alloc: Global, out: &mut Vec<u8>, part: &FromPart) -> Result<(), WantOfMemory>
    ensures text { IfOk result (λ _. out.new.items ≡ out.old.items ++ link_text (from_tree part.now)) }
    ensures fits { IfOk result (λ _. LinkFits (from_tree part.now)) }
{
    match part {
        FromPart::Table { name, alias, .. } => add_table(out, name, alias),
        FromPart::Derived {
            query,
            alias,
            columns,
            ..
        } => {
            out.extend_from_slice(b"(")?;
            add_query(alloc, out, query)?;
            add_derived_name(out, alias, columns)
        }
        FromPart::Inner { right, on, .. } => add_join(alloc, out, b" INNER JOIN ", right, on),
        FromPart::Left { right, on, .. } => add_join(alloc, out, b" LEFT JOIN ", right, on),
        FromPart::Right { right, on, .. } => add_join(alloc, out, b" RIGHT JOIN ", right, on),
        FromPart::Comma { right, .. } => {
            out.extend_from_slice(b", ")?;
            add_from(alloc, out, right)
        }
    }
}

#[cycle(print)]
fn add_join(
    alloc: Global,
    out: &mut Vec<u8>,
    words: &[u8],
    right: &FromPart,
    on: &Condition,
) -> Result<(), WantOfMemory>
    ensures text { IfOk result (λ _. out.new.items ≡ out.old.items ++ join_text words.now (from_tree right.now) (condition_tree on.now)) }
    ensures fits { IfOk result (λ _. FitsFrom (from_tree right.now) × FitsCond (condition_tree on.now)) }
{
    out.extend_from_slice(words)?;
    add_operand(alloc, out, right)?;
    out.extend_from_slice(b" ON ")?;
    add_whole(alloc, out, on)
}

fn is_join(part: &FromPart) -> bool
    ensures { result ≡ spec.is_join (from_tree part.now) }
{
    !matches!(part, FromPart::Table { .. } | FromPart::Derived { .. })
}

// A right operand, in parentheses where it is a join.
#[cycle(print)]
fn add_operand(alloc: Global, out: &mut Vec<u8>, part: &FromPart) -> Result<(), WantOfMemory>
    ensures text { IfOk result (λ _. out.new.items ≡ out.old.items ++ spec.bracketed (spec.is_join (from_tree part.now)) (spec.from_text (from_tree part.now))) }
    ensures fits { IfOk result (λ _. FitsFrom (from_tree part.now)) }
{
    if !is_join(part) {
        return add_from(alloc, out, part);
    }
    out.extend_from_slice(b"(")?;
    add_from(alloc, out, part)?;
    out.extend_from_slice(b")")
}

// ---- conditions

fn is_or(c: &Condition) -> bool
    ensures { result ≡ spec.is_or (condition_tree c.now) }
{
    matches!(c.kind, CondKind::Or(_))
}

fn stands_in_brackets(conjunct: bool, c: &Condition) -> bool
    ensures { result ≡ spec.stands_in_brackets conjunct (condition_tree c.now) }
{
    match c.kind {
        CondKind::And(_) | CondKind::Or(_) => true,
        CondKind::Not(_) => !conjunct,
        _ => false,
    }
}

// The condition of an ON or of WHERE.
#[cycle(print)]
fn add_whole(alloc: Global, out: &mut Vec<u8>, c: &Condition) -> Result<(), WantOfMemory>
    ensures text { IfOk result (λ _. out.new.items ≡ out.old.items ++ spec.whole_text (condition_tree c.now)) }
    ensures fits { IfOk result (λ _. FitsCond (condition_tree c.now)) }
{
    if !is_or(c) {
        return add_condition(alloc, out, true, c);
    }
    out.extend_from_slice(b"(")?;
    add_condition(alloc, out, true, c)?;
    out.extend_from_slice(b")")
}

// A part of And, Or or Not, or a conjunct.
#[cycle(print)]
fn add_part(
    alloc: Global,
    out: &mut Vec<u8>,
    conjunct: bool,
    c: &Condition,
) -> Result<(), WantOfMemory>
    ensures text { IfOk result (λ _. out.new.items ≡ out.old.items ++ spec.bracketed (spec.stands_in_brackets conjunct (condition_tree c.now)) (spec.cond_text false (condition_tree c.now))) }
    ensures fits { IfOk result (λ _. FitsCond (condition_tree c.now)) }
{
    if !stands_in_brackets(conjunct, c) {
        return add_condition(alloc, out, false, c);
    }
    out.extend_from_slice(b"(")?;
    add_condition(alloc, out, false, c)?;
    out.extend_from_slice(b")")
}

fn add_in_list(out: &mut Vec<u8>, column: &ColumnName, values: &Values) -> Result<(), WantOfMemory>
    ensures text { IfOk result (λ _. out.new.items ≡ out.old.items ++ (spec.column_text column.now ++ (codes " IN (" ++ (spec.listed spec.value_text values.now ++ codes ")")))) }
    ensures fits { IfOk result (λ _. AllByRecursion FitsValue values.now) }
{
    add_column(out, column)?;
    out.extend_from_slice(b" IN (")?;
    add_values(out, values.as_slice())?;
    out.extend_from_slice(b")")
}

#[cycle(print)]
fn add_in_query(
    alloc: Global,
    out: &mut Vec<u8>,
    columns: &ColumnNames,
    query: &Query,
) -> Result<(), WantOfMemory>
    ensures text { IfOk result (λ _. out.new.items ≡ out.old.items ++ (spec.tuple_text columns.now ++ (codes " IN (" ++ (spec.query_text (query_tree query.now) ++ codes ")")))) }
    ensures fits { IfOk result (λ _. Fits (query_tree query.now)) }
{
    add_tuple(out, columns.as_slice())?;
    out.extend_from_slice(b" IN (")?;
    add_query(alloc, out, query)?;
    out.extend_from_slice(b")")
}

// `whole` says that it is the condition of an ON or of WHERE, so that the parts of an And are conjuncts.
#[cycle(print)]
fn add_condition(
    alloc: Global,
    out: &mut Vec<u8>,
    whole: bool,
    c: &Condition,
) -> Result<(), WantOfMemory>
    ensures text { IfOk result (λ _. out.new.items ≡ out.old.items ++ spec.cond_text whole (condition_tree c.now)) }
    ensures fits { IfOk result (λ _. FitsCond (condition_tree c.now)) }
{
    match &c.kind {
        CondKind::Compare(sign, a, b, _) => {
            add_scalar(out, a)?;
            add_sign(out, *sign)?;
            add_scalar(out, b)
        }
        CondKind::IsNull(column) => {
            add_column(out, column)?;
            out.extend_from_slice(b" IS NULL")
        }
        CondKind::IsNotNull(column) => {
            add_column(out, column)?;
            out.extend_from_slice(b" IS NOT NULL")
        }
        CondKind::InList(column, values, _) => add_in_list(out, column, values),
        CondKind::InQuery(columns, query, _) => add_in_query(alloc, out, columns, query),
        CondKind::And(parts) => add_parts(alloc, out, whole, b" AND ", parts),
        CondKind::Or(parts) => add_parts(alloc, out, false, b" OR ", parts),
        CondKind::Not(inner) => {
            out.extend_from_slice(b"NOT ")?;
            add_part(alloc, out, false, inner)
        }
    }
}

#[cycle(print)]
fn add_parts(
    alloc: Global,
    out: &mut Vec<u8>,
    conjuncts: bool,
    word: &[u8],
    parts: &Conditions,
) -> Result<(), WantOfMemory>
    ensures text { IfOk result (λ _. out.new.items ≡ out.old.items ++ spec.parts_text conjuncts word.now (conditions_tree parts.now)) }
    ensures fits { IfOk result (λ _. FitsConds (conditions_tree parts.now)) }
{
    match parts {
        Conditions::Empty => Ok(()),
        Conditions::More(first, rest) => {
            add_part(alloc, out, conjuncts, first)?;
            add_more(alloc, out, conjuncts, word, rest)
        }
    }
}

// The parts behind the first one, each behind the word.
#[cycle(print)]
fn add_more(
    alloc: Global,
    out: &mut Vec<u8>,
    conjuncts: bool,
    word: &[u8],
    parts: &Conditions,
) -> Result<(), WantOfMemory>
    ensures text { IfOk result (λ _. out.new.items ≡ out.old.items ++ spec.more_text conjuncts word.now (conditions_tree parts.now)) }
    ensures fits { IfOk result (λ _. FitsConds (conditions_tree parts.now)) }
{
    let mut rest = parts;
    'parts: loop {
        match rest {
            Conditions::Empty => return Ok(()),
            Conditions::More(part, more) => {
                out.extend_from_slice(word)?;
                add_part(alloc, out, conjuncts, part)?;
                rest = more;
            }
        }
    }
}
