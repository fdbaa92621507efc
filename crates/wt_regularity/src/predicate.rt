//! Whether a filter's predicate is one of a regular plan.
ghost use Rattle.std.specs.Prelude.{◌≡◌};
ghost use Rattle.wt_pred.specs.Tree.{pred_tree, preds_tree};
ghost use Rattle.wt_plan.specs.Regular as regular;
ghost use Rattle.wt_draft.specs.Roots.{any_tree};
ghost use Rattle.wt_regularity.specs.Predicates as spec;

use crate::kinds::{kind_of, kind_or_int, same_kind};
use crate::order::{after, are_apart};
use std::str::from_utf8;
use wt_draft::AnyPlan;
use wt_pred::{Operand, Pred, Preds};
use wt_schema::{ColKind, Table};
use wt_value::{Cols, Value};

/// The columns that a filter's predicate is over: those of a list, in the filter's operand.
#[derive(Clone, Copy)]
struct Listed<'a, 'd, 'p> {
    tables: &'a [Table],
    operand: AnyPlan<'d, 'p>,
    cols: &'a [u32],
}

fn kind_at(listed: &Listed, place: u32) -> ColKind
    ensures { result ≡ regular.kind_at (spec.listed_kinds listed.now) place }
{
    match listed.cols.get(place as usize) {
        Some(column) => kind_or_int(kind_of(listed.tables, listed.operand, *column as usize)),
        None => ColKind::Int,
    }
}

fn value_kind(value: &Value) -> ColKind
    ensures { result ≡ regular.value_kind value.now }
{
    match value {
        Value::Text(_) => ColKind::Text,
        Value::Null | Value::Int(_) => ColKind::Int,
    }
}

fn operand_kind(listed: &Listed, operand: &Operand) -> ColKind
    ensures { result ≡ regular.operand_kind (spec.listed_kinds listed.now) operand.now }
{
    match operand {
        Operand::Column(place) => kind_at(listed, *place),
        Operand::Constant(value) => value_kind(value),
    }
}

fn is_text(bytes: &[u8]) -> bool
    ensures { result ≡ spec.is_text bytes.now }
{
    match from_utf8(bytes) {
        Ok(_) => true,
        Err(_) => false,
    }
}

fn is_constant(value: &Value) -> bool
    ensures { result ≡ spec.is_constant value.now }
{
    match value {
        Value::Null => false,
        Value::Int(_) => true,
        Value::Text(text) => is_text(text.as_bytes()),
    }
}

fn is_operand(operand: &Operand) -> bool
    ensures { result ≡ spec.is_operand operand.now }
{
    match operand {
        Operand::Column(_) => true,
        Operand::Constant(value) => is_constant(value),
    }
}

fn are_constants(kind: ColKind, values: &[Value]) -> bool
    ensures { result ≡ spec.are_constants kind values.now }
{
    values.iter().all(|value| same_kind(kind, value_kind(value)) && is_constant(value))
}

fn compares(listed: &Listed, a: &Operand, b: &Operand) -> bool
    ensures { result ≡ spec.compares (spec.listed_kinds listed.now) a.now b.now }
{
    same_kind(operand_kind(listed, a), operand_kind(listed, b)) && is_operand(a) && is_operand(b)
}

/// Whether its operands are of one kind, and its constants numbers or UTF-8 texts.
#[cycle(typing)]
fn is_typed(listed: &Listed, pred: &Pred) -> bool
    ensures { result ≡ spec.is_typed (spec.listed_kinds listed.now) (pred_tree pred.now) }
{
    match pred {
        Pred::Compare(_, a, b) => compares(listed, a, b),
        Pred::IsNull(_) | Pred::IsNotNull(_) => true,
        Pred::InList(place, values) => are_constants(kind_at(listed, *place), values.as_slice()),
        Pred::And(parts) | Pred::Or(parts) => are_typed(listed, parts),
        Pred::Not(inner) => is_typed(listed, inner),
    }
}

#[cycle(typing)]
fn are_typed(listed: &Listed, parts: &Preds) -> bool
    ensures { result ≡ spec.are_typed (spec.listed_kinds listed.now) (preds_tree parts.now) }
{
    let mut rest = parts;
    'parts: loop {
        match rest {
            Preds::Empty => return true,
            Preds::More(part, more) => {
                if !is_typed(listed, part) {
                    return false;
                }
                rest = more;
            }
        }
    }
}

fn is_and(pred: &Pred) -> bool
    ensures { result ≡ spec.is_and (pred_tree pred.now) }
{
    matches!(pred, Pred::And(_))
}

fn uses_all(pred: &Pred, cols: &Cols) -> bool
    ensures { result ≡ spec.uses_all (pred_tree pred.now) cols.now }
{
    match after(pred, 0) {
        Some(next) => next == cols.len() as u64,
        None => false,
    }
}

/// Whether a filter over the operand is as regular plans have it.
pub fn filter_fits(tables: &[Table], pred: &Pred, cols: &Cols, operand: AnyPlan) -> bool
    ensures { result ≡ spec.filter_fits (regular.plan_kinds tables.now (any_tree operand.entry)) (pred_tree pred.now) cols.now }
{
    let listed = Listed {
        tables,
        operand,
        cols: cols.as_slice(),
    };
    !is_and(pred) && uses_all(pred, cols) && are_apart(cols.as_slice()) && is_typed(&listed, pred)
}
