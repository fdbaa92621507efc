//! Where a NULL at a place of a filter's list keeps its predicate from being True. A list may be longer than the numbers of 32 bits,
//! so the place is a number of 64.
ghost use Rattle.std.specs.Prelude.{◌≡◌};
ghost use Rattle.wt_pred.specs.Tree.{pred_tree, preds_tree};
ghost use Rattle.wt_pred.specs.Nulls as nulls;
ghost use Rattle.wt_pred.specs.Nulls.{never_true, never_false, nevers_true, nevers_false, every, some_of};
ghost use Rattle.wt_known.specs.Facts.{rejected};

use wt_pred::{Operand, Pred, Preds};

/// Whether a filter's list has the column at a place where the predicate rejects NULL.
pub fn rejects(pred: &Pred, mut cols: &[u32], column: u32) -> bool
    ensures { result ≡ rejected (pred_tree pred.now) cols.entry.now 0 column }
{
    let mut place = 0;
    'cols: while let [listed, others @ ..] = cols {
        if *listed == column && is_never_true(pred, place) {
            return true;
        }
        cols = others;
        place += 1;
    }
    false
}

fn is_column(operand: &Operand, place: u64) -> bool
    ensures { result ≡ nulls.is_column place operand.now }
{
    match operand {
        Operand::Column(column) => place == *column as u64,
        Operand::Constant(_) => false,
    }
}

#[cycle(nulls)]
fn is_never_true(pred: &Pred, place: u64) -> bool
    ensures { result ≡ never_true place (pred_tree pred.now) }
{
    match pred {
        Pred::Compare(_, a, b) => is_column(a, place) || is_column(b, place),
        Pred::IsNull(_) => false,
        Pred::IsNotNull(column) => place == *column as u64,
        Pred::InList(column, _) => place == *column as u64,
        Pred::And(parts) => some_never_true(parts, place),
        Pred::Or(parts) => all_never_true(parts, place),
        Pred::Not(inner) => is_never_false(inner, place),
    }
}

#[cycle(nulls)]
fn is_never_false(pred: &Pred, place: u64) -> bool
    ensures { result ≡ never_false place (pred_tree pred.now) }
{
    match pred {
        Pred::Compare(_, a, b) => is_column(a, place) || is_column(b, place),
        Pred::IsNull(column) => place == *column as u64,
        Pred::IsNotNull(_) => false,
        Pred::InList(column, values) => !values.is_empty() && place == *column as u64,
        Pred::And(parts) => all_never_false(parts, place),
        Pred::Or(parts) => some_never_false(parts, place),
        Pred::Not(inner) => is_never_true(inner, place),
    }
}

#[cycle(nulls)]
fn some_never_true(parts: &Preds, place: u64) -> bool
    ensures { result ≡ some_of (nevers_true place (preds_tree parts.now)) }
{
    let mut rest = parts;
    'parts: loop {
        match rest {
            Preds::Empty => return false,
            Preds::More(part, more) => {
                if is_never_true(part, place) {
                    return true;
                }
                rest = more;
            }
        }
    }
}

#[cycle(nulls)]
fn all_never_true(parts: &Preds, place: u64) -> bool
    ensures { result ≡ every (nevers_true place (preds_tree parts.now)) }
{
    let mut rest = parts;
    'parts: loop {
        match rest {
            Preds::Empty => return true,
            Preds::More(part, more) => {
                if !is_never_true(part, place) {
                    return false;
                }
                rest = more;
            }
        }
    }
}

#[cycle(nulls)]
fn some_never_false(parts: &Preds, place: u64) -> bool
    ensures { result ≡ some_of (nevers_false place (preds_tree parts.now)) }
{
    let mut rest = parts;
    'parts: loop {
        match rest {
            Preds::Empty => return false,
            Preds::More(part, more) => {
                if is_never_false(part, place) {
                    return true;
                }
                rest = more;
            }
        }
    }
}

#[cycle(nulls)]
fn all_never_false(parts: &Preds, place: u64) -> bool
    ensures { result ≡ every (nevers_false place (preds_tree parts.now)) }
{
    let mut rest = parts;
    'parts: loop {
        match rest {
            Preds::Empty => return true,
            Preds::More(part, more) => {
                if !is_never_false(part, place) {
                    return false;
                }
                rest = more;
            }
        }
    }
}
