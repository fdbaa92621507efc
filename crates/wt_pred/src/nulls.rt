//! Where a NULL at a column keeps a predicate from being True.
ghost use Rattle.std.specs.Prelude.{◌≡◌, IsTrue};
ghost use Rattle.wt_pred.specs.Tree.{pred_tree, preds_tree};
ghost use Rattle.wt_pred.specs.Nulls as spec;
ghost use Rattle.wt_pred.specs.Nulls.{never_true, never_false, nevers_true, nevers_false, every, some_of, RejectsNull};

use crate::tree::{Operand, Pred, Preds};

impl Pred {
    /// Whether the predicate's form tells that no row with NULL at the column makes it True. A row that ends before the
    /// column has NULL there.
    pub fn rejects_null(&self, pos: u32) -> bool
        ensures exact { result ≡ never_true pos (pred_tree self.now) }
        ensures law { IsTrue result → RejectsNull pos (pred_tree self.now) }
    {
        is_never_true(self, pos)
    }
}

fn is_column(operand: &Operand, pos: u32) -> bool
    ensures { result ≡ spec.is_column pos operand.now }
{
    match operand {
        Operand::Column(column) => pos == *column,
        Operand::Constant(_) => false,
    }
}

#[cycle(nulls)]
fn is_never_true(pred: &Pred, pos: u32) -> bool
    ensures { result ≡ never_true pos (pred_tree pred.now) }
{
    match pred {
        Pred::Compare(_, a, b) => is_column(a, pos) || is_column(b, pos),
        Pred::IsNull(_) => false,
        Pred::IsNotNull(column) => pos == *column,
        Pred::InList(column, _) => pos == *column,
        Pred::And(parts) => some_never_true(parts, pos),
        Pred::Or(parts) => all_never_true(parts, pos),
        Pred::Not(inner) => is_never_false(inner, pos),
    }
}

#[cycle(nulls)]
fn is_never_false(pred: &Pred, pos: u32) -> bool
    ensures { result ≡ never_false pos (pred_tree pred.now) }
{
    match pred {
        Pred::Compare(_, a, b) => is_column(a, pos) || is_column(b, pos),
        Pred::IsNull(column) => pos == *column,
        Pred::IsNotNull(_) => false,
        Pred::InList(column, values) => !values.is_empty() && pos == *column,
        Pred::And(parts) => all_never_false(parts, pos),
        Pred::Or(parts) => some_never_false(parts, pos),
        Pred::Not(inner) => is_never_true(inner, pos),
    }
}

#[cycle(nulls)]
fn some_never_true(parts: &Preds, pos: u32) -> bool
    ensures { result ≡ some_of (nevers_true pos (preds_tree parts.now)) }
{
    let mut rest = parts;
    'parts: loop {
        match rest {
            Preds::Empty => return false,
            Preds::More(part, more) => {
                if is_never_true(part, pos) {
                    return true;
                }
                rest = more;
            }
        }
    }
}

#[cycle(nulls)]
fn all_never_true(parts: &Preds, pos: u32) -> bool
    ensures { result ≡ every (nevers_true pos (preds_tree parts.now)) }
{
    let mut rest = parts;
    'parts: loop {
        match rest {
            Preds::Empty => return true,
            Preds::More(part, more) => {
                if !is_never_true(part, pos) {
                    return false;
                }
                rest = more;
            }
        }
    }
}

#[cycle(nulls)]
fn some_never_false(parts: &Preds, pos: u32) -> bool
    ensures { result ≡ some_of (nevers_false pos (preds_tree parts.now)) }
{
    let mut rest = parts;
    'parts: loop {
        match rest {
            Preds::Empty => return false,
            Preds::More(part, more) => {
                if is_never_false(part, pos) {
                    return true;
                }
                rest = more;
            }
        }
    }
}

#[cycle(nulls)]
fn all_never_false(parts: &Preds, pos: u32) -> bool
    ensures { result ≡ every (nevers_false pos (preds_tree parts.now)) }
{
    let mut rest = parts;
    'parts: loop {
        match rest {
            Preds::Empty => return true,
            Preds::More(part, more) => {
                if !is_never_false(part, pos) {
                    return false;
                }
                rest = more;
            }
        }
    }
}
