//! Whether a predicate uses the places of a list in the order of first use, and lists without repetition.
ghost use Rattle.std.specs.Prelude.{◌≡◌};
ghost use Rattle.wt_pred.specs.Tree.{pred_tree, preds_tree};
ghost use Rattle.wt_regularity.specs.Order as spec;

use wt_pred::{Operand, Pred, Preds};

fn stands_in(column: u32, cols: &[u32]) -> bool
    ensures { result ≡ spec.stands_in column cols.now }
{
    cols.iter().any(|other| column == *other)
}

/// Whether no number of a list stands there twice.
pub fn are_apart(mut cols: &[u32]) -> bool
    ensures { result ≡ spec.are_apart cols.entry.now }
{
    'cols: while let [column, others @ ..] = cols {
        if stands_in(*column, others) {
            return false;
        }
        cols = others;
    }
    true
}

fn after_column(column: u32, next: u64) -> Option<u64>
    ensures { result ≡ spec.after_column column next }
{
    let column = column as u64;
    if column < next {
        Some(next)
    } else if column == next {
        Some(column + 1)
    } else {
        None
    }
}

fn after_operand(operand: &Operand, next: u64) -> Option<u64>
    ensures { result ≡ spec.after_operand operand.now next }
{
    match operand {
        Operand::Column(column) => after_column(*column, next),
        Operand::Constant(_) => Some(next),
    }
}

/// The least place that is not yet used behind this predicate, if those before it are used up to `next`; nothing where a place is
/// used before the one that comes next.
#[cycle(order)]
pub fn after(pred: &Pred, next: u64) -> Option<u64>
    ensures { result ≡ spec.after (pred_tree pred.now) next }
{
    match pred {
        Pred::Compare(_, a, b) => after_operand(b, after_operand(a, next)?),
        Pred::IsNull(column) | Pred::IsNotNull(column) | Pred::InList(column, _) => {
            after_column(*column, next)
        }
        Pred::And(parts) | Pred::Or(parts) => after_all(parts, next),
        Pred::Not(inner) => after(inner, next),
    }
}

#[cycle(order)]
fn after_all(parts: &Preds, mut next: u64) -> Option<u64>
    ensures { result ≡ spec.after_all (preds_tree parts.now) next }
{
    let mut rest = parts;
    'parts: loop {
        match rest {
            Preds::Empty => return Some(next),
            Preds::More(part, more) => {
                next = after(part, next)?;
                rest = more;
            }
        }
    }
}
