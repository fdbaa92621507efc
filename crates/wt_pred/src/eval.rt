//! The truth of a predicate at a row.
ghost use Rattle.std.specs.Prelude.{◌≡◌, map};
ghost use Rattle.wt_value.specs.declared.value.Value.TheVariants.{Null};
ghost use Rattle.wt_value.specs.Truths as spec;
ghost use Rattle.wt_value.specs.Truths.{equality};
ghost use Rattle.wt_pred.specs.Tree.{pred_tree, preds_tree};
ghost use Rattle.wt_pred.specs.Meaning as meaning;
ghost use Rattle.wt_pred.specs.Meaning.{truths, least, greatest, value_of};
ghost use Rattle.wt_value.specs.Values.{value_at};

use crate::logic::{and, compare, equal, not, or, truth};
use crate::tree::{Cmp, Operand, Pred, Preds};
use wt_value::{Row, Truth, Value, Values};

/// The value at a column of the row, NULL past its end.
fn column_value<'a>(row: &'a Row, column: u32, null: &'a Value) -> &'a Value
    requires { null.now ≡ Null }
    ensures { result.now ≡ value_at row.now column }
{
    match row.as_slice().get(column as usize) {
        Some(value) => value,
        None => null,
    }
}

fn is_among(value: &Value, list: &Values) -> Truth
    ensures { result ≡ greatest (map (equality value.now) list.now) }
{
    let mut found = Truth::False;
    for other in list.as_slice() {
        found = or(found, equal(value, other));
    }
    found
}

/// The value that the operand stands for in this row.
fn operand_value<'a>(operand: &'a Operand, row: &'a Row, null: &'a Value) -> &'a Value
    requires { null.now ≡ Null }
    ensures { result.now ≡ value_of row.now operand.now }
{
    match operand {
        Operand::Column(column) => column_value(row, *column, null),
        Operand::Constant(value) => value,
    }
}

fn is_null_at(row: &Row, column: u32) -> Truth
    ensures { result ≡ spec.is_null (value_at row.now column) }
{
    let null = Value::Null;
    truth(column_value(row, column, &null).is_null())
}

fn is_in(row: &Row, column: u32, list: &Values) -> Truth
    ensures { result ≡ greatest (map (equality (value_at row.now column)) list.now) }
{
    let null = Value::Null;
    is_among(column_value(row, column, &null), list)
}

fn comparison(cmp: Cmp, a: &Operand, b: &Operand, row: &Row) -> Truth
    ensures { result ≡ meaning.comparison cmp (value_of row.now a.now) (value_of row.now b.now) }
{
    let null = Value::Null;
    compare(
        cmp,
        operand_value(a, row, &null),
        operand_value(b, row, &null),
    )
}

impl Pred {
    /// The truth of the predicate at the row.
    #[cycle(eval)]
    pub fn eval(&self, row: &Row) -> Truth
        ensures exact { result ≡ meaning.truth (pred_tree self.now) row.now }
    {
        match self {
            Pred::Compare(cmp, a, b) => comparison(*cmp, a, b, row),
            Pred::IsNull(column) => is_null_at(row, *column),
            Pred::IsNotNull(column) => not(is_null_at(row, *column)),
            Pred::InList(column, list) => is_in(row, *column, list),
            Pred::And(parts) => least_of(parts, row),
            Pred::Or(parts) => greatest_of(parts, row),
            Pred::Not(inner) => not(inner.eval(row)),
        }
    }
}

#[tactic(auto, using(crate::proofs::Connectives::connectives))]
#[cycle(eval)]
fn least_of(parts: &Preds, row: &Row) -> Truth
    ensures { result ≡ least (truths (preds_tree parts.now) row.now) }
{
    let mut so_far = Truth::True;
    let mut rest = parts;
    'parts: loop {
        match rest {
            Preds::Empty => return so_far,
            Preds::More(part, more) => {
                so_far = and(so_far, part.eval(row));
                rest = more;
            }
        }
    }
}

#[tactic(auto, using(crate::proofs::Connectives::connectives))]
#[cycle(eval)]
fn greatest_of(parts: &Preds, row: &Row) -> Truth
    ensures { result ≡ greatest (truths (preds_tree parts.now) row.now) }
{
    let mut so_far = Truth::False;
    let mut rest = parts;
    'parts: loop {
        match rest {
            Preds::Empty => return so_far,
            Preds::More(part, more) => {
                so_far = or(so_far, part.eval(row));
                rest = more;
            }
        }
    }
}
