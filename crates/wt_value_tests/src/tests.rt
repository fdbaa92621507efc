//! What no clause says: that the definition is the one that was meant, on examples whose answers come from the standard.

mod meaning;
mod nulls;
mod numbers;
mod rows;
mod sizes;

use std::alloc::{AllocError, Global};
use wt_pred::{Cmp, Operand, Pred, Preds};
use wt_value::{Cols, Row, Text, Truth, Value, Values};

// A value or a column, as tables have it.
#[derive(Clone, Copy)]
enum Side {
    Column(u32),
    Null,
    Int(i64),
    Text(&'static [u8]),
}

// A predicate is written with its parts first: each step takes as many predicates as it has parts from those before it.
#[derive(Clone, Copy)]
enum Step {
    Compare(Cmp, Side, Side),
    IsNull(u32),
    IsNotNull(u32),
    InList(u32, &'static [Side]),
    And(usize),
    Or(usize),
    Not,
}

fn value(alloc: Global, side: &Side) -> Result<Value, AllocError> {
    match side {
        Side::Column(_) => Ok(Value::Null),
        Side::Null => Ok(Value::Null),
        Side::Int(n) => Ok(Value::Int(*n)),
        Side::Text(bytes) => Ok(Value::Text(Text::from_bytes(alloc, bytes)?)),
    }
}

fn values(alloc: Global, sides: &[Side]) -> Result<Values, AllocError> {
    let mut list = Values::new(alloc);
    for side in sides {
        list.push(value(alloc, side)?)?;
    }
    Ok(list)
}

fn row(alloc: Global, sides: &[Side]) -> Result<Row, AllocError> {
    values(alloc, sides)
}

fn operand(alloc: Global, side: &Side) -> Result<Operand, AllocError> {
    match side {
        Side::Column(column) => Ok(Operand::Column(*column)),
        _ => Ok(Operand::Constant(value(alloc, side)?)),
    }
}

// The last of the predicates, or an AND of none.
fn last(made: &mut Vec<Pred>) -> Pred {
    match made.pop() {
        Some(pred) => pred,
        None => Pred::And(Preds::Empty),
    }
}

// The last predicates, so many of them, in their order.
fn last_parts(alloc: Global, made: &mut Vec<Pred>, count: usize) -> Result<Preds, AllocError> {
    let mut parts = Preds::Empty;
    for _i in 0..count {
        let part = Box::new(alloc, last(made))?;
        parts = Preds::More(part, Box::new(alloc, parts)?);
    }
    Ok(parts)
}

fn made_by(alloc: Global, step: &Step, made: &mut Vec<Pred>) -> Result<Pred, AllocError> {
    match step {
        Step::Compare(cmp, a, b) => {
            Ok(Pred::Compare(*cmp, operand(alloc, a)?, operand(alloc, b)?))
        }
        Step::IsNull(column) => Ok(Pred::IsNull(*column)),
        Step::IsNotNull(column) => Ok(Pred::IsNotNull(*column)),
        Step::InList(column, sides) => Ok(Pred::InList(*column, values(alloc, sides)?)),
        Step::And(count) => Ok(Pred::And(last_parts(alloc, made, *count)?)),
        Step::Or(count) => Ok(Pred::Or(last_parts(alloc, made, *count)?)),
        Step::Not => Ok(Pred::Not(Box::new(alloc, last(made))?)),
    }
}

fn pred(alloc: Global, steps: &[Step]) -> Result<Pred, AllocError> {
    let mut made = Vec::new(alloc);
    for step in steps {
        let next = made_by(alloc, step, &mut made)?;
        made.push(next)?;
    }
    Ok(last(&mut made))
}

// The truth of a predicate at a row.
fn truth(alloc: Global, steps: &[Step], sides: &[Side]) -> Result<Truth, AllocError> {
    Ok(pred(alloc, steps)?.eval(&row(alloc, sides)?))
}

// The predicate by its own columns, with others before them.
fn by_columns_behind(alloc: Global, p: &Pred, front: &[u32]) -> Result<Pred, AllocError> {
    let own = p.columns(alloc)?;
    let mut cols = Vec::from_slice(alloc, front)?;
    cols.extend_from_slice(own.as_slice())?;
    let cols = Cols::from_vec(cols);
    // The lists of the tests are short.
    if cols.len() > 65_536 {
        return Err(AllocError);
    }
    p.renumber(alloc, &cols)
}
