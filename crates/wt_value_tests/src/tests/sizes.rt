//! Runs of thousands of parts on a small stack.

use crate::tests::by_columns_behind;
use std::alloc::{AllocError, Global};
use std::test::Fail;
use std::thread::Builder;
use wt_pred::{Cmp, Operand, Pred, Preds};
use wt_value::{Row, Truth, Value};

const PARTS: u32 = 9350;

// c0 = 0 OR c0 = 1 OR .., the longest run that a statement has.
fn long_or(alloc: Global) -> Result<Pred, AllocError> {
    let mut parts = Vec::new(alloc);
    for n in 0..PARTS {
        let constant = Operand::Constant(Value::Int(i64::from(n)));
        parts.push(Pred::Compare(Cmp::Eq, Operand::Column(0), constant))?;
    }
    Ok(Pred::Or(Preds::from_vec(alloc, parts)?))
}

fn eval_at(alloc: Global, long: &Pred, n: i64) -> Result<Truth, AllocError> {
    let mut row = Row::new(alloc);
    row.push(Value::Int(n))?;
    Ok(long.eval(&row))
}

fn copy_is_the_same(alloc: Global, long: &Pred) -> Result<bool, AllocError> {
    Ok(long.same(&long.copy(alloc)?))
}

fn columns_are(alloc: Global, long: &Pred, column: u32) -> Result<bool, AllocError> {
    Ok(long.columns(alloc)?.as_slice() == [column].as_slice())
}

fn moves_behind(alloc: Global, long: &Pred) -> Result<bool, AllocError> {
    columns_are(alloc, &by_columns_behind(alloc, long, &[1])?, 1)
}

fn run_holds(alloc: Global, long: &Pred) -> Result<bool, AllocError> {
    Ok(
        eval_at(alloc, long, i64::from(PARTS) - 1)? == Truth::True
            && eval_at(alloc, long, i64::from(PARTS))? == Truth::False
            && columns_are(alloc, long, 0)?
            && moves_behind(alloc, long)?
            && long.rejects_null(0)
            && !long.rejects_null(1)
            && copy_is_the_same(alloc, long)?,
    )
}

fn long_run_holds(alloc: Global) -> Result<bool, AllocError> {
    run_holds(alloc, &long_or(alloc)?)
}

#[test]
fn long_runs_take_no_stack(rt: HostRuntime) -> Result<(), Fail> {
    let alloc = rt.alloc();
    let child = Builder::new()
        .stack_size(2_097_152)
        .spawn(&rt, move || long_run_holds(alloc) == Ok(true))?;
    assert!(rt; child.join(&rt));
    Ok(())
}
