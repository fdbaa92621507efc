use std::alloc::{AllocError, Global};
use wt_plan::Plan;
use wt_pred::{Cmp, Operand, Pred};
use wt_value::{Cols, Value};

fn cols(alloc: Global, numbers: &[u32]) -> Result<Cols, AllocError> {
    Ok(Cols::from_vec(Vec::from_slice(alloc, numbers)?))
}

/// The second table, of four columns.
fn orders(alloc: Global) -> Result<Box<Plan>, AllocError> {
    Ok(Box::new(alloc, Plan::Table(1, 4))?)
}

/// The first table, of two columns.
fn customers(alloc: Global) -> Result<Box<Plan>, AllocError> {
    Ok(Box::new(alloc, Plan::Table(0, 2))?)
}

fn left_join(alloc: Global) -> Result<Plan, AllocError> {
    Ok(Plan::LeftJoin(
        cols(alloc, &[1])?,
        cols(alloc, &[0])?,
        orders(alloc)?,
        customers(alloc)?,
    ))
}

fn inner_join(alloc: Global, column: u32) -> Result<Plan, AllocError> {
    Ok(Plan::InnerJoin(
        cols(alloc, &[column])?,
        cols(alloc, &[0])?,
        orders(alloc)?,
        customers(alloc)?,
    ))
}

fn proj(alloc: Global, numbers: &[u32], plan: Plan) -> Result<Plan, AllocError> {
    Ok(Plan::Proj(cols(alloc, numbers)?, Box::new(alloc, plan)?))
}

/// The rows on which the value of a column is at least 7.
fn seven(alloc: Global, column: u32, plan: Plan) -> Result<Plan, AllocError> {
    let pred = Pred::Compare(
        Cmp::Ge,
        Operand::Column(0),
        Operand::Constant(Value::Int(7)),
    );
    Ok(Plan::Filter(pred, cols(alloc, &[column])?, Box::new(alloc, plan)?))
}

/// The rows on which two columns are equal.
fn equal(alloc: Global, columns: &[u32], plan: Plan) -> Result<Plan, AllocError> {
    let pred = Pred::Compare(Cmp::Eq, Operand::Column(0), Operand::Column(1));
    Ok(Plan::Filter(pred, cols(alloc, columns)?, Box::new(alloc, plan)?))
}

/// The rows whose value at a column is one of a customer's at another.
fn among(alloc: Global, column: u32, other: u32, plan: Plan) -> Result<Plan, AllocError> {
    let inside = proj(alloc, &[other], Plan::Table(0, 2))?;
    Ok(Plan::InSub(
        cols(alloc, &[column])?,
        Box::new(alloc, plan)?,
        Box::new(alloc, inside)?,
    ))
}

/// The n-th plan of the tests.
pub fn plan(alloc: Global, n: usize) -> Result<Plan, AllocError> {
    match n {
        0 => proj(alloc, &[0], left_join(alloc)?),
        1 => Ok(Plan::Table(1, 4)),
        2 => left_join(alloc),
        3 => seven(alloc, 2, Plan::Table(1, 4)),
        4 => Ok(Plan::Dedup(Box::new(alloc, proj(alloc, &[1], Plan::Table(1, 4))?)?)),
        5 => among(alloc, 2, 0, Plan::Table(1, 4)),
        6 => inner_join(alloc, 2),
        7 => seven(alloc, 2, seven(alloc, 4, left_join(alloc)?)?),
        8 => among(alloc, 5, 1, equal(alloc, &[1, 4], inner_join(alloc, 2)?)?),
        _ => seven(alloc, 5, among(alloc, 4, 0, inner_join(alloc, 2)?)?),
    }
}
