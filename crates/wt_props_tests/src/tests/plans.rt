//! Plans that are regular, and plans that just are not.

use crate::tests::{SCHEMA, cols};
use std::alloc::{AllocError, Global};
use std::test::Fail;
use wt_ddl::read_schema;
use wt_draft::Draft;
use wt_plan::Plan;
use wt_plan_facts::Facts;
use wt_pred::{Cmp, Operand, Pred, Preds};
use wt_props::Known;
use wt_schema::Schema;
use wt_value::{Text, Value};

// Of each plan, by its number, whether it is regular.
static REGULAR: [bool; 18] = [
    true, false, false, true, false, true, false, false, true, false, false, false, false, false,
    false, false, false, true,
];

fn orders(alloc: Global) -> Result<Box<Plan>, AllocError> {
    Ok(Box::new(alloc, Plan::Table(1, 4))?)
}

fn customers(alloc: Global) -> Result<Box<Plan>, AllocError> {
    Ok(Box::new(alloc, Plan::Table(0, 5))?)
}

fn join(alloc: Global, right: u32) -> Result<Plan, AllocError> {
    Ok(Plan::InnerJoin(
        cols(alloc, &[1])?,
        cols(alloc, &[right])?,
        orders(alloc)?,
        customers(alloc)?,
    ))
}

fn customers_at(alloc: Global, places: &[u32]) -> Result<Plan, AllocError> {
    Ok(Plan::Proj(cols(alloc, places)?, customers(alloc)?))
}

fn among(alloc: Global, places: &[u32]) -> Result<Plan, AllocError> {
    let right = customers_at(alloc, places)?;
    Ok(Plan::InSub(cols(alloc, &[1])?, orders(alloc)?, Box::new(alloc, right)?))
}

fn filter(alloc: Global, pred: Pred, places: &[u32]) -> Result<Plan, AllocError> {
    Ok(Plan::Filter(pred, cols(alloc, places)?, orders(alloc)?))
}

fn column_is(value: Value) -> Pred {
    Pred::Compare(Cmp::Eq, Operand::Column(0), Operand::Constant(value))
}

fn equal(a: u32, b: u32) -> Pred {
    Pred::Compare(Cmp::Eq, Operand::Column(a), Operand::Column(b))
}

// A condition as an And of one part.
fn one_part(alloc: Global) -> Result<Pred, AllocError> {
    let part = Box::new(alloc, column_is(Value::Int(1)))?;
    let rest = Box::new(alloc, Preds::Empty)?;
    Ok(Pred::And(Preds::More(part, rest)))
}

// The plan of a number.
fn plan(alloc: Global, n: usize) -> Result<Plan, AllocError> {
    match n {
        0 => Ok(Plan::Table(1, 4)),
        // A table of the schema, as wide as it is.
        1 => Ok(Plan::Table(1, 3)),
        2 => Ok(Plan::Table(2, 4)),
        // Two columns of one kind.
        3 => join(alloc, 0),
        4 => join(alloc, 1),
        5 => among(alloc, &[0]),
        6 => among(alloc, &[1]),
        // As many columns as the right operand has.
        7 => among(alloc, &[0, 2]),
        8 => filter(alloc, column_is(Value::Int(1)), &[2]),
        9 => filter(
            alloc,
            column_is(Value::Text(Text::from_bytes(alloc, b"x")?)),
            &[2],
        ),
        // No place twice, each used, in the order of first use.
        10 => filter(alloc, equal(0, 1), &[2, 2]),
        11 => filter(alloc, equal(1, 0), &[2, 3]),
        12 => filter(alloc, one_part(alloc)?, &[2]),
        13 => filter(alloc, column_is(Value::Null), &[2]),
        14 => filter(alloc, column_is(Value::Int(1)), &[2, 3]),
        // At least one place, each of which is there.
        15 => customers_at(alloc, &[]),
        16 => customers_at(alloc, &[5]),
        _ => Ok(Plan::Dedup(orders(alloc)?)),
    }
}

fn is_regular(alloc: Global, schema: &Schema, n: usize) -> Result<bool, AllocError> {
    let plan = plan(alloc, n)?;
    Ok(Known::new(schema).regular(&Draft::Whole(&plan)))
}

#[test]
fn plans_are_regular_or_not(rt: HostRuntime) -> Result<(), Fail> {
    let alloc = rt.alloc();
    let schema = read_schema(alloc, SCHEMA.as_bytes())?;
    for (n, expected) in REGULAR.iter().enumerate() {
        assert!(rt; is_regular(alloc, &schema, n)? == *expected, "plan {n}");
    }
    Ok(())
}
