//! A chain of 255 joins, of which each question is answered at once.

use crate::tests::{SCHEMA, cols};
use std::alloc::{AllocError, Global};
use std::test::Fail;
use wt_ddl::read_schema;
use wt_draft::Draft;
use wt_plan::Plan;
use wt_plan_facts::Facts;
use wt_props::Known;
use wt_schema::Schema;
use wt_value::Cols;

/// What is asked of the chain.
#[derive(Clone, Copy)]
enum Question {
    IsUnique,
    IsNotNull,
    Refers,
    IsRegular,
}

// A question, a column, and its answer.
static QUESTIONS: [(Question, u32, bool); 13] = [
    (Question::IsUnique, 0, true),
    (Question::IsUnique, 1, false),
    (Question::IsUnique, 1020, true),
    (Question::IsUnique, 1021, false),
    (Question::IsNotNull, 0, true),
    (Question::IsNotNull, 1, false),
    (Question::IsNotNull, 1022, true),
    (Question::IsNotNull, 1023, false),
    (Question::Refers, 1, true),
    (Question::Refers, 2, false),
    (Question::Refers, 1021, true),
    (Question::Refers, 1024, false),
    (Question::IsRegular, 0, true),
];

fn joined(alloc: Global, left: Plan) -> Result<Plan, AllocError> {
    let right = Box::new(alloc, Plan::Table(1, 4))?;
    let left = Box::new(alloc, left)?;
    Ok(Plan::InnerJoin(cols(alloc, &[0])?, cols(alloc, &[0])?, left, right))
}

// The table o, joined so often with itself.
fn chain(alloc: Global, joins: u32) -> Result<Plan, AllocError> {
    let mut plan = Plan::Table(1, 4);
    for _ in 0..joins {
        plan = joined(alloc, plan)?;
    }
    Ok(plan)
}

fn is_unique(alloc: Global, schema: &Schema, plan: &Plan, at: u32) -> Result<bool, AllocError> {
    Known::new(schema).known_unique(alloc, plan, &cols(alloc, &[at])?)
}

fn is_not_null(alloc: Global, schema: &Schema, plan: &Plan, at: u32) -> Result<bool, AllocError> {
    Ok(Known::new(schema).known_not_null(plan, &cols(alloc, &[at])?))
}

// Whether a column is known to refer to the first column of cust.
fn refers(alloc: Global, schema: &Schema, plan: &Plan, at: u32) -> Result<bool, AllocError> {
    refers_to(
        alloc,
        schema,
        plan,
        &cols(alloc, &[at])?,
        &cols(alloc, &[0])?,
    )
}

fn refers_to(
    alloc: Global,
    schema: &Schema,
    plan: &Plan,
    at: &Cols,
    target_at: &Cols,
) -> Result<bool, AllocError> {
    Known::new(schema).known_ref(alloc, plan, at, &Plan::Table(0, 5), target_at)
}

fn answer(
    alloc: Global,
    schema: &Schema,
    plan: &Plan,
    question: Question,
    at: u32,
) -> Result<bool, AllocError> {
    match question {
        Question::IsUnique => is_unique(alloc, schema, plan, at),
        Question::IsNotNull => is_not_null(alloc, schema, plan, at),
        Question::Refers => refers(alloc, schema, plan, at),
        Question::IsRegular => Ok(Known::new(schema).regular(&Draft::Whole(plan))),
    }
}

fn answer_of_chain(
    alloc: Global,
    schema: &Schema,
    question: Question,
    at: u32,
) -> Result<bool, AllocError> {
    answer(alloc, schema, &chain(alloc, 255)?, question, at)
}

#[test]
fn long_chains_are_answered(rt: HostRuntime) -> Result<(), Fail> {
    let schema = read_schema(rt.alloc(), SCHEMA.as_bytes())?;
    for (question, at, expected) in &QUESTIONS {
        assert!(rt;
            answer_of_chain(rt.alloc(), &schema, *question, *at)? == *expected,
            "column {at}"
        );
    }
    Ok(())
}
