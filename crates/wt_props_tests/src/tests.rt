//! The plans of statements over two tables, and what is known of them.
ghost use Rattle.std.specs.Prelude.{IfOk};
ghost use Rattle.wt_ast.specs.Tree.{query_tree};
ghost use Rattle.wt_ast.specs.Lawful.{IsLawful};

mod chains;
mod facts;
mod plans;

use std::alloc::{AllocError, Global};
use wt_ast::Query;
use wt_build::plan_of;
use wt_parse::{QueryError, read_queries};
use wt_plan::Plan;
use wt_query_plan::BuildError;
use wt_schema::Schema;
use wt_value::Cols;

// cust is table 0, five columns wide, and o is table 1, four columns wide.
static SCHEMA: &str =
    "CREATE TABLE cust (id INTEGER PRIMARY KEY, name TEXT, a INTEGER NOT NULL, b INTEGER, e INTEGER, UNIQUE (a, b)); CREATE TABLE o (id INTEGER PRIMARY KEY, c INTEGER REFERENCES cust (id), d INTEGER NOT NULL, k INTEGER UNIQUE, FOREIGN KEY (d, k) REFERENCES cust (a, b));";

fn cols(alloc: Global, numbers: &[u32]) -> Result<Cols, AllocError> {
    Ok(Cols::from_vec(Vec::from_slice(alloc, numbers)?))
}

// The columns whose numbers are the digits of a text.
fn digits(alloc: Global, text: &str) -> Result<Cols, AllocError> {
    let mut cols = Cols::new(alloc);
    for digit in text.as_bytes() {
        if digit.is_ascii_digit() {
            cols.push(u32::from(*digit).saturating_sub(48))?;
        }
    }
    Ok(cols)
}

// The first statement of a text.
fn first(alloc: Global, text: &[u8]) -> Result<Box<Query>, QueryError>
    ensures { IfOk result (λ q. IsLawful (query_tree q.value)) }
{
    match read_queries(alloc, text) {
        Err(_) => Err(QueryError::Memory),
        Ok(queries) => {
            if queries.count() == 0 {
                Err(QueryError::Memory)
            } else {
                queries.get(alloc, 0)
            }
        }
    }
}

// The plan of a statement. Want of memory stands for a statement that is not read.
#[tactic(auto, using(crate::proofs::Small::few_items))]
fn plan(alloc: Global, schema: &Schema, text: &str) -> Result<Plan, BuildError> {
    match first(alloc, text.as_bytes()) {
        Err(_) => Err(BuildError::Memory),
        Ok(query) => Ok(plan_of(alloc, schema, &query)?.plan),
    }
}
