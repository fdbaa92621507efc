//! Examples whose answers come from outside.
ghost use Rattle.std.specs.Prelude.{IfOk};
ghost use Rattle.wt_ast.specs.Tree.{query_tree};
ghost use Rattle.wt_ast.specs.Lawful.{IsLawful};

mod faults;

use std::alloc::{AllocError, Global};
use wt_ast::Query;
use wt_build::plan_of;
use wt_parse::{QueryError, read_queries};
use wt_plan::Named;
use wt_query_plan::BuildError;
use wt_schema::Schema;

// Where cust.name is a text and all else are numbers.
static SCHEMA: &str =
    "CREATE TABLE cust (id INTEGER PRIMARY KEY, name TEXT); CREATE TABLE o (id INTEGER PRIMARY KEY, c INTEGER REFERENCES cust (id), d INTEGER NOT NULL REFERENCES cust (id), k INTEGER UNIQUE);";

// The first statement of a text.
fn first(alloc: Global, text: &[u8]) -> Result<Box<Query>, QueryError>
    ensures { IfOk result (λ q. IsLawful (query_tree q.value)) }
{
    match read_queries(alloc, text) {
        Err(_) => Err(QueryError::Memory),
        Ok(queries) => {
            if queries.count() == 0 {
                Err(QueryError::Memory)
            } else {
                queries.get(alloc, 0)
            }
        }
    }
}

// The plan of a statement, or its first fault. Want of memory stands for a statement that is not read.
#[tactic(auto, using(crate::proofs::Small::few_items))]
fn planned(alloc: Global, schema: &Schema, text: &[u8]) -> Result<Named, BuildError> {
    match first(alloc, text) {
        Err(_) => Err(BuildError::Memory),
        Ok(query) => plan_of(alloc, schema, &query),
    }
}

fn fault(alloc: Global, schema: &Schema, text: &[u8]) -> Option<BuildError> {
    planned(alloc, schema, text).err()
}

// Adds a piece to a text so many times.
fn put(out: &mut Vec<u8>, piece: &str, times: u32) -> Result<(), AllocError> {
    for _i in 0..times {
        out.extend_from_slice(piece.as_bytes())?;
    }
    Ok(())
}
