//! Examples whose answers come from outside.

mod files;
mod joins;
mod marks;
mod sizes;
mod trees;

use std::alloc::{AllocError, Global};
use wt_ast::Query;
use wt_lex::LexError;
use wt_parse::{QueryError, read_queries};

// What the n-th statement of a file is.
fn nth(alloc: Global, bytes: &[u8], n: u32) -> Result<Box<Query>, QueryError> {
    match read_queries(alloc, bytes) {
        Err(LexError::Fault(fault, at)) => Err(QueryError::Lex(fault, at)),
        Err(LexError::Memory) => Err(QueryError::Memory),
        Ok(queries) => {
            if n < queries.count() {
                queries.get(alloc, n)
            } else {
                Err(QueryError::Memory)
            }
        }
    }
}

fn refusal(alloc: Global, bytes: &[u8], n: u32) -> Option<QueryError> {
    match nth(alloc, bytes, n) {
        Ok(_) => None,
        Err(error) => Some(error),
    }
}

// Adds a piece to a text so many times.
fn put(out: &mut Vec<u8>, piece: &str, times: u32) -> Result<(), AllocError> {
    for _i in 0..times {
        out.extend_from_slice(piece.as_bytes())?;
    }
    Ok(())
}
