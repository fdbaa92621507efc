//! Texts written by hand.
mod lines;
mod names;

use std::alloc::Global;
use wt_ast::Query;
use wt_parse::{QueryError, read_queries};
use wt_print::print_query;

// The first statement of a text.
fn first(alloc: Global, text: &[u8]) -> Result<Box<Query>, QueryError> {
    match read_queries(alloc, text) {
        Err(_) => Err(QueryError::Memory),
        Ok(queries) => {
            if queries.count() == 0 {
                Err(QueryError::Memory)
            } else {
                queries.get(alloc, 0)
            }
        }
    }
}

fn is_printed(alloc: Global, query: &Query, line: &[u8]) -> bool {
    match print_query(alloc, query) {
        Err(_) => false,
        Ok(text) => text.as_slice() == line,
    }
}

// Whether the first statement of a text is printed as this line.
fn prints(alloc: Global, text: &[u8], line: &[u8]) -> bool {
    match first(alloc, text) {
        Err(_) => false,
        Ok(query) => is_printed(alloc, &query, line),
    }
}

// The number of the first row whose statement is not printed as its line, or whose line, read again, is not printed to
// itself.
fn first_other(alloc: Global, rows: &[(&str, &str)]) -> Option<usize> {
    for (i, (text, line)) in rows.iter().enumerate() {
        if !prints(alloc, text.as_bytes(), line.as_bytes())
            || !prints(alloc, line.as_bytes(), line.as_bytes())
        {
            return Some(i);
        }
    }
    None
}

// The number of the first line that is not printed to itself.
fn first_changed(alloc: Global, lines: &[&str]) -> Option<usize> {
    for (i, line) in lines.iter().enumerate() {
        if !prints(alloc, line.as_bytes(), line.as_bytes()) {
            return Some(i);
        }
    }
    None
}
