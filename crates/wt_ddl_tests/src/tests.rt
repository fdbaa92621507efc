//! Examples whose answers come from the standard.

mod faults;
mod limits;
mod lookup;
mod rows;
mod schemas;
mod tokens;
mod words;
