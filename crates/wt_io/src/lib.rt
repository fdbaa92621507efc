//! The outside: where bytes come from and go to, each with a count of its faults.
#![tactic(auto)]

mod all;
mod gate;
mod memory;
mod real;
mod store;

pub use all::{ReadAllError, read_all, write_all};
pub use gate::{Gate, Moment, NoGate};
pub use memory::{CallList, Files, MemFile, MemSink, MemStore};
pub use real::{FileStore, StdoutSink};
pub use store::{Sink, SinkFailed, Store, StoreFailed};
