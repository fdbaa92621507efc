//! Finds rewrite rules for SQL and rewrites statements with them. It ends with the status of its command.
#![tactic(auto)]

use std::io::ErrorKind;
use std::process::ExitCode;
use std::rt::{Env, Files};
use std::sync::Wait;
use std::thread::Threads;
use std::{env, io};
use wt_io::{FileStore, NoGate, StdoutSink};
use wt_tool::wetune;

/// The status of want of memory.
const OUT_OF_MEMORY: u8 = 6;

/// The status where the runtime refuses the words, or a copy of itself, before the command begins.
const NOT_BEGUN: u8 = 7;

fn run<R>(rt: &R) -> io::Result<u8>
where
    R: Threads + Wait + Sync + Files + Print + Env + AllocGlobal + Clone + Drop,
{
    let mut words = Vec::new(rt.alloc());
    for word in env::args(rt)?.skip(1) {
        words.push(word)?;
    }
    let mut store = FileStore::new(rt.alloc(), rt.clone()?);
    let mut sink = StdoutSink::new(rt.clone()?);
    Ok(wetune(rt, rt.alloc(), &words, &mut store, &mut sink, &NoGate))
}

fn main(rt: HostRuntime) -> ExitCode {
    match run(&rt) {
        Ok(status) => ExitCode::from(status),
        Err(error) if error.kind() == ErrorKind::OutOfMemory => ExitCode::from(OUT_OF_MEMORY),
        Err(_) => ExitCode::from(NOT_BEGUN),
    }
}
