//! The words of a command line: which words are which command, and the first fault of all others.
#![tactic(auto)]

mod command;
mod fault;
mod settings;

pub use command::{Command, read_words};
pub use fault::UsageFault;
