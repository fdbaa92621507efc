//! What a command has to answer, and how it may end short of it: texts to the sink, files from the store, and why a command stops.
#![tactic(auto)]

mod input;
mod stop;
mod texts;

pub use input::{Input, read_input};
pub use stop::Stop;
pub use texts::put;
