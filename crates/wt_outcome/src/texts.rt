//! Texts to the sink.
ghost use Rattle.std.specs.Prelude.{◌≡◌, ◌≤◌};
ghost use Rattle.wt_io.specs.Causes.{Rose};
ghost use Rattle.wt_outcome.specs.Outcomes.{Puts};

use crate::stop::Stop;
use wt_io::{Sink, write_all};

/// Puts a whole text.
pub fn put<K: Sink>(sink: &mut K, text: &[u8]) -> Result<(), Stop>
    ensures puts { Puts (Rose (K.faults sink.old) (K.faults sink.new)) (K.written sink.old) (K.written sink.new) text.now result }
    ensures later { K.faults sink.old ≤ K.faults sink.new }
{
    match write_all(sink, text) {
        Ok(()) => Ok(()),
        Err(_) => Err(Stop::Write),
    }
}
