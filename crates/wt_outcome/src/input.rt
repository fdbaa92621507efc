//! What a file holds.
ghost use Rattle.std.specs.Prelude.{◌≡◌, ◌≤◌, ℕ, List, IfOk};
ghost use Rattle.wt_io.specs.Causes.{Rose};
ghost use Rattle.wt_outcome.specs.Inputs.{IsInput};
ghost use Rattle.wt_outcome.specs.Outcomes.{StopsReading};

use crate::stop::Stop;
use std::alloc::Global;
use wt_io::{ReadAllError, Store, read_all};
use wt_value::Bytes;

/// The greatest length of an input file, in bytes.
const LIMIT: u64 = 16_777_216;

/// The bytes of a file, or that there are more than the limit.
#[derive(Debug, Drop)]
pub enum Input {
    Whole(Bytes),
    TooLong,
}

/// Reads a file, which is no fault where it is too long.
pub fn read_input<S: Store>(alloc: Global, store: &mut S, name: &str) -> Result<Input, Stop>
    ensures ok { IfOk result (λ input. IsInput (S.told store.old name.now) input) }
    ensures err { StopsReading (Rose (S.faults store.old) (S.faults store.new)) result }
    ensures later { S.faults store.old ≤ S.faults store.new }
    ensures kept { (other : List ℕ) → S.told store.new other ≡ S.told store.old other }
{
    match read_all(alloc, store, name, LIMIT) {
        Ok(bytes) => Ok(Input::Whole(bytes)),
        Err(ReadAllError::TooLong) => Ok(Input::TooLong),
        Err(ReadAllError::Failed) => Err(Stop::Read),
        Err(ReadAllError::Memory) => Err(Stop::Memory),
    }
}
