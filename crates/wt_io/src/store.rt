//! A store of named bytes, and a sink of bytes.
ghost use Rattle.std.specs.Prelude.{◌≡◌, ◌<◌, ◌≤◌, ℕ, List, length, take, IfOk, IfSome, OnErr};
ghost use Rattle.std.specs.declared.option.Option.{Option};
ghost use Rattle.std.specs.Io.KnownBytes.{append_known};
ghost use Rattle.wt_io.specs.Causes.{HasCause};
ghost use Rattle.wt_io.specs.Bytes.{IsPartAt};

use thiserror::Error;

/// A read failed.
#[derive(Clone, Copy, Debug, PartialEq, Eq, Error)]
#[error("a read failed")]
pub struct StoreFailed;

/// A write failed.
#[derive(Clone, Copy, Debug, PartialEq, Eq, Error)]
#[error("a write failed")]
pub struct SinkFailed;

/// Named bytes. A store in memory tells them to contracts, real files do not.
pub trait Store {
    /// The bytes of a name, where the store tells them.
    ghost told: { Self → List ℕ → Option (List ℕ) };

    /// How often a read has failed. The count never falls.
    ghost faults: { Self → ℕ };

    /// Reads bytes of the name from place `at` on into the front of the buffer, and answers their
    /// number, which is 0 exactly at or past the end. No read changes the bytes of any name.
    fn read(&mut self, name: &str, at: u64, buf: &mut [u8]) -> Result<usize, StoreFailed>
        requires { 0 < length buf.old }
        ensures bound { IfOk result (λ n. n ≤ length buf.new) }
        ensures bytes { IfSome (told self.old name.now) (λ bytes. IfOk result (λ n. IsPartAt bytes at n buf.new)) }
        ensures kept { (other : List ℕ) → told self.new other ≡ told self.old other }
        ensures cause { HasCause (faults self.old) (faults self.new) result };
}

/// Takes bytes. A sink in memory tells contracts what was written, standard output does not.
pub trait Sink {
    /// What was written, where the sink tells it.
    ghost written: { Self → Option (List ℕ) };

    /// How often a write has failed. The count never falls.
    ghost faults: { Self → ℕ };

    /// Appends bytes from the front of the piece, and answers their number, at least 1.
    fn write(&mut self, piece: &[u8]) -> Result<usize, SinkFailed>
        requires { 0 < length piece.now }
        ensures bound { IfOk result (λ n. (0 < n) × (n ≤ length piece.now)) }
        ensures ok { IfOk result (λ n. written self.new ≡ append_known (written self.old) (take n piece.now)) }
        ensures err { OnErr result (written self.new ≡ written self.old) }
        ensures cause { HasCause (faults self.old) (faults self.new) result };
}
