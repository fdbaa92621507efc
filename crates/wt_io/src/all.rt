//! Whole names and whole pieces.
ghost use Rattle.std.specs.Prelude.{◌≡◌, [], ◌<◌, ◌≤◌, ◌⊎◌, ℕ, List, length, take, IfOk, IfSome, OnOk, OnErr, IsOk, IsErrOf};
ghost use Rattle.std.specs.Io.KnownBytes.{append_known};
ghost use Rattle.wt_io.specs.Causes.{HasCause, Rose};

use crate::store::{Sink, SinkFailed, Store};
use std::alloc::{AllocError, Global};
use thiserror::Error;
use wt_value::Bytes;

/// Why a name was not read whole.
#[derive(Clone, Copy, Debug, PartialEq, Eq, Error)]
pub enum ReadAllError {
    /// A read failed.
    #[error("a read failed")]
    Failed,
    /// The name has more bytes than the limit.
    #[error("too long")]
    TooLong,
    /// Memory was refused.
    #[error("out of memory")]
    Memory,
}

/// The length of the buffer that a name is read through.
const PIECE: usize = 65_536;

/// Reads a name through the buffer until a read gives no byte. Each turn takes a byte at least, so
/// there are at most `limit + 2` turns.
fn read_through<S: Store>(
    store: &mut S,
    name: &str,
    limit: u64,
    buf: &mut [u8],
    bytes: &mut Vec<u8>,
) -> Result<(), ReadAllError>
    requires empty { bytes.old.items ≡ [] }
    requires room { 0 < length buf.old }
    ensures whole { IfSome (S.told store.old name.now) (λ all. OnOk result (bytes.new.items ≡ all)) }
    ensures within { OnOk result (length bytes.new.items ≤ limit) }
    ensures too_long { IfSome (S.told store.old name.now) (λ all. result ≡ Err ReadAllError.TooLong → limit < length all) }
    ensures failed { result ≡ Err ReadAllError.Failed → Rose (S.faults store.old) (S.faults store.new) }
    ensures later { S.faults store.old ≤ S.faults store.new }
    ensures kept { (other : List ℕ) → S.told store.new other ≡ S.told store.old other }
{
    'pieces: loop {
        let at = bytes.len() as u64;
        let n = store.read(name, at, buf).map_err(|_| ReadAllError::Failed)?;
        if n == 0 {
            return Ok(());
        }
        if n as u64 > limit - at {
            return Err(ReadAllError::TooLong);
        }
        bytes
            .extend_from_slice(&buf[..n])
            .map_err(|_| ReadAllError::Memory)?;
    }
}

/// A buffer of this length. The length is a parameter, since a proof would write a literal one out
/// as a list of so many cells.
fn buffer(alloc: Global, len: usize) -> Result<Vec<u8>, AllocError>
    ensures { IfOk result (λ buf. length buf.items ≡ len) }
{
    vec![in alloc; 0u8; len]
}

/// Reads all bytes of a name, `limit` of them at most.
///
/// Over a store that tells its bytes the answer is the whole bytes of the name where they are at
/// most `limit`, and `TooLong` where they are more, unless a read failed or memory was refused.
pub fn read_all<S: Store>(
    alloc: Global,
    store: &mut S,
    name: &str,
    limit: u64,
) -> Result<Bytes, ReadAllError>
    ensures whole { IfSome (S.told store.old name.now) (λ bytes. IfOk result (λ read. read ≡ bytes)) }
    ensures within { IfOk result (λ read. length read ≤ limit) }
    ensures too_long { IfSome (S.told store.old name.now) (λ bytes. result ≡ Err ReadAllError.TooLong → limit < length bytes) }
    // where the bytes are more than the limit, the answer is one of the errors
    ensures refused { IfSome (S.told store.old name.now) (λ bytes. limit < length bytes →
        (result ≡ Err ReadAllError.TooLong) ⊎ (result ≡ Err ReadAllError.Failed) ⊎ (result ≡ Err ReadAllError.Memory)) }
    ensures failed { result ≡ Err ReadAllError.Failed → Rose (S.faults store.old) (S.faults store.new) }
    ensures later { S.faults store.old ≤ S.faults store.new }
    ensures kept { (other : List ℕ) → S.told store.new other ≡ S.told store.old other }
{
    let mut buf = buffer(alloc, PIECE).map_err(|_| ReadAllError::Memory)?;
    let mut bytes = Vec::new(alloc);
    read_through(store, name, limit, &mut buf, &mut bytes)?;
    Ok(Bytes::from_vec(bytes))
}

/// Writes the whole piece. On `SinkFailed` a prefix of it was written.
pub fn write_all<K: Sink>(sink: &mut K, piece: &[u8]) -> Result<(), SinkFailed>
    ensures ok { OnOk result (K.written sink.new ≡ append_known (K.written sink.old) piece.now) }
    ensures err { OnErr result ((n : ℕ) × (K.written sink.new ≡ append_known (K.written sink.old) (take n piece.now))) }
    ensures cause { HasCause (K.faults sink.old) (K.faults sink.new) result }
    ensures empty { piece.now ≡ [] → IsOk result }
{
    let mut done = 0;
    while done < piece.len() {
        done += sink.write(&piece[done..])?;
    }
    Ok(())
}
