//! A store and a sink in memory, which fail where they are told to.
ghost use Rattle.std.specs.Prelude.{◌≡◌, ◌+◌, ◌-◌, ◌<◌, ◌≤◌, ◌⊎◌, ◌↔◌, min, ℕ, List, [], length, take, drop, Some, None, IfOk, IfSome, OnErr, IsErr, IsNone, Contains, vec_capacity, vec_len, IsTrue};
ghost use Rattle.std.specs.Option.{option_map};
ghost use Rattle.wt_io.specs.Bytes.{IsPartAt};

use crate::store::{Sink, SinkFailed, Store, StoreFailed};
use std::alloc::{AllocError, Global};
use wt_value::{Bytes, Seq};

/// A name and its bytes.
#[derive(Debug, Drop)]
pub struct MemFile {
    pub name: String,
    pub bytes: Bytes,
}

/// Files in memory; of files with one name the first counts.
pub type Files = Seq<MemFile>;

/// The numbers of the calls that are to fail, the first call being 1.
pub type CallList = Seq<u64>;

/// Files in memory. A read gives at most `most` bytes; it fails where the number of its call is in
/// `fails` and where there is no such name, and nowhere else.
#[derive(Drop)]
pub struct MemStore {
    pub files: Files,
    pub most: usize,
    pub fails: CallList,
    pub calls: u64,
    pub faults: u64,
    ghost gives: { 0 < most },
}

/// The bytes from place `at` on.
fn rest_from(bytes: &[u8], at: u64) -> &[u8]
    ensures { result.now ≡ drop at bytes.now }
{
    if at < bytes.len() as u64 {
        &bytes[at as usize..]
    } else {
        &[]
    }
}

/// Copies what lies from place `at` on to the front of the buffer, at most `most` bytes.
fn copy_part(bytes: &[u8], at: u64, most: usize, buf: &mut [u8]) -> usize
    requires some { 0 < most }
    requires room { 0 < length buf.old }
    ensures bound { result ≤ length buf.new }
    ensures at_most { result ≤ most }
    ensures part { IsPartAt bytes.now at result buf.new }
{
    let rest = rest_from(bytes, at);
    let n = rest.len().min(most).min(buf.len());
    buf[..n].copy_from_slice(&rest[..n]);
    n
}

/// Whether the call of this number is to fail.
fn is_listed(fails: &CallList, call: u64) -> bool
    ensures { IsTrue result ↔ Contains fails.now call }
{
    fails.as_slice().contains(&call)
}

impl MemStore {
    ghost use Rattle.wt_io.specs.Memory.{file_bytes};

    /// A store of these files; `most` is 1 or more.
    pub fn new(files: Files, most: usize, fails: CallList) -> MemStore
        requires { 0 < most }
        ensures files { result.files ≡ files }
        ensures most { result.most ≡ most }
        ensures fails { result.fails ≡ fails }
        ensures calls { result.calls ≡ 0 }
        ensures faults { result.faults ≡ 0 }
    {
        MemStore {
            files,
            most,
            fails,
            calls: 0,
            faults: 0,
        }
    }

    fn find<'a>(files: &'a [MemFile], name: &str) -> Option<&'a MemFile>
        ensures { option_map (λ f. f.now.bytes) result ≡ file_bytes files.now name.now }
    {
        files.iter().find(|file| file.name.as_str() == name)
    }
}

impl Store for MemStore {
    ghost use Rattle.std.specs.Prelude.{◌≡◌, ◌+◌, ◌-◌, ◌^◌, ◌<◌, ◌≤◌, ◌⊎◌, ◌↔◌, min, ℕ, List, length, IfOk, IfSome, OnOk, OnErr, IsErr, IsNone, Contains};
    ghost use Rattle.wt_io.specs.Causes.{HasCause, one_more};
    ghost use Rattle.wt_io.specs.Bytes.{IsPartAt};
    ghost use Rattle.wt_io.specs.Memory.{file_bytes, ReadFails};

    ghost told = { λ s name. file_bytes s.files name };

    ghost faults = { λ s. s.faults };

    fn read(&mut self, name: &str, at: u64, buf: &mut [u8]) -> Result<usize, StoreFailed>
        requires { 0 < length buf.old }
        ensures bound { IfOk result (λ n. n ≤ length buf.new) }
        ensures bytes { IfSome (file_bytes self.old.files name.now) (λ bytes. IfOk result (λ n. IsPartAt bytes at n buf.new)) }
        ensures kept { (other : List ℕ) → file_bytes self.new.files other ≡ file_bytes self.old.files other }
        ensures cause { HasCause self.old.faults self.new.faults result }
        ensures most { IfOk result (λ n. n ≤ self.old.most) }
        ensures calls { self.new.calls ≡ one_more self.old.calls }
        ensures exactly { IsErr result ↔ ReadFails self.old.fails self.new.calls self.old.files name.now }
        ensures counted { OnErr result (self.new.faults ≡ one_more self.old.faults) }
        ensures not_counted { OnOk result (self.new.faults ≡ self.old.faults) }
        ensures same { (self.new.files ≡ self.old.files) × (self.new.most ≡ self.old.most) × (self.new.fails ≡ self.old.fails) }
    {
        self.calls = self.calls.saturating_add(1);
        if is_listed(&self.fails, self.calls) {
            self.faults = self.faults.saturating_add(1);
            return Err(StoreFailed);
        }
        let Some(file) = MemStore::find(self.files.as_slice(), name) else {
            self.faults = self.faults.saturating_add(1);
            return Err(StoreFailed);
        };
        Ok(copy_part(file.bytes.as_slice(), at, self.most, buf))
    }
}

/// Bytes in memory. A write takes its whole piece; it fails where the number of its call is in
/// `fails` and where the bytes would be more than `room`, and nowhere else.
#[derive(Drop)]
pub struct MemSink {
    pub bytes: Vec<u8>,
    pub room: usize,
    pub fails: CallList,
    pub calls: u64,
    pub faults: u64,
    ghost roomy: { room ≤ vec_capacity bytes },
    ghost fits: { vec_len bytes ≤ room },
}

impl MemSink {
    /// An empty sink. It takes the memory of the room now, so that no write takes any.
    pub fn new(alloc: Global, room: usize, fails: CallList) -> Result<MemSink, AllocError>
        ensures bytes { IfOk result (λ sink. sink.bytes.items ≡ []) }
        ensures room { IfOk result (λ sink. sink.room ≡ room) }
        ensures fails { IfOk result (λ sink. sink.fails ≡ fails) }
        ensures counts { IfOk result (λ sink. (sink.calls ≡ 0) × (sink.faults ≡ 0)) }
    {
        Ok(MemSink {
            bytes: Vec::with_capacity(alloc, room)?,
            room,
            fails,
            calls: 0,
            faults: 0,
        })
    }

    /// What was written.
    pub fn as_bytes(&self) -> &[u8]
        ensures { result.now ≡ self.now.bytes.items }
    {
        &self.bytes
    }
}

impl Sink for MemSink {
    ghost use Rattle.std.specs.Prelude.{◌≡◌, ◌+◌, ◌-◌, ◌^◌, ◌<◌, ◌≤◌, ◌⊎◌, ◌↔◌, min, ℕ, List, length, take, Some, IfOk, OnOk, OnErr, IsErr, Contains};
    ghost use Rattle.std.specs.Io.KnownBytes.{append_known};
    ghost use Rattle.wt_io.specs.Causes.{HasCause, one_more};
    ghost use Rattle.wt_io.specs.Memory.{WriteFails};

    ghost written = { λ s. Some s.bytes.items };

    ghost faults = { λ s. s.faults };

    fn write(&mut self, piece: &[u8]) -> Result<usize, SinkFailed>
        requires { 0 < length piece.now }
        ensures bound { IfOk result (λ n. (0 < n) × (n ≤ length piece.now)) }
        ensures ok { IfOk result (λ n. Some self.new.bytes.items ≡ append_known (Some self.old.bytes.items) (take n piece.now)) }
        ensures err { OnErr result (Some self.new.bytes.items ≡ Some self.old.bytes.items) }
        ensures cause { HasCause self.old.faults self.new.faults result }
        ensures whole { IfOk result (λ n. n ≡ length piece.now) }
        ensures calls { self.new.calls ≡ one_more self.old.calls }
        ensures exactly { IsErr result ↔ WriteFails self.old.fails self.new.calls self.old.room self.old.bytes.items piece.now }
        ensures counted { OnErr result (self.new.faults ≡ one_more self.old.faults) }
        ensures not_counted { OnOk result (self.new.faults ≡ self.old.faults) }
        ensures same { (self.new.room ≡ self.old.room) × (self.new.fails ≡ self.old.fails) }
    {
        self.calls = self.calls.saturating_add(1);
        if is_listed(&self.fails, self.calls) || self.room - self.bytes.len() < piece.len() {
            self.faults = self.faults.saturating_add(1);
            return Err(SinkFailed);
        }
        match self.bytes.extend_from_slice(piece) {
            Ok(()) => Ok(piece.len()),
            Err(_) => unreachable!(),
        }
    }
}

#[cfg(test)]
mod tests {
    use super::*;
    use crate::all::{ReadAllError, read_all, write_all};

    fn calls(alloc: Global, numbers: &[u64]) -> Result<CallList, AllocError> {
        Ok(CallList::from_vec(Vec::from_slice(alloc, numbers)?))
    }

    fn store(alloc: Global, most: usize, fails: &[u64]) -> Result<MemStore, AllocError> {
        let mut files = Files::new(alloc);
        files.push(MemFile {
            name: String::from_str(alloc, "five")?,
            bytes: Bytes::from_vec(Vec::from_slice(alloc, b"12345")?),
        })?;
        Ok(MemStore::new(files, most.max(1), calls(alloc, fails)?))
    }

    #[test]
    fn names_are_read_whole(rt: HostRuntime) -> Result<(), AllocError> {
        let alloc = rt.alloc();
        // the limit, the most bytes a read gives, the calls that fail; the length, calls and faults
        let rows: [(u64, usize, &[u64], Result<usize, ReadAllError>, u64, u64); 6] = [
            (5, 65_536, &[], Ok(5), 2, 0),
            (5, 2, &[], Ok(5), 4, 0),
            (4, 65_536, &[], Err(ReadAllError::TooLong), 1, 0),
            (0, 1, &[], Err(ReadAllError::TooLong), 1, 0),
            (9, 2, &[3, 4], Err(ReadAllError::Failed), 3, 1),
            (9, 2, &[5], Ok(5), 4, 0),
        ];
        for (limit, most, fails, want, made, faults) in rows {
            let mut store = store(alloc, most, fails)?;
            let read = read_all(alloc, &mut store, "five", limit).map(|bytes| bytes.len());
            assert!(rt; read == want);
            assert_eq!(rt; store.calls, made);
            assert_eq!(rt; store.faults, faults);
        }
        let mut store = store(alloc, 1, &[])?;
        assert!(rt; read_all(alloc, &mut store, "six", 9).is_err() && store.faults == 1);
        Ok(())
    }

    #[test]
    fn pieces_are_written_whole(rt: HostRuntime) -> Result<(), AllocError> {
        let alloc = rt.alloc();
        let mut sink = MemSink::new(alloc, 5, calls(alloc, &[2])?)?;
        assert!(rt; write_all(&mut sink, b"").is_ok() && sink.calls == 0);
        assert!(rt; write_all(&mut sink, b"123").is_ok());
        assert!(rt; write_all(&mut sink, b"4").is_err() && sink.faults == 1);
        assert!(rt; write_all(&mut sink, b"45").is_ok());
        assert!(rt; write_all(&mut sink, b"6").is_err() && sink.faults == 2);
        assert!(rt; sink.as_bytes() == b"12345".as_slice());
        Ok(())
    }
}
