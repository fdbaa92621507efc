//! Real files and standard output, which tell contracts no bytes.
ghost use Rattle.std.specs.Prelude.{◌≡◌, ◌<◌, ◌≤◌, None, length, IfOk, OnErr};

use crate::store::{Sink, SinkFailed, Store, StoreFailed};
use std::alloc::Global;
use std::io::{ErrorKind, Read, Seek, SeekFrom, Write};
use std::rt::Files;
use std::{fs, io};

/// An open file, its name, and the place where its next read begins.
#[derive(Drop)]
struct Opened<F> {
    name: String,
    file: F,
    at: u64,
}

/// The files of a runtime, of which it keeps the last one used open.
#[derive(Drop)]
pub struct FileStore<R: Files> {
    alloc: Global,
    rt: R,
    last: Option<Opened<R::File>>,
    faults: u64,
}

/// Reads what one call gives; a call that a signal interrupts is made again.
fn read_some<F: Read>(file: &mut F, buf: &mut [u8]) -> io::Result<usize>
    ensures { IfOk result (λ n. n ≤ length buf.new) }
{
    for _ in 0..u64::MAX {
        match file.read(buf) {
            Err(error) if error.kind() == ErrorKind::Interrupted => {}
            read => return read,
        }
    }
    Err(io::Error::from(ErrorKind::Interrupted))
}

/// Fills the buffer as far as the file goes, and answers how far that is.
fn fill<F: Read>(file: &mut F, buf: &mut [u8]) -> io::Result<usize>
    ensures { IfOk result (λ n. n ≤ length buf.new) }
{
    let mut filled = 0;
    while filled < buf.len() {
        let n = read_some(file, &mut buf[filled..])?;
        if n == 0 {
            break;
        }
        filled += n;
    }
    Ok(filled)
}

impl<R: Files + Drop> FileStore<R> {
    /// A store of the runtime's files. The allocator is for the name of the file that is kept open.
    pub fn new(alloc: Global, rt: R) -> FileStore<R>
        ensures { result.faults ≡ 0 }
    {
        FileStore {
            alloc,
            rt,
            last: None,
            faults: 0,
        }
    }

    fn open(&self, name: &str) -> io::Result<Opened<R::File>> {
        let file = fs::open(&self.rt, name)?;
        Ok(Opened {
            name: String::from_str(self.alloc, name)?,
            file,
            at: 0,
        })
    }

    fn opened(&mut self, name: &str) -> io::Result<Opened<R::File>>
        ensures { self.new.faults ≡ self.old.faults }
    {
        match self.last.take() {
            Some(last) if last.name.as_str() == name => Ok(last),
            _ => self.open(name),
        }
    }

    fn try_read(&mut self, name: &str, at: u64, buf: &mut [u8]) -> io::Result<usize>
        ensures bound { IfOk result (λ n. n ≤ length buf.new) }
        ensures faults { self.new.faults ≡ self.old.faults }
    {
        let mut opened = self.opened(name)?;
        if opened.at != at {
            opened.file.seek(SeekFrom::Start(at))?;
        }
        let n = fill(&mut opened.file, buf)?;
        opened.at = at.saturating_add(n as u64);
        self.last = Some(opened);
        Ok(n)
    }
}

impl<R: Files + Drop> Store for FileStore<R> {
    ghost told = { λ _ _. None };

    ghost faults = { λ s. s.faults };

    fn read(&mut self, name: &str, at: u64, buf: &mut [u8]) -> Result<usize, StoreFailed> {
        match self.try_read(name, at, buf) {
            Ok(n) => Ok(n),
            Err(_) => {
                self.faults = self.faults.saturating_add(1);
                Err(StoreFailed)
            }
        }
    }
}

/// Writes what one call takes; a call that a signal interrupts is made again.
fn write_some<W: Write>(out: &mut W, piece: &[u8]) -> io::Result<usize>
    ensures { IfOk result (λ n. n ≤ length piece.now) }
{
    for _ in 0..u64::MAX {
        match out.write(piece) {
            Err(error) if error.kind() == ErrorKind::Interrupted => {}
            written => return written,
        }
    }
    Err(io::Error::from(ErrorKind::Interrupted))
}

/// The standard output of a runtime.
#[derive(Drop)]
pub struct StdoutSink<R: Print> {
    rt: R,
    faults: u64,
}

impl<R: Print + Drop> StdoutSink<R> {
    /// A sink that writes to the runtime's standard output, and flushes after each write.
    pub fn new(rt: R) -> StdoutSink<R>
        ensures { result.faults ≡ 0 }
    {
        StdoutSink { rt, faults: 0 }
    }

    fn try_write(&self, piece: &[u8]) -> io::Result<usize>
        ensures { IfOk result (λ n. n ≤ length piece.now) }
    {
        let mut out = io::writer(&self.rt);
        let n = write_some(&mut out, piece)?;
        out.flush()?;
        Ok(n)
    }
}

impl<R: Print + Drop> Sink for StdoutSink<R> {
    ghost written = { λ _. None };

    ghost faults = { λ s. s.faults };

    fn write(&mut self, piece: &[u8]) -> Result<usize, SinkFailed> {
        match self.try_write(piece) {
            Ok(n) if n > 0 => Ok(n),
            _ => {
                self.faults = self.faults.saturating_add(1);
                Err(SinkFailed)
            }
        }
    }
}

#[cfg(test)]
mod tests {
    use super::*;
    use crate::all::{read_all, write_all};
    use std::env;

    #[test]
    fn a_real_file_gives_its_bytes(rt: HostRuntime) -> io::Result<()> {
        let path = env::current_exe(&rt)?;
        let want = fs::read(&rt, path.as_path())?;
        let mut store = FileStore::new(rt.alloc(), rt.clone()?);
        let name = path.as_path().to_str().unwrap_or("");
        match read_all(rt.alloc(), &mut store, name, 1 << 40) {
            Ok(got) => assert!(rt; got.as_slice() == want.as_slice()),
            Err(_) => assert!(rt; false),
        }
        assert!(rt; read_all(rt.alloc(), &mut store, "no/such/file", 1).is_err());
        assert_eq!(rt; store.faults, 1);
        Ok(())
    }

    #[test]
    fn standard_output_takes_a_line(rt: HostRuntime) -> io::Result<()> {
        let mut sink = StdoutSink::new(rt.clone()?);
        assert!(rt; write_all(&mut sink, b"a line on standard output\n").is_ok());
        assert_eq!(rt; sink.faults, 0);
        Ok(())
    }
}
