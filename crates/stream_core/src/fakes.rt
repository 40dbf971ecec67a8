//! A reader and a writer for tests, which may fail in mid-stream. Contracts see the bytes of both. There are other
//! streams, whose bytes no contract sees; clauses about bytes say nothing of those.
ghost use Rattle.std.specs.Prelude.{◌≡◌, false, true, []};

use std::alloc::Global;
use std::io;
use std::io::{ErrorKind, Read, Write};

/// A reader that gives its bytes, as many at each call as are asked for, and then ends or fails. It may fail at the
/// first call, too.
#[derive(Drop)]
pub struct FakeReader<'a> {
    rest: &'a [u8],
    fails_first: bool,
    fails_last: bool,
    calls: usize,
}

impl<'a> FakeReader<'a> {
    /// A reader that gives the bytes and then ends.
    pub fn ending(bytes: &'a [u8]) -> FakeReader<'a>
        ensures rest { result.rest.now ≡ bytes.now }
        ensures fails_first { result.fails_first ≡ false }
        ensures fails_last { result.fails_last ≡ false }
        ensures calls { result.calls ≡ 0 }
    {
        FakeReader {
            rest: bytes,
            fails_first: false,
            fails_last: false,
            calls: 0,
        }
    }

    /// A reader that gives the bytes and then fails.
    pub fn failing(bytes: &'a [u8]) -> FakeReader<'a>
        ensures rest { result.rest.now ≡ bytes.now }
        ensures fails_first { result.fails_first ≡ false }
        ensures fails_last { result.fails_last ≡ true }
        ensures calls { result.calls ≡ 0 }
    {
        FakeReader {
            rest: bytes,
            fails_first: false,
            fails_last: true,
            calls: 0,
        }
    }

    /// A reader that fails at the first call, and then gives the bytes and ends.
    pub fn failing_once(bytes: &'a [u8]) -> FakeReader<'a>
        ensures rest { result.rest.now ≡ bytes.now }
        ensures fails_first { result.fails_first ≡ true }
        ensures fails_last { result.fails_last ≡ false }
        ensures calls { result.calls ≡ 0 }
    {
        FakeReader {
            rest: bytes,
            fails_first: true,
            fails_last: false,
            calls: 0,
        }
    }

    /// How many calls of `read` there were, failed ones too.
    pub fn calls(&self) -> usize
        ensures { result ≡ self.now.calls }
    {
        self.calls
    }
}

impl Read for FakeReader<'_> {
    ghost use Rattle.std.specs.Prelude.{Some};

    ghost remaining = { λ reader. Some reader.rest.now };

    fn read(&mut self, buf: &mut [u8]) -> io::Result<usize> {
        // form: saturating spares a requirement
        self.calls = self.calls.saturating_add(1);
        if self.fails_first {
            self.fails_first = false;
            return Err(io::Error::from(ErrorKind::Other));
        }
        if self.rest.is_empty() && self.fails_last {
            return Err(io::Error::from(ErrorKind::Other));
        }
        let count = self.rest.len().min(buf.len());
        let (front, rest) = self.rest.split_at(count);
        buf[..count].copy_from_slice(front);
        self.rest = rest;
        Ok(count)
    }
}

/// A writer that takes `room` bytes, at most `most` at a call, and then fails. If `recovers`, it fails once, and then
/// has room for all further bytes; else it fails at each later call. A call without bytes fails, too.
#[derive(Drop)]
pub struct FakeWriter {
    taken: Vec<u8>,
    room: usize,
    most: usize,
    recovers: bool,
}

impl FakeWriter {
    /// A writer that takes `room` bytes and then fails.
    pub fn new(alloc: Global, room: usize) -> FakeWriter
        ensures taken { result.taken.items ≡ [] }
        ensures room { result.room ≡ room }
    {
        FakeWriter {
            taken: Vec::new(alloc),
            room,
            most: usize::MAX,
            recovers: false,
        }
    }

    /// A writer that takes at most `most` bytes at a call, and has room for all.
    pub fn taking(alloc: Global, most: usize) -> FakeWriter
        ensures taken { result.taken.items ≡ [] }
        ensures most { result.most ≡ most }
    {
        FakeWriter {
            taken: Vec::new(alloc),
            room: usize::MAX,
            most,
            recovers: false,
        }
    }

    /// A writer that takes `room` bytes, fails once, and then takes all others.
    pub fn failing_once(alloc: Global, room: usize) -> FakeWriter
        ensures taken { result.taken.items ≡ [] }
        ensures room { result.room ≡ room }
        ensures recovers { result.recovers ≡ true }
    {
        FakeWriter {
            taken: Vec::new(alloc),
            room,
            most: usize::MAX,
            recovers: true,
        }
    }

    /// The bytes that were taken.
    pub fn taken(&self) -> &[u8]
        ensures { result.now ≡ self.now.taken.items }
    {
        self.taken.as_slice()
    }
}

impl Write for FakeWriter {
    ghost use Rattle.std.specs.Prelude.{Some};

    ghost contents = { λ writer. Some writer.taken.items };

    fn write(&mut self, buf: &[u8]) -> io::Result<usize> {
        let count = self.room.min(self.most).min(buf.len());
        if count == 0 {
            if self.recovers {
                self.room = usize::MAX;
            }
            return Err(io::Error::from(ErrorKind::Other));
        }
        self.taken.extend_from_slice(&buf[..count])?;
        self.room -= count;
        Ok(count)
    }

    fn flush(&mut self) -> io::Result<()> {
        Ok(())
    }
}
