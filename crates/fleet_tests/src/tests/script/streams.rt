//! Streams that fail at a given call.

use std::alloc::Global;
use std::io;
use std::io::{Read, Write};

/// The error of a stream that fails.
fn broken() -> io::Error {
    io::Error::from(io::ErrorKind::BrokenPipe)
}

/// Gives its text a few bytes a call. The call with this number, counted from 0, fails, and so do all later ones.
#[derive(Drop)]
pub struct FailingReader<'a> {
    text: &'a [u8],
    /// The number of calls so far.
    pub calls: usize,
    failing: usize,
}

impl<'a> FailingReader<'a> {
    pub(crate) fn new(text: &'a [u8], failing: usize) -> FailingReader<'a> {
        FailingReader {
            text,
            calls: 0,
            failing,
        }
    }
}

impl<'a> Read for FailingReader<'a> {
    fn read(&mut self, buf: &mut [u8]) -> io::Result<usize> {
        self.calls = self.calls.saturating_add(1);
        if self.calls > self.failing {
            return Err(broken());
        }
        let count = self.text.len().min(buf.len()).min(7);
        let (given, rest) = self.text.split_at(count);
        buf[..count].copy_from_slice(given);
        self.text = rest;
        Ok(count)
    }
}

/// Keeps what is written. The write or flush with this number, counted from 0, fails, and so do all later ones.
#[derive(Drop)]
pub struct FailingWriter {
    pub kept: Vec<u8>,
    /// The number of writes so far.
    pub writes: usize,
    flushes: usize,
    failing_write: Option<usize>,
    failing_flush: Option<usize>,
}

impl FailingWriter {
    pub(crate) fn at_write(alloc: Global, failing: usize) -> FailingWriter {
        FailingWriter {
            kept: Vec::new(alloc),
            writes: 0,
            flushes: 0,
            failing_write: Some(failing),
            failing_flush: None,
        }
    }

    pub(crate) fn at_flush(alloc: Global, failing: usize) -> FailingWriter {
        FailingWriter {
            kept: Vec::new(alloc),
            writes: 0,
            flushes: 0,
            failing_write: None,
            failing_flush: Some(failing),
        }
    }
}

impl Write for FailingWriter {
    fn write(&mut self, buf: &[u8]) -> io::Result<usize> {
        self.writes = self.writes.saturating_add(1);
        if self
            .failing_write
            .is_some_and(|failing| failing < self.writes)
        {
            return Err(broken());
        }
        self.kept.extend_from_slice(buf)?;
        Ok(buf.len())
    }

    fn flush(&mut self) -> io::Result<()> {
        if self
            .failing_flush
            .is_some_and(|failing| failing <= self.flushes)
        {
            return Err(broken());
        }
        self.flushes = self.flushes.saturating_add(1);
        Ok(())
    }
}
