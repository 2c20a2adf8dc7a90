//! Streams whose contracts record their calls: a source of text, and a sink for lines.

ghost use Rattle.std.specs.Prelude.{ℕ, Bool, List, Option, is_ok, length};
ghost use Rattle.std.specs.Io.{ReadsAtMost, WritesAtMost};
ghost use Rattle.std.specs.Io.KnownBytes.{Keeps, ReadConsumes, WriteAppends};
ghost use Rattle.script_text.specs.Streams.{ReadCall, WriteCall, Reads, Writes, come, taken};

use std::io;
use std::io::{ErrorKind, Read, Write};

/// A stream that is read from its front: each `Read` is one. For contracts it defines by `step` which states may follow
/// a call, with its answer, and by `remaining` the bytes that it has left, if these are known.
pub trait Source {
    ghost remaining: { Self → Option (List ℕ) };

    ghost step: { Self → ReadCall → Self → Type 0 };

    /// Reads some bytes into the front of a part, and returns their number: none if there are no more, or the part is
    /// empty.
    fn take_some(&mut self, part: &mut [u8]) -> io::Result<usize>
        ensures step { step self.old (Reads (length part.old) (come result part.new)) self.new }
        ensures bound { ReadsAtMost result part.new }
        ensures bytes { ReadConsumes (remaining self.old) (remaining self.new) result part.new };
}

impl<R: Read> Source for R {
    ghost use Rattle.script_text.specs.Streams.{ReadsSome};

    ghost remaining = { R.remaining };

    ghost step = { ReadsSome R.remaining };

    fn take_some(&mut self, part: &mut [u8]) -> io::Result<usize> {
        self.read(part)
    }
}

/// A stream that is written: each `Write` is one, whose write is repeated if a signal interrupts it. For contracts it
/// defines by `step` which states may follow a call, with its answer, and by `contents` the bytes that it has, if these
/// are known.
pub trait Sink {
    ghost contents: { Self → Option (List ℕ) };

    ghost step: { Self → WriteCall → Self → Type 0 };

    /// Writes some of the first bytes of a part, and returns their number.
    fn give_some(&mut self, part: &[u8]) -> io::Result<usize>
        ensures step { step self.old (Writes part.now (taken result)) self.new }
        ensures bound { WritesAtMost result part.now }
        ensures bytes { WriteAppends (contents self.old) (contents self.new) result part.now };
}

impl<W: Write> Sink for W {
    ghost use Rattle.script_text.specs.Streams.{WritesSome};

    ghost contents = { W.contents };

    ghost step = { WritesSome W.contents };

    fn give_some(&mut self, part: &[u8]) -> io::Result<usize> {
        write_some(self, part)
    }
}

/// One write, repeated if a signal interrupts it.
fn write_some<W: Write>(stream: &mut W, part: &[u8]) -> io::Result<usize>
    ensures bound { WritesAtMost result part.now }
    ensures bytes { WriteAppends (W.contents stream.old) (W.contents stream.new) result part.now }
{
    for _ in 0..u64::MAX {
        match stream.write(part) {
            Ok(count) => return Ok(count),
            Err(error) => {
                if error.kind() != ErrorKind::Interrupted {
                    return Err(error);
                }
            }
        }
    }
    Err(io::Error::from(ErrorKind::Interrupted))
}

/// A stream that is written and flushed: each `Write` is one. For contracts it defines by `flushes` which states may
/// follow a flush that succeeded, and one that failed.
pub trait FlushedSink: Sink {
    ghost flushes: { Self → Bool → Self → Type 0 };

    /// Flushes all that was written.
    fn flush_all(&mut self) -> io::Result<()>
        ensures step { flushes self.old (is_ok result) self.new }
        ensures bytes { Keeps (Self.contents self.old) (Self.contents self.new) };
}

impl<W: Write> FlushedSink for W {
    ghost flushes = { λ old done new. Keeps (W.Write.contents old) (W.Write.contents new) };

    fn flush_all(&mut self) -> io::Result<()> {
        self.flush()
    }
}
