//! A buffer before the output of a program.

ghost use Rattle.std.specs.Prelude.{◌≡◌, ◌≤◌, [], IfErr, IfOk, OnOk, length};
ghost use Rattle.std.specs.Io.KnownBytes.{Keeps};
ghost use Rattle.script_text.specs.Writing.{Broken, IsSent, IsWritten, Sent};

use crate::held::{Held, MOST_HELD};
use script_text::{FlushedSink, Sink, write_front};
use std::io;
use std::marker::Model;

/// Writes to an output through a buffer. When bytes do not fit the buffer, those in it are written to the output first,
/// in order; `flush` writes those that are left. It makes no write after one that fails.
#[derive(Drop)]
pub(crate) struct Buffered<'o, 'h, O> {
    pub(crate) output: &'o mut O,
    pub(crate) held: &'h mut Held,
}

impl<'o, 'h, O> Model for Buffered<'o, 'h, O> {
    ghost use Rattle.nvme_script.specs.Buffering.{Buffer};

    ghost Value = { Buffer O };

    ghost view = { λ b. record { output = b.output.now; held = b.held.now; name = b.output.ghost_name } };
}

impl<O: Sink> Buffered<'_, '_, O> {
    ghost use Rattle.nvme_script.specs.Buffering.{buffer_contents, most_held};

    /// Writes the bytes held back to the output. Those that could not be written stay.
    fn pass_on(&mut self) -> io::Result<()>
        ensures name { self.new.name ≡ self.old.name }
        ensures bytes { Keeps (buffer_contents O.contents self.old) (buffer_contents O.contents self.new) }
        ensures few { length self.new.held ≤ most_held }
        ensures writes { IsWritten O.step self.old.held self.old.output result self.new.output }
        ensures ok { OnOk result (self.new.held ≡ []) }
    {
        let (written, outcome) = write_front(self.output, self.held.as_bytes());
        self.held.remove_front(written);
        outcome
    }
}

impl<O: FlushedSink> Buffered<'_, '_, O> {
    ghost use Rattle.nvme_script.specs.Buffering.{buffer_contents, most_held};

    /// Writes the bytes held back to the output, and flushes it.
    pub(crate) fn flush(&mut self) -> io::Result<()>
        ensures name { self.new.name ≡ self.old.name }
        ensures bytes { Keeps (buffer_contents O.contents self.old) (buffer_contents O.contents self.new) }
        ensures few { length self.new.held ≤ most_held }
        ensures ok { OnOk result (self.new.held ≡ []) }
        ensures sent { IfOk result (λ _. IsSent O.step O.flushes self.old.output (Sent self.old.held) self.new.output) }
        ensures broken { IfErr result (λ _.
            IsSent O.step O.flushes self.old.output (Broken self.old.held) self.new.output) }
    {
        self.pass_on()?;
        self.output.flush_all()
    }
}

impl<O: Sink> Sink for Buffered<'_, '_, O> {
    ghost use Rattle.nvme_script.specs.Buffering.{buffer_contents, StepsBuffer};

    ghost contents = { buffer_contents O.contents };

    ghost step = { StepsBuffer O.step O.contents };

    fn give_some(&mut self, part: &[u8]) -> io::Result<usize> {
        if part.len() <= MOST_HELD - self.held.as_bytes().len() {
            self.held.add(part);
            return Ok(part.len());
        }
        self.pass_on()?;
        if part.len() <= MOST_HELD {
            self.held.add(part);
            return Ok(part.len());
        }
        self.output.give_some(part)
    }
}
