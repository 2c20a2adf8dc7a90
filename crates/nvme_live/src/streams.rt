//! The source of a session's lines: a stream that reveals each of its calls.

ghost use Rattle.std.specs.Prelude.{ℕ, List, Option, IfOk, IfErr};
ghost use Rattle.nvme_live.specs.Streams.{Failed, GivesLine, LineCall, ReadsBy};

use crate::reading::read_line;
use std::io;
use std::io::BufRead;

/// A source of lines. Each `BufRead` is one. For contracts, `step` relates the states before and after a call and the
/// line that it returned, and `remaining` is the bytes that are left, if they are known.
pub trait LineSource {
    ghost remaining: { Self → Option (List ℕ) };

    ghost step: { Self → LineCall → Self → Type 0 };

    /// Reads the next line into the vector, over what it has, without the line feed. Of a line of more than 1,048,577
    /// bytes it stores only the first 1,048,577. It returns false at the end of the input.
    ///
    /// # Errors
    ///
    /// If no line could be read to its end. The front of one may have been taken.
    fn take_line(&mut self, line: &mut Vec<u8>) -> io::Result<bool>
        ensures line { IfOk result (λ some. GivesLine (ReadsBy step remaining) some self.old self.new line.new.items) }
        ensures fault { IfErr result (λ _. ReadsBy step remaining self.old Failed self.new) };
}

impl<R: BufRead> LineSource for R {
    ghost use Rattle.nvme_live.specs.Streams.{TakesKnown};

    ghost remaining = { R.remaining };

    ghost step = { λ old call new. TakesKnown (R.remaining old) call (R.remaining new) };

    fn take_line(&mut self, line: &mut Vec<u8>) -> io::Result<bool> {
        read_line(self, line)
    }
}
