//! Reads a session's lines, one at a time.

ghost use Rattle.std.specs.Prelude.{◌≡◌, ◌≢◌, ◌≤◌, ◌<◌, ◌+◌, ◌++◌, ◌∷◌, [], IfOk, IfErr, OnOk, length, take, vec_len};
ghost use Rattle.std.specs.List.{prefix_len};
ghost use Rattle.script_text.specs.Lines.{is_of_line};
ghost use Rattle.nvme_live.specs.Taking.{IsCut, ReadsLine, TakesFront, TakesPart, kept};

use live_text::LINE_LIMIT;
use std::alloc::AllocError;
use std::io;
use std::io::{BufRead, ErrorKind};

/// The part of a line at the front of the input.
#[derive(Clone, Copy, Debug, PartialEq, Eq)]
pub(crate) enum Part {
    /// The line continues after it.
    Middle,
    /// It has the line's end.
    Last,
    /// There was nothing left.
    Nothing,
}

/// The number of bytes of a line at the front of some bytes.
fn line_len(bytes: &[u8]) -> usize
    ensures { result ≡ prefix_len is_of_line bytes.now }
{
    bytes.iter().take_while(|byte| **byte != b'\n').count()
}

/// The part of a line at the front of some bytes: its kind, and its length without and with the line feed.
fn cut(bytes: &[u8]) -> (Part, usize, usize)
    ensures { IsCut result.0 bytes.now result.1 result.2 }
{
    let len = line_len(bytes);
    if len < bytes.len() {
        (Part::Last, len, len + 1)
    } else if len == 0 {
        (Part::Nothing, 0, 0)
    } else {
        (Part::Middle, len, len)
    }
}

/// Stores bytes of a line, up to one byte more than a line may have.
fn keep(line: &mut Vec<u8>, bytes: &[u8]) -> Result<(), AllocError>
    requires { vec_len line.old ≤ 1048577 }
    ensures room { vec_len line.new ≤ 1048577 }
    ensures kept { OnOk result (line.new.items ≡ kept (line.old.items ++ bytes.now)) }
{
    let room = (LINE_LIMIT + 1 - line.len()).min(bytes.len());
    line.extend_from_slice(&bytes[..room])
}

/// Takes the bytes of a line that the reader has at hand.
fn take_part<R: BufRead>(reader: &mut R, line: &mut Vec<u8>) -> io::Result<Part>
    requires { vec_len line.old ≤ 1048577 }
    ensures room { vec_len line.new ≤ 1048577 }
    ensures part { IfOk result (λ part. TakesPart part (R.remaining reader.old) (R.remaining reader.new) line.old.items
        line.new.items) }
    ensures fault { IfErr result (λ _. TakesFront (R.remaining reader.old) (R.remaining reader.new)) }
{
    let available = match reader.fill_buf() {
        Ok(available) => available,
        Err(fault) => return Err(fault),
    };
    let (part, len, taken) = cut(available);
    if keep(line, &available[..len]).is_err() {
        return Err(io::Error::from(ErrorKind::OutOfMemory));
    }
    reader.consume(taken);
    Ok(part)
}

/// Reads the next line. It stores at most one byte more than a line may have, and skips the rest. Returns false at the
/// end of the input.
///
/// # Errors
///
/// Those of the reader; `Other` if the line has too many parts to count; and `OutOfMemory` if memory for it is refused,
/// which does not occur if the line's vector has capacity for 1,048,577 bytes. The front of the line is taken then.
pub fn read_line<R: BufRead>(reader: &mut R, line: &mut Vec<u8>) -> io::Result<bool>
    ensures line { IfOk result (λ some. ReadsLine some (R.remaining reader.old) (R.remaining reader.new)
        line.new.items) }
    ensures fault { IfErr result (λ _. TakesFront (R.remaining reader.old) (R.remaining reader.new)) }
{
    line.clear();
    let mut some = false;
    for _ in 0..u64::MAX {
        match take_part(reader, line) {
            Ok(Part::Middle) => some = true,
            Ok(Part::Last) => return Ok(true),
            Ok(Part::Nothing) => return Ok(some),
            Err(fault) => return Err(fault),
        }
    }
    Err(io::Error::from(ErrorKind::Other))
}
