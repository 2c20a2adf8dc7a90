//! Writes bytes.

ghost use Rattle.std.specs.Prelude.{◌≡◌, ◌<◌, OnOk, OnErr, length, take};
ghost use Rattle.std.specs.Io.KnownBytes.{Appends};
ghost use Rattle.script_text.specs.Writing.{Cuts, IsWritten};

use crate::stream::Sink;
use std::io;
use std::io::ErrorKind;

/// Writes bytes, each write all that are left, up to the last of them or to a write that fails, and returns the number
/// that was written. It makes no write after one that fails.
pub fn write_front<W: Sink>(writer: &mut W, bytes: &[u8]) -> (usize, io::Result<()>)
    ensures writes { IsWritten W.step bytes.now writer.old result.1 writer.new }
    ensures bytes { Appends (W.contents writer.old) (W.contents writer.new) (take result.0 bytes.now) }
    ensures all { OnOk result.1 (result.0 ≡ length bytes.now) }
    ensures part { OnErr result.1 (result.0 < length bytes.now) }
{
    let mut written = 0;
    while written < bytes.len() {
        match writer.give_some(&bytes[written..]) {
            Ok(0) => return (written, Err(io::Error::from(ErrorKind::WriteZero))),
            Ok(count) => written += count,
            Err(error) => return (written, Err(error)),
        }
    }
    (written, Ok(()))
}

/// Writes all bytes: each write passes all that are left. Makes no write after one that fails.
///
/// # Errors
///
/// Errors of the writer, and `WriteZero` if it takes no byte. Only a prefix of the bytes was then written.
pub fn write_whole<W: Sink>(writer: &mut W, bytes: &[u8]) -> io::Result<()>
    ensures writes { IsWritten W.step bytes.now writer.old result writer.new }
    ensures ok { OnOk result (Appends (W.contents writer.old) (W.contents writer.new) bytes.now) }
    ensures err { OnErr result (Cuts (W.contents writer.old) (W.contents writer.new) bytes.now) }
{
    write_front(writer, bytes).1
}
