//! Reads the text of a script.

ghost use Rattle.std.specs.Prelude.{◌≤◌, IfOk, IfErr, Ok, Err, vec_len};
ghost use Rattle.script_text.specs.Reading.{longest, IsRead};

use crate::stream::Source;
use std::alloc::Global;

/// Why a text was not read to its end.
#[derive(Clone, Copy, Debug, PartialEq, Eq)]
pub enum ReadFault {
    /// It has more than 4,194,304 bytes.
    TooLong,
    /// Memory was refused.
    NoMemory,
    /// The reader failed.
    Read,
}

/// The longest script, in bytes.
const LONGEST: usize = 4_194_304;

/// Reads a text to its end, by reads of at most 4,096 bytes. It makes no read after the end, after a read that fails,
/// or after byte 4,194,305.
///
/// # Errors
///
/// `TooLong` if it has more than 4,194,304 bytes, one of which is read after those; `NoMemory` if memory is refused;
/// `Read` if the reader fails.
pub fn read_text<R: Source>(alloc: Global, reader: &mut R) -> Result<Vec<u8>, ReadFault>
    ensures length { IfOk result (λ text. vec_len text ≤ longest) }
    ensures text { IfOk result (λ text. IsRead R.step R.remaining reader.old (Ok text.items) reader.new) }
    ensures fault { IfErr result (λ fault. IsRead R.step R.remaining reader.old (Err fault) reader.new) }
{
    let mut text = Vec::new(alloc);
    let mut chunk = [0; 4096];
    while text.len() <= LONGEST {
        let room = (LONGEST + 1 - text.len()).min(chunk.len());
        let Ok(count) = reader.take_some(&mut chunk[..room]) else {
            return Err(ReadFault::Read);
        };
        if count == 0 {
            return Ok(text);
        }
        if text.extend_from_slice(&chunk[..count]).is_err() {
            return Err(ReadFault::NoMemory);
        }
    }
    Err(ReadFault::TooLong)
}
