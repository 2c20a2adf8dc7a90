//! Puts texts into a buffer.

ghost use Rattle.std.specs.Prelude.{◌≡◌, ◌≤◌, ◌++◌, length};
ghost use Rattle.script_text.specs.Pages.{Adds};
ghost use Rattle.library_text.specs.Putting.{Puts, PutsIf, most_short};

use arrayvec::ArrayString;
use script_text::{NoRoom, Page, Spell, Text};
use std::alloc::Global;

/// The most bytes of a short text.
const MOST_SHORT: usize = 96;

/// Why a text was not put into a buffer.
#[derive(Clone, Copy, Debug, PartialEq, Eq)]
pub enum Unput {
    /// It does not fit the buffer.
    NoRoom,
    /// Memory was refused.
    NoMemory,
}

/// Puts bytes at the front of a buffer, if they fit, and returns their number.
#[inline(always)]
pub fn put_bytes(bytes: &[u8], buffer: &mut [u8]) -> Result<usize, Unput>
    ensures { Puts bytes.now result buffer.old buffer.new }
{
    if bytes.len() > buffer.len() {
        return Err(Unput::NoRoom);
    }
    buffer[..bytes.len()].copy_from_slice(bytes);
    Ok(bytes.len())
}

/// Puts the text of a value, and its ending, onto a page.
pub(crate) fn put_ended<T: Spell, P: Page>(value: &T, end: &str, page: &mut P) -> Result<(), NoRoom>
    ensures { Adds P.room result (P.written page.old) (T.spelled value.now ++ end.now) (P.written page.new) }
{
    value.spell(page)?;
    page.put_str(end)
}

/// Puts the text of a value, and its ending, at the front of a buffer, if they fit, and returns their length. A text
/// has at most 262,240 bytes.
pub fn put_text<T: Spell>(
    alloc: Global,
    value: &T,
    end: &str,
    buffer: &mut [u8],
) -> Result<usize, Unput>
    ensures { PutsIf (T.spelled value.now ++ end.now) result buffer.old buffer.new }
{
    let Ok(mut text) = Text::new(alloc) else {
        return Err(Unput::NoMemory);
    };
    match put_ended(value, end, &mut text) {
        Ok(()) => put_bytes(text.as_bytes(), buffer),
        Err(NoRoom) => Err(Unput::NoRoom),
    }
}

/// Like `put_text`, for a text of at most 96 bytes, without taking memory.
#[inline]
pub fn put_short<T: Spell>(value: &T, end: &str, buffer: &mut [u8]) -> Result<usize, Unput>
    requires { length (T.spelled value.now ++ end.now) ≤ most_short }
    ensures { Puts (T.spelled value.now ++ end.now) result buffer.old buffer.new }
{
    let mut text = ArrayString::<MOST_SHORT>::new();
    match put_ended(value, end, &mut text) {
        Ok(()) => put_bytes(text.as_str().as_bytes(), buffer),
        Err(NoRoom) => Err(Unput::NoRoom),
    }
}
