//! The result of putting a text into a buffer, for C.

ghost use Rattle.std.specs.Prelude.{◌≡◌};
ghost use Rattle.nvme_library.specs.Written.{line_written, text_written, without_text};

use crate::codes;
use library_text::Unput;

/// The result of putting a text into a buffer.
#[repr(C)]
#[derive(Clone, Copy)]
pub struct Written {
    /// The length in bytes of the text at the front of the buffer; 0 if there is none.
    pub length: usize,
    /// `OK`, or why there is none; the buffer is then unchanged.
    pub what: u32,
}

impl Written {
    /// No text, for this reason.
    #[inline(always)]
    pub(crate) fn without(what: u32) -> Self
        ensures { result ≡ without_text what }
    {
        Written { length: 0, what }
    }

    /// The result for a text.
    #[inline(always)]
    pub(crate) fn of(put: Result<usize, Unput>) -> Self
        ensures { result ≡ text_written put }
    {
        match put {
            Ok(length) => Written {
                length,
                what: codes::OK,
            },
            Err(Unput::NoRoom) => Written::without(codes::NO_ROOM),
            Err(Unput::NoMemory) => Written::without(codes::NO_MEMORY),
        }
    }

    /// The result for a line, if there is one.
    #[inline(always)]
    pub(crate) fn of_line(put: Option<Result<usize, Unput>>) -> Self
        ensures { result ≡ line_written put }
    {
        match put {
            Some(put) => Written::of(put),
            None => Written::without(codes::NO_LINE),
        }
    }
}
