//! Answers to Fabrics commands.

ghost use Rattle.std.specs.Prelude.{◌≡◌, ◌<◌};
ghost use Rattle.nvme_fabrics.specs.Answers as def;

use nvme_wire::Status;

/// The fields of a completion that an answer sets.
#[derive(Clone, Copy)]
pub struct Answer {
    pub status: Status,
    /// Double word 0.
    pub dw0: u32,
}

impl Answer {
    /// A status, with zero as double word 0.
    #[inline(always)]
    pub(crate) fn of(sct: u8, sc: u8) -> Answer
        ensures { result ≡ def.answer sct sc }
    {
        Answer {
            status: Status { sct, sc },
            dw0: 0,
        }
    }

    /// Success, with a controller's CNTLID in double word 0.
    #[inline(always)]
    pub(crate) fn with_cntlid(dw0: u32) -> Answer
        ensures { result ≡ def.with_cntlid dw0 }
    {
        Answer {
            dw0,
            ..Answer::of(0, 0)
        }
    }

    /// Connect Invalid Parameters: the parameter at this offset of the entry is wrong.
    #[inline(always)]
    pub(crate) fn in_entry(offset: u32) -> Answer
        ensures { result ≡ def.in_entry offset }
    {
        Answer {
            dw0: offset,
            ..Answer::of(1, 0x82)
        }
    }

    /// Connect Invalid Parameters: the parameter at this offset of the data is wrong.
    #[inline(always)]
    pub(crate) fn in_data(offset: u32) -> Answer
        requires { offset < 1024 }
        ensures { result ≡ def.in_data offset }
    {
        Answer {
            dw0: 0x1_0000 + offset,
            ..Answer::of(1, 0x82)
        }
    }
}

/// A rule, and the answer to a command that breaks it.
#[inline(always)]
pub(crate) fn check(answer: Answer, holds: bool) -> Result<(), Answer>
    ensures { result ≡ def.rule answer holds }
{
    if holds { Ok(()) } else { Err(answer) }
}
