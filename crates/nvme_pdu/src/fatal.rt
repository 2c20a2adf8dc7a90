//! Why a connection is ended.

ghost use Rattle.std.specs.Prelude.{◌≡◌};
ghost use Rattle.nvme_pdu.specs.Checking as def;

/// What a termination request says of a PDU at fault.
#[derive(Clone, Copy)]
pub struct Fatal {
    /// FES, the Fatal Error Status.
    pub status: u16,
    /// The offset in the header of the field at fault, or 0. A part of FEI.
    pub field: u32,
}

/// A rule on the field at this offset, whose breach is an Invalid PDU Header Field.
#[inline(always)]
pub(crate) fn check(field: u32, holds: bool) -> Result<(), Fatal>
    ensures { result ≡ def.rule (def.invalid field) holds }
{
    if holds {
        Ok(())
    } else {
        Err(Fatal { status: 1, field })
    }
}

/// A rule on a parameter, whose breach is an Unsupported Parameter.
#[inline(always)]
pub(crate) fn support(field: u32, holds: bool) -> Result<(), Fatal>
    ensures { result ≡ def.rule (def.unsupported field) holds }
{
    if holds {
        Ok(())
    } else {
        Err(Fatal { status: 6, field })
    }
}
