//! Parts of a command's data, and what becomes of them.

use crate::command::Command;

/// What is known of an H2CData PDU.
#[repr(C)]
#[derive(Clone, Copy)]
pub struct Part {
    /// CCCID, the command identifier.
    pub cid: u16,
    /// TTAG, the transfer tag of the R2T.
    pub tag: u16,
    /// DATAO, the offset of its data among all data of the command.
    pub offset: u32,
    /// DATAL, the number of its data.
    pub length: u32,
    /// LAST_PDU.
    pub is_last: bool,
    /// Whether the digest of its data is right, or there is none.
    pub is_sound: bool,
}

/// A part that was taken.
#[derive(Clone, Copy)]
pub struct Taken {
    /// The place of its bytes in the room of its tag.
    pub begin: u32,
    /// The command, if it has all its data now.
    pub completed: Option<Completed>,
}

/// A command that has all its data.
#[derive(Clone, Copy)]
pub struct Completed {
    pub command: Command,
    /// Whether the digests of all its parts were right.
    pub is_sound: bool,
}
