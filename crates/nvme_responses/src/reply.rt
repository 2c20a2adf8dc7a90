//! What answers a command.

ghost use Rattle.std.specs.Prelude.{◌≡◌};
ghost use Rattle.nvme_responses.specs.Entries as def;

use nvme_wire::Status;

/// The outcome of a command.
#[derive(Clone, Copy)]
pub struct Reply {
    /// CID, the command identifier.
    pub cid: u16,
    pub status: Status,
    /// Double words 0 and 1, whose meaning depends on the command.
    pub dw0: u32,
    pub dw1: u32,
}

/// The fields of a completion queue entry. SQID is 0, as is the phase tag, which Fabrics does not use.
#[derive(Clone, Copy)]
pub struct Response {
    pub dw0: u32,
    pub dw1: u32,
    /// SQHD, the submission queue head pointer.
    pub sqhd: u16,
    pub cid: u16,
    /// The phase tag and the status field.
    pub status: u16,
}

impl Response {
    /// Its 16 bytes.
    #[tactic(auto, unfolding(crate::specs::Entries::entry))]
    pub fn to_bytes(&self) -> [u8; 16]
        ensures { result ≡ def.entry self.now }
    {
        let mut bytes = [0; 16];
        bytes[0..4].copy_from_slice(&self.dw0.to_le_bytes());
        bytes[4..8].copy_from_slice(&self.dw1.to_le_bytes());
        bytes[8..10].copy_from_slice(&self.sqhd.to_le_bytes());
        bytes[12..14].copy_from_slice(&self.cid.to_le_bytes());
        bytes[14..16].copy_from_slice(&self.status.to_le_bytes());
        bytes
    }
}
