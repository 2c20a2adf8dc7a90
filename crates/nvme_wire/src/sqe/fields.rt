//! The fields of a submission queue entry that a host sets.

use super::Sqe;

/// The fields of a submission queue entry that a host sets, each 0 by default. All other fields are 0: the command is
/// not fused, its data pointer is PRP entries, and it has no metadata.
#[derive(Clone, Copy, Debug, Default, PartialEq, Eq)]
pub struct SqeFields {
    /// Opcode.
    pub opcode: u8,
    /// Command Identifier.
    pub cid: u16,
    /// Namespace Identifier.
    pub nsid: u32,
    /// PRP Entry 1: the address of the data in host memory.
    pub prp1: u64,
    /// PRP Entry 2: the address of the second page of the data, or of a PRP list.
    pub prp2: u64,
    /// Command double word 10. The meaning of double words 10 to 15 depends on the command.
    pub cdw10: u32,
    /// Command double word 11.
    pub cdw11: u32,
    /// Command double word 12.
    pub cdw12: u32,
    /// Command double word 13.
    pub cdw13: u32,
    /// Command double word 14.
    pub cdw14: u32,
    /// Command double word 15.
    pub cdw15: u32,
}

/// The entry with these fields.
impl From<SqeFields> for Sqe {
    ghost use Rattle.std.specs.Prelude.{◌≡◌};
    ghost use Rattle.nvme_wire.specs.Submission.{submission_entry};

    ghost from_gives = { λ fields entry. entry ≡ submission_entry fields };

    #[tactic(auto, unfolding(crate::specs::Submission::submission_entry))]
    fn from(fields: SqeFields) -> Sqe {
        Sqe {
            cdw0: u32::from(fields.opcode) + (u32::from(fields.cid) << 16),
            nsid: fields.nsid,
            cdw2: 0,
            cdw3: 0,
            mptr: 0,
            prp1: fields.prp1,
            prp2: fields.prp2,
            cdw10: fields.cdw10,
            cdw11: fields.cdw11,
            cdw12: fields.cdw12,
            cdw13: fields.cdw13,
            cdw14: fields.cdw14,
            cdw15: fields.cdw15,
        }
    }
}
