//! Completion queue entries (NVM Express Base Specification 2.0, Completion Queue Entry).

ghost use Rattle.std.specs.Prelude.{◌≡◌, ◌<◌};
ghost use Rattle.nvme_wire.specs.Completion as cqe;

use crate::little_endian::u32_at;
use crate::status::Status;
use std::marker::Model;

/// A completion queue entry, a controller's answer to a command, in 16 bytes. Contracts see it as these bytes.
#[derive(Clone, Copy, Debug)]
pub struct Cqe {
    dw0: u32,
    dw1: u32,
    dw2: u32,
    dw3: u32,
}

impl Model for Cqe {
    ghost use Rattle.std.specs.Prelude.{ℕ, List};

    ghost Value = { List ℕ };

    ghost use Rattle.nvme_wire.specs.Completion.{spelled, read, FitsFields};

    ghost view = { spelled };

    ghost invariant = { FitsFields };

    ghost inverse = { read };
}

impl Cqe {
    /// An entry of these fields: command specific double word 0, the head of the submission queue (SQ Head Pointer) and
    /// its identifier (SQ Identifier), the command identifier, the phase tag and the status. The status code type must
    /// be below 8, since it has three bits. Command Retry Delay, More and Do Not Retry are 0, as is double word 1,
    /// which is reserved.
    #[tactic(auto, unfolding(crate::specs::Completion::completion_entry))]
    pub fn new(dw0: u32, sq_head: u16, sq_id: u16, cid: u16, phase: bool, status: Status) -> Cqe
        requires { status.sct < 8 }
        ensures { result ≡ cqe.completion_entry (record {
          dw0 = dw0;
          sq_head = sq_head;
          sq_id = sq_id;
          cid = cid;
          phase = phase;
          status = status;
        }) }
    {
        Cqe {
            dw0,
            dw1: 0,
            dw2: u32::from(sq_head) + (u32::from(sq_id) << 16),
            dw3: u32::from(cid)
                + (u32::from(phase) << 16)
                + (u32::from(status.sc) << 17)
                + (u32::from(status.sct) << 25),
        }
    }

    /// The entry with these bytes.
    pub fn from_bytes(bytes: &[u8; 16]) -> Cqe
        ensures { result ≡ bytes.now }
    {
        Cqe {
            dw0: u32_at(bytes, 0),
            dw1: u32_at(bytes, 4),
            dw2: u32_at(bytes, 8),
            dw3: u32_at(bytes, 12),
        }
    }

    /// Its bytes, including those of reserved fields.
    pub fn to_bytes(&self) -> [u8; 16]
        ensures { result ≡ self.now }
    {
        let mut bytes = [0; 16];
        bytes[0..4].copy_from_slice(&self.dw0.to_le_bytes());
        bytes[4..8].copy_from_slice(&self.dw1.to_le_bytes());
        bytes[8..12].copy_from_slice(&self.dw2.to_le_bytes());
        bytes[12..16].copy_from_slice(&self.dw3.to_le_bytes());
        bytes
    }

    /// Double word 0, whose meaning depends on the command.
    #[tactic(auto, unfolding(crate::specs::Completion::dw0))]
    pub fn dw0(&self) -> u32
        ensures { result ≡ cqe.dw0 self.now }
    {
        self.dw0
    }

    /// SQ Head Pointer: the head of the submission queue when the entry was made. Double word 2, bits 15:0.
    #[tactic(auto, unfolding(crate::specs::Completion::sq_head))]
    pub fn sq_head(&self) -> u16
        ensures { result ≡ cqe.sq_head self.now }
    {
        (self.dw2 & 0xffff) as u16
    }

    /// SQ Identifier: the submission queue that the command came from. Double word 2, bits 31:16.
    #[tactic(auto, unfolding(crate::specs::Completion::sq_id))]
    pub fn sq_id(&self) -> u16
        ensures { result ≡ cqe.sq_id self.now }
    {
        (self.dw2 >> 16) as u16
    }

    /// Command Identifier of the answered command. Double word 3, bits 15:0.
    #[tactic(auto, unfolding(crate::specs::Completion::cid))]
    pub fn cid(&self) -> u16
        ensures { result ≡ cqe.cid self.now }
    {
        (self.dw3 & 0xffff) as u16
    }

    /// Phase Tag, by which a host recognises a new entry. Double word 3, bit 16.
    #[tactic(auto, unfolding(crate::specs::Completion::phase))]
    pub fn phase(&self) -> bool
        ensures { result ≡ cqe.phase self.now }
    {
        (self.dw3 >> 16) & 1 == 1
    }

    /// The status: Status Code Type, double word 3, bits 27:25, and Status Code, bits 24:17.
    #[tactic(auto, unfolding(crate::specs::Completion::status))]
    pub fn status(&self) -> Status
        ensures { result ≡ cqe.status self.now }
    {
        Status {
            sct: ((self.dw3 >> 25) & 0b111) as u8,
            sc: ((self.dw3 >> 17) & 0xff) as u8,
        }
    }
}
