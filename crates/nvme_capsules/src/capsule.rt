//! Command capsules, and why a command is refused before its data matter.

ghost use Rattle.std.specs.Prelude.{◌≡◌};
ghost use Rattle.nvme_capsules.specs.Capsules as def;

use crate::connect_stage::ConnectStage;
use crate::data_place::FABRICS;
use nvme_wire::{Status, u16_at};

/// FCTYPE of the commands that a host may send before it has authenticated itself, and of Connect.
const CONNECT: u8 = 0x01;

const AUTHENTICATION_SEND: u8 = 0x05;

const AUTHENTICATION_RECEIVE: u8 = 0x06;

const DISCONNECT: u8 = 0x08;

const COMMAND_ID_CONFLICT: Status = Status { sct: 0, sc: 0x03 };

const TRANSIENT_TRANSPORT_ERROR: Status = Status { sct: 0, sc: 0x22 };

pub(crate) const AUTHENTICATION_REQUIRED: Status = Status { sct: 1, sc: 0x91 };

/// A command capsule.
#[repr(C)]
#[derive(Clone, Copy)]
pub struct Capsule {
    /// Its submission queue entry.
    pub entry: [u8; 64],
    /// The number of bytes of data in it.
    pub data_length: u32,
    /// Whether the digest of its data is right, or there is none.
    pub is_sound: bool,
}

impl Capsule {
    /// CID, the command identifier.
    pub fn cid(&self) -> u16
        ensures { result ≡ def.cid_of self.now.entry }
    {
        u16_at(&self.entry, 2)
    }

    /// The status of the first rule that the command breaks on a connection that is so far. `is_conflict` says whether
    /// another command without a response has its identifier.
    pub fn refusal(&self, stage: ConnectStage, is_conflict: bool) -> Option<Status>
        ensures { result ≡ def.refusal stage self.now is_conflict }
    {
        match stage {
            ConnectStage::NotConnected if !is_connect(&self.entry) => Some(
                Status::COMMAND_SEQUENCE_ERROR,
            ),
            ConnectStage::Authenticating if !precedes_proof(&self.entry) => Some(
                AUTHENTICATION_REQUIRED,
            ),
            _ if !self.is_sound => Some(TRANSIENT_TRANSPORT_ERROR),
            _ if is_conflict => Some(COMMAND_ID_CONFLICT),
            _ => None,
        }
    }
}

/// Whether a command is Connect.
fn is_connect(entry: &[u8; 64]) -> bool
    ensures { result ≡ def.is_connect entry.now }
{
    entry[0] == FABRICS && entry[4] == CONNECT
}

/// Whether a host may send a command before it has authenticated itself.
fn precedes_proof(entry: &[u8; 64]) -> bool
    ensures { result ≡ def.precedes_proof entry.now }
{
    entry[0] == FABRICS
        && (entry[4] == AUTHENTICATION_SEND
            || entry[4] == AUTHENTICATION_RECEIVE
            || entry[4] == DISCONNECT)
}
