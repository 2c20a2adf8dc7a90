//! The requests of a host to its driver.

ghost use Rattle.std.specs.Prelude.{◌≡◌, ◌-◌, ◌/◌, ◌%◌, ◌^◌, ◌≤◌, length, false, [], ◌∷◌};
ghost use Rattle.nvme_spec.specs.Limits.{most_bytes, block_size};
ghost use Rattle.nvme_driver.specs.Requests.{asked_of, is_bad as bad, words_of};

use crate::lane::Lane;
use nvme_spec::{AdminCommand, Command, MOST_BYTES};

/// The feature Namespace Write Protection Config.
const WRITE_PROTECTION: u32 = 0x84;

/// EDS of a Reservation Report: its hosts have 128 bits.
const EXTENDED_DATA_STRUCTURE: u32 = 1;

/// SEL of a Namespace Attachment that detaches.
const DETACH: u32 = 1;

/// A request of a host. Each is one command. Its fields have the standard's names, and the command's other fields are
/// 0. Data are the caller's bytes, which the driver no longer needs after the request is placed.
#[derive(Clone, Copy)]
pub enum Request<'a> {
    /// Reads 1 to 256 blocks from block `slba`.
    Read {
        nsid: u32,
        slba: u64,
        blocks: u32,
    },
    /// Writes these bytes, 1 to 256 whole blocks, from block `slba`.
    Write {
        nsid: u32,
        slba: u64,
        bytes: &'a [u8],
    },
    /// Compares these bytes, 1 to 256 whole blocks, with the blocks from `slba`.
    Compare {
        nsid: u32,
        slba: u64,
        bytes: &'a [u8],
    },
    /// Fills 1 to 65,536 blocks from block `slba` with zeros.
    WriteZeroes {
        nsid: u32,
        slba: u64,
        blocks: u32,
    },
    /// Flushes the namespace's medium.
    Flush {
        nsid: u32,
    },
    /// Reservation Register: `action` is RREGA, 0 to 7, and `cptpl` 0 to 3.
    Register {
        nsid: u32,
        action: u8,
        iekey: bool,
        cptpl: u8,
        crkey: u64,
        nrkey: u64,
    },
    /// Reservation Acquire: `action` is RACQA, 0 to 7.
    Acquire {
        nsid: u32,
        action: u8,
        rtype: u8,
        crkey: u64,
        prkey: u64,
    },
    /// Reservation Release: `action` is RRELA, 0 to 7.
    Release {
        nsid: u32,
        action: u8,
        rtype: u8,
        crkey: u64,
    },
    /// Reservation Report of 1 to 32,768 double words, by the extended data structure.
    Report {
        nsid: u32,
        dwords: u32,
    },
    /// Identify, by the Controller or Namespace Structure.
    Identify {
        cns: u8,
        nsid: u32,
    },
    /// Sets the namespace's write protection state, 0 to 7.
    Protect {
        nsid: u32,
        state: u8,
    },
    /// Gets the namespace's write protection state.
    Protection {
        nsid: u32,
    },
    /// Attaches the namespace to controllers, at most 2,047.
    Attach {
        nsid: u32,
        list: &'a [u16],
    },
    /// Detaches the namespace from controllers, at most 2,047.
    Detach {
        nsid: u32,
        list: &'a [u16],
    },
}

/// The number of blocks of these bytes.
fn block_count(bytes: &[u8]) -> u32
    requires { length bytes.now ≤ most_bytes }
    ensures { result ≡ length bytes.now / block_size }
{
    (bytes.len() / 512) as u32
}

/// Double words 10, 11 and 12 of a command on `blocks` blocks, at least one.
fn range(slba: u64, blocks: u32) -> [u32; 3]
    requires { 1 ≤ blocks }
    ensures { result ≡ slba % 2 ^ 32 ∷ slba / 2 ^ 32 ∷ (blocks - 1) ∷ [] }
{
    let low = (slba & 0xffff_ffff) as u32;
    let high = (slba >> 32) as u32;
    [low, high, blocks - 1]
}

impl Request<'_> {
    /// Whether no command can express the request: a count is 0 or too high, or a field too wide.
    pub(crate) fn is_bad(&self) -> bool
        ensures { result ≡ bad self.now }
    {
        match *self {
            Request::Read { blocks, .. } => blocks == 0 || blocks > 256,
            Request::Write { bytes, .. } | Request::Compare { bytes, .. } => {
                bytes.is_empty() || bytes.len() % 512 != 0 || bytes.len() > MOST_BYTES
            }
            Request::WriteZeroes { blocks, .. } => blocks == 0 || blocks > 65_536,
            Request::Register { action, cptpl, .. } => action > 7 || cptpl > 3,
            Request::Acquire { action, .. } | Request::Release { action, .. } => action > 7,
            Request::Report { dwords, .. } => dwords == 0 || dwords > 32_768,
            Request::Protect { state, .. } => state > 7,
            Request::Attach { list, .. } | Request::Detach { list, .. } => list.len() > 2_047,
            _ => false,
        }
    }

    /// The lane (queue pair) of the request's command.
    pub(crate) fn lane(&self) -> Lane
        ensures { result ≡ (asked_of self.now).command.lane }
    {
        match self {
            Request::Identify { .. }
            | Request::Protect { .. }
            | Request::Protection { .. }
            | Request::Attach { .. }
            | Request::Detach { .. } => Lane::Admin,
            _ => Lane::Io,
        }
    }

    /// The number of bytes that the request's command transfers, in either direction.
    pub(crate) fn moved(&self) -> usize
        requires { bad self.now ≡ false }
        ensures moved { result ≡ (asked_of self.now).moved }
        ensures most { result ≤ most_bytes }
    {
        match *self {
            Request::Read { blocks, .. } => 512 * blocks as usize,
            Request::Write { bytes, .. } | Request::Compare { bytes, .. } => bytes.len(),
            Request::Register { .. } | Request::Acquire { .. } => 16,
            Request::Release { .. } => 8,
            Request::Report { dwords, .. } => 4 * dwords as usize,
            Request::Identify { .. } | Request::Attach { .. } | Request::Detach { .. } => 4096,
            _ => 0,
        }
    }

    /// The number of bytes from the controller if the request's command succeeds.
    pub(crate) fn received(&self) -> usize
        requires { bad self.now ≡ false }
        ensures received { result ≡ (asked_of self.now).received }
        ensures most { result ≤ most_bytes }
    {
        match self {
            Request::Read { .. } | Request::Report { .. } | Request::Identify { .. } =>
                self.moved(),
            _ => 0,
        }
    }

    /// The opcode of the request's command.
    pub(crate) fn opcode(&self) -> u8
        ensures { result ≡ (asked_of self.now).command.opcode }
    {
        match self {
            Request::Read { .. } => Command::Read.opcode(),
            Request::Write { .. } => Command::Write.opcode(),
            Request::Compare { .. } => Command::Compare.opcode(),
            Request::WriteZeroes { .. } => Command::WriteZeroes.opcode(),
            Request::Flush { .. } => Command::Flush.opcode(),
            Request::Register { .. } => Command::ReservationRegister.opcode(),
            Request::Acquire { .. } => Command::ReservationAcquire.opcode(),
            Request::Release { .. } => Command::ReservationRelease.opcode(),
            Request::Report { .. } => Command::ReservationReport.opcode(),
            Request::Identify { .. } => AdminCommand::Identify.opcode(),
            Request::Protect { .. } => AdminCommand::SetFeatures.opcode(),
            Request::Protection { .. } => AdminCommand::GetFeatures.opcode(),
            Request::Attach { .. } | Request::Detach { .. } =>
                AdminCommand::NamespaceAttachment.opcode(),
        }
    }

    /// The namespace that the request names.
    pub(crate) fn nsid(&self) -> u32
        ensures { result ≡ (asked_of self.now).command.nsid }
    {
        match *self {
            Request::Read { nsid, .. }
            | Request::Write { nsid, .. }
            | Request::Compare { nsid, .. }
            | Request::WriteZeroes { nsid, .. }
            | Request::Flush { nsid }
            | Request::Register { nsid, .. }
            | Request::Acquire { nsid, .. }
            | Request::Release { nsid, .. }
            | Request::Report { nsid, .. }
            | Request::Identify { nsid, .. }
            | Request::Protect { nsid, .. }
            | Request::Protection { nsid }
            | Request::Attach { nsid, .. }
            | Request::Detach { nsid, .. } => nsid,
        }
    }

    /// Double words 10, 11 and 12 of the request's command.
    pub(crate) fn words(&self) -> [u32; 3]
        requires { bad self.now ≡ false }
        ensures { result ≡ words_of (asked_of self.now).command }
    {
        match *self {
            Request::Read { slba, blocks, .. } | Request::WriteZeroes { slba, blocks, .. } => {
                range(slba, blocks)
            }
            Request::Write { slba, bytes, .. } | Request::Compare { slba, bytes, .. } => {
                range(slba, block_count(bytes))
            }
            Request::Register {
                action,
                iekey,
                cptpl,
                ..
            } => {
                let key_bit = u32::from(iekey) << 3;
                [u32::from(action) + key_bit + (u32::from(cptpl) << 30), 0, 0]
            }
            Request::Acquire { action, rtype, .. } | Request::Release { action, rtype, .. } => {
                [u32::from(action) + (u32::from(rtype) << 8), 0, 0]
            }
            Request::Report { dwords, .. } => [dwords - 1, EXTENDED_DATA_STRUCTURE, 0],
            Request::Identify { cns, .. } => [u32::from(cns), 0, 0],
            Request::Protect { state, .. } => [WRITE_PROTECTION, u32::from(state), 0],
            Request::Protection { .. } => [WRITE_PROTECTION, 0, 0],
            Request::Flush { .. } | Request::Attach { .. } => [0, 0, 0],
            Request::Detach { .. } => [DETACH, 0, 0],
        }
    }
}
