//! Commands whose data a host sends in answer to R2T.

ghost use Rattle.std.specs.Prelude.{◌≡◌, replicate};
ghost use Rattle.nvme_transfers.specs.Parts as def;

use nvme_wire::u16_at;

/// A command that expects data.
#[derive(Clone, Copy)]
pub struct Command {
    /// Its submission queue entry.
    pub entry: [u8; 64],
    /// The number of bytes that it expects.
    pub length: u32,
}

impl Default for Command {
    fn default() -> Self
        ensures { result ≡ record { entry = replicate 64 0; length = 0 } }
    {
        Command {
            entry: [0; 64],
            length: 0,
        }
    }
}

impl Command {
    /// CID, the command identifier.
    #[tactic(auto, unfolding(crate::specs::Parts::cid_of))]
    pub fn cid(&self) -> u16
        ensures { result ≡ def.cid_of self.now }
    {
        u16_at(&self.entry, 2)
    }
}

/// Why a command is not taken. It changes nothing.
#[derive(Clone, Copy, PartialEq, Eq)]
pub enum Refused {
    /// The connection has ended.
    Ended,
    /// It expects no bytes, and no R2T asks for none.
    NoData,
    /// Its identifier is that of a command in flight.
    InFlight,
    /// 64 commands wait for their R2T.
    NoRoom,
}

/// The fields of an R2T, whose R2TO is 0.
#[derive(Clone, Copy, PartialEq, Eq)]
pub struct Request {
    /// CCCID, the command identifier.
    pub cid: u16,
    /// TTAG, the transfer tag.
    pub tag: u16,
    /// R2TL, the number of bytes.
    pub length: u32,
}
