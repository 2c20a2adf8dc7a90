//! Parts of the data that a host sends, for C.

ghost use Rattle.std.specs.Prelude.{◌≡◌};
ghost use Rattle.nvme_tcp_library.specs.Transfers as def;

use crate::codes;
use crate::transfers_handle::TransfersHandle;
use nvme_pdu::Fatal;
use nvme_transfers::{Completed, Part, Taken};
use std::alloc::Global;

/// The outcome of a part.
#[repr(C)]
#[derive(Clone, Copy)]
pub struct PartTaken {
    /// `OK`; or `BAD_PDU`, and the connection ends; or `CLOSED`.
    pub what: u32,
    /// The offset of the field at fault, or 0.
    pub field: u32,
    /// The place of its bytes in the room of its tag.
    pub begin: u32,
    /// The number of bytes of the command that is complete.
    pub length: u32,
    /// The Fatal Error Status, or 0.
    pub status: u16,
    /// Whether its command has all its data now.
    pub is_complete: bool,
    /// Whether the digests of all these were right.
    pub is_sound: bool,
    /// The submission queue entry of the command that is complete.
    pub entry: [u8; 64],
}

/// Takes a part, whose bytes stay where they are. If it is not taken, nothing has changed, and no byte of it may be
/// used.
#[unsafe(no_mangle)]
pub extern "C" fn nvmesim_transfers_take(
    alloc: Global,
    transfers: &mut TransfersHandle,
    part: &Part,
) -> PartTaken
    ensures { def.Takes part.now transfers.old.slot.value result transfers.new.slot.value }
{
    let Some(mut opened) = transfers.take(alloc) else {
        return PartTaken::none(codes::CLOSED, NO_FAULT);
    };
    let taken = opened.take(part);
    *transfers = TransfersHandle::of(opened);
    PartTaken::of(taken)
}

/// Takes a part, and copies its bytes to their place in the room of its tag. It is also refused if the bytes are not as
/// many as DATAL says, or go past the end of the room. A refused part changes nothing, the room neither.
#[unsafe(no_mangle)]
pub extern "C" fn nvmesim_transfers_store(
    alloc: Global,
    transfers: &mut TransfersHandle,
    part: &Part,
    bytes: &[u8],
    room: &mut [u8],
) -> PartTaken
    ensures { def.Stores part.now bytes.now room.old transfers.old.slot.value result room.new transfers.new.slot.value }
{
    let Some(mut opened) = transfers.take(alloc) else {
        return PartTaken::none(codes::CLOSED, NO_FAULT);
    };
    let taken = opened.store(part, bytes, room);
    *transfers = TransfersHandle::of(opened);
    PartTaken::of(taken)
}

impl PartTaken {
    /// None, for this reason.
    fn none(what: u32, fatal: Fatal) -> Self
        ensures { result ≡ def.no_part what fatal }
    {
        PartTaken {
            what,
            field: fatal.field,
            begin: 0,
            length: 0,
            status: fatal.status,
            is_complete: false,
            is_sound: false,
            entry: [0; 64],
        }
    }

    /// A part that was taken, of a command that has all its data with it, or has not.
    fn at(begin: u32, completed: Option<Completed>) -> Self
        ensures { result ≡ def.completes_at begin completed }
    {
        let part = PartTaken {
            begin,
            ..PartTaken::none(codes::OK, NO_FAULT)
        };
        let Some(done) = completed else {
            return part;
        };
        let entry = done.command.entry;
        PartTaken {
            length: done.command.length,
            is_complete: true,
            is_sound: done.is_sound,
            entry,
            ..part
        }
    }

    /// The outcome of a part in the form for C.
    fn of(taken: Result<Taken, Fatal>) -> Self
        ensures { result ≡ def.part_seen taken }
    {
        match taken {
            Ok(taken) => PartTaken::at(taken.begin, taken.completed),
            Err(fatal) => PartTaken::none(codes::BAD_PDU, fatal),
        }
    }
}

const NO_FAULT: Fatal = Fatal {
    status: 0,
    field: 0,
};
