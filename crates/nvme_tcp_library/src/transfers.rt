//! The commands of a connection whose data a host sends in answer to R2T, for C.

ghost use Rattle.std.specs.Prelude.{◌≡◌, None};
ghost use Rattle.nvme_tcp_library.specs.Transfers as def;

use crate::codes;
use crate::transfers_handle::TransfersHandle;
use nvme_transfers::{Command, Refused, Request, Transfers};
use std::alloc::Global;

/// The fields of the next R2T.
#[repr(C)]
#[derive(Clone, Copy)]
pub struct NextRequest {
    /// `OK`; or `NO_REQUEST` or `CLOSED`, and the other fields are 0.
    pub what: u32,
    /// R2TL, the number of bytes.
    pub length: u32,
    /// CCCID, the command identifier.
    pub cid: u16,
    /// TTAG, the transfer tag.
    pub tag: u16,
}

/// A connection without commands. `OK`; or `ALREADY_OPEN` or `NO_MEMORY`, and nothing has changed.
#[unsafe(no_mangle)]
pub extern "C" fn nvmesim_transfers_open(alloc: Global, transfers: &mut TransfersHandle) -> u32
    ensures { def.Opens transfers.old.slot.value result transfers.new.slot.value }
{
    if transfers.is_open() {
        return codes::ALREADY_OPEN;
    }
    match Box::new(alloc, Transfers::new()) {
        Ok(opened) => {
            *transfers = TransfersHandle::of(opened);
            codes::OK
        }
        Err(_) => codes::NO_MEMORY,
    }
}

/// Forgets all commands, and frees their memory.
#[unsafe(no_mangle)]
pub extern "C" fn nvmesim_transfers_close(alloc: Global, transfers: &mut TransfersHandle)
    ensures { transfers.new.slot.value ≡ None }
{
    let _ = transfers.take(alloc);
}

/// How many commands there are. None are closed.
#[unsafe(no_mangle)]
pub extern "C" fn nvmesim_transfers_count(alloc: Global, transfers: &mut TransfersHandle) -> usize
    ensures count { result ≡ def.count_by transfers.old.slot.value }
    ensures kept { transfers.new.slot.value ≡ transfers.old.slot.value }
{
    let Some(opened) = transfers.take(alloc) else {
        return 0;
    };
    let count = opened.count();
    *transfers = TransfersHandle::of(opened);
    count
}

/// Whether a command with this identifier is in flight.
#[unsafe(no_mangle)]
pub extern "C" fn nvmesim_transfers_has(
    alloc: Global,
    transfers: &mut TransfersHandle,
    cid: u16,
) -> bool
    ensures has { result ≡ def.has_by cid transfers.old.slot.value }
    ensures kept { transfers.new.slot.value ≡ transfers.old.slot.value }
{
    let Some(opened) = transfers.take(alloc) else {
        return false;
    };
    let has = opened.has(cid);
    *transfers = TransfersHandle::of(opened);
    has
}

/// A command with this entry, which expects `length` bytes, waits for its R2T: `OK`; or `ENDED`, `NO_DATA`,
/// `IN_FLIGHT`, `MANY_WAIT` or `CLOSED`, and nothing has changed.
#[unsafe(no_mangle)]
pub extern "C" fn nvmesim_transfers_begin(
    alloc: Global,
    transfers: &mut TransfersHandle,
    entry: &[u8; 64],
    length: u32,
) -> u32
    ensures { def.Begins entry.now length transfers.old.slot.value result transfers.new.slot.value }
{
    let Some(mut opened) = transfers.take(alloc) else {
        return codes::CLOSED;
    };
    let begun = opened.begin(Command {
        entry: *entry,
        length,
    });
    *transfers = TransfersHandle::of(opened);
    begun_code(begun)
}

/// The R2T of the command that waits longest, if a tag is free: `OK`; or `NO_REQUEST` or `CLOSED`, and nothing has
/// changed.
#[unsafe(no_mangle)]
pub extern "C" fn nvmesim_transfers_next_request(
    alloc: Global,
    transfers: &mut TransfersHandle,
) -> NextRequest
    ensures { def.Asks transfers.old.slot.value result transfers.new.slot.value }
{
    let Some(mut opened) = transfers.take(alloc) else {
        return NextRequest::none(codes::CLOSED);
    };
    let request = opened.next_request();
    *transfers = TransfersHandle::of(opened);
    NextRequest::of(request)
}

/// The connection ends: all commands are dropped, and no more are taken. `OK`; or `CLOSED`, and nothing has changed.
#[unsafe(no_mangle)]
pub extern "C" fn nvmesim_transfers_end(alloc: Global, transfers: &mut TransfersHandle) -> u32
    ensures { def.Ends transfers.old.slot.value result transfers.new.slot.value }
{
    let Some(mut opened) = transfers.take(alloc) else {
        return codes::CLOSED;
    };
    opened.end();
    *transfers = TransfersHandle::of(opened);
    codes::OK
}

/// The code of a command that begins.
fn begun_code(begun: Result<(), Refused>) -> u32
    ensures { result ≡ def.begun_code begun }
{
    match begun {
        Ok(()) => codes::OK,
        Err(Refused::Ended) => codes::ENDED,
        Err(Refused::NoData) => codes::NO_DATA,
        Err(Refused::InFlight) => codes::IN_FLIGHT,
        Err(Refused::NoRoom) => codes::MANY_WAIT,
    }
}

impl NextRequest {
    /// None, for this reason.
    fn none(what: u32) -> Self
        ensures { result ≡ def.no_request what }
    {
        NextRequest {
            what,
            length: 0,
            cid: 0,
            tag: 0,
        }
    }

    /// An R2T in the form for C, if there is one.
    fn of(request: Option<Request>) -> Self
        ensures { result ≡ def.request_seen request }
    {
        match request {
            Some(request) => NextRequest {
                what: codes::OK,
                length: request.length,
                cid: request.cid,
                tag: request.tag,
            },
            None => NextRequest::none(codes::NO_REQUEST),
        }
    }
}
