//! Reads of a host's memory and of the medium.

ghost use Rattle.std.specs.Prelude.{◌≡◌, ◌%◌, ◌/◌, length};
ghost use Rattle.nvme_machine.specs.Subsystems.{controller_at};
ghost use Rattle.nvme_library.specs.Looking.{Loads, LoadsFrom, LooksHeld, look_number};

use crate::codes;
use crate::handle::Handle;
use crate::held::Held;
use nvme_medium::MediumFault;
use std::alloc::Global;

/// Loads bytes of the memory of a controller's host, from an address: `OK`; or `OUTSIDE`, `NO_CONTROLLER` or `CLOSED`,
/// and the buffer is unchanged.
#[unsafe(no_mangle)]
pub extern "C" fn nvmesim_load(
    alloc: Global,
    sim: &mut Handle,
    cntlid: u16,
    address: u64,
    bytes: &mut [u8],
) -> u32
    ensures loads { Loads sim.old.slot.value cntlid address bytes.old result bytes.new }
    ensures kept { sim.new.slot.value ≡ sim.old.slot.value }
{
    let Some(subsystem) = sim.take(alloc) else {
        return codes::CLOSED;
    };
    let answer = load_from(&subsystem, cntlid, address, bytes);
    *sim = Handle::of(subsystem);
    answer
}

/// Reads blocks of a namespace from the medium: `OK`; or `OUTSIDE` if the namespace does not have all of them,
/// `NOT_WHOLE` or `CLOSED`, and the buffer is unchanged; or `MEDIUM_FAULT`, and the buffer has the blocks before the
/// fault. No host reads here, so no reservation is checked.
#[unsafe(no_mangle)]
pub extern "C" fn nvmesim_read_blocks(
    alloc: Global,
    sim: &mut Handle,
    nsid: u32,
    slba: u64,
    bytes: &mut [u8],
) -> u32
    ensures { LooksHeld sim.old.slot.value nsid slba bytes.old result bytes.new sim.new.slot.value }
{
    if !bytes.len().is_multiple_of(512) {
        return codes::NOT_WHOLE;
    }
    let Some(mut subsystem) = sim.take(alloc) else {
        return codes::CLOSED;
    };
    let looked = subsystem.read_blocks(nsid, slba, bytes);
    *sim = Handle::of(subsystem);
    number_of(looked)
}

/// Copies bytes out of a controller's window.
pub(crate) fn load_from(subsystem: &Held, cntlid: u16, address: u64, bytes: &mut [u8]) -> u32
    ensures { LoadsFrom (controller_at subsystem.now.state cntlid) address bytes.old result bytes.new }
{
    let Some(controller) = subsystem.controller(cntlid) else {
        return codes::NO_CONTROLLER;
    };
    let Some(piece) = controller.window().piece(address, bytes.len() as u64) else {
        return codes::OUTSIDE;
    };
    bytes.copy_from_slice(piece);
    codes::OK
}

/// The code for the outcome of a read of blocks.
fn number_of(looked: Option<Result<(), MediumFault>>) -> u32
    ensures { result ≡ look_number looked }
{
    match looked {
        Some(Ok(())) => codes::OK,
        Some(Err(MediumFault)) => codes::MEDIUM_FAULT,
        None => codes::OUTSIDE,
    }
}
