//! A driver is opened, brought up, rung, polled, reset, shut down and closed.

ghost use Rattle.std.specs.Prelude.{◌≡◌, ◌≤◌, ◌<◌, length, None};
ghost use Rattle.nvme_spec.specs.Limits.{most_bytes};
ghost use Rattle.nvme_host.specs.Outcomes.{with_code};
ghost use Rattle.nvme_host.specs.Calls.{Ringing, Resetting, ShuttingDown, Expiring};
ghost use Rattle.nvme_host.specs.Exports.{Opens, BringsUp, Polls, Does};

use crate::codes;
use crate::handle::Handle;
use crate::open_driver::OpenDriver;
use crate::outcome::Outcome;
use nvme_mem::Window;
use std::alloc::Global;

/// The shortest buffer of a poll, in bytes: that of the longest answer.
const SHORTEST_BUFFER: usize = 131_072;

/// Opens a driver that is down, with this first ticket: `OK`, `ALREADY_OPEN` or `NO_MEMORY`.
#[unsafe(no_mangle)]
pub extern "C" fn nvmehost_open(alloc: Global, host: &mut Handle, first: u64) -> u32
    ensures { Opens host.old.slot.value first result host.new.slot.value }
{
    if host.is_open() {
        return codes::ALREADY_OPEN;
    }
    let Ok(window) = Window::new(alloc) else {
        return codes::NO_MEMORY;
    };
    match Box::new(alloc, OpenDriver::new(window, first)) {
        Ok(open_driver) => {
            *host = Handle::of(open_driver);
            codes::OK
        }
        Err(_) => codes::NO_MEMORY,
    }
}

/// Closes a driver, if one is open.
#[unsafe(no_mangle)]
pub extern "C" fn nvmehost_close(alloc: Global, host: &mut Handle)
    ensures { host.new.slot.value ≡ None }
{
    let _ = host.take(alloc);
}

/// Brings the controller up, which was seen disabled: `OK`, or a fault; or `WANTS_STATUS` or `WANTS_TURN`. Then it is
/// called again once C has performed the actions, and reported what the device shows.
#[unsafe(no_mangle)]
pub extern "C" fn nvmehost_bring_up(alloc: Global, host: &mut Handle) -> Outcome
    ensures { BringsUp host.old.slot.value result host.new.slot.value }
{
    let Some(mut open_driver) = host.take(alloc) else {
        return Outcome::with_code(codes::CLOSED);
    };
    let outcome = open_driver.bring_up();
    *host = Handle::of(open_driver);
    outcome
}

/// Rings both lanes (queue pairs): `OK`, `ACTIONS_PENDING`, `NOT_UP` or `CLOSED`.
#[unsafe(no_mangle)]
pub extern "C" fn nvmehost_ring(alloc: Global, host: &mut Handle) -> u32
    ensures { Does Ringing host.old.slot.value result host.new.slot.value }
{
    let Some(mut open_driver) = host.take(alloc) else {
        return codes::CLOSED;
    };
    let code = open_driver.ring();
    *host = Handle::of(open_driver);
    code
}

/// Delivers the next answer, with its data at the front of the buffer, which must have at least 131,072 bytes.
#[unsafe(no_mangle)]
pub extern "C" fn nvmehost_poll(alloc: Global, host: &mut Handle, buffer: &mut [u8]) -> Outcome
    ensures short { length buffer.old < most_bytes
        → (result ≡ with_code 32) × (host.new.slot.value ≡ host.old.slot.value) × (buffer.new ≡ buffer.old) }
    ensures polls { most_bytes ≤ length buffer.old
        → Polls host.old.slot.value buffer.old result host.new.slot.value buffer.new }
{
    if buffer.len() < SHORTEST_BUFFER {
        return Outcome::with_code(codes::OUTSIDE);
    }
    let Some(mut open_driver) = host.take(alloc) else {
        return Outcome::with_code(codes::CLOSED);
    };
    let outcome = open_driver.poll(buffer);
    *host = Handle::of(open_driver);
    outcome
}

/// Resets the controller: `OK`, `ACTIONS_PENDING` or `CLOSED`. All requests that were not delivered are aborted, and
/// nothing is known of the device any more.
#[unsafe(no_mangle)]
pub extern "C" fn nvmehost_reset(alloc: Global, host: &mut Handle) -> u32
    ensures { Does Resetting host.old.slot.value result host.new.slot.value }
{
    let Some(mut open_driver) = host.take(alloc) else {
        return codes::CLOSED;
    };
    let code = open_driver.reset();
    *host = Handle::of(open_driver);
    code
}

/// The time of the request with this ticket is over, as C counts it: `OK`, `NOT_WAITING`, `ACTIONS_PENDING`, `NOT_UP`,
/// `EXPIRED` or `CLOSED`. No request is sent before a reset, so no late completion is the answer to another request.
#[unsafe(no_mangle)]
pub extern "C" fn nvmehost_expire(alloc: Global, host: &mut Handle, ticket: u64) -> u32
    ensures { Does (λ old code new. Expiring old ticket code new) host.old.slot.value result host.new.slot.value }
{
    let Some(mut open_driver) = host.take(alloc) else {
        return codes::CLOSED;
    };
    let code = open_driver.expire(ticket);
    *host = Handle::of(open_driver);
    code
}

/// Shuts the controller down: `OK`, `ACTIONS_PENDING`, `NOT_UP` or `CLOSED`. No request is placed after it.
#[unsafe(no_mangle)]
pub extern "C" fn nvmehost_shutdown(alloc: Global, host: &mut Handle) -> u32
    ensures { Does ShuttingDown host.old.slot.value result host.new.slot.value }
{
    let Some(mut open_driver) = host.take(alloc) else {
        return codes::CLOSED;
    };
    let code = open_driver.shut_down();
    *host = Handle::of(open_driver);
    code
}
