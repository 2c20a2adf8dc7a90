//! What goes between the driver and the device: actions to perform, bytes to copy, and what the device showed.

ghost use Rattle.std.specs.Prelude.{◌≡◌};
ghost use Rattle.nvme_host.specs.Calls.{CheckingStatus, ReportingCompletion};
ghost use Rattle.nvme_host.specs.Exports.{
  Judges,
  TakesActions,
  StoresCompletion,
  Does,
  LoadsFrom,
  next_completion_of,
  controller_in,
  namespace_in,
};
ghost use Rattle.nvme_host.specs.Completions.{StoringData};

use crate::codes;
use crate::completions::{CompletionData, NextCompletion};
use crate::devices::{Controller, Limits, Namespace};
use crate::handle::Handle;
use crate::recording_port::Action;
use std::alloc::Global;

/// Judges Controller Capabilities, which the driver needs before a bring-up: `OK`, or why the controller does not suit
/// it.
#[unsafe(no_mangle)]
pub extern "C" fn nvmehost_capabilities(alloc: Global, host: &mut Handle, cap: u64) -> Limits
    ensures { Judges cap host.old.slot.value result host.new.slot.value }
{
    let Some(mut open_driver) = host.take(alloc) else {
        return Limits::without(codes::CLOSED);
    };
    let limits = open_driver.judge(cap);
    *host = Handle::of(open_driver);
    limits
}

/// Judges Controller Status, read `elapsed_ms` milliseconds after the last action: `OK` if it is the awaited one,
/// `WAITS`, or why it will not come.
#[unsafe(no_mangle)]
pub extern "C" fn nvmehost_status(
    alloc: Global,
    host: &mut Handle,
    csts: u32,
    elapsed_ms: u64,
) -> u32
    ensures { Does (λ old code new. CheckingStatus old csts elapsed_ms code new)
        host.old.slot.value result host.new.slot.value }
{
    let Some(mut open_driver) = host.take(alloc) else {
        return codes::CLOSED;
    };
    let code = open_driver.check_status(csts, elapsed_ms);
    *host = Handle::of(open_driver);
    code
}

/// Reports the next completion of the admin queue to a bring-up that needs it, or zeros if none came in time: `OK`,
/// `NOT_AWAITED` or `CLOSED`.
#[unsafe(no_mangle)]
pub extern "C" fn nvmehost_report_completion(
    alloc: Global,
    host: &mut Handle,
    entry: &[u8; 16],
) -> u32
    ensures { Does (λ old code new. ReportingCompletion old entry.now code new)
        host.old.slot.value result host.new.slot.value }
{
    let Some(mut open_driver) = host.take(alloc) else {
        return codes::CLOSED;
    };
    let code = open_driver.report_completion(entry);
    *host = Handle::of(open_driver);
    code
}

/// Takes the actions of the last call, in order; their number. `actions` must have room for 32.
#[unsafe(no_mangle)]
pub extern "C" fn nvmehost_actions(
    alloc: Global,
    host: &mut Handle,
    actions: &mut [Action],
) -> usize
    ensures { TakesActions host.old.slot.value actions.old result actions.new host.new.slot.value }
{
    let Some(mut open_driver) = host.take(alloc) else {
        return 0;
    };
    let count = open_driver.take_actions(actions);
    *host = Handle::of(open_driver);
    count
}

/// Copies bytes of the driver's window: `OK`, `OUTSIDE` or `CLOSED`.
#[unsafe(no_mangle)]
pub extern "C" fn nvmehost_load(
    alloc: Global,
    host: &mut Handle,
    address: u64,
    bytes: &mut [u8],
) -> u32
    ensures loads { LoadsFrom host.old.slot.value address bytes.old result bytes.new }
    ensures kept { host.new.slot.value ≡ host.old.slot.value }
{
    let Some(open_driver) = host.take(alloc) else {
        return codes::CLOSED;
    };
    let code = open_driver.load(address, bytes);
    *host = Handle::of(open_driver);
    code
}

/// The place of the next completion of a queue, 0 or 1, and its phase tag.
#[unsafe(no_mangle)]
pub extern "C" fn nvmehost_next_completion(
    alloc: Global,
    host: &mut Handle,
    queue: u32,
) -> NextCompletion
    ensures next { result ≡ next_completion_of host.old.slot.value queue }
    ensures kept { host.new.slot.value ≡ host.old.slot.value }
{
    let Some(open_driver) = host.take(alloc) else {
        return NextCompletion::without(codes::CLOSED);
    };
    let completion = open_driver.next_completion(queue);
    *host = Handle::of(open_driver);
    completion
}

/// Stores the next completion of a queue, which C copied from the device, and returns which data come with it.
#[unsafe(no_mangle)]
pub extern "C" fn nvmehost_store_completion(
    alloc: Global,
    host: &mut Handle,
    queue: u32,
    entry: &[u8; 16],
) -> CompletionData
    ensures { StoresCompletion queue entry.now host.old.slot.value result host.new.slot.value }
{
    let Some(mut open_driver) = host.take(alloc) else {
        return CompletionData::without(codes::CLOSED);
    };
    let data = open_driver.store_completion(queue, entry);
    *host = Handle::of(open_driver);
    data
}

/// Stores the data of a completion, which C copied from the device: `OK`, `OUTSIDE`, `ACTIONS_PENDING` or `CLOSED`.
#[unsafe(no_mangle)]
pub extern "C" fn nvmehost_store_data(
    alloc: Global,
    host: &mut Handle,
    address: u64,
    bytes: &[u8],
) -> u32
    ensures { Does (λ old code new. StoringData old address bytes.now code new)
        host.old.slot.value result host.new.slot.value }
{
    let Some(mut open_driver) = host.take(alloc) else {
        return codes::CLOSED;
    };
    let code = open_driver.store_data(address, bytes);
    *host = Handle::of(open_driver);
    code
}

/// What the controller answered to the last question about it.
#[unsafe(no_mangle)]
pub extern "C" fn nvmehost_controller(alloc: Global, host: &mut Handle) -> Controller
    ensures controller { result ≡ controller_in host.old.slot.value }
    ensures kept { host.new.slot.value ≡ host.old.slot.value }
{
    let Some(open_driver) = host.take(alloc) else {
        return Controller::without(codes::CLOSED);
    };
    let controller = Controller::of(open_driver.facts.controller);
    *host = Handle::of(open_driver);
    controller
}

/// What the controller answered to the last question about a namespace.
#[unsafe(no_mangle)]
pub extern "C" fn nvmehost_namespace(alloc: Global, host: &mut Handle, nsid: u32) -> Namespace
    ensures namespace { result ≡ namespace_in host.old.slot.value nsid }
    ensures kept { host.new.slot.value ≡ host.old.slot.value }
{
    let Some(open_driver) = host.take(alloc) else {
        return Namespace::without(codes::CLOSED);
    };
    let namespace = Namespace::of(open_driver.facts.namespace(nsid));
    *host = Handle::of(open_driver);
    namespace
}
