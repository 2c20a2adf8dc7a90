//! Commands that are no requests: the identifier of the host, events, log pages, Abort.

ghost use Rattle.std.specs.Prelude.{◌≡◌, ◌<◌, ◌≤◌, None, ◌+◌, ◌-◌, ◌*◌, ◌^◌, true, false};
ghost use Rattle.nvme_driver.specs.Layout.{queue_id, slot_count};
ghost use Rattle.nvme_driver.specs.Polls.{waiting_at};
ghost use Rattle.nvme_driver.specs.Requests.{bit};
ghost use Rattle.nvme_host.specs.Calls.{Commanding};
ghost use Rattle.nvme_host.specs.DeviceCommands.{
  identifying,
  awaiting_event,
  configuring_events,
  reading_log,
  aborting,
  aborting_in,
  lane_at,
  live_slot,
  log_refusal,
  abort_refusal,
};
ghost use Rattle.nvme_host.specs.Exports.{Sends};
ghost use Rattle.nvme_host.specs.Refusals.{stopped_by};

use crate::codes;
use crate::handle::Handle;
use crate::open_driver::OpenDriver;
use crate::outcome::Placed;
use nvme_driver::{HostCommand, HostData, Lane};
use std::alloc::Global;

/// Set Features.
const SET_FEATURES: u8 = 0x09;

/// The feature Host Identifier.
const HOST_IDENTIFIER: u32 = 0x81;

/// EXHID: the identifier has 128 bits.
const EXTENDED_HOST_IDENTIFIER: u32 = 1;

/// The feature Asynchronous Event Configuration.
const EVENT_CONFIGURATION: u32 = 0x0b;

/// Asynchronous Event Request.
const ASYNCHRONOUS_EVENT_REQUEST: u8 = 0x0c;

/// Get Log Page.
const GET_LOG_PAGE: u8 = 0x02;

/// Abort.
const ABORT: u8 = 0x08;

/// Sets the identifier of this host, of 16 bytes, which the controller forgets at each reset. Register, Acquire and
/// Release need it.
#[unsafe(no_mangle)]
pub extern "C" fn nvmehost_set_host_identifier(
    alloc: Global,
    host: &mut Handle,
    identifier: &[u8; 16],
) -> Placed
    ensures { Sends stopped_by true (λ h. identifying identifier.now) host.old.slot.value result host.new.slot.value }
{
    let Some(mut open_driver) = host.take(alloc) else {
        return Placed::refused(codes::CLOSED);
    };
    let command = HostCommand {
        lane: Lane::Admin,
        opcode: SET_FEATURES,
        nsid: 0,
        cdw10: HOST_IDENTIFIER,
        cdw11: EXTENDED_HOST_IDENTIFIER,
        cdw12: 0,
        payload: HostData::FromHost(identifier),
    };
    let refusal = open_driver.stopped();
    let placed = open_driver.place_command(refusal, true, &command);
    *host = Handle::of(open_driver);
    placed
}

/// Selects the events that the controller reports, by the bits of the feature Asynchronous Event Configuration. After
/// a reset they are the controller's own selection again.
#[unsafe(no_mangle)]
pub extern "C" fn nvmehost_configure_events(alloc: Global, host: &mut Handle, events: u32) -> Placed
    ensures { Sends stopped_by false (λ h. configuring_events events) host.old.slot.value result host.new.slot.value }
{
    let Some(mut open_driver) = host.take(alloc) else {
        return Placed::refused(codes::CLOSED);
    };
    let command = HostCommand {
        lane: Lane::Admin,
        opcode: SET_FEATURES,
        nsid: 0,
        cdw10: EVENT_CONFIGURATION,
        cdw11: events,
        cdw12: 0,
        payload: HostData::Unused,
    };
    let refusal = open_driver.stopped();
    let placed = open_driver.place_command(refusal, false, &command);
    *host = Handle::of(open_driver);
    placed
}

/// Places an Asynchronous Event Request. It is answered once the controller has an event to report.
#[unsafe(no_mangle)]
pub extern "C" fn nvmehost_await_event(alloc: Global, host: &mut Handle) -> Placed
    ensures { Sends stopped_by false (λ h. awaiting_event) host.old.slot.value result host.new.slot.value }
{
    let Some(mut open_driver) = host.take(alloc) else {
        return Placed::refused(codes::CLOSED);
    };
    let command = HostCommand {
        lane: Lane::Admin,
        opcode: ASYNCHRONOUS_EVENT_REQUEST,
        nsid: 0,
        cdw10: 0,
        cdw11: 0,
        cdw12: 0,
        payload: HostData::Unused,
    };
    let refusal = open_driver.stopped();
    let placed = open_driver.place_command(refusal, false, &command);
    *host = Handle::of(open_driver);
    placed
}

/// Double word 10 of a Get Log Page of 1 to 32,768 double words.
fn log_word(lid: u8, retain: bool, dwords: u32) -> u32
    requires some { 1 ≤ dwords }
    requires most { dwords ≤ 32768 }
    ensures { result ≡ lid + 2 ^ 15 * bit retain + 2 ^ 16 * (dwords - 1) }
{
    u32::from(lid) + (u32::from(retain) << 15) + ((dwords - 1) << 16)
}

/// Double word 10 of an Abort of the command of a slot.
fn abort_word(lane: Lane, slot: usize) -> u32
    requires { slot < slot_count }
    ensures { result ≡ queue_id lane + 2 ^ 16 * slot }
{
    u32::from(lane.queue_id()) + ((slot as u32) << 16)
}

impl OpenDriver {
    /// Places a Get Log Page.
    fn read_log(&mut self, nsid: u32, lid: u8, retain: bool, dwords: u32) -> Placed
        ensures { Commanding (log_refusal dwords self.old) self.old false (reading_log nsid lid retain dwords) result
            self.new }
    {
        if let Some(code) = self.stopped() {
            return Placed::refused(code);
        }
        if dwords == 0 || dwords > 32_768 {
            return Placed::refused(codes::BAD_REQUEST);
        }
        let command = HostCommand {
            lane: Lane::Admin,
            opcode: GET_LOG_PAGE,
            nsid,
            cdw10: log_word(lid, retain, dwords),
            cdw11: 0,
            cdw12: 0,
            payload: HostData::ToHost(4 * dwords as usize),
        };
        self.place_command(None, false, &command)
    }

    /// Places an Abort of the request with this ticket.
    fn abort(&mut self, ticket: u64) -> Placed
        ensures { Commanding (abort_refusal ticket self.old) self.old false
            (aborting_in self.old.driver.slots (live_slot ticket self.old.driver.slots)) result self.new }
    {
        if let Some(code) = self.stopped() {
            return Placed::refused(code);
        }
        let Some(slot) = self.live_slot(ticket) else {
            return Placed::refused(codes::NOT_WAITING);
        };
        let lane = self.lane_in(slot);
        self.abort_in(lane, slot)
    }

    /// Places an Abort of the command of a slot.
    fn abort_in(&mut self, lane: Lane, slot: usize) -> Placed
        requires { slot < slot_count }
        ensures { Commanding None self.old false (aborting lane slot) result self.new }
    {
        let command = HostCommand {
            lane: Lane::Admin,
            opcode: ABORT,
            nsid: 0,
            cdw10: abort_word(lane, slot),
            cdw11: 0,
            cdw12: 0,
            payload: HostData::Unused,
        };
        self.place_command(None, false, &command)
    }

    /// The lane of the request in a slot, the admin lane if there is none.
    fn lane_in(&self, slot: usize) -> Lane
        ensures { result ≡ lane_at (waiting_at self.now.driver.slots slot) }
    {
        let slots = self.driver.slots();
        match slots.get(slot).copied().flatten() {
            Some(waiting) => waiting.lane,
            None => Lane::Admin,
        }
    }
}

/// Places a Get Log Page of 1 to 32,768 double words; the event that it is of stays reported if it is retained.
#[unsafe(no_mangle)]
pub extern "C" fn nvmehost_log(
    alloc: Global,
    host: &mut Handle,
    nsid: u32,
    lid: u8,
    retain: bool,
    dwords: u32,
) -> Placed
    ensures { Sends (log_refusal dwords) false (λ h. reading_log nsid lid retain dwords) host.old.slot.value result
        host.new.slot.value }
{
    let Some(mut open_driver) = host.take(alloc) else {
        return Placed::refused(codes::CLOSED);
    };
    let placed = open_driver.read_log(nsid, lid, retain, dwords);
    *host = Handle::of(open_driver);
    placed
}

/// Places an Abort of the request with this ticket. The answer has a ticket of its own; bit 0 of its double word 0 is 0
/// if the request was aborted, which is then answered with the status Command Abort Requested.
#[unsafe(no_mangle)]
pub extern "C" fn nvmehost_abort(alloc: Global, host: &mut Handle, ticket: u64) -> Placed
    ensures { Sends (abort_refusal ticket) false
        (λ h. aborting_in h.driver.slots (live_slot ticket h.driver.slots)) host.old.slot.value result
        host.new.slot.value }
{
    let Some(mut open_driver) = host.take(alloc) else {
        return Placed::refused(codes::CLOSED);
    };
    let placed = open_driver.abort(ticket);
    *host = Handle::of(open_driver);
    placed
}
