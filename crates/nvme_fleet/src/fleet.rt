//! The fleet, and one event of it.

ghost use Rattle.std.specs.Prelude.{
  ◌≡◌,
  ◌≤◌,
  ◌-◌,
  ◌/◌,
  ◌%◌,
  length,
  IfOk,
  IfErr,
  IfSome,
  IfNone,
  None,
  Some,
  [],
  unwrap_or,
  option_copied,
};
ghost use Rattle.std.specs.Option.{option_flatten};
ghost use Rattle.nvme_spec.specs.Configuration.{capacity, config_fault, first_config_fault};
ghost use Rattle.nvme_spec.specs.Limits.{most_bytes};
ghost use Rattle.nvme_spec.specs.MediumCalls.{MakesCalls};
ghost use Rattle.nvme_spec.specs.declared.config.ConfigFault.TheVariants.{NoMemory as WantOfMemory};
ghost use Rattle.nvme_spec.specs.World.{namespace_of};
ghost use Rattle.nvme_subsys.specs.Looking.{Looks, LooksBy, block_in};
ghost use Rattle.nvme_ns.specs.Configured.{configuration};
ghost use Rattle.nvme_machine.specs.Subsystems.{controller_at, controller_of};
ghost use Rattle.nvme_spec.specs.Execution.{no_marks};
ghost use Rattle.nvme_machine.specs.Bare as machine;
ghost use Rattle.nvme_spec.specs.declared.outcome.Marks.{Marks};
ghost use Rattle.nvme_event.specs.Bare.{marks_by, seen_of, seen_with};
ghost use Rattle.nvme_event.specs.Replies.{data_len};
ghost use Rattle.nvme_event.specs.declared.seen.FleetSeen.TheVariants.{Cycled};
ghost use Rattle.nvme_fleet.specs.FleetStates.{fleet_of, layers_of, opening_layers, data_in, reply_in, reaction_to};
ghost use Rattle.nvme_fleet.specs.Layers.{Applies, AppliesRaw, CallsAt, Cycles, Happens, driver_at, told as told_of};
ghost use Rattle.nvme_fleet.specs.LayerCalls.{AppliesCalling, HappensCalling};
ghost use Rattle.nvme_fleet.specs.Linked.{IsThere, controller_in};
ghost use Rattle.nvme_mailbox.specs.Fleets.{
  Is,
  Step,
  ExecutesAt,
  called,
  fetched_at,
  host_at,
  moment,
  opening,
  power_cycled,
};
ghost use Rattle.nvme_fleet.specs.RawEvents.{IsOfHost, raw_moment};

use crate::driver_call::{DriverCall, call_driver};
use crate::opening::{fault_of, rooms_of};
use crate::power::reset_all;
use nvme_ctrl::Controller;
use nvme_driver::Driver;
use nvme_event::{BareFleetSeen, FleetEvent, FleetSeen};
use nvme_machine::{BareSeen, Event};
use nvme_medium::Medium;
use nvme_ns::{MAX_BLOCKS, Spaces};
use nvme_spec::{Config, Marks, MediumFault};
use nvme_subsys::{NewFault, Subsystem};
use nvme_wire::NoMemory;
use std::alloc::Global;
use std::marker::Model;

/// Hosts over one subsystem: controller k is that of the k-th host, which has a driver, or is raw and has none.
/// Contracts see the record `FleetState`; its two layers, the subsystem and the drivers; the fleet of their mailboxes;
/// and the medium itself, whose steps say which calls are made.
#[derive(Drop)]
pub struct Fleet<M: Medium> {
    subsystem: Subsystem<M>,
    drivers: Vec<Option<Driver>>,
    buffer: Vec<u8>,
    filled: usize,
}

impl<M: Medium> Model for Fleet<M> {
    ghost use Rattle.nvme_subsys.specs.OverMedium.{OverMedium};
    ghost use Rattle.nvme_fleet.specs.FleetStates.{FleetState, IsSoundFleet};

    ghost Value = { OverMedium FleetState M };

    ghost view = { λ f. record {
      state = record {
        subsystem = f.subsystem.state;
        drivers = f.drivers.items;
        buffer = f.buffer.items;
        filled = f.filled;
      };
      medium = f.subsystem.medium;
    } };

    ghost invariant = { λ f.
        IsSoundFleet (record {
          subsystem = f.subsystem.state;
          drivers = f.drivers.items;
          buffer = f.buffer.items;
          filled = f.filled;
        }) };
}

/// The result of a subsystem's event as that of a fleet's, which has no reads of registers.
#[inline(always)]
fn told(seen: BareSeen) -> BareFleetSeen
    ensures seen { (marks : Marks) → seen_with marks result ≡ told_of (machine.seen_with marks seen) }
    ensures marks { (marks : Marks) → marks_by result marks ≡ machine.marks_by seen marks }
{
    match seen {
        BareSeen::Stored => BareFleetSeen::Stored,
        BareSeen::Outside => BareFleetSeen::Outside,
        BareSeen::Wrote | BareSeen::Value(_) => BareFleetSeen::Wrote,
        BareSeen::Fetched(fetched) => BareFleetSeen::Fetched(fetched),
        BareSeen::Executed(executed) => BareFleetSeen::Executed(executed),
        BareSeen::Cycled => BareFleetSeen::Cycled,
        BareSeen::NoController => BareFleetSeen::NoController,
    }
}

/// The driver of a controller's host, among those of all hosts in order.
fn driver_in(drivers: &[Option<Driver>], cntlid: u16) -> Option<&Driver>
    ensures { option_copied result ≡ option_flatten (driver_at drivers.now cntlid) }
{
    if cntlid == 0 {
        return None;
    }
    match drivers.get(usize::from(cntlid - 1)) {
        Some(driver) => driver.as_ref(),
        None => None,
    }
}

impl<M: Medium> Fleet<M> {
    /// Opens a configuration over a medium: nobody has registered, nothing is reserved or write protected, no
    /// controller was ever enabled, every window has zeros, and every driver is down. A namespace has at most 65,536
    /// blocks.
    ///
    /// # Errors
    ///
    /// The first fault of the configuration, else `NoMemory`; with the unchanged medium.
    pub fn new(alloc: Global, config: &Config, medium: M) -> Result<Fleet<M>, NewFault<M>>
        ensures opened { IfOk result
            (λ fleet. layers_of fleet.state ≡ opening_layers (configuration config.now) (M.device medium)) }
        ensures mailboxes { IfOk result
            (λ fleet. fleet_of fleet.state ≡ opening (configuration config.now) (M.device medium)) }
        ensures medium { IfOk result (λ fleet. fleet.medium ≡ medium) }
        ensures quiet { IfOk result (λ fleet. data_in fleet.state ≡ []) }
        ensures accepted { IfOk result (λ _. first_config_fault (configuration config.now) (M.size medium) ≡ None) }
        ensures fault { IfErr result
            (λ refused. refused.fault ≡ unwrap_or (first_config_fault (configuration config.now) (M.size medium))
            WantOfMemory) }
        ensures kept { IfErr result (λ refused. refused.medium ≡ medium) }
    {
        Fleet::within(alloc, config, MAX_BLOCKS, medium)
    }

    /// Opens a configuration as `new` does, except that a namespace may have up to `max_blocks` blocks.
    ///
    /// # Errors
    ///
    /// Those of `new`.
    pub fn within(
        alloc: Global,
        config: &Config,
        max_blocks: u64,
        medium: M,
    ) -> Result<Fleet<M>, NewFault<M>>
        ensures opened { IfOk result
            (λ fleet. layers_of fleet.state ≡ opening_layers (configuration config.now) (M.device medium)) }
        ensures mailboxes { IfOk result
            (λ fleet. fleet_of fleet.state ≡ opening (configuration config.now) (M.device medium)) }
        ensures medium { IfOk result (λ fleet. fleet.medium ≡ medium) }
        ensures quiet { IfOk result (λ fleet. data_in fleet.state ≡ []) }
        ensures accepted { IfOk result
            (λ _. config_fault (configuration config.now) (capacity max_blocks (M.size medium)) ≡ None) }
        ensures fault { IfErr result (λ refused. refused.fault
            ≡ unwrap_or (config_fault (configuration config.now) (capacity max_blocks (M.size medium))) WantOfMemory) }
        ensures kept { IfErr result (λ refused. refused.medium ≡ medium) }
    {
        match rooms_of(alloc, &config.controllers) {
            Ok(rooms) => Ok(Fleet {
                subsystem: Subsystem::within(alloc, config, max_blocks, medium)?,
                drivers: rooms.drivers,
                buffer: rooms.buffer,
                filled: 0,
            }),
            Err(NoMemory) => Err(NewFault {
                fault: fault_of(config, max_blocks, medium.blocks()),
                medium,
            }),
        }
    }

    /// The index of a controller.
    #[inline(always)]
    fn index_of(&self, cntlid: u16) -> Option<usize>
        ensures none { IfNone result (host_at (fleet_of self.now.state) cntlid ≡ None) }
        ensures absent { IfNone result (controller_at self.now.state.subsystem cntlid ≡ None) }
        ensures some { IfSome result (λ index. (index ≡ cntlid - 1) × IsThere self.now.state.subsystem cntlid) }
        ensures named { IfSome result (λ _. (controller_in self.now.state.subsystem (cntlid - 1)).cntlid ≡ cntlid) }
    {
        let Some(_controller) = self.subsystem.controller(cntlid) else {
            return None;
        };
        Some(usize::from(cntlid - 1))
    }

    /// Makes a call of a host's driver.
    #[inline(always)]
    fn call_driver(&mut self, cntlid: u16, call: DriverCall<'_>) -> BareFleetSeen
        ensures step { Is (called (fleet_of self.old.state) cntlid (reaction_to call.entry))
            (reply_in (seen_of result) self.new.state.buffer) (fleet_of self.new.state) }
        ensures below { CallsAt (driver_at self.old.state.drivers cntlid) M.tells (layers_of self.old.state) cntlid
            call.entry (seen_of result) (layers_of self.new.state) }
        ensures medium { self.new.medium ≡ self.old.medium }
        ensures fits { data_len (seen_of result) ≤ length self.new.state.buffer }
    {
        let Some(index) = self.index_of(cntlid) else {
            return BareFleetSeen::NoController;
        };
        call_driver(
            &mut self.drivers[index],
            &mut self.subsystem,
            cntlid,
            &mut self.buffer,
            call,
        )
    }

    /// A fetch of a controller.
    // Not inlined, nor are raw events: the compiler drops the hint from a function that would become very large, such
    // as `apply_bare`, which calls them.
    #[inline(never)]
    fn fetch(&mut self, cntlid: u16, qid: u16) -> BareFleetSeen
        ensures step { Is (fetched_at (host_at (fleet_of self.old.state) cntlid) (fleet_of self.old.state) cntlid qid)
            (reply_in (seen_of result) self.new.state.buffer) (fleet_of self.new.state) }
        ensures below { Applies M.tells (layers_of self.old.state) (Event.Fetch cntlid qid) (seen_of result)
            (layers_of self.new.state) }
        ensures medium { self.new.medium ≡ self.old.medium }
        ensures fits { data_len (seen_of result) ≤ length self.new.state.buffer }
    {
        // Tested first, as in a step of the mailboxes.
        let Some(_index) = self.index_of(cntlid) else {
            return BareFleetSeen::NoController;
        };
        told(self.subsystem.react(Event::Fetch(cntlid, qid)))
    }

    /// An execution of a controller, and its marks.
    #[inline(always)]
    fn execute(&mut self, cntlid: u16, i: usize, marks: &mut Marks) -> BareFleetSeen
        requires unmarked { marks.old ≡ no_marks }
        ensures step { ExecutesAt (host_at (fleet_of self.old.state) cntlid) M.tells (fleet_of self.old.state) cntlid i
            (reply_in (seen_with marks.new result) self.new.state.buffer) (fleet_of self.new.state) }
        ensures below { Applies M.tells (layers_of self.old.state) (Event.Execute cntlid i) (seen_with marks.new result)
            (layers_of self.new.state) }
        ensures calls { MakesCalls M.step (AppliesCalling M.tells (layers_of self.old.state) (Event.Execute cntlid i)
            (seen_with marks.new result) (layers_of self.new.state)) self.old.medium self.new.medium }
        ensures marks { marks.new ≡ marks_by result marks.new }
        ensures fits { data_len (seen_with marks.new result) ≤ length self.new.state.buffer }
    {
        let Some(_index) = self.index_of(cntlid) else {
            return BareFleetSeen::NoController;
        };
        told(self.subsystem.execute_into(cntlid, i, marks))
    }

    /// A store or a register write of a raw host.
    #[inline(always)]
    fn apply_raw(&mut self, cntlid: u16, event: Event<'_>) -> BareFleetSeen
        requires own { controller_of event ≡ cntlid }
        requires host { IsOfHost event }
        ensures step { Is (raw_moment (fleet_of self.old.state) event.entry)
            (reply_in (seen_of result) self.new.state.buffer) (fleet_of self.new.state) }
        ensures below { AppliesRaw (driver_at self.old.state.drivers cntlid) M.tells (layers_of self.old.state)
            event.entry (seen_of result) (layers_of self.new.state) }
        ensures medium { self.new.medium ≡ self.old.medium }
        ensures fits { data_len (seen_of result) ≤ length self.new.state.buffer }
    {
        let Some(index) = self.index_of(cntlid) else {
            return BareFleetSeen::NoController;
        };
        if self.drivers[index].is_some() {
            return BareFleetSeen::NotRaw;
        }
        told(self.subsystem.react(event))
    }

    /// A store of a raw host.
    // This function and the next are separate, so that the compiler knows the possible results of each.
    #[inline(never)]
    fn store_raw(&mut self, cntlid: u16, address: u64, bytes: &[u8]) -> BareFleetSeen
        ensures step { Is (raw_moment (fleet_of self.old.state) (Event.Store cntlid address bytes.entry))
            (reply_in (seen_of result) self.new.state.buffer) (fleet_of self.new.state) }
        ensures below { AppliesRaw (driver_at self.old.state.drivers cntlid) M.tells (layers_of self.old.state)
            (Event.Store cntlid address bytes.entry) (seen_of result) (layers_of self.new.state) }
        ensures medium { self.new.medium ≡ self.old.medium }
        ensures fits { data_len (seen_of result) ≤ length self.new.state.buffer }
    {
        self.apply_raw(cntlid, Event::Store(cntlid, address, bytes))
    }

    /// A register write of a raw host.
    #[inline(never)]
    fn write_raw(&mut self, cntlid: u16, offset: u64, value: u32) -> BareFleetSeen
        ensures step { Is (raw_moment (fleet_of self.old.state) (Event.Write32 cntlid offset value))
            (reply_in (seen_of result) self.new.state.buffer) (fleet_of self.new.state) }
        ensures below { AppliesRaw (driver_at self.old.state.drivers cntlid) M.tells (layers_of self.old.state)
            (Event.Write32 cntlid offset value) (seen_of result) (layers_of self.new.state) }
        ensures medium { self.new.medium ≡ self.old.medium }
        ensures fits { data_len (seen_of result) ≤ length self.new.state.buffer }
    {
        self.apply_raw(cntlid, Event::Write32(cntlid, offset, value))
    }

    /// Power is lost in the subsystem, and returns; then each driver resets its controller.
    #[inline(never)]
    fn power_cycle(&mut self) -> BareFleetSeen
        ensures step { Is (moment (power_cycled (fleet_of self.old.state)) Cycled)
            (reply_in (seen_of result) self.new.state.buffer) (fleet_of self.new.state) }
        ensures below { Cycles M.tells (layers_of self.old.state) (seen_of result) (layers_of self.new.state) }
        ensures medium { self.new.medium ≡ self.old.medium }
        ensures fits { data_len (seen_of result) ≤ length self.new.state.buffer }
    {
        self.subsystem.react(Event::PowerCycle);
        reset_all(&mut self.drivers, &mut self.subsystem);
        BareFleetSeen::Cycled
    }

    /// Applies one event of its host, or of all; if there is no such controller, or its host is of the other kind,
    /// nothing happens.
    #[tactic(auto, using(nvme_event::proofs::Unmarked::nothing_marked))]
    #[inline(always)]
    fn apply_bare(&mut self, event: FleetEvent<'_>, marks: &mut Marks) -> BareFleetSeen
        requires unmarked { marks.old ≡ no_marks }
        ensures step { Step M.tells (fleet_of self.old.state) event.entry
            (reply_in (seen_with marks.new result) self.new.state.buffer) (fleet_of self.new.state) }
        ensures below { Happens M.tells (layers_of self.old.state) event.entry (seen_with marks.new result)
            (layers_of self.new.state) }
        ensures calls { MakesCalls M.step (HappensCalling M.tells (layers_of self.old.state) event.entry
            (seen_with marks.new result) (layers_of self.new.state)) self.old.medium self.new.medium }
        ensures marks { marks.new ≡ marks_by result marks.new }
        ensures fits { data_len (seen_with marks.new result) ≤ length self.new.state.buffer }
    {
        match event {
            FleetEvent::BringUp(cntlid) => self.call_driver(cntlid, DriverCall::BringUp),
            FleetEvent::Place(cntlid, request) => self.call_driver(
                cntlid,
                DriverCall::Place(request),
            ),
            FleetEvent::Ring(cntlid) => self.call_driver(cntlid, DriverCall::Ring),
            FleetEvent::Fetch(cntlid, qid) => self.fetch(cntlid, qid),
            FleetEvent::Execute(cntlid, i) => self.execute(cntlid, i, marks),
            FleetEvent::Poll(cntlid) => self.call_driver(cntlid, DriverCall::Poll),
            FleetEvent::Reset(cntlid) => self.call_driver(cntlid, DriverCall::Reset),
            FleetEvent::RawStore(cntlid, address, bytes) => {
                self.store_raw(cntlid, address, bytes)
            }
            FleetEvent::RawWrite32(cntlid, offset, value) => {
                self.write_raw(cntlid, offset, value)
            }
            FleetEvent::PowerCycle => self.power_cycle(),
        }
    }

    /// Applies one event: the step of the fleet of mailboxes, and exactly these events of the subsystem. One that is
    /// refused, or has nothing to do, leaves both layers unchanged. An execution makes the calls of its command on the
    /// medium; other events make no calls.
    #[inline(always)]
    pub fn apply(&mut self, event: FleetEvent<'_>) -> FleetSeen
        ensures step { Step M.tells (fleet_of self.old.state) event.entry
            (record { seen = result; bytes = data_in self.new.state }) (fleet_of self.new.state) }
        ensures below { Happens M.tells (layers_of self.old.state) event.entry result (layers_of self.new.state) }
        ensures calls { MakesCalls M.step (HappensCalling M.tells (layers_of self.old.state) event.entry result
            (layers_of self.new.state)) self.old.medium self.new.medium }
    {
        let mut marks = Marks::none();
        let seen = self.apply_into(event, &mut marks);
        seen.with(marks)
    }

    /// Applies one event as `apply` does, and writes the marks of an execution to `marks`, which must be empty: a list
    /// of sixteen hosts is costly to move.
    #[inline(always)]
    pub fn apply_into(&mut self, event: FleetEvent<'_>, marks: &mut Marks) -> BareFleetSeen
        requires unmarked { marks.old ≡ no_marks }
        ensures step { Step M.tells (fleet_of self.old.state) event.entry
            (record { seen = seen_with marks.new result; bytes = data_in self.new.state }) (fleet_of self.new.state) }
        ensures below { Happens M.tells (layers_of self.old.state) event.entry (seen_with marks.new result)
            (layers_of self.new.state) }
        ensures calls { MakesCalls M.step (HappensCalling M.tells (layers_of self.old.state) event.entry
            (seen_with marks.new result) (layers_of self.new.state)) self.old.medium self.new.medium }
        ensures marks { marks.new ≡ marks_by result marks.new }
    {
        let seen = self.apply_bare(event, marks);
        self.filled = seen.data_len();
        seen
    }

    /// The data of the last event, if that was a poll with data; else nothing.
    pub fn data(&self) -> &[u8]
        ensures value { result.now ≡ data_in self.now.state }
        ensures few { length result.now ≤ most_bytes }
    {
        &self.buffer[..self.filled]
    }

    /// The controller with an identifier, if there is one.
    pub fn controller(&self, cntlid: u16) -> Option<&Controller>
        ensures none { IfNone result (controller_at self.now.state.subsystem cntlid ≡ None) }
        ensures some { IfSome result
            (λ controller. controller_at self.now.state.subsystem cntlid ≡ Some controller.now) }
    {
        self.subsystem.controller(cntlid)
    }

    /// The access state.
    pub fn spaces(&self) -> &Spaces
        ensures { result.now ≡ self.now.state.subsystem.world }
    {
        self.subsystem.spaces()
    }

    /// The driver of a controller's host; none if there is no such controller, or its host is raw.
    pub fn driver(&self, cntlid: u16) -> Option<&Driver>
        ensures { option_copied result ≡ option_flatten (driver_at self.now.state.drivers cntlid) }
    {
        driver_in(&self.drivers, cntlid)
    }

    /// Reads blocks of a namespace from the medium onto the buffer, in rising order, up to the first fault; the rest of
    /// the buffer is unchanged. Returns `None` if there is no such namespace, or it does not have all of these blocks;
    /// then the medium is not called, and the buffer is unchanged. The data of the last event are unchanged as well.
    pub fn read_blocks(
        &mut self,
        nsid: u32,
        slba: u64,
        buffer: &mut [u8],
    ) -> Option<Result<(), MediumFault>>
        requires whole { length buffer.old % 512 ≡ 0 }
        ensures look { Looks M.tells (block_in (namespace_of self.old.state.subsystem.world nsid) slba
            (length buffer.old / 512)) self.old.state.subsystem buffer.new result self.new.state.subsystem }
        ensures calls { LooksBy M.step M.tells self.old.state.subsystem.device.content
            (block_in (namespace_of self.old.state.subsystem.world nsid) slba (length buffer.old / 512))
            (length buffer.old / 512) buffer.old buffer.new self.old.medium result self.new.medium }
        ensures drivers { self.new.state.drivers ≡ self.old.state.drivers }
        ensures data { data_in self.new.state ≡ data_in self.old.state }
        ensures rest { self.new.state ≡ record self.old.state { subsystem = self.new.state.subsystem } }
    {
        self.subsystem.read_blocks(nsid, slba, buffer)
    }

    /// The medium, as the commands have left it.
    pub fn into_medium(self) -> M
        ensures medium { result ≡ self.medium }
        ensures device { M.device result ≡ self.state.subsystem.device }
    {
        self.subsystem.into_medium()
    }
}
