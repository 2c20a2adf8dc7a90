//! The subsystem, its events, and runs of events.

ghost use Rattle.std.specs.Prelude.{
  ◌≡◌,
  ◌<◌,
  ◌≤◌,
  ◌+◌,
  ◌/◌,
  ◌%◌,
  length,
  Some,
  IfOk,
  IfErr,
  OnErr,
  IfSome,
  IfNone,
  None,
  unwrap_or,
};
ghost use Rattle.std.specs.Fn.{FnOnceReturnsAtMut};
ghost use Rattle.nvme_spec.specs.Configuration.{capacity, config_fault, first_config_fault};
ghost use Rattle.nvme_spec.specs.declared.config.ConfigFault.TheVariants.{NoMemory as WantOfMemory};
ghost use Rattle.nvme_spec.specs.MediumCalls.{MakesCalls};
ghost use Rattle.nvme_ns.specs.Configured.{configuration};
ghost use Rattle.nvme_spec.specs.World.{namespace_of};
ghost use Rattle.nvme_subsys.specs.Looking.{Looks, LooksBy, block_in};
ghost use Rattle.nvme_spec.specs.Execution.{no_marks};
ghost use Rattle.nvme_machine.specs.Bare.{executed_with, marks_by, marks_by_executed, seen_of, seen_with};
ghost use Rattle.nvme_machine.specs.Controllers.{after_store, wrote, has_read, after_fetch};
ghost use Rattle.nvme_machine.specs.Subsystems.{
  opening,
  controller_at,
  Reacts,
  ExecutesAt,
  Step,
  Run,
  after_power_cycle,
};
ghost use Rattle.nvme_machine.specs.declared.seen.Seen.TheVariants.{Cycled};
ghost use Rattle.nvme_machine.specs.EventCalls.{CallingAt, AreCallsOfStep, AreCallsOfRun, ExecutesNothing};
ghost use Rattle.nvme_machine.specs.Needs.{need_at};
ghost use Rattle.nvme_subsys.specs.OverMedium.{over};

use crate::looking::block_in;
use crate::marking::mark_after;
use crate::needing::need_of;
use crate::opening::{NewFault, controllers_of};
use crate::power::power_cycle_all;
use crate::reacting;
use nvme_ctrl::Controller;
use nvme_machine::{BareExecuted, BareSeen, Event, Need, Seen};
use nvme_medium::{Medium, MediumFault, read_blocks};
use nvme_ns::{MAX_BLOCKS, Spaces};
use nvme_spec::{Config, ConfigFault, Marks};
use nvme_wire::NoMemory;
use std::alloc::Global;
use std::marker::Model;

/// Controllers over one access state and one medium. Contracts see a record of these, and the medium itself, whose
/// steps say which calls are made.
#[derive(Drop)]
pub struct Subsystem<M: Medium> {
    spaces: Spaces,
    medium: M,
    controllers: Vec<Controller>,
}

impl<M: Medium> Model for Subsystem<M> {
    ghost use Rattle.nvme_machine.specs.Subsystems.{Subsystem as State};
    ghost use Rattle.nvme_subsys.specs.OverMedium.{OverMedium};
    ghost use Rattle.nvme_subsys.specs.Sound.{IsSound};

    ghost Value = { OverMedium State M };

    ghost view = { λ s. record {
      state = record { world = s.spaces; device = M.device s.medium; controllers = s.controllers.items };
      medium = s.medium;
    } };

    ghost invariant = { λ s. IsSound s.spaces (M.size s.medium) s.controllers.items };
}

impl<M: Medium> Subsystem<M> {
    /// Opens a configuration over a medium: no host has registered, nothing is reserved or write protected, no
    /// controller was ever enabled, and every window has zeros. The configuration is checked before memory is taken.
    ///
    /// # Errors
    ///
    /// The first fault of the configuration, else `NoMemory`; with the unchanged medium.
    pub fn new(alloc: Global, config: &Config, medium: M) -> Result<Subsystem<M>, NewFault<M>>
        ensures opened { IfOk result
            (λ subsystem. subsystem ≡ over (opening (configuration config.now) (M.device medium)) medium) }
        ensures accepted { IfOk result (λ _. first_config_fault (configuration config.now) (M.size medium) ≡ None) }
        ensures fault { IfErr result
            (λ refused. refused.fault ≡ unwrap_or (first_config_fault (configuration config.now) (M.size medium))
            WantOfMemory) }
        ensures kept { IfErr result (λ refused. refused.medium ≡ medium) }
    {
        Subsystem::within(alloc, config, MAX_BLOCKS, medium)
    }

    /// Opens a configuration as `new` does, except that a namespace may have up to `max_blocks` blocks.
    ///
    /// # Errors
    ///
    /// Those of `new`.
    pub fn within(
        alloc: Global,
        config: &Config,
        max_blocks: u64,
        medium: M,
    ) -> Result<Subsystem<M>, NewFault<M>>
        ensures opened { IfOk result
            (λ subsystem. subsystem ≡ over (opening (configuration config.now) (M.device medium)) medium) }
        ensures accepted { IfOk result
            (λ _. config_fault (configuration config.now) (capacity max_blocks (M.size medium)) ≡ None) }
        ensures fault { IfErr result (λ refused. refused.fault
            ≡ unwrap_or (config_fault (configuration config.now) (capacity max_blocks (M.size medium))) WantOfMemory) }
        ensures kept { IfErr result (λ refused. refused.medium ≡ medium) }
    {
        let spaces = match Spaces::within(config, max_blocks, medium.blocks()) {
            Ok(spaces) => spaces,
            Err(fault) => return Err(NewFault { fault, medium }),
        };
        match controllers_of(alloc, &config.controllers) {
            Ok(controllers) => Ok(Subsystem {
                spaces,
                medium,
                controllers,
            }),
            Err(NoMemory) => Err(NewFault {
                fault: ConfigFault::NoMemory,
                medium,
            }),
        }
    }

    /// The medium, as the commands have left it.
    pub fn into_medium(self) -> M
        ensures medium { result ≡ self.medium }
        ensures device { M.device result ≡ self.state.device }
    {
        self.medium
    }

    /// Changes the medium by `change`, instead of by calls. `change` must keep the size of the medium.
    #[inline(always)]
    pub fn change_medium<R, F: FnOnce(&mut M) -> R>(&mut self, change: F) -> R
        requires callable { F.IsAlwaysCallable change }
        requires size { (old new : M) → (r : R) → FnOnceReturnsAtMut F.FnOnce change old r new
            → M.size new ≡ M.size old }
        ensures medium { FnOnceReturnsAtMut F.FnOnce change self.old.medium result self.new.medium }
        ensures state { self.new.state ≡ record self.old.state { device = M.device self.new.medium } }
        ensures before { self.old.state.device ≡ M.device self.old.medium }
    {
        change(&mut self.medium)
    }

    /// The access state.
    pub fn spaces(&self) -> &Spaces
        ensures { result.now ≡ self.now.state.world }
    {
        &self.spaces
    }

    /// Reads blocks of a namespace from the medium onto the buffer, in rising order, up to the first fault; the rest of
    /// the buffer is unchanged. Returns `None` if there is no such namespace, or it does not have all of these blocks;
    /// then the medium is not called, and the buffer is unchanged.
    pub fn read_blocks(
        &mut self,
        nsid: u32,
        slba: u64,
        buffer: &mut [u8],
    ) -> Option<Result<(), MediumFault>>
        requires whole { length buffer.old % 512 ≡ 0 }
        ensures look { Looks M.tells (block_in (namespace_of self.old.state.world nsid) slba (length buffer.old / 512))
            self.old.state buffer.new result self.new.state }
        ensures calls { LooksBy M.step M.tells self.old.state.device.content
            (block_in (namespace_of self.old.state.world nsid) slba (length buffer.old / 512))
            (length buffer.old / 512) buffer.old buffer.new self.old.medium result self.new.medium }
    {
        let namespace = self.spaces.namespace(nsid)?;
        let size = self.medium.blocks();
        let first = block_in(namespace, slba, buffer.len() as u64 / 512, size)?;
        Some(read_blocks(&mut self.medium, first, buffer))
    }

    /// The number of controllers; their identifiers count from 1.
    pub fn controller_count(&self) -> u16
        ensures count { result ≡ length self.now.state.controllers }
        ensures few { result ≤ 16 }
    {
        self.controllers.len() as u16
    }

    /// The controller with an identifier, if there is one.
    #[inline(always)]
    pub fn controller(&self, cntlid: u16) -> Option<&Controller>
        ensures none { IfNone result (controller_at self.now.state cntlid ≡ None) }
        ensures some { IfSome result (λ controller. controller_at self.now.state cntlid ≡ Some controller.now) }
        ensures named { IfSome result (λ controller. controller.now.cntlid ≡ cntlid) }
    {
        let Some(index) = self.index_of(cntlid) else {
            return None;
        };
        Some(&self.controllers[index])
    }

    /// What the `i`-th command, from 0, that a controller has fetched needs of the medium if it is executed now: its
    /// execution makes no other calls (`calls_are_foreseen`). A command that does not exist needs nothing. Makes no
    /// call of the medium.
    pub fn need(&self, cntlid: u16, i: usize) -> Need
        ensures { result ≡ need_at self.now.state cntlid i }
    {
        let Some(controller) = self.controller(cntlid) else {
            return Need::Nothing;
        };
        match controller.fetched().get(i) {
            Some(command) => need_of(&self.spaces, self.medium.blocks(), cntlid, command),
            None => Need::Nothing,
        }
    }

    /// The index of a controller in the list.
    #[inline(always)]
    fn index_of(&self, cntlid: u16) -> Option<usize>
        ensures none { IfNone result (controller_at self.now.state cntlid ≡ None) }
        ensures some { IfSome result (λ index. (cntlid ≡ index + 1) × (index < length self.now.state.controllers)) }
    {
        if cntlid == 0 {
            return None;
        }
        let index = usize::from(cntlid - 1);
        if index >= self.controllers.len() {
            return None;
        }
        Some(index)
    }

    /// Applies one event to its controller, or to all; if there is no such controller, nothing happens. An execution
    /// makes the calls of its command on the medium; other events make no calls.
    #[inline(always)]
    pub fn apply(&mut self, event: Event) -> Seen
        ensures step { Step M.tells self.old.state event.entry result self.new.state }
        ensures calls { MakesCalls M.step
            (AreCallsOfStep M.tells self.old.state event.entry result self.new.state) self.old.medium self.new.medium }
    {
        match event {
            Event::Execute(cntlid, i) => self.execute(cntlid, i),
            _ => self.react(event).with(Marks::none()),
        }
    }

    /// Applies an event other than an execution. It makes no call of the medium and marks nothing.
    #[inline(always)]
    pub fn react(&mut self, event: Event) -> BareSeen
        requires quiet { ExecutesNothing event }
        ensures step { Step M.tells self.old.state event.entry (seen_of result) self.new.state }
        ensures medium { self.new.medium ≡ self.old.medium }
    {
        match event {
            Event::Store(cntlid, address, bytes) => self.store(cntlid, address, bytes),
            Event::Write32(cntlid, offset, value) => self.write32(cntlid, offset, value),
            Event::Read32(cntlid, offset) => self.read32(cntlid, offset),
            Event::Fetch(cntlid, qid) => self.fetch(cntlid, qid),
            Event::Execute(_, _) => unreachable!(),
            Event::PowerCycle => self.power_cycle(),
        }
    }

    /// Executes the fetched command at place `i` of a controller.
    #[inline(always)]
    fn execute(&mut self, cntlid: u16, i: usize) -> Seen
        ensures executes { ExecutesAt (controller_at self.old.state cntlid) M.tells self.old.state cntlid i result
            self.new.state }
        ensures calls { MakesCalls M.step
            (CallingAt (controller_at self.old.state cntlid) M.tells self.old.state cntlid i result self.new.state)
            self.old.medium self.new.medium }
    {
        let mut marks = Marks::none();
        let seen = self.execute_into(cntlid, i, &mut marks);
        seen.with(marks)
    }

    #[inline(always)]
    fn store(&mut self, cntlid: u16, address: u64, bytes: &[u8]) -> BareSeen
        ensures reacts { Reacts self.old.state cntlid (after_store address bytes.now) (seen_of result) self.new.state }
        ensures medium { self.new.medium ≡ self.old.medium }
    {
        let Some(index) = self.index_of(cntlid) else {
            return BareSeen::NoController;
        };
        reacting::store(&mut self.controllers[index], address, bytes)
    }

    #[inline(always)]
    fn write32(&mut self, cntlid: u16, offset: u64, value: u32) -> BareSeen
        ensures reacts { Reacts self.old.state cntlid (wrote offset value) (seen_of result) self.new.state }
        ensures medium { self.new.medium ≡ self.old.medium }
    {
        let Some(index) = self.index_of(cntlid) else {
            return BareSeen::NoController;
        };
        reacting::write32(&mut self.controllers[index], offset, value)
    }

    #[inline(always)]
    fn read32(&self, cntlid: u16, offset: u64) -> BareSeen
        ensures { Reacts self.now.state cntlid (has_read offset) (seen_of result) self.now.state }
    {
        let Some(index) = self.index_of(cntlid) else {
            return BareSeen::NoController;
        };
        reacting::read32(&self.controllers[index], offset)
    }

    #[inline(always)]
    fn fetch(&mut self, cntlid: u16, qid: u16) -> BareSeen
        ensures reacts { Reacts self.old.state cntlid (after_fetch qid) (seen_of result) self.new.state }
        ensures medium { self.new.medium ≡ self.old.medium }
    {
        let Some(index) = self.index_of(cntlid) else {
            return BareSeen::NoController;
        };
        reacting::fetch(&mut self.controllers[index], qid)
    }

    /// Executes the fetched command at place `i` of a controller, and writes its marks to `marks`, which must be empty.
    /// They are not in the result, since a list of sixteen hosts is costly to move.
    #[inline(always)]
    pub fn execute_into(&mut self, cntlid: u16, i: usize, marks: &mut Marks) -> BareSeen
        requires unmarked { marks.old ≡ no_marks }
        ensures executes { ExecutesAt (controller_at self.old.state cntlid) M.tells self.old.state cntlid i
            (seen_with marks.new result) self.new.state }
        ensures calls { MakesCalls M.step (CallingAt (controller_at self.old.state cntlid) M.tells self.old.state
            cntlid i (seen_with marks.new result) self.new.state) self.old.medium self.new.medium }
        ensures marks { marks.new ≡ marks_by result marks.new }
    {
        let Some(index) = self.index_of(cntlid) else {
            return BareSeen::NoController;
        };
        BareSeen::Executed(self.execute_at(index, i, marks))
    }

    /// Applies a power cycle: power is lost, and returns.
    #[tactic(auto, unfolding(nvme_machine::specs::Subsystems::after_power_cycle))]
    #[inline(never)]
    fn power_cycle(&mut self) -> BareSeen
        ensures cycled { seen_of result ≡ Cycled }
        ensures state { self.new.state ≡ after_power_cycle self.old.state }
        ensures medium { self.new.medium ≡ self.old.medium }
    {
        self.spaces.power_cycle();
        power_cycle_all(&mut self.controllers);
        BareSeen::Cycled
    }

    /// The controller at an index executes a command, and the controllers of the hosts that the command removes are
    /// marked.
    #[inline(always)]
    fn execute_at(&mut self, index: usize, i: usize, marks: &mut Marks) -> BareExecuted
        requires there { index < length self.old.state.controllers }
        requires unmarked { marks.old ≡ no_marks }
        ensures executes { ExecutesAt (controller_at self.old.state (index + 1)) M.tells self.old.state (index + 1) i
            (Seen.Executed (executed_with marks.new result)) self.new.state }
        ensures calls { MakesCalls M.step
            (CallingAt (controller_at self.old.state (index + 1)) M.tells self.old.state (index + 1) i
            (Seen.Executed (executed_with marks.new result)) self.new.state) self.old.medium self.new.medium }
        ensures marks { marks.new ≡ marks_by_executed result marks.new }
    {
        let executed = self.controllers[index].execute_into(
            i,
            &mut self.spaces,
            &mut self.medium,
            marks,
        );
        mark_after(&mut self.controllers, &self.spaces, executed, marks);
        executed
    }
}

impl<M: Medium> Subsystem<M> {
    /// Applies events in order, and returns their results. It takes memory before the first event, and calls the medium
    /// exactly as the events do.
    ///
    /// # Errors
    ///
    /// `NoMemory` if memory for the results is refused; then nothing has happened.
    pub fn run(&mut self, alloc: Global, events: &[Event]) -> Result<Vec<Seen>, NoMemory>
        ensures ran { IfOk result (λ seen. Run M.tells self.old.state events.now seen.items self.new.state) }
        ensures calls { IfOk result (λ seen. MakesCalls M.step
            (AreCallsOfRun M.tells self.old.state events.now seen.items self.new.state) self.old.medium
            self.new.medium) }
        ensures unchanged { OnErr result (self.new ≡ self.old) }
    {
        let mut seen = Vec::with_capacity(alloc, events.len())?;
        for event in events {
            seen.push_reserved(self.apply(*event));
        }
        Ok(seen)
    }
}
