//! What a handle owns: a subsystem, and a list for the marks of its executions.

ghost use Rattle.std.specs.Prelude.{◌≡◌, ◌%◌, ◌/◌, true, length, None, Some, IfNone, IfSome, IfOk, IfErr, OnErr};
ghost use Rattle.nvme_spec.specs.World.{namespace_of};
ghost use Rattle.nvme_lent.specs.Bringing.{IsRefused};
ghost use Rattle.nvme_lent.specs.OwnOrLent.{bytes_of, step_of};
ghost use Rattle.nvme_machine.specs.Bare.{seen_of};
ghost use Rattle.nvme_machine.specs.EventCalls.{ExecutesNothing};
ghost use Rattle.nvme_machine.specs.Needs.{need_at};
ghost use Rattle.nvme_machine.specs.Subsystems.{Step, controller_at};
ghost use Rattle.nvme_subsys.specs.Looking.{Looks, LooksBy, block_in};
ghost use Rattle.nvme_library.specs.Events.{Executing};
ghost use Rattle.nvme_library.specs.Over.{ExecutingOver};

use nvme_brought::Room;
use nvme_ctrl::Controller;
use nvme_lent::{NotBrought, OwnOrLent};
use nvme_machine::BareSeen;
use nvme_medium::MediumFault;
use nvme_ns::Spaces;
use nvme_spec::Marks;
use nvme_subsys::{Event, Need, Subsystem};
use std::marker::Model;

/// An open subsystem. Contracts see only the subsystem. The list for marks is empty between calls; it is kept here
/// since making one costs as much as a fetch.
#[derive(Drop)]
pub struct Held {
    subsystem: Subsystem<OwnOrLent>,
    marks: Marks,
}

impl Model for Held {
    ghost use Rattle.std.specs.Prelude.{◌≡◌};
    ghost use Rattle.nvme_lent.specs.declared.either.OwnOrLent.{OwnOrLent as Blocks};
    ghost use Rattle.nvme_machine.specs.Subsystems.{Subsystem as State};
    ghost use Rattle.nvme_spec.specs.Execution.{no_marks};
    ghost use Rattle.nvme_subsys.specs.OverMedium.{OverMedium};

    ghost Value = { OverMedium State Blocks };

    ghost view = { λ h. h.subsystem };

    ghost invariant = { λ h. h.marks ≡ no_marks };
}

impl Held {
    /// This subsystem.
    pub(crate) fn of(subsystem: Subsystem<OwnOrLent>) -> Held
        ensures { result ≡ subsystem }
    {
        Held {
            subsystem,
            marks: Marks::none(),
        }
    }

    /// Applies an event other than an execution.
    #[inline(always)]
    pub(crate) fn react(&mut self, event: Event) -> BareSeen
        requires quiet { ExecutesNothing event }
        ensures step { Step true self.old.state event.entry (seen_of result) self.new.state }
        ensures medium { self.new.medium ≡ self.old.medium }
    {
        self.subsystem.react(event)
    }

    /// A controller executes a command.
    #[inline(always)]
    pub(crate) fn execute(&mut self, cntlid: u16, i: usize) -> BareSeen
        ensures { Executing cntlid i self.old result self.new }
    {
        let seen = self.subsystem.execute_into(cntlid, i, &mut self.marks);
        self.marks.nsid = 0;
        self.marks.hosts.clear();
        seen
    }

    /// A controller executes a command over the blocks of a room, which is returned as the command has left it. If the
    /// medium does not take the room, nothing has changed.
    pub(crate) fn execute_over(
        &mut self,
        cntlid: u16,
        i: usize,
        room: Room,
    ) -> Result<(BareSeen, Room), NotBrought>
        ensures executed { IfOk result (λ done. ExecutingOver cntlid i room self.old done.0 done.1 self.new) }
        ensures refused { IfErr result (λ why. IsRefused room self.old.medium why) }
        ensures unchanged { OnErr result (self.new ≡ self.old) }
    {
        let _ = self
            .subsystem
            .change_medium(|medium: &mut OwnOrLent| medium.bring(room))?;
        let seen = self.execute(cntlid, i);
        let left = self
            .subsystem
            .change_medium(|medium: &mut OwnOrLent| medium.take_room());
        Ok((seen, left))
    }

    /// The controller with an identifier, if there is one.
    #[inline(always)]
    pub(crate) fn controller(&self, cntlid: u16) -> Option<&Controller>
        ensures none { IfNone result (controller_at self.now.state cntlid ≡ None) }
        ensures some { IfSome result (λ controller. controller_at self.now.state cntlid ≡ Some controller.now) }
    {
        self.subsystem.controller(cntlid)
    }

    /// What a command that a controller has fetched needs of the medium.
    #[inline(always)]
    pub(crate) fn need(&self, cntlid: u16, i: usize) -> Need
        ensures { result ≡ need_at self.now.state cntlid i }
    {
        self.subsystem.need(cntlid, i)
    }

    /// The access state.
    #[inline(always)]
    pub(crate) fn spaces(&self) -> &Spaces
        ensures { result.now ≡ self.now.state.world }
    {
        self.subsystem.spaces()
    }

    /// Reads blocks of a namespace from the medium.
    #[inline(always)]
    pub(crate) fn read_blocks(
        &mut self,
        nsid: u32,
        slba: u64,
        buffer: &mut [u8],
    ) -> Option<Result<(), MediumFault>>
        requires whole { length buffer.old % 512 ≡ 0 }
        ensures look { Looks true (block_in (namespace_of self.old.state.world nsid) slba (length buffer.old / 512))
            self.old.state buffer.new result self.new.state }
        ensures calls { LooksBy step_of true self.old.state.device.content
            (block_in (namespace_of self.old.state.world nsid) slba (length buffer.old / 512))
            (length buffer.old / 512) buffer.old buffer.new self.old.medium result self.new.medium }
    {
        self.subsystem.read_blocks(nsid, slba, buffer)
    }

    /// The medium, as the commands have left it.
    pub(crate) fn into_medium(self) -> OwnOrLent
        ensures medium { result ≡ self.medium }
        ensures content { bytes_of result ≡ self.state.device.content }
    {
        self.subsystem.into_medium()
    }
}
