//! What a handle owns: a driver, its port, and what it knows of its device.

ghost use Rattle.std.specs.Prelude.{◌≡◌, ◌<◌, ◌≤◌, length, position, IfSome};
ghost use Rattle.nvme_driver.specs.Layout.{slot_count};
ghost use Rattle.nvme_spec.specs.Limits.{most_bytes};
ghost use Rattle.nvme_driver.specs.declared.request.Request.TheVariants.{Identify};
ghost use Rattle.nvme_host.specs.Calls.{
  IsNew,
  Polling,
  Placing,
  Commanding,
  Asking,
  Ringing,
  Resetting,
  ShuttingDown,
  Expiring,
  TakingActions,
  bears_live,
  waits,
};
ghost use Rattle.nvme_driver.specs.HostCommands.{asked_by_host};
ghost use Rattle.nvme_host.specs.DeviceCommands.{live_slot};
ghost use Rattle.nvme_host.specs.Refusals.{blocked_by, stopped_by, identifier_refusal, request_refusal};

use crate::codes;
use crate::devices::admission_code;
use crate::doorbells::CC;
use crate::facts::{DeviceFacts, HIGHEST_NSID, needs_identifier};
use crate::outcome::{Outcome, Placed};
use crate::recording_port::{Action, RecordingPort};
use crate::stage::Stage;
use nvme_device::{Capabilities, Span};
use nvme_driver::{Driver, HostCommand, Port, Request, Waiting};
use nvme_mem::Window;
use nvme_spec::Command;

/// The number of requests that can wait for their answers.
const SLOTS: usize = 24;

/// EN with the entry sizes of the driver, and a normal shutdown in SHN.
const SHUTTING_DOWN: u32 = 0x0046_4001;

/// Whether a slot holds a request with this ticket that was not aborted.
fn bears_live(slot: &Option<Waiting>, ticket: u64) -> bool
    ensures { result ≡ bears_live ticket slot.now }
{
    match slot {
        Some(waiting) => waiting.live && waiting.ticket.0 == ticket,
        None => false,
    }
}

/// Whether a request with this ticket waits, and was not aborted.
fn waits(slots: &[Option<Waiting>], ticket: u64) -> bool
    ensures { result ≡ waits ticket slots.now }
{
    slots.iter().any(|slot| bears_live(slot, ticket))
}

/// The first slot that holds a request with this ticket that was not aborted.
fn bearing(slots: &[Option<Waiting>], ticket: u64) -> Option<usize>
    ensures { result ≡ position (λ x. bears_live ticket x) slots.now }
{
    slots.iter().position(|slot| bears_live(slot, ticket))
}

/// A driver, its port, the stage of its controller, and what it knows of its device.
#[derive(Drop)]
pub struct OpenDriver {
    pub driver: Driver,
    pub port: RecordingPort,
    pub stage: Stage,
    pub capabilities: Option<Capabilities>,
    pub facts: DeviceFacts,
}

impl OpenDriver {
    /// A driver that is down, with this first ticket.
    pub(crate) fn new(window: Window, first: u64) -> OpenDriver
        ensures { IsNew window first result }
    {
        OpenDriver {
            driver: Driver::starting_at(first),
            port: RecordingPort::over(window),
            stage: Stage::Unknown,
            capabilities: None,
            facts: DeviceFacts::none(),
        }
    }

    /// Why no call is made now: actions are pending.
    pub(crate) fn blocked(&self) -> Option<u32>
        ensures { result ≡ blocked_by self.now }
    {
        self.port.is_pending().then_some(codes::ACTIONS_PENDING)
    }

    /// Why no request is sent now: actions are pending, or the controller does not run.
    pub(crate) fn stopped(&self) -> Option<u32>
        ensures { result ≡ stopped_by self.now }
    {
        if self.port.is_pending() {
            return Some(codes::ACTIONS_PENDING);
        }
        self.stage.refusal()
    }

    /// Why a request on a namespace is not sent now.
    pub(crate) fn request_refusal(&self, nsid: u32, command: Command, span: Span) -> Option<u32>
        ensures { result ≡ request_refusal self.now nsid command span }
    {
        if let Some(code) = self.stopped() {
            return Some(code);
        }
        if let Some(code) = admission_code(self.facts.admission(nsid, command, span)) {
            return Some(code);
        }
        self.identifier_refusal(command)
    }

    /// Why a command is not sent before the controller has the identifier of this host.
    fn identifier_refusal(&self, command: Command) -> Option<u32>
        ensures { result ≡ identifier_refusal self.now.facts command }
    {
        if needs_identifier(command) && !self.facts.host_identified {
            return Some(codes::NO_HOST_IDENTIFIER);
        }
        None
    }

    /// Places a request, unless it is refused for this reason.
    #[inline(always)]
    pub(crate) fn place(&mut self, refusal: Option<u32>, request: &Request<'_>) -> Placed
        ensures { Placing refusal self.old request.now result self.new }
    {
        match refusal {
            Some(code) => Placed::refused(code),
            None => Placed::of(self.driver.place(&mut self.port, request)),
        }
    }

    /// Places a command that is no request, unless it is refused for this reason; `identifies` if it sets the
    /// identifier of this host.
    pub(crate) fn place_command(
        &mut self,
        refusal: Option<u32>,
        identifies: bool,
        command: &HostCommand<'_>,
    ) -> Placed
        ensures { Commanding refusal self.old identifies (asked_by_host command.now) result self.new }
    {
        if let Some(code) = refusal {
            return Placed::refused(code);
        }
        let placed = Placed::of(self.driver.place_command(&mut self.port, command));
        self.facts.record_command(&placed, identifies);
        placed
    }

    /// The slot of the request with this ticket that waits and was not aborted.
    pub(crate) fn live_slot(&self, ticket: u64) -> Option<usize>
        ensures slot { result ≡ live_slot ticket self.now.driver.slots }
        ensures bound { IfSome result (λ slot. slot < slot_count) }
    {
        match bearing(self.driver.slots(), ticket) {
            Some(slot) if slot < SLOTS => Some(slot),
            _ => None,
        }
    }

    /// Places an Identify.
    pub(crate) fn identify(&mut self, cns: u8, nsid: u32) -> Placed
        ensures { Placing (stopped_by self.old) self.old (Identify cns nsid) result self.new }
    {
        let refusal = self.stopped();
        self.place(refusal, &Request::Identify { cns, nsid })
    }

    /// Places the question about the controller, if `nsid` is 0, or about a namespace.
    pub(crate) fn ask(&mut self, nsid: u32) -> Placed
        ensures { Asking self.old nsid result self.new }
    {
        if nsid > HIGHEST_NSID {
            return Placed::refused(codes::NSID_TOO_HIGH);
        }
        let cns = u8::from(nsid == 0);
        let placed = self.identify(cns, nsid);
        self.facts.record_question(&placed, nsid);
        placed
    }

    #[inline(always)]
    pub(crate) fn ring(&mut self) -> u32
        ensures { Ringing self.old result self.new }
    {
        if let Some(code) = self.stopped() {
            return code;
        }
        match self.driver.ring(&mut self.port) {
            Ok(()) => codes::OK,
            Err(_) => codes::NOT_UP,
        }
    }

    #[inline(always)]
    #[tactic(auto, using(crate::proofs::Windows::polls_its_window))]
    pub(crate) fn poll(&mut self, buffer: &mut [u8]) -> Outcome
        requires { most_bytes ≤ length buffer.old }
        ensures { Polling self.old buffer.old result self.new buffer.new }
    {
        if let Some(code) = self.blocked() {
            return Outcome::with_code(code);
        }
        let outcome = Outcome::of(self.driver.poll_into(&mut self.port, buffer));
        self.facts.learn(&outcome, buffer);
        outcome
    }

    /// Resets the controller: all requests that were not delivered are aborted, and nothing is known any more.
    pub(crate) fn reset(&mut self) -> u32
        ensures { Resetting self.old result self.new }
    {
        if let Some(code) = self.blocked() {
            return code;
        }
        self.driver.reset(&mut self.port);
        self.port.forget();
        self.stage = Stage::Disabling;
        self.facts = DeviceFacts::none();
        codes::OK
    }

    /// Shuts the controller down.
    pub(crate) fn shut_down(&mut self) -> u32
        ensures { ShuttingDown self.old result self.new }
    {
        if let Some(code) = self.stopped() {
            return code;
        }
        self.port.write32(CC, SHUTTING_DOWN);
        self.stage = Stage::ShuttingDown;
        codes::OK
    }

    /// The time of the request with this ticket is over: no request is sent before a reset.
    pub(crate) fn expire(&mut self, ticket: u64) -> u32
        ensures { Expiring self.old ticket result self.new }
    {
        if let Some(code) = self.stopped() {
            return code;
        }
        if !waits(self.driver.slots(), ticket) {
            return codes::NOT_WAITING;
        }
        self.stage = Stage::Expired;
        codes::OK
    }

    /// Takes the actions.
    #[inline(always)]
    pub(crate) fn take_actions(&mut self, actions: &mut [Action]) -> usize
        ensures { TakingActions self.old actions.old result actions.new self.new }
    {
        self.port.take_actions(actions)
    }
}
