//! Brings a controller up.

ghost use Rattle.std.specs.Prelude.{◌≡◌, ◌<◌, ◌≤◌, ◌+◌, ℕ, MatchOption, Ok, Err, true, false};
ghost use Rattle.nvme_spec.specs.Queues.{submission_room};
ghost use Rattle.nvme_spec.specs.Limits.{memory_page};
ghost use Rattle.nvme_spec.specs.Memory.{window_size};
ghost use Rattle.nvme_driver.specs.Calls.{Stores, Calls};
ghost use Rattle.nvme_driver.specs.Drivers.{is_down as down};
ghost use Rattle.nvme_driver.specs.Rises.{
  start_calls,
  is_ready as ready,
  started,
  own_fields,
  create_completion_queue,
  create_submission_queue,
  Awaits,
  own_of as spec_own_of,
  sent,
  send_calls,
  heard_own,
  heard_calls,
  Creates,
  fault_of,
  risen_state,
  Rises,
  zero_page as zeros,
};

use super::Driver;
use crate::ends::Ends;
use crate::faults::UpFault;
use crate::found::{is_success, next_if_new};
use crate::lane::Lane;
use crate::layout::{PAGE, SLOTS};
use crate::port::Port;
use crate::register;
use crate::state::State;
use nvme_spec::AdminCommand;
use nvme_wire::{Cqe, Sqe, SqeFields, Status};

/// The number of turns that the device has to answer one of the driver's own commands.
const TURNS: u8 = 4;

/// The identifier of the driver's own commands, which is that of no slot.
const OWN_CID: u16 = SLOTS as u16;

/// A command of the driver's own, which creates a queue at `base`.
fn creating(opcode: u8, base: u64, cdw10: u32, cdw11: u32) -> SqeFields
    ensures { result ≡ own_fields opcode base cdw10 cdw11 }
{
    SqeFields {
        opcode,
        cid: OWN_CID,
        nsid: 0,
        prp1: base,
        prp2: 0,
        cdw10,
        cdw11,
        cdw12: 0,
        cdw13: 0,
        cdw14: 0,
        cdw15: 0,
    }
}

/// Creates the I/O completion queue, with identifier 1, of 32 entries.
fn completion_queue() -> SqeFields
    ensures { result ≡ create_completion_queue }
{
    let base = Lane::Io.completion_queue();
    creating(
        AdminCommand::CreateCompletionQueue.opcode(),
        base,
        0x001f_0001,
        1,
    )
}

/// Creates the I/O submission queue, with identifier 1 and 8 entries, for completion queue 1.
fn submission_queue() -> SqeFields
    ensures { result ≡ create_submission_queue }
{
    let base = Lane::Io.submission_queue();
    creating(
        AdminCommand::CreateSubmissionQueue.opcode(),
        base,
        0x0007_0001,
        0x0001_0001,
    )
}

/// The answer to the driver's own command, if a new completion of the admin lane (queue pair) is it.
fn own_of(ends: Ends, seen: Option<Cqe>) -> Option<Cqe>
    ensures { result ≡ spec_own_of ends seen }
{
    let entry = seen?;
    let is_own = entry.sq_id() == Lane::Admin.queue_id()
        && entry.cid() == OWN_CID
        && entry.sq_head() == ends.tail();
    is_own.then_some(entry)
}

/// Fills a page of the window with zeros.
#[tactic(auto, unfolding(crate::specs::Rises::zero_page))]
fn zero_page<P: Port>(port: &mut P, address: u64)
    requires { address + memory_page ≤ window_size }
    ensures step { P.step port.old (Stores address zeros) port.new }
    ensures links { P.links port.new ≡ P.links port.old }
{
    port.store(address, &[0; PAGE]);
}

/// Waits for the answer to the driver's own command, for at most four turns.
fn await_answer<P: Port>(port: &mut P, ends: Ends) -> Option<Cqe>
    ensures awaits { Awaits P.step ends 4 port.old result port.new }
    ensures links { P.links port.new ≡ P.links port.old }
{
    for _ in 0..TURNS {
        port.turn();
        let seen = next_if_new(port, Lane::Admin, ends);
        if let Some(entry) = own_of(ends, seen) {
            return Some(entry);
        }
    }
    None
}

/// The fault of the answer to one of the driver's own commands, unless it succeeded.
fn judge(answer: Option<Status>) -> Result<(), UpFault>
    ensures { MatchOption (fault_of answer) (result ≡ Ok tt) (λ fault. result ≡ Err fault) }
{
    let Some(status) = answer else {
        return Err(UpFault::NoAnswer);
    };
    if !is_success(status) {
        return Err(UpFault::Refused(status));
    }
    Ok(())
}

impl Driver {
    /// Enables the controller with empty queues, and returns whether it is ready.
    fn start<P: Port>(&mut self, port: &mut P) -> bool
        ensures calls { (value : ℕ) × (result ≡ ready value) × Calls P.step port.old (start_calls value) port.new }
        ensures driver { self.new ≡ started self.old }
        ensures links { P.links port.new ≡ P.links port.old }
    {
        port.write32(register::CC, 0);
        zero_page(port, Lane::Admin.submission_queue());
        zero_page(port, Lane::Admin.completion_queue());
        zero_page(port, Lane::Io.submission_queue());
        zero_page(port, Lane::Io.completion_queue());
        port.write32(register::AQA, register::ADMIN_SIZES);
        port.write32(register::ASQ_LOW, Lane::Admin.submission_queue() as u32);
        port.write32(register::ASQ_HIGH, 0);
        port.write32(register::ACQ_LOW, Lane::Admin.completion_queue() as u32);
        port.write32(register::ACQ_HIGH, 0);
        self.admin = Ends::new();
        self.io = Ends::new();
        port.write32(register::CC, register::ENABLING);
        port.read32(register::CSTS) % 2 == 1
    }

    /// Puts and rings one of the driver's own commands.
    fn send<P: Port>(&mut self, port: &mut P, command: SqeFields)
        requires { 0 < submission_room self.old.admin.tail }
        ensures driver { self.new ≡ sent self.old }
        ensures calls { Calls P.step port.old (send_calls self.old.admin command) port.new }
        ensures links { P.links port.new ≡ P.links port.old }
    {
        let place = Lane::Admin.submission_queue() + 64 * u64::from(self.admin.tail());
        port.store(place, &Sqe::from(command).to_bytes());
        self.admin.put();
        port.write32(Lane::Admin.tail_doorbell(), u32::from(self.admin.tail()));
    }

    /// Consumes the answer to one of the driver's own commands.
    fn hear_own<P: Port>(&mut self, port: &mut P, entry: Cqe)
        ensures driver { self.new ≡ heard_own self.old entry }
        ensures calls { Calls P.step port.old (heard_calls self.old.admin entry) port.new }
        ensures links { P.links port.new ≡ P.links port.old }
    {
        self.admin.consume(entry.sq_head());
        port.write32(Lane::Admin.head_doorbell(), u32::from(self.admin.head()));
    }

    /// Sends one of the driver's own commands to the controller, and returns the status of its answer, if one came.
    fn create<P: Port>(&mut self, port: &mut P, command: SqeFields) -> Option<Status>
        requires { 0 < submission_room self.old.admin.tail }
        ensures room { submission_room self.old.admin.tail ≤ submission_room self.new.admin.tail + 1 }
        ensures keeps { self.new ≡ record self.old { admin = self.new.admin } }
        ensures creates { Creates P.step command self.old port.old result self.new port.new }
        ensures links { P.links port.new ≡ P.links port.old }
    {
        self.send(port, command);
        let Some(entry) = await_answer(port, self.admin) else {
            return None;
        };
        self.hear_own(port, entry);
        Some(entry.status())
    }

    /// Brings the controller up, and creates the I/O queues. The device gets at most eight turns.
    ///
    /// # Errors
    ///
    /// `AlreadyUp` if the driver is up or has failed: nothing changes then. `NotReady`, `NoAnswer` or `Refused` if the
    /// controller does not become ready, or does not create the queues: the driver is then down.
    pub fn bring_up<P: Port>(&mut self, port: &mut P) -> Result<(), UpFault>
        ensures already { down self.old.state ≡ false
            → (result ≡ Err UpFault.AlreadyUp) × (self.new ≡ self.old) × (port.new ≡ port.old) }
        ensures rises { down self.old.state ≡ true → Rises P.step self.old port.old result self.new port.new }
        ensures state { down self.old.state ≡ true → self.new.state ≡ risen_state result }
        ensures keeps { (self.new.slots ≡ self.old.slots) × (self.new.next ≡ self.old.next) }
        ensures links { P.links port.new ≡ P.links port.old }
    {
        if !matches!(self.state, State::Down) {
            return Err(UpFault::AlreadyUp);
        }
        if !self.start(port) {
            return Err(UpFault::NotReady);
        }
        judge(self.create(port, completion_queue()))?;
        judge(self.create(port, submission_queue()))?;
        self.state = State::Up;
        Ok(())
    }
}
