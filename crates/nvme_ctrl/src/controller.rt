//! The controller, with the operations of its host.

ghost use Rattle.std.specs.Prelude.{◌≡◌, IfOk};
ghost use Rattle.nvme_spec.specs.Registers.{value_at};
ghost use Rattle.nvme_machine.specs.Controllers.{new_controller, power_cycled, submission_at, completion_at};

use crate::completion_queue::CompletionQueue;
use crate::slots::{none, queue_at};
use crate::submission_queue::SubmissionQueue;
use arrayvec::ArrayVec;
use nvme_machine::FetchedCommand;
use nvme_mem::Window;
use nvme_regs::Registers;
use nvme_wire::NoMemory;
use std::alloc::Global;
use std::marker::Model;

/// A controller: its identifier (CNTLID), registers, queues, fetched commands, and the window of host memory. Contracts
/// see it as the record `Controller` of these.
#[derive(Drop)]
pub struct Controller {
    pub(crate) cntlid: u16,
    pub(crate) registers: Registers,
    pub(crate) submission: [Option<SubmissionQueue>; 5],
    pub(crate) completion: [Option<CompletionQueue>; 5],
    pub(crate) fetched: ArrayVec<FetchedCommand, 64>,
    pub(crate) window: Window,
}

impl Model for Controller {
    ghost use Rattle.nvme_machine.specs.Controllers.{Controller as State};

    ghost Value = { State };

    ghost view = { λ c. record {
      cntlid = c.cntlid;
      registers = c.registers;
      submission = c.submission;
      completion = c.completion;
      fetched = c.fetched.items;
      window = c.window;
    } };
}

impl Controller {
    /// A controller that was never enabled, over a window of zeros.
    ///
    /// # Errors
    ///
    /// `NoMemory` if memory for the window is refused.
    pub fn new(alloc: Global, cntlid: u16) -> Result<Controller, NoMemory>
        ensures { IfOk result (λ controller. controller ≡ new_controller cntlid) }
    {
        Ok(Controller {
            cntlid,
            registers: Registers::new(),
            submission: none(),
            completion: none(),
            fetched: ArrayVec::new(),
            window: Window::new(alloc)?,
        })
    }

    /// The submission queue with an identifier, if there is one.
    pub fn submission_queue(&self, qid: u16) -> Option<SubmissionQueue>
        ensures { result ≡ submission_at self.now qid }
    {
        queue_at(&self.submission, qid)
    }

    /// The completion queue with an identifier, if there is one.
    pub fn completion_queue(&self, qid: u16) -> Option<CompletionQueue>
        ensures { result ≡ completion_at self.now qid }
    {
        queue_at(&self.completion, qid)
    }

    /// The commands that were fetched and not yet executed, in the order of their fetches.
    pub fn fetched(&self) -> &[FetchedCommand]
        ensures { result.now ≡ self.now.fetched }
    {
        self.fetched.as_slice()
    }

    /// Power is lost, and returns: the controller is as new, and its host's memory stays.
    pub fn power_cycle(&mut self)
        ensures { self.new ≡ power_cycled self.old }
    {
        self.registers = Registers::new();
        self.submission = none();
        self.completion = none();
        self.fetched.clear();
    }

    /// The value of the register at `offset`, or 0 if there is none.
    pub fn read32(&self, offset: u64) -> u32
        ensures { result ≡ value_at self.now.registers offset }
    {
        self.registers.read32(offset)
    }
}
