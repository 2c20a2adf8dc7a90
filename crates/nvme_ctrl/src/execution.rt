//! Executes a fetched command.

ghost use Rattle.std.specs.Prelude.{◌≡◌, ◌<◌, slice_get};
ghost use Rattle.nvme_spec.specs.Execution.{scene, no_marks};
ghost use Rattle.nvme_spec.specs.AdminEffects as admin;
ghost use Rattle.nvme_spec.specs.MediumCalls.{MakesCalls};
ghost use Rattle.nvme_exec.specs.Carrying.{CanExecute};
ghost use Rattle.nvme_machine.specs.Controllers.{queues_of};
ghost use Rattle.nvme_machine.specs.Bare.{executed_with, marks_by_executed};
ghost use Rattle.nvme_machine.specs.CommandExecutions.{CommandComesTo};
ghost use Rattle.nvme_machine.specs.Executing.{setting, ExecutesNth};
ghost use Rattle.nvme_machine.specs.Calling.{AreCallsOfExecution, AreCallsNth};
ghost use Rattle.nvme_ctrl.specs.Executions.{LiesInMemory, execution_of};

use crate::controller::Controller;
use nvme_admin::execute_admin;
use nvme_exec::execute_into;
use nvme_machine::{BareExecuted, BareOutcome, Executed, FetchedCommand};
use nvme_medium::Medium;
use nvme_ns::Spaces;
use nvme_spec::{Marks, QueueChange};
use nvme_wire::Status;

/// The answer of an executed command without its marks, and the change of the queues.
#[derive(Clone, Copy, Debug)]
pub struct Performed {
    status: Status,
    dw0: u32,
    rule: u8,
    change: QueueChange,
}

/// The i-th of the fetched commands.
fn command_at(commands: &[FetchedCommand], i: usize) -> Option<FetchedCommand>
    ensures { result ≡ slice_get commands.now i }
{
    commands.get(i).copied()
}

impl Controller {
    /// Executes the `i`-th of its fetched commands, on the access state and the medium, and posts its completion. If
    /// there is no such command, or its completion queue is full, it returns that and changes nothing. The data for the
    /// host are in its memory before the completion.
    ///
    /// The controller must be configured, all namespaces must be within the medium, and every registrant must be a
    /// controller's host; all of this holds again afterwards.
    #[inline(always)]
    pub fn execute<M: Medium>(&mut self, i: usize, spaces: &mut Spaces, medium: &mut M) -> Executed
        requires ready { CanExecute spaces.old (M.size medium.old) self.old.cntlid }
        ensures executed { ExecutesNth M.tells i
            (setting self.old spaces.old (M.device medium.old)) result
            (setting self.new spaces.new (M.device medium.new)) }
        ensures calls { MakesCalls M.step (AreCallsNth M.tells i
            (setting self.old spaces.old (M.device medium.old)) result
            (setting self.new spaces.new (M.device medium.new))) medium.old medium.new }
        ensures ready { CanExecute spaces.new (M.size medium.new) self.new.cntlid }
        ensures controllers { spaces.new.controllers ≡ spaces.old.controllers }
        ensures size { M.size medium.new ≡ M.size medium.old }
        ensures cntlid { self.new.cntlid ≡ self.old.cntlid }
    {
        let mut marks = Marks::none();
        let executed = self.execute_into(i, spaces, medium, &mut marks);
        executed.with(marks)
    }

    /// Executes a command as `execute` does, and writes its marks to `marks`, which must be empty, and stays so if no
    /// completion is posted: a list of sixteen hosts is costly to move.
    #[inline(always)]
    pub fn execute_into<M: Medium>(
        &mut self,
        i: usize,
        spaces: &mut Spaces,
        medium: &mut M,
        marks: &mut Marks,
    ) -> BareExecuted
        requires unmarked { marks.old ≡ no_marks }
        requires ready { CanExecute spaces.old (M.size medium.old) self.old.cntlid }
        ensures executed { ExecutesNth M.tells i
            (setting self.old spaces.old (M.device medium.old)) (executed_with marks.new result)
            (setting self.new spaces.new (M.device medium.new)) }
        ensures calls { MakesCalls M.step (AreCallsNth M.tells i
            (setting self.old spaces.old (M.device medium.old)) (executed_with marks.new result)
            (setting self.new spaces.new (M.device medium.new))) medium.old medium.new }
        ensures marks { marks.new ≡ marks_by_executed result marks.new }
        ensures ready { CanExecute spaces.new (M.size medium.new) self.new.cntlid }
        ensures controllers { spaces.new.controllers ≡ spaces.old.controllers }
        ensures size { M.size medium.new ≡ M.size medium.old }
        ensures cntlid { self.new.cntlid ≡ self.old.cntlid }
    {
        let Some(command) = command_at(&self.fetched, i) else {
            return BareExecuted::NoSuch;
        };
        let Some(pair) = self.open_pair(&command) else {
            return BareExecuted::CqFull;
        };
        let answered = self.perform(&command, spaces, medium, marks);
        self.post(i, &command, pair, answered.status, answered.dw0);
        self.change_queues(answered.change);
        BareExecuted::Posted(BareOutcome {
            status: answered.status,
            dw0: answered.dw0,
            rule: answered.rule,
        })
    }

    /// Executes a command: an admin command if it came from queue 0, else an I/O command. Writes its marks to `marks`,
    /// which must be empty.
    #[inline(always)]
    fn perform<M: Medium>(
        &mut self,
        command: &FetchedCommand,
        spaces: &mut Spaces,
        medium: &mut M,
        marks: &mut Marks,
    ) -> Performed
        requires unmarked { marks.old ≡ no_marks }
        requires ready { CanExecute spaces.old (M.size medium.old) self.old.cntlid }
        ensures answers { CommandComesTo M.tells (queues_of self.old) self.old.cntlid command.now
            (scene spaces.old self.old.window (M.device medium.old))
            (execution_of result marks.new (scene spaces.new self.new.window (M.device medium.new))) }
        ensures calls { MakesCalls M.step (AreCallsOfExecution self.old.cntlid command.now
            (scene spaces.old self.old.window (M.device medium.old))
            (execution_of result marks.new (scene spaces.new self.new.window (M.device medium.new))))
            medium.old medium.new }
        ensures rest { self.new ≡ record self.old { window = self.new.window } }
        ensures fits { result.status.sct < 8 }
        ensures placed { LiesInMemory result.change }
        ensures ready { CanExecute spaces.new (M.size medium.new) self.new.cntlid }
        ensures controllers { spaces.new.controllers ≡ spaces.old.controllers }
        ensures size { M.size medium.new ≡ M.size medium.old }
    {
        if command.queue == 0 {
            return self.perform_admin(command, spaces);
        }
        let completed = execute_into(
            spaces,
            medium,
            &mut self.window,
            self.cntlid,
            &command.entry,
            command.marked,
            marks,
        );
        Performed {
            status: completed.status,
            dw0: 0,
            rule: completed.rule,
            change: QueueChange::Keep,
        }
    }

    /// Executes an admin command, which marks nothing.
    // Not inlined, so that I/O commands do not pay for its locals.
    #[inline(never)]
    fn perform_admin(&mut self, command: &FetchedCommand, spaces: &mut Spaces) -> Performed
        ensures executed { admin.admin_execution spaces.old (queues_of self.old) self.old.cntlid command.now.entry
            self.old.window
            ≡ record {
              status = result.status;
              dw0 = result.dw0;
              rule = result.rule;
              change = result.change;
              world = spaces.new;
              window = self.new.window;
            } }
        ensures rest { self.new ≡ record self.old { window = self.new.window } }
    {
        let answer = execute_admin(
            spaces,
            &self.queues(),
            &mut self.window,
            self.cntlid,
            &command.entry,
        );
        Performed {
            status: answer.status,
            dw0: answer.dw0,
            rule: answer.rule,
            change: answer.change,
        }
    }
}
