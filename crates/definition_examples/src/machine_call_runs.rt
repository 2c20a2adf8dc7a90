//! Executions, and what their answers tell of the calls that they made.

ghost use Rattle.std.specs.Prelude.{◌≡◌, ◌≢◌, [], ◌∷◌, List, Ok, Err};
ghost use Rattle.nvme_spec.specs.declared.command.Command.TheVariants as command;
ghost use Rattle.nvme_spec.specs.declared.medium.MediumFault.{MediumFault};
ghost use Rattle.nvme_spec.specs.declared.verdict.Verdict.TheVariants.{Allowed};
ghost use Rattle.nvme_spec.specs.Commands.{plan_of};
ghost use Rattle.nvme_spec.specs.IoData.{io_verdict};
ghost use Rattle.nvme_spec.specs.MediumCalls.{MediumCall, Flushes};
ghost use Rattle.nvme_spec.specs.Statuses as status;
ghost use Rattle.nvme_machine.specs.declared.need.Need.TheVariants as need;
ghost use Rattle.nvme_machine.specs.AllowedCalls.{IsOneFlush};
ghost use Rattle.nvme_machine.specs.CommandExecutions.{judgement};
ghost use Rattle.nvme_machine.specs.Controllers.{queues_of};
ghost use Rattle.nvme_machine.specs.Examples.{a_compare, a_flush, a_read, a_write};
ghost use Rattle.nvme_machine.specs.NeededCalls.{AreWhole, StopComparing, StopReading, StopWriting};
ghost use Rattle.nvme_machine.specs.Runs.{Waits};
ghost use Rattle.nvme_machine.specs.Subsystems.{scene_of};
ghost use Rattle.definition_examples.specs.MachineCallRuns.{
  AnyCallsAreInOrder,
  AnyCommandIsOneFlush,
  AnyRuleCallsNothing,
  AnyStatusIsWhole,
  AnyStatusStopsComparing,
  AnyStatusStopsReading,
  AnyStatusStopsWriting,
  AnyVerdictIsNoSuccess,
  Makes,
  NothingIsCalledUnless,
  OrderAtWork,
  both_written,
  caller,
  calling,
  first_read,
  io_queues,
  outcome_with,
  protected_calling,
  protected_outcome,
  protection_denial,
  second_not_read,
  second_not_written,
  sent_blocks,
};

/// SuccessIsWhole: a Write that succeeds has written both blocks. A Compare that fails has read one of two.
fn machine_calls_of_a_success()
    ensures write { Makes (calling (a_write ∷ [])) (need.Write 0 2) sent_blocks
        (outcome_with status.successful_completion) both_written }
    ensures whole { AreWhole (need.Write 0 2) sent_blocks both_written }
    ensures any_status { AnyStatusIsWhole → ⊥ }
{}

/// WriteFaultNamesTheFront: the second write of a Write fails. A Compare writes nothing.
fn machine_calls_of_a_write_fault()
    ensures write { (fault : MediumFault) → Makes (calling (a_write ∷ [])) (need.Write 0 2) sent_blocks
        (outcome_with status.write_fault) (second_not_written fault) }
    ensures stops { (fault : MediumFault) → StopWriting (need.Write 0 2) sent_blocks (second_not_written fault) }
    ensures any_status { AnyStatusStopsWriting → ⊥ }
{}

/// ReadErrorNamesTheFront: the second read of a Read fails. A Write reads nothing.
fn machine_calls_of_a_read_error()
    ensures read { (fault : MediumFault) → Makes (calling (a_read ∷ [])) (need.Read 0 2) sent_blocks
        (outcome_with status.unrecovered_read_error) (second_not_read fault) }
    ensures stops { (fault : MediumFault) → StopReading (need.Read 0 2) (second_not_read fault) }
    ensures any_status { AnyStatusStopsReading → ⊥ }
{}

/// CompareFailureNamesTheFront: the first block of a Compare differs, and its second one is not read.
fn machine_calls_of_a_compare_failure()
    ensures compare { Makes (calling (a_compare ∷ [])) (need.Read 0 2) sent_blocks (outcome_with status.compare_failure)
        first_read }
    ensures stops { StopComparing (need.Read 0 2) first_read }
    ensures any_status { AnyStatusStopsComparing → ⊥ }
{}

/// OtherAnswersCallNothing: a Write of a protected namespace is denied. Commands with one of the four statuses make
/// calls.
fn machine_calls_of_another_answer()
    ensures write { Makes (protected_calling (a_write ∷ [])) need.Nothing sent_blocks protected_outcome [] }
    ensures nothing { (calls : List MediumCall) → Makes (protected_calling (a_write ∷ [])) need.Nothing sent_blocks
        protected_outcome calls → calls ≡ [] }
    ensures unless_it_succeeds { NothingIsCalledUnless (status.write_fault ∷ status.unrecovered_read_error
        ∷ status.compare_failure ∷ []) → ⊥ }
    ensures unless_a_write_fails { MediumFault → NothingIsCalledUnless (status.successful_completion
        ∷ status.unrecovered_read_error ∷ status.compare_failure ∷ []) → ⊥ }
    ensures unless_a_read_fails { MediumFault → NothingIsCalledUnless (status.successful_completion
        ∷ status.write_fault ∷ status.compare_failure ∷ []) → ⊥ }
    ensures unless_a_block_differs { NothingIsCalledUnless (status.successful_completion
        ∷ status.write_fault ∷ status.unrecovered_read_error ∷ []) → ⊥ }
{}

/// DenialCallsNothing: the same Write is denied by rule 8. A Write that no rule denies makes calls.
fn machine_calls_of_a_denial()
    ensures nothing { (calls : List MediumCall) → Makes (protected_calling (a_write ∷ [])) need.Nothing sent_blocks
        protected_outcome calls → calls ≡ [] }
    ensures any_rule { AnyRuleCallsNothing → ⊥ }
{}

/// FlushReachesTheMedium: a Flush is one flush of the medium, which succeeds or fails. A Write makes other calls.
fn machine_calls_of_a_flush()
    ensures waits { Waits (calling (a_flush ∷ [])) 1 0 (caller (a_flush ∷ [])) a_flush io_queues }
    ensures allowed { io_verdict (calling (a_flush ∷ [])).world 1 a_flush.entry a_flush.marked sent_blocks
        ≡ Allowed (plan_of command.Flush a_flush.entry) }
    ensures done { Makes (calling (a_flush ∷ [])) need.Flush [] (outcome_with status.successful_completion)
        (Flushes (Ok tt) ∷ []) }
    ensures failed { (fault : MediumFault) → Makes (calling (a_flush ∷ [])) need.Flush []
        (outcome_with status.write_fault) (Flushes (Err fault) ∷ []) }
    ensures one_done { IsOneFlush (outcome_with status.successful_completion) (Flushes (Ok tt) ∷ []) }
    ensures one_failed { (fault : MediumFault) → IsOneFlush (outcome_with status.write_fault)
        (Flushes (Err fault) ∷ []) }
    ensures any_command { AnyCommandIsOneFlush → ⊥ }
{}

/// CallsAreInOrder: the calls of a Write come before the flush of the Flush that is executed after it. A power cycle
/// makes no call.
fn machine_calls_in_order()
    ensures at_work { OrderAtWork }
    ensures any_calls { AnyCallsAreInOrder → ⊥ }
{}

/// DeniedIsNoSuccess: a Write of a protected namespace has another status. A Write that is allowed succeeds.
fn machine_status_of_a_denied_write()
    ensures waits { Waits (protected_calling (a_write ∷ [])) 1 0 (caller (a_write ∷ [])) a_write io_queues }
    ensures denied { judgement (queues_of (caller (a_write ∷ []))) 1 a_write
        (scene_of (protected_calling (a_write ∷ [])) (caller (a_write ∷ []))) ≡ Err protection_denial }
    ensures no_success { protected_outcome.status ≢ status.successful_completion }
    ensures any_verdict { AnyVerdictIsNoSuccess → ⊥ }
{}
