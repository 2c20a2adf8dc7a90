//! Laws of a driver over its controller. Each law is the contract of an empty function.

ghost use Rattle.nvme_refinement.specs.Links.{BringUpIsAStep};
ghost use Rattle.nvme_refinement.specs.Steps.{
  OpeningIsSound,
  JudgedAsItsRequest,
  AllowedServesItsRequest,
  AnswersItsRequest,
  NothingToExecute,
  PostingHasRoom,
  PostingIsAStep,
  IoExecutionIsAStep,
  AdminJudgedAsItsRequest,
  AdminAnswersItsRequest,
  AdminExecutionIsAStep,
  ExecutionIsAStep,
  ExecutionIsAFleetStep,
  NoExecutionIsAFleetStep,
  RefusalIsAStep,
  PlaceIsAStep,
  RingIsAStep,
  FetchIsAStep,
  MarksAreSteps,
  PollIsAStep,
  ResetIsAStep,
};

/// A driver that never came up, with a controller that was never enabled, is sound, and is the mailbox of an opening.
pub fn opening_is_sound()
    ensures opening { OpeningIsSound }
{}

/// Each event of a driver and its controller is the step of their mailbox, and keeps them sound.
pub fn events_are_steps()
    ensures refused { RefusalIsAStep }
    ensures place { PlaceIsAStep }
    ensures ring { RingIsAStep }
    ensures fetch { FetchIsAStep }
    ensures marks { MarksAreSteps }
    ensures poll { PollIsAStep }
    ensures reset { ResetIsAStep }
{}

/// A driver that is down always comes up if its controller is off. Each call of its port is an event of the controller,
/// each turn is a fetch from the admin queue and an execution, and both queues are created. Together this is the step
/// of the mailbox. Access state and medium are unchanged.
#[tactic(auto, using(crate::proofs::RiseStep::bring_up_is_a_step))]
pub fn bringing_up_is_a_step()
    ensures up { BringUpIsAStep }
{}

/// Each answer of a controller to a command of its driver becomes the last answer of its lane (queue pair) in the
/// mailbox, with its data in the request's slot. There is always room for it, and each answer has a request. A command
/// is judged like its request, and its data pointer passes the rules. An allowed I/O command has the effect of its
/// request with the request's data, even if the medium fails; and each of its answers is a possible one of its request.
/// An admin command has the answer of its request, and the queues are unchanged. So an execution of a command of either
/// lane is the step of the mailbox.
#[tactic(auto, using(crate::proofs::AnswerStep::allowed_serves_its_request, crate::proofs::AnswerStep::answers_its_request, crate::proofs::PostStep::nothing_to_execute, crate::proofs::PostStep::posting_is_a_step, crate::proofs::ExecuteStep::io_execution_is_a_step, crate::proofs::ExecuteStep::admin_execution_is_a_step))]
pub fn postings_are_steps()
    ensures judged { JudgedAsItsRequest }
    ensures serves { AllowedServesItsRequest }
    ensures answers { AnswersItsRequest }
    ensures none { NothingToExecute }
    ensures room { PostingHasRoom }
    ensures posts { PostingIsAStep }
    ensures executes { IoExecutionIsAStep }
    ensures admin_judged { AdminJudgedAsItsRequest }
    ensures admin_answers { AdminAnswersItsRequest }
    ensures admin_executes { AdminExecutionIsAStep }
{}

/// An execution of any command that a controller fetched from its driver is the step of their mailbox. In a fleet with
/// this mailbox it is the fleet's step, and if there is no command, nothing changes.
#[tactic(auto, using(crate::proofs::ExecuteStep::execution_is_a_step, crate::proofs::ExecuteStep::execution_is_a_fleet_step, crate::proofs::ExecuteStep::no_execution_is_a_fleet_step))]
pub fn executions_are_steps()
    ensures mailbox { ExecutionIsAStep }
    ensures fleet { ExecutionIsAFleetStep }
    ensures idle { NoExecutionIsAFleetStep }
{}
