//! Laws of the calls that a command makes of a medium.

ghost use Rattle.nvme_spec.specs.CallLaws.{
  ExecutionsHaveCalls,
  PassingCallsAreUnique,
  PassingCallsExist,
  DeniedIsNoSuccess,
  FlushedIsOneFlush,
};

/// Each execution has calls. Over a medium that reveals its content, without faults, they are one list, and leave the
/// content of the execution.
#[tactic(auto, using(crate::proofs::CallLaws::executions_have_calls, crate::proofs::CallLaws::passing_calls_are_unique))]
fn calls_are_determined()
    ensures exists { ExecutionsHaveCalls }
    ensures unique { PassingCallsAreUnique }
    ensures passing { PassingCallsExist }
{}

/// A Flush that is answered Successful Completion was one flush of the medium: no denied one gets that answer.
#[tactic(auto, using(crate::proofs::CallLaws::denied_is_no_success, crate::proofs::CallLaws::flushed_is_one_flush))]
fn flushed()
    ensures denied { DeniedIsNoSuccess }
    ensures flushed { FlushedIsOneFlush }
{}
