//! Laws of an execution.

ghost use Rattle.nvme_spec.specs.Layout.{OpeningIsLaidOut};
ghost use Rattle.nvme_spec.specs.Sound.{OpeningIsSound, ExecutionKeepsItSound, AdminExecutionKeepsItSound};
ghost use Rattle.nvme_spec.specs.StatusLaws.{IsAmong, answers, AnswersFit, ExecutionAnswers, AdminExecutionAnswers};
ghost use Rattle.nvme_spec.specs.ExecutionLaws.{
  FailuresNeverFall,
  FaultFreeExecutes,
  ExecutesAlone,
  ExecutionKeepsTheRest,
  OnlyAllowedWritesWrite,
  OnlyAllowedActionsReserve,
  FencedCommandsWriteNothing,
  LayoutStays,
};

/// Each command can be executed, and has only one execution without a fault of the medium.
#[tactic(auto, using(crate::proofs::FaultFree::failures_never_fall, crate::proofs::FaultFree::fault_free_executes, crate::proofs::FaultFree::executes_alone))]
fn determined()
    ensures count { FailuresNeverFall }
    ensures exists { FaultFreeExecutes }
    ensures alone { ExecutesAlone }
{}

/// An execution leaves controllers, attachments, other reservations and the places of the namespaces.
#[tactic(auto, using(crate::proofs::Openings::opening_is_laid_out, crate::proofs::Fencing::execution_keeps_the_rest, crate::proofs::Fencing::layout_stays))]
fn framed()
    ensures opening { OpeningIsLaidOut }
    ensures rest { ExecutionKeepsTheRest }
    ensures layout { LayoutStays }
{}

/// Blocks and reservations change only by commands that all rules let pass.
#[tactic(auto, using(crate::proofs::Fencing::only_allowed_writes_write, crate::proofs::Fencing::only_allowed_actions_reserve, crate::proofs::Fencing::fenced_commands_write_nothing))]
fn fenced()
    ensures writes { OnlyAllowedWritesWrite }
    ensures reserves { OnlyAllowedActionsReserve }
    ensures fenced { FencedCommandsWriteNothing }
{}

/// Every command is answered with a status of a list, each of which fits its field of the completion queue entry.
#[tactic(auto, using(crate::proofs::StatusLaws::execution_answers, crate::proofs::StatusLaws::admin_execution_answers, crate::proofs::StatusLaws::answers_fit))]
fn answered()
    ensures io { ExecutionAnswers (IsAmong answers) }
    ensures admin { AdminExecutionAnswers (IsAmong answers) }
    ensures fits { AnswersFit }
{}

/// A world is sound at its opening, and every command keeps it sound.
#[tactic(auto, using(crate::proofs::SoundOpenings::opening_is_sound, crate::proofs::SoundWorlds::execution_keeps_it_sound, crate::proofs::SoundAttachments::admin_execution_keeps_it_sound))]
fn sound()
    ensures opening { OpeningIsSound }
    ensures io { ExecutionKeepsItSound }
    ensures admin { AdminExecutionKeepsItSound }
{}
