//! Laws of queues.

ghost use Rattle.nvme_spec.specs.QueueChanges.{AdminChangesSuit};
ghost use Rattle.nvme_spec.specs.QueueLaws.{
  NextTurn,
  TwoTurns,
  TailAtHead,
  HeadAtTail,
  AllFetched,
  SubmissionHeadStays,
  CompletionTailStays,
  SubmissionTailStays,
  CompletionHeadStays,
  EntryIsInside,
  CompletionRoom,
  SubmissionRoom,
};

/// Slots repeat on each round of the ring, with the other phase tag.
#[tactic(auto, using(crate::proofs::QueueLaws::next_turn, crate::proofs::QueueLaws::two_turns))]
fn turns()
    ensures next { NextTurn }
    ensures two { TwoTurns }
{}

/// Each entry is inside its queue.
#[tactic(auto, using(crate::proofs::QueueLaws::entry_is_inside))]
fn placed()
    ensures { EntryIsInside }
{}

/// There is room until all entries except one are used.
#[tactic(auto, using(crate::proofs::QueueLaws::completion_has_room, crate::proofs::QueueLaws::submission_has_room))]
fn rooms()
    ensures completion { CompletionRoom }
    ensures submission { SubmissionRoom }
{}

/// A doorbell or a head equal to the other end empties the queue.
#[tactic(auto, using(crate::proofs::QueueLaws::tail_at_head, crate::proofs::QueueLaws::head_at_tail, crate::proofs::QueueLaws::all_fetched))]
fn emptied()
    ensures submission { TailAtHead }
    ensures completion { HeadAtTail }
    ensures heard { AllFetched }
{}

/// The counts of each end stay within their bounds.
#[tactic(auto, using(crate::proofs::QueueLaws::submission_head_stays, crate::proofs::QueueLaws::completion_tail_stays, crate::proofs::QueueLaws::submission_tail_stays, crate::proofs::QueueLaws::completion_head_stays))]
fn bounded()
    ensures submission_head { SubmissionHeadStays }
    ensures completion_tail { CompletionTailStays }
    ensures submission_tail { SubmissionTailStays }
    ensures completion_head { CompletionHeadStays }
{}

/// A change of queues that an admin command is allowed is possible: a new queue is in host memory, and each submission
/// queue keeps its completion queue.
#[tactic(auto, using(crate::proofs::QueueChanges::admin_changes_suit))]
fn suited()
    ensures { AdminChangesSuit }
{}
