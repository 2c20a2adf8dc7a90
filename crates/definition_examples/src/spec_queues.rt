//! The queues of a controller: which exist, and new ends of them.

ghost use Rattle.std.specs.Prelude.{◌≡◌, [], ◌∷◌, None, Some, true, false};
ghost use Rattle.nvme_spec.specs.Queues.{
  FitsCompletionTail,
  FitsSubmissionTail,
  CompletionTail,
  SubmissionTail,
  after_post,
  after_put,
  completion_room,
  submission_room,
  empty_completion_head,
  empty_completion_tail,
  empty_submission_head,
  empty_submission_tail,
};
ghost use Rattle.nvme_spec.specs.QueueLaws.{CompletionTailStays, SubmissionTailStays};
ghost use Rattle.nvme_spec.specs.ExistingQueues.{
  has_completion_queue,
  has_submission_queue,
  completes_to,
  is_used,
  io_queues,
  has_io_queue,
  only_admin_queues,
};

/// Completion queue 3 and submission queue 2 exist, whose completions go to queue 3, and the admin queues.
fn spec_existing_queues()
    ensures completion { has_completion_queue (record {
      cq = true ∷ false ∷ false ∷ true ∷ false ∷ [];
      sq = Some 0 ∷ None ∷ Some 3 ∷ None ∷ None ∷ [];
    }) 3 ≡ true }
    ensures no_completion { has_completion_queue (record {
      cq = true ∷ false ∷ false ∷ true ∷ false ∷ [];
      sq = Some 0 ∷ None ∷ Some 3 ∷ None ∷ None ∷ [];
    }) 2 ≡ false }
    ensures submission { has_submission_queue (record {
      cq = true ∷ false ∷ false ∷ true ∷ false ∷ [];
      sq = Some 0 ∷ None ∷ Some 3 ∷ None ∷ None ∷ [];
    }) 2 ≡ true }
    ensures no_submission { has_submission_queue (record {
      cq = true ∷ false ∷ false ∷ true ∷ false ∷ [];
      sq = Some 0 ∷ None ∷ Some 3 ∷ None ∷ None ∷ [];
    }) 3 ≡ false }
    ensures used { is_used (record {
      cq = true ∷ false ∷ false ∷ true ∷ false ∷ [];
      sq = Some 0 ∷ None ∷ Some 3 ∷ None ∷ None ∷ [];
    }) 3 ≡ true }
    ensures not_used { is_used (record {
      cq = true ∷ false ∷ false ∷ true ∷ false ∷ [];
      sq = Some 0 ∷ None ∷ Some 3 ∷ None ∷ None ∷ [];
    }) 2 ≡ false }
{}

/// Whether the completions of a submission queue go to a queue.
fn spec_completions_of_queues()
    ensures none { completes_to 2 None ≡ false }
    ensures same { completes_to 2 (Some 2) ≡ true }
    ensures other { completes_to 2 (Some 3) ≡ false }
{}

/// I/O queues have the identifiers 1 to 4.
fn spec_io_queues()
    ensures identifiers { io_queues ≡ 1 ∷ 2 ∷ 3 ∷ 4 ∷ [] }
    ensures none { has_io_queue only_admin_queues ≡ false }
    ensures completion { has_io_queue (record {
      cq = true ∷ true ∷ false ∷ false ∷ false ∷ [];
      sq = Some 0 ∷ None ∷ None ∷ None ∷ None ∷ [];
    }) ≡ true }
    ensures submission { has_io_queue (record {
      cq = true ∷ false ∷ false ∷ false ∷ false ∷ [];
      sq = Some 0 ∷ None ∷ None ∷ None ∷ Some 4 ∷ [];
    }) ≡ true }
{}

/// New ends of queues.
fn spec_empty_queues()
    ensures submission_head { empty_submission_head 8 ≡ record { size = 8; fetched = 0; waiting = 0 } }
    ensures completion_tail { empty_completion_tail 8 ≡ record { size = 8; posted = 0; unread = 0 } }
    ensures submission_tail { empty_submission_tail 8 ≡ record { size = 8; put = 0; unheard = 0 } }
    ensures completion_head { empty_completion_head 8 ≡ record { size = 8; consumed = 0 } }
{}

/// By their laws, a queue with one free entry takes one more.
fn spec_last_free_entries()
    ensures completion { CompletionTailStays → (q : CompletionTail) → FitsCompletionTail q → completion_room q ≡ 1
        → FitsCompletionTail (after_post q) }
    ensures submission { SubmissionTailStays → (q : SubmissionTail) → FitsSubmissionTail q → submission_room q ≡ 1
        → FitsSubmissionTail (after_put q) }
{}
