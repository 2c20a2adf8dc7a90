//! One lane of a mailbox while requests are placed, fetched and answered.

ghost use Rattle.std.specs.Prelude.{[], ◌∷◌, ◌≡◌, None, Some, Ok, Err};
ghost use Rattle.nvme_driver.specs.declared.request.Request.TheVariants.{Flush};
ghost use Rattle.nvme_driver.specs.declared.faults.PlaceRefusal.TheVariants.{NotReady};
ghost use Rattle.nvme_event.specs.declared.seen.FleetSeen.TheVariants.{Placed, Polled};
ghost use Rattle.nvme_driver.specs.declared.answer.Answer.TheVariants.{Done};
ghost use Rattle.nvme_spec.specs.Statuses.{successful_completion};
ghost use Rattle.nvme_mailbox.specs.Mailboxes.{Item, FetchedItem, new_mailbox};
ghost use Rattle.nvme_mailbox.specs.Executions.{RequestExecution};
ghost use Rattle.nvme_mailbox.specs.Deliveries.{
  recounted,
  most_held,
  most_unheard,
  with_placed,
  with_request,
  placed_by,
  without_first,
  plain,
  answer_reply,
};
ghost use Rattle.nvme_mailbox.specs.Fleets.{answer_for, with_posted};
ghost use Rattle.definition_examples.specs.MailboxBoxes.{mailbox_box, mailbox_answer};

/// A driver keeps at most 24 requests, and places at most 7 in a lane before one is known to be fetched.
fn mailbox_limits()
    ensures held { most_held ≡ 24 }
    ensures unheard { most_unheard ≡ 7 }
{}

/// The counts of a lane: 0 when the driver comes up, one more with each placed request, less with each answer.
fn mailbox_counts()
    ensures up { recounted mailbox_box ≡ record { placed = []; rung = []; posted = []; unheard = 0; since = 0 } }
    ensures placed { (i : Item) → with_placed mailbox_box i
        ≡ record { placed = i ∷ []; rung = []; posted = []; unheard = 6; since = 3 } }
    ensures delivered { without_first mailbox_box mailbox_answer []
        ≡ record { placed = []; rung = []; posted = []; unheard = 3; since = 3 } }
    ensures answered { (x : FetchedItem) → (r : RequestExecution) → with_posted mailbox_box x r
        ≡ record { placed = []; rung = []; posted = answer_for x r 3 ∷ []; unheard = 5; since = 0 } }
{}

/// A delivered answer has its ticket, its status, double word 0 and the number of its bytes.
fn mailbox_delivered_answers()
    ensures reply { answer_reply mailbox_answer
        ≡ record { seen = Polled (Ok (Some (Done (record { 0 = 9 }) successful_completion 0 0))); bytes = [] } }
{}

/// A placed request has the next ticket, and the one after it is next then.
fn mailbox_tickets()
    ensures next { (with_request (new_mailbox 9) (Flush 1)).next ≡ 10 }
    ensures placed { (placed_by None (new_mailbox 9) (Flush 1)).reply ≡ plain (Placed (Ok (record { 0 = 9 }))) }
    ensures refused { (placed_by (Some NotReady) (new_mailbox 9) (Flush 1)).reply ≡ plain (Placed (Err NotReady)) }
{}
