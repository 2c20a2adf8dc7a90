//! Theorems that lack one premise, as the example runs refute them.

ghost use Rattle.std.specs.Prelude.{◌+◌, ◌≡◌, ℕ, List, Bool, Some, Ok};
ghost use Rattle.nvme_wire.specs.declared.status.Status.{Status};
ghost use Rattle.nvme_spec.specs.Blocks.{Device};
ghost use Rattle.nvme_spec.specs.Configuration.{Configuration};
ghost use Rattle.nvme_driver.specs.declared.answer.Answer.TheVariants.{Done};
ghost use Rattle.nvme_event.specs.declared.event.FleetEvent.{FleetEvent};
ghost use Rattle.nvme_event.specs.declared.event.FleetEvent.TheVariants.{Poll};
ghost use Rattle.nvme_event.specs.declared.seen.FleetSeen.TheVariants as seen;
ghost use Rattle.nvme_event.specs.Replies.{Reply};
ghost use Rattle.nvme_machine.specs.declared.event.Event.{Event};
ghost use Rattle.nvme_machine.specs.declared.seen.Seen.{Seen};
ghost use Rattle.nvme_machine.specs.Controllers.{Controller};
ghost use Rattle.nvme_machine.specs.Posted.{PostedEntry, StandsUnread};
ghost use Rattle.nvme_machine.specs.Subsystems as machine;
ghost use Rattle.nvme_machine.specs.Windows.{AllHaveTheirWindows};
ghost use Rattle.nvme_mailbox.specs.Answered.{WasPlacedAndExecuted};
ghost use Rattle.nvme_mailbox.specs.Apart.{HasMailbox};
ghost use Rattle.nvme_mailbox.specs.Fleets.{Fleet, Run, Step, opening};
ghost use Rattle.nvme_mailbox.specs.Mailboxes.{Mailbox};
ghost use Rattle.nvme_mailbox.specs.PowerCycles.{IsAborted};
ghost use Rattle.nvme_mailbox.specs.SinceUp.{HasDriver};
ghost use Rattle.nvme_theorem_runs.specs.Drivers.{AbortingByAnyEvent, SinceAnyMoment};
ghost use Rattle.nvme_theorem_runs.specs.Queues.{UnreadOverAnyRun};

/// Any event would abort all requests of a mailbox.
fn run_unlimited_aborting()
    ensures aborts { AbortingByAnyEvent → (tells : Bool) → (before after : Fleet) → (event : FleetEvent)
        → (reply : Reply) → Step tells before event reply after → (k : ℕ) → (m : Mailbox) → HasMailbox before k m
        → (n : Mailbox) × HasMailbox after k n × IsAborted m n }
{}

/// What a driver delivers was placed and executed after any moment of its controller.
fn run_unlimited_moments()
    ensures since { SinceAnyMoment → (tells : Bool) → (c : Configuration) → (d : Device) → (old mid after : Fleet)
        → (before : List FleetEvent) → (gave : List Reply) → Run tells (opening c d) before gave old
        → (events : List FleetEvent) → (replies : List Reply) → (run : Run tells old events replies mid) → (i : ℕ)
        → HasDriver c i → (m : Mailbox) → HasMailbox old (i + 1) m → (reply : Reply)
        → Step tells mid (Poll (i + 1)) reply after → (ticket dw0 len : ℕ) → (status : Status) → reply.seen
        ≡ seen.Polled (Ok (Some (Done (record { 0 = ticket }) status dw0 len)))
        → WasPlacedAndExecuted tells (i + 1) ticket
        (record { status = status; dw0 = dw0; bytes = reply.bytes }) old events replies mid run }
{}

/// A posted entry would stay in its place, unread, over any run.
fn run_unlimited_entries()
    ensures stays { UnreadOverAnyRun → (tells : Bool) → (before after : machine.Subsystem) → (events : List Event)
        → (given : List Seen) → (j : ℕ) → (e : PostedEntry) → machine.Run tells before events given after
        → AllHaveTheirWindows before → (c : Controller) → machine.controller_at before j ≡ Some c → StandsUnread e c
        → (d : Controller) × (machine.controller_at after j ≡ Some d) × StandsUnread e d }
{}
