//! Raw hosts, preempting commands, drivers of a configuration, and results that never occur.

ghost use Rattle.std.specs.Prelude.{[], ◌∷◌, ◌≡◌, ℕ, Bool, false, None, Some, Err, slice_get};
ghost use Rattle.nvme_spec.specs.declared.command.Command.TheVariants.{ReservationAcquire};
ghost use Rattle.nvme_spec.specs.declared.config.ControllerConfig.{ControllerConfig};
ghost use Rattle.nvme_spec.specs.Configuration.{Configuration};
ghost use Rattle.nvme_machine.specs.declared.seen.Executed.TheVariants.{CqFull, NoSuch};
ghost use Rattle.nvme_machine.specs.Controllers.{Controller};
ghost use Rattle.nvme_wire.specs.declared.status.Status.{Status};
ghost use Rattle.nvme_driver.specs.declared.faults.UpFault.TheVariants as up_fault;
ghost use Rattle.nvme_driver.specs.declared.faults.PollFault.TheVariants as poll_fault;
ghost use Rattle.nvme_event.specs.declared.seen.FleetSeen.{FleetSeen};
ghost use Rattle.nvme_event.specs.declared.seen.FleetSeen.TheVariants.{NoController, NotRaw, Executed, Polled, Up};
ghost use Rattle.nvme_mailbox.specs.Mailboxes.{Mailbox};
ghost use Rattle.nvme_mailbox.specs.Fleets.{Fleet, WithDriver, moment, raw_at};
ghost use Rattle.nvme_mailbox.specs.Fencing.{IsOn};
ghost use Rattle.nvme_mailbox.specs.IoCommands.{IoCommand};
ghost use Rattle.nvme_mailbox.specs.Preempting.{Preempts};
ghost use Rattle.nvme_mailbox.specs.SinceUp.{HasDriver};
ghost use Rattle.nvme_mailbox.specs.Unseen.{IsUnseen};

/// Without a controller, or with a driver, an event of a raw host changes nothing.
fn mailbox_raw_events()
    ensures none { (f : Fleet) → (change : Controller → Controller) → (what : FleetSeen) → raw_at None f 7 change what
        ≡ moment f NoController }
    ensures driver { (f : Fleet) → (m : Mailbox) → (change : Controller → Controller) → (what : FleetSeen)
        → raw_at (Some (WithDriver m)) f 7 change what ≡ moment f NotRaw }
{}

/// The command that preempts is a Reservation Acquire on the namespace.
fn mailbox_preempting()
    ensures command { (tells : Bool) → (n k i : ℕ) → (before after : Fleet) → (c : IoCommand)
        → Preempts tells n before k i c after → IsOn n (ReservationAcquire ∷ []) c }
{}

/// A controller of the configuration has a driver if its host is not raw.
fn mailbox_drivers()
    ensures controller { (c : Configuration) → (i : ℕ) → (x : HasDriver c i) → slice_get c.controllers i ≡ Some x.0 }
    ensures not_raw { (c : Configuration) → (i : ℕ) → (x : HasDriver c i) → x.0.raw ≡ false }
    ensures enough { (c : Configuration) → (i : ℕ) → (k : ControllerConfig) → slice_get c.controllers i ≡ Some k
        → k.raw ≡ false → HasDriver c i }
{}

/// Results that a host with a driver never gets.
fn mailbox_unseen_results()
    ensures full { IsUnseen (Executed CqFull) }
    ensures unknown { IsUnseen (Polled (Err poll_fault.UnknownCommand)) }
    ensures not_ready { IsUnseen (Up (Err up_fault.NotReady)) }
    ensures no_answer { IsUnseen (Up (Err up_fault.NoAnswer)) }
    ensures refused { (why : Status) → IsUnseen (Up (Err (up_fault.Refused why))) }
    ensures up_already { IsUnseen (Up (Err up_fault.AlreadyUp)) → ⊥ }
    ensures no_command { IsUnseen (Executed NoSuch) → ⊥ }
{}
