//! Controllers and fetched commands after executions, register writes and power cycles.

ghost use Rattle.std.specs.Prelude.{◌≡◌, ℕ, Bool, false, None, slice_range};
ghost use Rattle.nvme_spec.specs.declared.queues.QueueChange.TheVariants.{Keep, DropSq};
ghost use Rattle.nvme_spec.specs.Registers.{initial_registers};
ghost use Rattle.nvme_machine.specs.declared.fetched.FetchedCommand.{FetchedCommand};
ghost use Rattle.nvme_machine.specs.declared.seen.Executed.{Executed};
ghost use Rattle.nvme_machine.specs.declared.seen.Executed.TheVariants.{Posted};
ghost use Rattle.nvme_machine.specs.Controllers.{Controller, QueuePair, submission_at, completion_at, head_entry};
ghost use Rattle.nvme_machine.specs.Executing.{Setting, Finishes};
ghost use Rattle.nvme_machine.specs.PowerCycles.{IsUnused};
ghost use Rattle.nvme_machine.specs.Preempted.{is_emptied, is_dropped};
ghost use Rattle.nvme_machine.specs.Subsystems.{after_completion};
ghost use Rattle.definition_examples.specs.MachineQueues.{machine_queue};

/// An execution posts the outcome of its answer, and leaves the state of its answer.
fn machine_finished_executions()
    ensures posted { (tells : Bool) → (i : ℕ) → (t : FetchedCommand) → (p : QueuePair) → (before after : Setting)
        → (executed : Executed) → (x : Finishes tells i t p before executed after) → executed
        ≡ Posted x.execution.outcome }
    ensures controller { (tells : Bool) → (i : ℕ) → (t : FetchedCommand) → (p : QueuePair) → (before after : Setting)
        → (executed : Executed) → (x : Finishes tells i t p before executed after) → after.controller
        ≡ after_completion i t p x.execution before.controller }
    ensures world { (tells : Bool) → (i : ℕ) → (t : FetchedCommand) → (p : QueuePair) → (before after : Setting)
        → (executed : Executed) → (x : Finishes tells i t p before executed after) → after.world
        ≡ x.execution.left.world }
    ensures device { (tells : Bool) → (i : ℕ) → (t : FetchedCommand) → (p : QueuePair) → (before after : Setting)
        → (executed : Executed) → (x : Finishes tells i t p before executed after) → after.device
        ≡ x.execution.left.device }
{}

/// A controller that was not enabled since power returned has initial registers and no queues.
fn machine_unused_controllers()
    ensures registers { (c : Controller) → IsUnused c → c.registers ≡ initial_registers }
    ensures submission { (c : Controller) → IsUnused c → submission_at c 1 ≡ None }
    ensures completion { (c : Controller) → IsUnused c → completion_at c 1 ≡ None }
{}

/// Without a controller a write removes no commands, and without a deletion of a queue an execution removes no others.
fn machine_removed_commands()
    ensures none { is_emptied None 0x14 0 ≡ false }
    ensures kept { is_dropped Keep None ≡ false }
    ensures no_command { is_dropped (DropSq 1) None ≡ false }
{}

/// A submission queue entry has 64 bytes.
fn machine_submission_entries()
    ensures size { (c : Controller) → head_entry c machine_queue ≡ slice_range c.window 4096 4160 }
{}

/// The queue of this example has eight entries, and its completions are in queue 3.
fn machine_queue_sizes()
    ensures size { machine_queue.head.size ≡ 8 }
    ensures waiting { machine_queue.head.waiting ≡ 0 }
    ensures completions { machine_queue.cqid ≡ 3 }
{}
