//! Calls of the medium that an execution makes, and those that its command needs.

ghost use Rattle.std.specs.Prelude.{[], ◌<◌, ◌≡◌, ℕ, List, Bool, None, Ok, replicate};
ghost use Rattle.nvme_spec.specs.declared.queues.QueueChange.TheVariants.{Keep};
ghost use Rattle.nvme_spec.specs.Execution.{Scene};
ghost use Rattle.nvme_spec.specs.MediumCalls.{MediumCall, Writes, Flushes, passing, reads_from};
ghost use Rattle.nvme_machine.specs.declared.fetched.FetchedCommand.{FetchedCommand};
ghost use Rattle.nvme_machine.specs.declared.need.Need.TheVariants as need;
ghost use Rattle.nvme_machine.specs.declared.seen.Executed.{Executed};
ghost use Rattle.nvme_machine.specs.declared.seen.Executed.TheVariants.{NoSuch, CqFull};
ghost use Rattle.nvme_machine.specs.Calling.{AreCallsOver, AreCallsOne};
ghost use Rattle.nvme_machine.specs.CommandExecutions.{CommandExecution, IoCommandComesTo};
ghost use Rattle.nvme_machine.specs.Executing.{Setting};
ghost use Rattle.nvme_machine.specs.NeededCalls.{zero_blocks, StopWriting, StopReading, StopComparing, ReadsFront};
ghost use Rattle.nvme_machine.specs.Needs.{IsNeeded};

/// Without a free completion entry, or without the command, nothing changes and no call is made.
fn machine_idle_executions()
    ensures full { (tells : Bool) → (i : ℕ) → (t : FetchedCommand) → (before after : Setting) → (executed : Executed)
        → (calls : List MediumCall) → AreCallsOver None tells i t before executed after calls → executed ≡ CqFull }
    ensures full_unchanged { (tells : Bool) → (i : ℕ) → (t : FetchedCommand) → (before after : Setting)
        → (executed : Executed) → (calls : List MediumCall) → AreCallsOver None tells i t before executed after calls
        → after ≡ before }
    ensures full_calls { (tells : Bool) → (i : ℕ) → (t : FetchedCommand) → (before after : Setting)
        → (executed : Executed) → (calls : List MediumCall) → AreCallsOver None tells i t before executed after calls
        → calls ≡ [] }
    ensures none { (tells : Bool) → (i : ℕ) → (before after : Setting) → (executed : Executed)
        → (calls : List MediumCall) → AreCallsOne None tells i before executed after calls → executed ≡ NoSuch }
    ensures none_calls { (tells : Bool) → (i : ℕ) → (before after : Setting) → (executed : Executed)
        → (calls : List MediumCall) → AreCallsOne None tells i before executed after calls → calls ≡ [] }
{}

/// An I/O command changes no queue.
fn machine_io_executions()
    ensures queues { (tells : Bool) → (cntlid : ℕ) → (t : FetchedCommand) → (s : Scene) → (a : CommandExecution)
        → IoCommandComesTo tells cntlid t s a → a.change ≡ Keep }
{}

/// A Write Fault is answered if a write or a flush failed, so no command without them is answered so.
fn machine_failed_writes()
    ensures zeros { zero_blocks 1 ≡ replicate 512 0 }
    ensures nothing { (sent : List ℕ) → (calls : List MediumCall) → StopWriting need.Nothing sent calls → ⊥ }
    ensures reading { (sent : List ℕ) → (calls : List MediumCall) → StopWriting (need.Read 7 2) sent calls → ⊥ }
{}

/// An Unrecovered Read Error is answered if a read failed.
fn machine_failed_reads()
    ensures nothing { (calls : List MediumCall) → StopReading need.Nothing calls → ⊥ }
    ensures writing { (calls : List MediumCall) → StopReading (need.Write 7 2) calls → ⊥ }
    ensures zeroing { (calls : List MediumCall) → StopReading (need.Zero 7 2) calls → ⊥ }
    ensures flushing { (calls : List MediumCall) → StopReading need.Flush calls → ⊥ }
{}

/// A Compare Failure is answered after at least one block was read.
fn machine_failed_compares()
    ensures nothing { (calls : List MediumCall) → StopComparing need.Nothing calls → ⊥ }
    ensures writing { (calls : List MediumCall) → StopComparing (need.Write 7 2) calls → ⊥ }
    ensures zeroing { (calls : List MediumCall) → StopComparing (need.Zero 7 2) calls → ⊥ }
    ensures flushing { (calls : List MediumCall) → StopComparing need.Flush calls → ⊥ }
    ensures some { (calls : List MediumCall) → (x : ReadsFront 7 2 calls) → 0 < x.passed }
    ensures calls { (calls : List MediumCall) → (x : ReadsFront 7 2 calls) → calls
        ≡ passing (reads_from 7 x.read) x.passed }
{}

/// A command that needs blocks 7 and 8 makes no call outside them.
fn machine_needed_calls()
    ensures write { IsNeeded (need.Write 7 2) (Writes 8 [] (Ok tt)) }
    ensures write_before { IsNeeded (need.Write 7 2) (Writes 6 [] (Ok tt)) → ⊥ }
    ensures write_after { IsNeeded (need.Write 7 2) (Writes 9 [] (Ok tt)) → ⊥ }
    ensures zero_before { IsNeeded (need.Zero 7 2) (Writes 6 [] (Ok tt)) → ⊥ }
    ensures zero_after { IsNeeded (need.Zero 7 2) (Writes 9 [] (Ok tt)) → ⊥ }
    ensures other { IsNeeded (need.Zero 7 2) (Flushes (Ok tt)) → ⊥ }
{}
