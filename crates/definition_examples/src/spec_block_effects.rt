//! The effects of commands on blocks, and the execution of one.

ghost use Rattle.std.specs.Prelude.{◌≡◌, [], List, ℕ, None, true, false, Err};
ghost use Rattle.nvme_wire.specs.declared.status.Status.{Status};
ghost use Rattle.nvme_spec.specs.declared.command.Command.TheVariants as Command;
ghost use Rattle.nvme_spec.specs.declared.medium.MediumFault.{MediumFault as Fault};
ghost use Rattle.nvme_spec.specs.Blocks.{Device};
ghost use Rattle.nvme_spec.specs.BlockCommands.{BlockEffect, ComparesUpTo};
ghost use Rattle.nvme_spec.specs.Entries.{command_entry};
ghost use Rattle.nvme_spec.specs.Execution.{start_of, is_preempt_and_abort, denial_outcome};

/// A command on a reservation has no effect on blocks.
fn spec_effects_on_no_blocks()
    ensures report { (old new : Device) → (answer : Status) → (returned : List ℕ)
        → BlockEffect true Command.ReservationReport 0 0 [] old new answer returned → ⊥ }
{}

/// A Compare of two blocks that ends with a fault has read fewer than two.
fn spec_compares_with_faults()
    ensures too_many { (fault : Fault) → (bytes read : List ℕ) → (answered : Status)
        → ComparesUpTo 2 bytes 2 read (Err fault) answered → ⊥ }
{}

/// Preempt and Abort is action 2 of Reservation Acquire. A denied command answers with its rule alone.
#[tactic(auto, unfolding(nvme_spec::specs::Commands::action, nvme_spec::specs::Entries::command_entry, nvme_wire::specs::Submission::cdw10))]
fn spec_executions()
    ensures no_namespace { start_of None ≡ 0 }
    ensures aborts { is_preempt_and_abort Command.ReservationAcquire (command_entry 0x11 1 0 0x0102 0) ≡ true }
    ensures preempts { is_preempt_and_abort Command.ReservationAcquire (command_entry 0x11 1 0 0x0101 0) ≡ false }
    ensures replaces { is_preempt_and_abort Command.ReservationRegister (command_entry 0x0d 1 0 0x0002 0) ≡ false }
    ensures denied { denial_outcome 9 (record { sct = 0; sc = 0x80 }) ≡ record {
      status = record { sct = 0; sc = 0x80 };
      dw0 = 0;
      rule = 9;
      marks = record { nsid = 0; hosts = record { items = [] } };
    } }
{}
