//! The blocks and the reservation of an admitted I/O command.

ghost use Rattle.nvme_spec.specs.declared.command.Command.TheVariants as command;
ghost use Rattle.nvme_exec.specs.Carrying.{MovesBlocks};
ghost use Rattle.definition_examples.specs.SubsysExecutions.{ReservationsFollow, RunsHaveSizes};

/// The data of a Write, a Read and a Compare of three blocks are 1536 bytes. Those of a Flush are any number.
fn subsys_lengths_of_data()
    ensures of_a_write { MovesBlocks command.Write 3 1536 }
    ensures of_a_read { MovesBlocks command.Read 3 1536 }
    ensures of_a_compare { MovesBlocks command.Compare 3 1536 }
    ensures of_a_flush { MovesBlocks command.Flush 3 5 }
{}

/// Blocks that are contiguous in host memory are whole, at least one and at most as many as the transfer has. The data
/// of a command have at most 131,072 bytes.
#[tactic(auto, using(crate::proofs::SubsysExecutions::runs_have_sizes))]
fn subsys_sizes_of_runs()
    ensures { RunsHaveSizes }
{}

/// A reservation follows the outcome of an action, and each action has one.
#[tactic(auto, using(crate::proofs::SubsysExecutions::reservations_follow))]
fn subsys_outcomes_of_actions()
    ensures { ReservationsFollow }
{}
