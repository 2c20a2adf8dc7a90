//! The calls that commands make of a medium.

ghost use Rattle.std.specs.Prelude.{◌≡◌, ◌++◌, [], ◌∷◌, replicate, Ok, Err, false, List, ℕ};
ghost use Rattle.nvme_spec.specs.declared.command.Command.TheVariants.{
  Compare,
  Flush,
  Read,
  Write,
  WriteZeroes,
  ReservationReport,
};
ghost use Rattle.nvme_spec.specs.declared.medium.MediumFault.{MediumFault as Fault};
ghost use Rattle.nvme_spec.specs.MediumCalls.{Reads, Writes, Flushes};
ghost use Rattle.nvme_spec.specs.AdminExamples.{cluster_world};
ghost use Rattle.nvme_spec.specs.Blocks.{Device};
ghost use Rattle.nvme_spec.specs.BlockCommands.{calls_of, passing_calls};
ghost use Rattle.nvme_spec.specs.Entries.{transfer_entry};
ghost use Rattle.nvme_spec.specs.Execution.{scene};
ghost use Rattle.nvme_spec.specs.FaultFreeCalls.{calls_by};
ghost use Rattle.nvme_spec.specs.IoData.{io_verdict};

/// Successful commands on two blocks from block 7: a Write, a Write Zeroes and a Flush.
fn two_blocks()
    ensures written { calls_of Write 7 2 (replicate 512 1 ++ replicate 512 2) [] 2 (Ok tt)
        ≡ Writes 7 (replicate 512 1) (Ok tt) ∷ Writes 8 (replicate 512 2) (Ok tt) ∷ [] }
    ensures zeroed { calls_of WriteZeroes 7 2 [] [] 2 (Ok tt)
        ≡ Writes 7 (replicate 512 0) (Ok tt) ∷ Writes 8 (replicate 512 0) (Ok tt) ∷ [] }
    ensures flushed { calls_of Flush 7 2 [] [] 0 (Ok tt) ≡ Flushes (Ok tt) ∷ [] }
{}

/// A Read of four blocks from block 7, whose second block can't be read: those after it are not tried.
fn second_block_fails()
    ensures read { (fault : Fault) → calls_of Read 7 4 [] (replicate 512 1) 1 (Err fault)
        ≡ Reads 7 (Ok (replicate 512 1)) ∷ Reads 8 (Err fault) ∷ [] }
{}

/// A report on a reservation makes no call of the medium.
fn reported()
    ensures { calls_of ReservationReport 7 2 [] [] 0 (Ok tt) ≡ [] }
{}

/// A Write of three blocks whose second call fails has written the first, and does not try the third.
fn second_write_fails()
    ensures { (fault : Fault)
        → calls_of Write 7 3 (replicate 512 1 ++ replicate 512 2 ++ replicate 512 3) [] 1 (Err fault)
        ≡ Writes 7 (replicate 512 1) (Ok tt) ∷ Writes 8 (replicate 512 2) (Err fault) ∷ [] }
{}

/// Over three blocks of which each holds another byte: a Read of two has its two reads in order; a Compare reads up to
/// the first block that differs, or all; a Flush is one flush.
fn three_blocks()
    ensures read { passing_calls Read 1 2 [] (replicate 512 1 ++ replicate 512 2 ++ replicate 512 3)
        ≡ Reads 1 (Ok (replicate 512 2)) ∷ Reads 2 (Ok (replicate 512 3)) ∷ [] }
    ensures second_differs { passing_calls Compare 0 3 (replicate 512 1 ++ replicate 1024 3)
        (replicate 512 1 ++ replicate 512 2 ++ replicate 512 3)
        ≡ Reads 0 (Ok (replicate 512 1)) ∷ Reads 1 (Ok (replicate 512 2)) ∷ [] }
    ensures last_differs { passing_calls Compare 1 2 (replicate 1024 2)
        (replicate 512 1 ++ replicate 512 2 ++ replicate 512 3)
        ≡ Reads 1 (Ok (replicate 512 2)) ∷ Reads 2 (Ok (replicate 512 3)) ∷ [] }
    ensures flushed { passing_calls Flush 0 0 [] [] ≡ Flushes (Ok tt) ∷ [] }
{}

/// A denied Write makes no call: controller 2 is not attached to namespace 2.
fn denied()
    ensures { (window : List ℕ) → (d : Device)
        → calls_by (io_verdict cluster_world 2 (transfer_entry 1 2 0 1) false window) (transfer_entry 1 2 0 1)
        (scene cluster_world window d) ≡ [] }
{}
