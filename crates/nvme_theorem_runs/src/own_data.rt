//! Commands at work that move their own data, and why the theorem needs its premise.

ghost use Rattle.std.specs.Prelude.{◌≡◌, List, ℕ, length};
ghost use Rattle.nvme_spec.specs.Memory.{window_size};
ghost use Rattle.nvme_data_buffers.specs.Buffers.{HasList};
ghost use Rattle.nvme_theorem_runs.specs.OwnData.{OwnDataOfAnyMemory, OwnReadAtWork, OwnWriteAtWork};

/// ExecutedCommandsMoveTheirOwn: a Write is executed after its data and other bytes were stored, and the block has its
/// own, whatever else the host's memory has.
fn writes_move_their_own()
    ensures { (w : List ℕ) → (byte : ℕ) → length w ≡ window_size → HasList w → OwnWriteAtWork w byte }
{}

/// BuffersHoldWhatWasReturned: after a Read its buffer has the block.
fn reads_return_the_block()
    ensures { (w : List ℕ) → (byte : ℕ) → length w ≡ window_size → HasList w → OwnReadAtWork w byte }
{}

/// The first needs data that were stored, and that nobody has overwritten.
#[tactic(auto, using(crate::proofs::OwnDataRuns::own_data_need_a_store))]
fn own_data_need_a_store()
    ensures { (w : List ℕ) → length w ≡ window_size → HasList w → OwnDataOfAnyMemory → ⊥ }
{}
