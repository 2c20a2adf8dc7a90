//! Looks of a driver at completions, and what a port returns over memory that its device writes.

ghost use Rattle.std.specs.Prelude.{
  ◌≡◌,
  ◌≤◌,
  ℕ,
  Bool,
  List,
  Option,
  [],
  ◌∷◌,
  ◌+◌,
  length,
  slice_range,
  true,
  false,
  None,
  Some,
};
ghost use Rattle.nvme_driver.specs.Calls.{Loads, Sees};
ghost use Rattle.nvme_driver.specs.Drivers.{Driver, empty_ends};
ghost use Rattle.nvme_driver.specs.Examples.{reading_driver, up_driver};
ghost use Rattle.nvme_driver.specs.Moments.{IsOfOneLane};
ghost use Rattle.nvme_driver.specs.Polls.{
  delivered,
  entry_at,
  has_phase,
  loads,
  looks,
  phase_of,
  poll_looks,
};
ghost use Rattle.nvme_driver.specs.Ports.{IsLoaded, IsOld, IsRead, IsSeen, Memory};
ghost use Rattle.nvme_driver.specs.Snapshots.{IsFirstSeen};
ghost use Rattle.nvme_driver.specs.declared.answer.Answer.{Answer};
ghost use Rattle.nvme_driver.specs.declared.faults.PollFault.{PollFault};
ghost use Rattle.std.specs.Prelude.{Result};
ghost use Rattle.definition_examples.specs.DriverExamples.{aborted_driver, bare_driver, one_request};

use nvme_driver::{Lane, State};

/// A completion has 16 bytes. Its queue begins at 1000h for the admin lane (queue pair), and at 3000h for the I/O lane.
fn driver_entries_of_queues()
    ensures admin { (window : List ℕ) → entry_at Lane.Admin 3 window ≡ slice_range window 0x1030 0x1040 }
    ensures io { (window : List ℕ) → entry_at Lane.Io 31 window ≡ slice_range window 0x31f0 0x3200 }
{}

/// The phase tag of a new completion is 1 in the first round of the queue, and 0 in the second.
fn driver_rounds_of_queues()
    ensures first { phase_of empty_ends ≡ true }
    ensures last { phase_of (record empty_ends { head = record { size = 32; consumed = 31 } }) ≡ true }
    ensures second { phase_of (record empty_ends { head = record { size = 32; consumed = 32 } }) ≡ false }
{}

/// A poll looks at the admin lane, and at the I/O lane if nothing is new there. Then it loads the data of the answer.
fn driver_polls_look()
    ensures nothing { looks up_driver None ≡ Sees Lane.Admin 0 true None ∷ Sees Lane.Io 0 true None ∷ [] }
    ensures admin { looks up_driver (Some (record { lane = Lane.Admin; entry = 1 ∷ [] }))
        ≡ Sees Lane.Admin 0 true (Some (1 ∷ [])) ∷ [] }
    ensures io { looks up_driver (Some (record { lane = Lane.Io; entry = 1 ∷ [] }))
        ≡ Sees Lane.Admin 0 true None ∷ Sees Lane.Io 0 true (Some (1 ∷ [])) ∷ [] }
    ensures down { (window : List ℕ) → poll_looks bare_driver None window ≡ [] }
    ensures aborted { (window : List ℕ) → poll_looks aborted_driver (Some 2) window ≡ [] }
    ensures unknown { loads [] [] None ≡ [] }
    ensures failed { (delivered up_driver Lane.Io [] [] None).driver ≡ record up_driver { state = State.Failed } }
{}

/// What a look or a load returns is there at a moment of the call.
fn driver_reads_of_memory()
    ensures old_later { (m : Memory) → (from to head : ℕ) → (lane : Lane) → (expected : Bool)
        → (x : IsOld m from to lane head expected) → from ≤ x.moment }
    ensures old_sooner { (m : Memory) → (from to head : ℕ) → (lane : Lane) → (expected : Bool)
        → (x : IsOld m from to lane head expected) → x.moment ≤ to }
    ensures old { (m : Memory) → (from to head : ℕ) → (lane : Lane) → (expected : Bool)
        → (x : IsOld m from to lane head expected) → has_phase expected (entry_at lane head (m x.moment)) ≡ false }
    ensures loaded { (m : Memory) → (from to at : ℕ) → (part : List ℕ)
        → (x : IsLoaded m from to at part) → x.moment ≤ to }
    ensures seen { (m : Memory) → (from to head : ℕ) → (lane : Lane) → (expected : Bool) → (entry : List ℕ)
        → IsSeen m from to lane head expected (Some entry) → IsRead m from to lane head expected entry }
{}

/// A poll of one lane is one of a moment before its end. The admin lane needs no look before it.
fn driver_polls_of_a_moment()
    ensures before { (d after : Driver) → (m : Memory) → (from to : ℕ) → (result : Result (Option Answer) PollFault)
        → (buffer : List ℕ) → (x : IsOfOneLane d m from to result after buffer) → x.moment ≤ to }
    ensures first { (window : List ℕ) → IsFirstSeen reading_driver Lane.Admin window }
{}
