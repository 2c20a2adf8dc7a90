//! Events of the example runs on fetched commands, posted completions and windows.
#![tactic(auto, unfolding(nvme_theorem_runs::specs::Queues::waiting_events, nvme_theorem_runs::specs::Queues::sparing_events, nvme_theorem_runs::specs::Queues::window_events, nvme_theorem_runs::specs::Preempting::meanwhile, nvme_theorem_runs::specs::Fencing::fenced_events, nvme_theorem_runs::specs::Power::protected_events, nvme_theorem_runs::specs::Journals::kept_events, nvme_theorem_runs::specs::Reading::sends))]

ghost use Rattle.std.specs.Prelude.{[], ◌∷◌, ◌≡◌, ℕ, List};
ghost use Rattle.nvme_driver.specs.declared.lane.Lane.TheVariants.{Io};
ghost use Rattle.nvme_driver.specs.Layout.{tail_doorbell, head_doorbell};
ghost use Rattle.nvme_driver.specs.Rises.{csts};
ghost use Rattle.nvme_machine.specs.declared.event.Event.TheVariants.{Execute, Fetch, Read32, Write32, PowerCycle};
ghost use Rattle.nvme_theorem_runs.specs.Cluster.{stores, zeroes_entry, stores_keys};
ghost use Rattle.nvme_theorem_runs.specs.Queues.{
  waiting_events,
  sparing_events,
  window_events,
  full as full_controller,
};
ghost use Rattle.nvme_theorem_runs.specs.Preempting.{meanwhile};
ghost use Rattle.nvme_theorem_runs.specs.Fencing.{fenced_events};
ghost use Rattle.nvme_theorem_runs.specs.Power.{protected_events};
ghost use Rattle.nvme_theorem_runs.specs.Journals.{kept_events};
ghost use Rattle.nvme_theorem_runs.specs.Reading.{sends};

/// Of host b2h: a store, the head doorbell of its I/O queue, a read of CSTS, a fetch, and an execution.
fn run_fetched_events()
    ensures events { waiting_events ≡ stores 2 0 (1 ∷ []) ∷ Write32 2 (head_doorbell Io) 0 ∷ Read32 2 csts ∷ Fetch 2 1
        ∷ Execute 2 0 ∷ [] }
    ensures controller { full_controller.cntlid ≡ 2 }
{}

/// Host b2h stores, executes and resets; host a1h, whose entry was posted, reads CSTS and fetches nothing.
fn run_posted_events()
    ensures events { sparing_events ≡ stores 2 8192 (1 ∷ []) ∷ Execute 2 0 ∷ Write32 2 0x14 0 ∷ Read32 1 csts
        ∷ Fetch 1 1 ∷ [] }
{}

/// Stores at the last byte of the window, of one byte and of two; then AQA for queues of four entries.
fn run_window_events()
    ensures events { window_events ≡ stores 1 0x3fffff (7 ∷ []) ∷ stores 1 0x3fffff (7 ∷ 8 ∷ [])
        ∷ Write32 1 0x24 0x00030003 ∷ Read32 1 0x24 ∷ PowerCycle ∷ [] }
{}

/// Host b2h, which was preempted, stores, reads and rings; then host a1h writes.
fn run_preempted_events()
    ensures events { meanwhile ≡ stores 2 512 (zeroes_entry 1) ∷ Read32 2 csts ∷ Write32 2 (head_doorbell Io) 0
        ∷ Fetch 2 1 ∷ Execute 1 0 ∷ [] }
{}

/// Host b2h stores two entries at the submission queue, rings, and reads CSTS.
fn run_fenced_events()
    ensures events { fenced_events ≡ stores 2 512 (zeroes_entry 1) ∷ stores 2 576 (zeroes_entry 2)
        ∷ Write32 2 (tail_doorbell Io) 2 ∷ Read32 2 csts ∷ Fetch 2 1 ∷ Fetch 2 1 ∷ Execute 2 0 ∷ Execute 2 0
        ∷ PowerCycle ∷ [] }
{}

/// The holder of a protected namespace stores an entry, rings and reads CSTS; two commands are executed.
fn run_protected_events()
    ensures events { protected_events ≡ stores 1 512 (zeroes_entry 1) ∷ Write32 1 (tail_doorbell Io) 1 ∷ Read32 1 csts
        ∷ Fetch 1 1 ∷ Execute 1 0 ∷ Execute 1 0 ∷ [] }
{}

/// Host b2h registers a key, preempts with it, and writes; between these the holder's controller reads CSTS.
fn run_kept_events()
    ensures events { kept_events ≡ stores_keys 2 0 0x22 ∷ Execute 2 0 ∷ stores_keys 2 0x22 0x11 ∷ Execute 2 0
        ∷ Read32 1 csts ∷ Execute 2 0 ∷ PowerCycle ∷ [] }
{}

/// Host b2h stores an entry, rings, and reads CSTS; the command is executed, and power is lost.
fn run_sent_events()
    ensures events { (entry : List ℕ) → sends entry ≡ stores 2 512 entry ∷ Write32 2 (tail_doorbell Io) 1
        ∷ Read32 2 csts ∷ Fetch 2 1 ∷ Execute 2 0 ∷ PowerCycle ∷ [] }
{}
