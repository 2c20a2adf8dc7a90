//! The subsystem of the example runs: hosts, reservations, medium, window and queues.
#![tactic(auto, unfolding(nvme_theorem_runs::specs::Cluster::cluster, nvme_spec::specs::Entries::command_entry, nvme_spec::specs::World::host_of, nvme_spec::specs::World::opening_world, nvme_wire::specs::Submission::cdw10, nvme_wire::specs::Submission::cdw11, nvme_wire::specs::Submission::prp1))]

ghost use Rattle.std.specs.Prelude.{[], ◌∷◌, ◌≡◌, ℕ, true, false, None, Some, replicate};
ghost use Rattle.nvme_wire.specs.Submission.{prp1, cdw10, cdw11, nsid};
ghost use Rattle.nvme_spec.specs.Reservation.{Reservation};
ghost use Rattle.nvme_spec.specs.Reservation.{unreserved};
ghost use Rattle.nvme_spec.specs.Queues.{empty_completion_tail};
ghost use Rattle.nvme_spec.specs.World.{host_of, opening_world};
ghost use Rattle.nvme_spec.specs.declared.access.Protection.TheVariants.{Open};
ghost use Rattle.nvme_machine.specs.declared.event.Event.TheVariants.{Store};
ghost use Rattle.nvme_machine.specs.Controllers.{completion_at};
ghost use Rattle.nvme_theorem_runs.specs.Cluster.{
  pair,
  held_by_a1,
  forgotten,
  blocks as cluster_blocks,
  window_with,
  zeros,
  is_up,
  ready,
  cluster,
  flush as flush_of,
  stores,
  register as register_key,
  acquire as acquire_with,
  overlapping,
};

/// Controller 1 belongs to host a1h, controller 2 to host b2h.
fn run_hosts()
    ensures first { host_of (opening_world pair) 1 ≡ Some 0xa1 }
    ensures second { host_of (opening_world pair) 2 ≡ Some 0xb2 }
    ensures none { host_of (opening_world pair) 3 ≡ None }
{}

/// The reservation that does not persist is otherwise the same.
fn run_reservations()
    ensures fleeting { (type : ℕ) → forgotten type ≡ record (held_by_a1 type) { ptpl = false } }
{}

/// A window has 512 bytes of data, and 320 zeros after them for the entries of queues.
fn run_windows()
    ensures entries { window_with (7 ∷ []) ≡ 7 ∷ replicate 320 0 }
    ensures zeros { zeros ≡ replicate 832 0 }
    ensures store { stores 2 512 (7 ∷ []) ≡ Store 2 512 (record { ref_ptr = (0, 0); now = 7 ∷ [] }) }
    ensures medium { cluster_blocks.failures ≡ 0 }
{}

/// The admin queues have four entries each, and the I/O completion queue has its four at byte 768.
fn run_queues()
    ensures admin { is_up.aqa ≡ 0x00030003 }
    ensures completion { completion_at (ready 2 zeros []) 1
        ≡ Some (record { base = 768; tail = empty_completion_tail 4 }) }
    ensures controllers { (r : Reservation) → (cluster r [] []).controllers ≡ ready 1 zeros [] ∷ ready 2 zeros []
        ∷ [] }
{}

/// Flush has no data and no double words; keys are at address 0, and the new reservation is Write Exclusive.
fn run_commands()
    ensures flush_data { prp1 (flush_of 2).entry ≡ 0 }
    ensures flush_10 { cdw10 (flush_of 2).entry ≡ 0 }
    ensures flush_11 { cdw11 (flush_of 2).entry ≡ 0 }
    ensures register_11 { cdw11 register_key.entry ≡ 0 }
    ensures acquire_10 { cdw10 (acquire_with 2).entry ≡ 0x102 }
    ensures acquire_11 { cdw11 (acquire_with 2).entry ≡ 0 }
{}

/// Namespaces 1 and 2 overlap: each is block 0.
fn run_overlaps()
    ensures namespaces { overlapping.namespaces
        ≡ record { nsid = 1; first = 0; blocks = 1; shared = true; protection = Open; reservation = held_by_a1 1 }
        ∷ record { nsid = 2; first = 0; blocks = 1; shared = true; protection = Open; reservation = unreserved }
        ∷ [] }
{}
