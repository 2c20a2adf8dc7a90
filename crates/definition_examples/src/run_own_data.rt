//! The example runs on a command's own data, on single commands, and over the wire.
#![tactic(auto, unfolding(nvme_theorem_runs::specs::Cluster::cluster, nvme_theorem_runs::specs::OwnData::read, nvme_theorem_runs::specs::OwnData::served, nvme_theorem_runs::specs::OwnData::meantime, nvme_spec::specs::Entries::transfer_entry, nvme_wire::specs::Submission::cdw10, nvme_wire::specs::Submission::cdw12, nvme_wire::specs::Submission::nsid))]

ghost use Rattle.std.specs.Prelude.{[], ◌+◌, ◌∷◌, ◌≡◌, ℕ, List};
ghost use Rattle.nvme_driver.specs.declared.lane.Lane.TheVariants.{Io};
ghost use Rattle.nvme_driver.specs.Layout.{tail_doorbell};
ghost use Rattle.nvme_driver.specs.Rises.{csts};
ghost use Rattle.nvme_wire.specs.Submission.{nsid, cdw10, cdw12};
ghost use Rattle.nvme_data_buffers.specs.Buffers.{start};
ghost use Rattle.nvme_data_buffers.specs.Queues.{submission_queue};
ghost use Rattle.nvme_data_buffers.specs.declared.buffer.DataBuffer.TheVariants.{AtOnce};
ghost use Rattle.nvme_machine.specs.declared.event.Event.TheVariants.{Fetch, Read32, Write32};
ghost use Rattle.nvme_machine.specs.declared.fetched.FetchedCommand.{FetchedCommand};
ghost use Rattle.nvme_fabrics.specs.Examples.{entry as connect_entry, named, any_of, judged, two_queues};
ghost use Rattle.nvme_fabrics.specs.Runs.{Connects};
ghost use Rattle.nvme_theorem_runs.specs.Cluster.{stores, ready, zeros, held_by_a1, reserved};
ghost use Rattle.nvme_theorem_runs.specs.EachEvent.{both_write};
ghost use Rattle.nvme_theorem_runs.specs.Medium.{writing, one_command};
ghost use Rattle.nvme_theorem_runs.specs.OwnData.{
  read as own_read,
  write as own_write,
  connected,
  served,
  meantime,
  block_of,
};
ghost use Rattle.nvme_theorem_runs.specs.Reading.{read_entry};
ghost use Rattle.nvme_theorem_runs.specs.Wire.{four_queues};

/// A Read of the block of namespace 1: its first block, and one block, zero-based.
fn run_read_entries()
    ensures own { nsid own_read ≡ 1 }
    ensures slba { cdw10 read_entry ≡ 0 }
    ensures count { cdw12 read_entry ≡ 0 }
{}

/// Controller 1 has the queues of a target, and no command waits; host a1h holds namespace 1.
fn run_served_subsystems()
    ensures identifier { (e window : List ℕ) → (connected e window 0).cntlid ≡ 1 }
    ensures controllers { (e window : List ℕ) → (served e window).controllers ≡ connected e window 0
        ∷ ready 2 zeros [] ∷ [] }
    ensures events { (byte : ℕ) → meantime byte ≡ stores 1 (start AtOnce 512) (block_of byte)
        ∷ stores 1 (submission_queue 1 + 64) own_write ∷ Write32 1 (tail_doorbell Io) 2 ∷ Read32 1 csts ∷ Fetch 2 1
        ∷ [] }
{}

/// Host a1h holds namespace 1 with Write Exclusive.
fn run_fenced_worlds()
    ensures each_event { both_write.world ≡ reserved (held_by_a1 1) }
    ensures medium { writing.world ≡ reserved (held_by_a1 1) }
    ensures command { (t : FetchedCommand) → (one_command t).world ≡ reserved (held_by_a1 1) }
{}

/// Connections 9 and 10 connect host b2h to the queues 0 and 1 of controller 2, with 32 entries each.
fn run_connections()
    ensures inputs { four_queues ≡ Connects 10 (connect_entry 1 31) (named 0xb2 2 0x6e) judged
        ∷ Connects 9 (connect_entry 0 31) (any_of 0xb2) judged ∷ two_queues }
{}
