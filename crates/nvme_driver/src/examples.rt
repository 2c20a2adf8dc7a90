//! Worked examples of the definitions. Each is the contract of an empty function, proved by computing.
#![tactic(auto, unfolding(nvme_wire::specs::Submission::submission_entry, nvme_wire::specs::Completion::sq_head, nvme_wire::specs::Completion::sq_id, nvme_wire::specs::Completion::cid, nvme_wire::specs::Completion::phase, nvme_spec::specs::Entries::command_entry, crate::specs::Pointers::page_entry, crate::specs::Pointers::page_entries, crate::specs::Requests::controller_list, nvme_spec::specs::Registers::value_at, nvme_spec::specs::Registers::can_enable, nvme_spec::specs::Registers::configured, nvme_spec::specs::Registers::prepared, nvme_spec::specs::Registers::doorbell, nvme_spec::specs::Registers::after_write))]

ghost use Rattle.std.specs.Prelude.{
  ◌≡◌,
  ◌-◌,
  ◌^◌,
  ◌++◌,
  [],
  ◌∷◌,
  None,
  Some,
  replicate,
  take,
  slice_range,
  true,
  false,
};
ghost use Rattle.nvme_wire.specs.Submission.{submission_entry};
ghost use Rattle.nvme_spec.specs.Entries.{command_entry};
ghost use Rattle.nvme_spec.specs.Registers.{after_write, after_writes, admin_queues, value_at};
ghost use Rattle.nvme_driver.specs.Calls.{Stores};
ghost use Rattle.nvme_driver.specs.HostCommands.{asked_by_host, command_refusal, command_stores, placed_command};
ghost use Rattle.nvme_driver.specs.Requests.{controller_list, receiving, without_data};
ghost use Rattle.nvme_driver.specs.Pointers.{stored_list, page_entry};
ghost use Rattle.nvme_driver.specs.Drivers.{empty_ends, entry_fields, entry_of, cc, free_slot, waiting_of, new_driver};
ghost use Rattle.nvme_driver.specs.Polls.{answered, is_new};
ghost use Rattle.nvme_driver.specs.Rises.{create_completion_queue, create_submission_queue, enabling, csts, is_ready};
ghost use Rattle.nvme_driver.specs.Examples.{
  small_read,
  large_read,
  reading_driver,
  io_completion,
  registers_set,
  sending_command,
  up_driver,
  ringing_driver,
  full_driver,
};

use crate::faults::PlaceRefusal;
use crate::host_command::HostData;
use crate::lane::Lane;
use nvme_spec::RegEffect;

/// The entries of requests: opcode, identifier and namespace, then the data pointer.
fn entries()
    ensures small { slice_range (entry_of small_read 0) 0 8 ≡ 2 ∷ 0 ∷ 0 ∷ 0 ∷ 1 ∷ 0 ∷ 0 ∷ 0 ∷ [] }
    ensures small_pointer { slice_range (entry_of small_read 0) 24 40 ≡ page_entry 0x100000 ++ page_entry 0 }
    ensures large { slice_range (entry_of large_read 3) 0 8 ≡ 2 ∷ 0 ∷ 3 ∷ 0 ∷ 1 ∷ 0 ∷ 0 ∷ 0 ∷ [] }
    ensures large_pointer { slice_range (entry_of large_read 3) 24 40 ≡ page_entry 0x160000 ++ page_entry 0x13000 }
    ensures blocks { slice_range (entry_of large_read 3) 48 52 ≡ 23 ∷ 0 ∷ 0 ∷ 0 ∷ [] }
    ensures list { stored_list 3 12288 ≡ page_entry 0x161000 ++ (page_entry 0x162000 ++ []) }
    ensures no_list { stored_list 3 8192 ≡ [] }
    ensures controllers { take 8 (controller_list (2 ∷ 258 ∷ [])) ≡ 2 ∷ 0 ∷ 2 ∷ 0 ∷ 2 ∷ 1 ∷ 0 ∷ 0 ∷ [] }
{}

/// A command that is no request, in slot 2: opcode, identifier, namespace, pointer and double words.
fn host_command_entry()
    ensures front { slice_range (submission_entry (entry_fields sending_command 2)) 0 8
        ≡ 9 ∷ 0 ∷ 2 ∷ 0 ∷ 5 ∷ 0 ∷ 0 ∷ 0 ∷ [] }
    ensures pointer { slice_range (submission_entry (entry_fields sending_command 2)) 24 40
        ≡ page_entry 0x140000 ++ page_entry 0 }
    ensures words { slice_range (submission_entry (entry_fields sending_command 2)) 40 52
        ≡ 129 ∷ 0 ∷ 0 ∷ 0 ∷ 1 ∷ 0 ∷ 0 ∷ 0 ∷ 3 ∷ 0 ∷ 0 ∷ 0 ∷ [] }
    ensures bare { asked_by_host (record {
      lane = Lane.Io;
      opcode = 1;
      nsid = 2;
      cdw10 = 3;
      cdw11 = 4;
      cdw12 = 5;
      payload = HostData.Unused;
    })
        ≡ without_data (record { lane = Lane.Io; opcode = 1; nsid = 2; cdw10 = 3; cdw11 = 4; cdw12 = 5 }) }
    ensures receives { asked_by_host (record {
      lane = Lane.Admin;
      opcode = 1;
      nsid = 2;
      cdw10 = 3;
      cdw11 = 4;
      cdw12 = 5;
      payload = HostData.ToHost 9;
    })
        ≡ receiving (record { lane = Lane.Admin; opcode = 1; nsid = 2; cdw10 = 3; cdw11 = 4; cdw12 = 5 }) 9 }
{}

/// The effect of its placing on the driver, and its stores: the data, no list, and the entry.
fn host_command_placing()
    ensures driver { placed_command up_driver sending_command 0 ≡ record up_driver {
      next = 8;
      slots = Some (record { ticket = record { 0 = 7 }; lane = Lane.Admin; received = 0; live = true })
          ∷ replicate 23 None;
      admin = record empty_ends { tail = record { size = 8; put = 1; unheard = 1 } };
    } }
    ensures stores { command_stores ringing_driver sending_command 1 ≡ Stores 0x120000 (17 ∷ 18 ∷ [])
        ∷ Stores 0x11000 [] ∷ Stores 0x1c0 (submission_entry (entry_fields sending_command 1)) ∷ [] }
    ensures longest { command_refusal up_driver (record sending_command { moved = 131072 }) ≡ None }
    ensures too_long { command_refusal up_driver (record sending_command { moved = 131073 })
        ≡ Some PlaceRefusal.BadRequest }
    ensures down { command_refusal (new_driver 7) (record sending_command { moved = 131073 })
        ≡ Some PlaceRefusal.NotReady }
    ensures no_slot { command_refusal full_driver sending_command ≡ Some PlaceRefusal.NoSlot }
    ensures no_room { command_refusal ringing_driver sending_command ≡ Some PlaceRefusal.RingFull }
    ensures other_lane { command_refusal ringing_driver (record sending_command {
      command = record { lane = Lane.Io; opcode = 9; nsid = 5; cdw10 = 0; cdw11 = 0; cdw12 = 0 };
    }) ≡ None }
    ensures no_ticket { command_refusal (record up_driver { next = 2 ^ 64 }) sending_command
        ≡ Some PlaceRefusal.TicketsExhausted }
    ensures last_ticket { command_refusal (record up_driver { next = 2 ^ 64 - 1 }) sending_command ≡ None }
{}

/// The driver's own commands, and the registers that it writes.
fn bringing_up()
    ensures completions { submission_entry create_completion_queue ≡ command_entry 0x00180005 0 0x3000 0x001f0001 1 }
    ensures commands { submission_entry create_submission_queue
        ≡ command_entry 0x00180001 0 0x2000 0x00070001 0x00010001 }
    ensures enables { (after_write registers_set cc enabling).effect ≡ RegEffect.Enable }
    ensures queues { admin_queues (after_writes registers_set ((cc, enabling) ∷ []))
        ≡ Some (record { sq_base = 0; sq_size = 8; cq_base = 0x1000; cq_size = 32 }) }
    ensures ready { is_ready (value_at (after_writes registers_set ((cc, enabling) ∷ [])) csts) ≡ true }
{}

/// A request is answered only by its own identifier and lane (queue pair), with a possible head.
fn answers()
    ensures slot { free_slot reading_driver ≡ Some 1 }
    ensures its_own { answered reading_driver Lane.Io (io_completion 1 0)
        ≡ Some (waiting_of (new_driver 1) small_read) }
    ensures new { is_new reading_driver.io (io_completion 1 0) ≡ true }
    ensures no_such_slot { answered reading_driver Lane.Io (io_completion 1 5) ≡ None }
    ensures no_such_head { answered reading_driver Lane.Io (io_completion 3 0) ≡ None }
    ensures other_lane { answered reading_driver Lane.Admin (io_completion 1 0) ≡ None }
{}
