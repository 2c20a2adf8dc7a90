//! A driver: its states, its places in the window, its registers, and what a bring-up sends.

ghost use Rattle.std.specs.Prelude.{◌≡◌, [], ◌∷◌, ◌++◌, replicate, slice_get, true, false, None, Some, Ok};
ghost use Rattle.nvme_driver.specs.Calls.{Writes};
ghost use Rattle.nvme_driver.specs.Drivers.{abort, after_reset, empty_ends, ends, entry_fields, is_down, placed};
ghost use Rattle.nvme_driver.specs.Examples.{reading_driver, ringing_driver, sending_command, small_read, up_driver};
ghost use Rattle.nvme_driver.specs.Layout.{
  Commands,
  Completions,
  Holding,
  IsArea,
  Listing,
  head_doorbell,
  tail_doorbell,
};
ghost use Rattle.nvme_driver.specs.Pointers.{first_entry, second_entry};
ghost use Rattle.nvme_driver.specs.Rises.{
  acq_high,
  answers_own,
  asq_high,
  asq_low,
  is_ready,
  risen_state,
  sent,
  start_calls,
  started,
};
ghost use Rattle.nvme_driver.specs.Tickets.{next_number};
ghost use Rattle.definition_examples.specs.DriverExamples.{one_request};

use nvme_driver::{Lane, State};

/// The state of a driver, its ends of each lane (queue pair), and its next ticket.
fn driver_parts()
    ensures down { is_down State.Down ≡ true }
    ensures up { is_down State.Up ≡ false }
    ensures failed { is_down State.Failed ≡ false }
    ensures admin { (ends Lane.Admin ringing_driver).tail.put ≡ 7 }
    ensures io { (ends Lane.Io ringing_driver).tail.put ≡ 0 }
    ensures next { (placed up_driver small_read 0).next ≡ 8 }
    ensures last_ticket { next_number None ≡ 0x10000000000000000 }
    ensures some_ticket { next_number (Some 7) ≡ 7 }
{}

/// Double words 13 to 15 of a request's command are 0.
fn driver_empty_words()
    ensures word_13 { (entry_fields sending_command 2).cdw13 ≡ 0 }
    ensures word_14 { (entry_fields sending_command 2).cdw14 ≡ 0 }
    ensures word_15 { (entry_fields sending_command 2).cdw15 ≡ 0 }
{}

/// After a reset the driver is down, its queues are empty, and its requests are aborted.
fn driver_resets()
    ensures state { (after_reset ringing_driver).state ≡ State.Down }
    ensures admin { (after_reset ringing_driver).admin ≡ empty_ends }
    ensures io { (after_reset reading_driver).io ≡ empty_ends }
    ensures aborted { abort (Some (one_request 7 true)) ≡ Some (one_request 7 false) }
    ensures none { abort None ≡ None }
{}

/// Doorbells are four bytes apart, and each of 24 slots has a list page and a data area.
fn driver_places()
    ensures admin_tail { tail_doorbell Lane.Admin ≡ 0x1000 }
    ensures admin_head { head_doorbell Lane.Admin ≡ 0x1004 }
    ensures io_tail { tail_doorbell Lane.Io ≡ 0x1008 }
    ensures io_head { head_doorbell Lane.Io ≡ 0x100c }
    ensures commands { IsArea (Commands Lane.Admin) }
    ensures completions { IsArea (Completions Lane.Io) }
    ensures last_list { IsArea (Listing 23) }
    ensures no_list { IsArea (Listing 24) → ⊥ }
    ensures last_data { IsArea (Holding 23) }
    ensures no_data { IsArea (Holding 24) → ⊥ }
{}

/// PRP entries of slot 2: none without data, and the second page or a list only for more than one page.
fn driver_pointers()
    ensures no_data { first_entry 2 0 ≡ 0 }
    ensures one_byte { first_entry 2 1 ≡ 0x140000 }
    ensures one_page { second_entry 2 4096 ≡ 0 }
    ensures two_pages { second_entry 2 4097 ≡ 0x141000 }
    ensures list { second_entry 2 8193 ≡ 0x12000 }
{}

/// Registers of a bring-up: ASQ and ACQ, CC before all others, and RDY, bit 0 of CSTS.
fn driver_registers()
    ensures asq_low { asq_low ≡ 0x28 }
    ensures asq_high { asq_high ≡ 0x2c }
    ensures acq_high { acq_high ≡ 0x34 }
    ensures disabled { slice_get (start_calls 1) 0 ≡ Some (Writes 0x14 0) }
    ensures submissions { slice_get (start_calls 1) 7 ≡ Some (Writes 0x2c 0) }
    ensures completions { slice_get (start_calls 1) 9 ≡ Some (Writes 0x34 0) }
    ensures ready { is_ready 5 ≡ true }
    ensures not_ready { is_ready 4 ≡ false }
{}

/// A bring-up empties both queue pairs, puts commands in the admin queue, and leaves the driver up if it succeeds.
fn driver_bring_ups()
    ensures admin { (started ringing_driver).admin ≡ empty_ends }
    ensures io { (started reading_driver).io ≡ empty_ends }
    ensures put { (sent up_driver).admin.tail.put ≡ 1 }
    ensures up { risen_state (Ok tt) ≡ State.Up }
{}

/// A completion answers the driver's own command, with identifier 24, if it is one of the admin queue with its tail.
#[tactic(auto, unfolding(nvme_wire::specs::Completion::sq_head, nvme_wire::specs::Completion::sq_id, nvme_wire::specs::Completion::cid))]
fn driver_own_answers()
    ensures own { answers_own ringing_driver.admin
        (replicate 8 0 ++ 7 ∷ 0 ∷ 0 ∷ 0 ∷ 24 ∷ 0 ∷ 1 ∷ 0 ∷ []) ≡ true }
    ensures other_queue { answers_own ringing_driver.admin
        (replicate 8 0 ++ 7 ∷ 0 ∷ 1 ∷ 0 ∷ 24 ∷ 0 ∷ 1 ∷ 0 ∷ []) ≡ false }
    ensures other_command { answers_own ringing_driver.admin
        (replicate 8 0 ++ 7 ∷ 0 ∷ 0 ∷ 0 ∷ 23 ∷ 0 ∷ 1 ∷ 0 ∷ []) ≡ false }
    ensures other_head { answers_own ringing_driver.admin
        (replicate 8 0 ++ 6 ∷ 0 ∷ 0 ∷ 0 ∷ 24 ∷ 0 ∷ 1 ∷ 0 ∷ []) ≡ false }
{}
