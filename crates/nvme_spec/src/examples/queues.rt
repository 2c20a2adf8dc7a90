//! Ends of queues after doorbells, fetches and entries.

ghost use Rattle.std.specs.Prelude.{◌≡◌, true, false};
ghost use Rattle.nvme_spec.specs.Queues.{
  slot_of,
  phase_tag,
  submission_place,
  completion_place,
  empty_submission_head,
  after_tail_doorbell,
  after_fetch,
  empty_completion_tail,
  completion_room,
  after_post,
  after_head_doorbell,
  empty_submission_tail,
  submission_room,
  after_put,
  can_be_heard,
  after_head,
  empty_completion_head,
  after_consumption,
};

/// A submission queue of 8 entries whose head is 3: its tail may move forward and back.
fn tail_doorbells()
    ensures two { (after_tail_doorbell (record { size = 8; fetched = 3; waiting = 0 }) 5).waiting ≡ 2 }
    ensures one { (after_tail_doorbell (record { size = 8; fetched = 3; waiting = 2 }) 4).waiting ≡ 1 }
    ensures round_the_ring { (after_tail_doorbell (record { size = 8; fetched = 3; waiting = 1 }) 2).waiting ≡ 7 }
    ensures no_slot { after_tail_doorbell (record { size = 8; fetched = 3; waiting = 7 }) 8
        ≡ record { size = 8; fetched = 3; waiting = 7 } }
    ensures fetched { after_fetch (record { size = 8; fetched = 7; waiting = 2 })
        ≡ record { size = 8; fetched = 0; waiting = 1 } }
    ensures first { after_fetch (after_tail_doorbell (empty_submission_head 8) 1)
        ≡ record { size = 8; fetched = 1; waiting = 0 } }
{}

/// A completion queue of 2 entries has room for one completion at a time.
fn small_completion_queue()
    ensures room { completion_room (empty_completion_tail 2) ≡ 1 }
    ensures full { completion_room (after_post (empty_completion_tail 2)) ≡ 0 }
    ensures heard { completion_room (after_head_doorbell (after_post (empty_completion_tail 2)) 1) ≡ 1 }
    ensures second { after_post (after_head_doorbell (after_post (empty_completion_tail 2)) 1)
        ≡ record { size = 2; posted = 2; unread = 1 } }
    ensures third { after_post (after_head_doorbell (record { size = 2; posted = 2; unread = 1 }) 0)
        ≡ record { size = 2; posted = 3; unread = 1 } }
    ensures two_turns { after_post (after_head_doorbell (record { size = 2; posted = 3; unread = 1 }) 1)
        ≡ record { size = 2; posted = 0; unread = 1 } }
    ensures first_slot { slot_of 2 0 ≡ 0 }
    ensures first_phase { phase_tag 2 0 ≡ true }
    ensures second_slot { slot_of 2 1 ≡ 1 }
    ensures second_phase { phase_tag 2 1 ≡ true }
    ensures third_slot { slot_of 2 2 ≡ 0 }
    ensures third_phase { phase_tag 2 2 ≡ false }
{}

/// The 33rd completion of a queue of 32 entries at 3000h is in the slot of the first, and so is the ninth command of a
/// queue of 8 entries at 2000h.
fn places()
    ensures first { completion_place 0x3000 32 0 ≡ 0x3000 }
    ensures second { completion_place 0x3000 32 1 ≡ 0x3010 }
    ensures next_turn { completion_place 0x3000 32 32 ≡ 0x3000 }
    ensures next_phase { phase_tag 32 32 ≡ false }
    ensures command { submission_place 0x2000 8 7 ≡ 0x21c0 }
    ensures ninth_command { submission_place 0x2000 8 8 ≡ 0x2000 }
{}

/// A host that has put seven commands into a queue of 8 can put no more until a completion's head shows that one was
/// fetched.
fn heads_heard()
    ensures one_put { after_put (empty_submission_tail 8) ≡ record { size = 8; put = 1; unheard = 1 } }
    ensures full { submission_room (record { size = 8; put = 7; unheard = 7 }) ≡ 0 }
    ensures heard { after_head (record { size = 8; put = 7; unheard = 7 }) 3
        ≡ record { size = 8; put = 7; unheard = 4 } }
    ensures room { submission_room (record { size = 8; put = 7; unheard = 4 }) ≡ 3 }
    ensures heard_before { can_be_heard (record { size = 8; put = 7; unheard = 4 }) 2 ≡ false }
    ensures past_the_tail { can_be_heard (record { size = 8; put = 1; unheard = 1 }) 3 ≡ false }
    ensures no_slot { can_be_heard (record { size = 8; put = 7; unheard = 7 }) 8 ≡ false }
    ensures consumed { after_consumption (record { size = 8; consumed = 15 }) ≡ empty_completion_head 8 }
{}
