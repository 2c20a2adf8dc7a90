//! Polls of a driver: the oldest aborted request, new completions, and what a poll delivers.

ghost use Rattle.std.specs.Prelude.{
  ◌≡◌,
  ℕ,
  List,
  Option,
  Result,
  [],
  ◌∷◌,
  ◌++◌,
  length,
  replicate,
  slice_range,
  take,
  true,
  false,
  None,
  Some,
  Ok,
  Err,
};
ghost use Rattle.nvme_driver.specs.declared.answer.Answer.{Answer};
ghost use Rattle.nvme_driver.specs.declared.answer.Answer.TheVariants as answer;
ghost use Rattle.nvme_driver.specs.declared.faults.PollFault.{PollFault};
ghost use Rattle.nvme_driver.specs.declared.faults.PollFault.TheVariants as poll_fault;
ghost use Rattle.nvme_driver.specs.Drivers.{Driver, empty_ends};
ghost use Rattle.nvme_driver.specs.Examples.{reading_driver, up_driver};
ghost use Rattle.nvme_driver.specs.Polls.{
  IsNotBelow,
  IsOldest,
  IsPolledOver,
  answer_len,
  answered_poll,
  freed,
  handed_len,
  is_new,
  is_success,
  next_entry,
  polled,
  ticket_of,
  waiting_at,
};
ghost use Rattle.definition_examples.specs.DriverExamples.{
  aborted_driver,
  aborted_slots,
  bare_driver,
  counts,
  one_request,
};

use nvme_driver::{Lane, State};

/// Tickets compared with another one, or with none.
fn driver_ticket_order()
    ensures none { IsNotBelow (record { 0 = 7 }) None }
    ensures same { IsNotBelow (record { 0 = 7 }) (Some (record { 0 = 7 })) }
    ensures below { IsNotBelow (record { 0 = 7 }) (Some (record { 0 = 6 })) → ⊥ }
    ensures no_ticket { (ticket_of None).0 ≡ 0 }
    ensures a_ticket { (ticket_of (Some (record { 0 = 7 }))).0 ≡ 7 }
{}

/// The oldest of two aborted requests, with tickets 8 and 7, is the second, although one with ticket 6 waits.
fn driver_oldest_requests()
    ensures oldest { IsOldest aborted_slots (Some 2) }
    ensures not_aborted { waiting_at aborted_slots 3 ≡ Some (one_request 6 true) }
    ensures no_bytes { (one_request 6 true).received ≡ 0 }
    ensures younger { IsOldest aborted_slots (Some 1) → ⊥ }
    ensures waiting { IsOldest aborted_slots (Some 3) → ⊥ }
    ensures none_aborted { IsOldest [] None }
    ensures one_aborted { IsOldest aborted_slots None → ⊥ }
{}

/// A completion has 16 bytes, and its phase tag, bit 0 of byte 14, is 1 at first.
#[tactic(auto, unfolding(nvme_wire::specs::Completion::phase))]
fn driver_next_completions()
    ensures entry { (window : List ℕ) → next_entry Lane.Admin empty_ends window ≡ slice_range window 0x1000 0x1010 }
    ensures old { is_new reading_driver.io (replicate 16 0) ≡ false }
    ensures fresh { is_new reading_driver.io (replicate 14 0 ++ 1 ∷ 0 ∷ []) ≡ true }
{}

/// Only SCT 0 with SC 00h is a success, and only then the data of a request come.
fn driver_successes()
    ensures success { is_success (record { sct = 0; sc = 0 }) ≡ true }
    ensures generic { is_success (record { sct = 0; sc = 1 }) ≡ false }
    ensures specific { is_success (record { sct = 1; sc = 0 }) ≡ false }
    ensures all { answer_len 512 (record { sct = 0; sc = 0 }) ≡ 512 }
    ensures none { answer_len 512 (record { sct = 0; sc = 1 }) ≡ 0 }
{}

/// What polls answer: the oldest aborted request first; a completion that answers no request fails the driver.
fn driver_poll_answers()
    ensures aborted { (window : List ℕ) → (polled aborted_driver (Some 2) window).answer
        ≡ Ok (Some (answer.Aborted (record { 0 = 7 }))) }
    ensures unknown { (window : List ℕ) → (answered_poll up_driver window Lane.Io [] None).driver
        ≡ record up_driver { state = State.Failed } }
    ensures done { handed_len (Ok (Some (answer.Done (record { 0 = 7 }) (record { sct = 0; sc = 0 }) 3 512))) ≡ 512 }
    ensures nothing { handed_len (Ok None) ≡ 0 }
{}

/// A poll of a driver that is down answers so, without a call.
fn driver_polls_when_down()
    ensures down { (window buffer : List ℕ)
        → IsPolledOver counts bare_driver window 3 (Err poll_fault.NotUp) bare_driver 3 buffer }
{}

/// A poll of a driver with aborted requests delivers the oldest one, frees its slot, and makes no call.
fn driver_polls_of_aborted()
    ensures result { (window buffer : List ℕ) → (result : Result (Option Answer) PollFault) → (after : Driver)
        → (made : ℕ)
        → IsPolledOver counts aborted_driver window 3 result after made buffer
        → result ≡ Ok (Some (answer.Aborted (record { 0 = 7 }))) }
    ensures driver { (window buffer : List ℕ) → (result : Result (Option Answer) PollFault) → (after : Driver)
        → (made : ℕ)
        → IsPolledOver counts aborted_driver window 3 result after made buffer → after ≡ freed aborted_driver 2 }
    ensures calls { (window buffer : List ℕ) → (result : Result (Option Answer) PollFault) → (after : Driver)
        → (made : ℕ)
        → IsPolledOver counts aborted_driver window 3 result after made buffer → made ≡ 3 }
{}

/// The front of the buffer is the bytes of the answer.
fn driver_polled_bytes()
    ensures front { (d : Driver) → (window buffer : List ℕ) → (result : Result (Option Answer) PollFault)
        → (after : Driver) → (made : ℕ) → (x : IsPolledOver counts d window 3 result after made buffer)
        → take (length (polled d x.0 window).bytes) buffer ≡ (polled d x.0 window).bytes }
{}
