//! Events of the example runs of fleets: requests that are placed, rung, fetched, executed and delivered.
#![tactic(auto, unfolding(nvme_theorem_runs::specs::Fleets::preempted_events, nvme_theorem_runs::specs::Fleets::reading, nvme_theorem_runs::specs::Drivers::two_tickets, nvme_theorem_runs::specs::Drivers::until_answer, nvme_theorem_runs::specs::Drivers::three_requests))]

ghost use Rattle.std.specs.Prelude.{[], ◌∷◌, ◌≡◌};
ghost use Rattle.nvme_driver.specs.Requests.{asked_of};
ghost use Rattle.nvme_event.specs.declared.event.FleetEvent.TheVariants.{Place, Ring, Fetch, Execute, Poll, Reset};
ghost use Rattle.nvme_theorem_runs.specs.Fleets.{
  up as up_mailbox,
  zeroes_asked,
  read_asked,
  preempt_asked,
  preempted_events,
  reading,
};
ghost use Rattle.nvme_theorem_runs.specs.Drivers.{abort_asked, two_tickets, until_answer, three_requests};

/// Preempt and Abort for Write Exclusive, and Preempt for Write Exclusive - Registrants Only.
fn run_reservation_requests()
    ensures abort { (asked_of abort_asked).command.cdw10 ≡ 0x102 }
    ensures preempt { (asked_of preempt_asked).command.cdw10 ≡ 0x301 }
    ensures ticket { up_mailbox.next ≡ 9 }
{}

/// Of host b2h: a write of namespace 2 is delivered, and one of namespace 1 is fetched before a reset.
fn run_two_requests()
    ensures events { two_tickets ≡ Place 2 (zeroes_asked 2) ∷ Ring 2 ∷ Fetch 2 1 ∷ Execute 2 0 ∷ Poll 2
        ∷ Place 2 (zeroes_asked 1) ∷ Ring 2 ∷ Fetch 2 1 ∷ Reset 2 ∷ Poll 2 ∷ [] }
{}

/// A Read of host b2h on namespace 2 and a write of host a1h on namespace 1 are executed.
fn run_answered_requests()
    ensures events { until_answer ≡ Place 2 (read_asked 2) ∷ Ring 2 ∷ Fetch 2 1 ∷ Place 1 (zeroes_asked 1) ∷ Ring 1
        ∷ Fetch 1 1 ∷ Execute 2 0 ∷ Execute 1 0 ∷ [] }
{}

/// Of host b2h: a request is answered, one is fetched, and one is placed.
fn run_held_requests()
    ensures events { three_requests ≡ Place 2 (zeroes_asked 2) ∷ Ring 2 ∷ Fetch 2 1 ∷ Execute 2 0
        ∷ Place 2 (zeroes_asked 1) ∷ Ring 2 ∷ Fetch 2 1 ∷ Place 2 (zeroes_asked 1) ∷ [] }
{}

/// Host a1h polls, and its write is delivered; host b2h, which it preempted, requests one.
fn run_preempting_requests()
    ensures events { preempted_events ≡ Poll 1 ∷ Place 1 (zeroes_asked 1) ∷ Ring 1 ∷ Fetch 1 1 ∷ Execute 1 0 ∷ Poll 1
        ∷ Place 2 (zeroes_asked 1) ∷ Ring 2 ∷ Fetch 2 1 ∷ [] }
{}

/// A Read of host b2h is delivered, and its controller is reset.
fn run_reading_requests()
    ensures events { reading ≡ Place 2 (read_asked 1) ∷ Ring 2 ∷ Fetch 2 1 ∷ Execute 2 0 ∷ Poll 2 ∷ Reset 2 ∷ [] }
{}
