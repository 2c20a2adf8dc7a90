//! Runs of the theorems about drivers.

ghost use Rattle.nvme_theorem_runs.specs.Drivers.{
  AbortingAtWork,
  AbortingByAnyEvent,
  AnswersAtWork,
  AnswersOfAnyMailbox,
  ApartAtWork,
  ApartOfAnyHost,
  SinceAnyEvent,
  SinceAnyMoment,
  SinceUpAtWork,
  TicketsAtWork,
  TicketsOfAnyMailbox,
  UnseenAtWork,
  UnseenOfAnyHost,
};

/// HostsAreApart: a request of one host, and a Preempt and Abort, which marks. A raw host has no mailbox.
#[tactic(auto, using(crate::proofs::DriverRuns::apart_at_work, crate::proofs::DriverRuns::apart_needs_a_driver))]
fn hosts_are_apart()
    ensures at_work { ApartAtWork }
    ensures driver { ApartOfAnyHost → ⊥ }
{}

/// EachTicketGoesOnce: one ticket is done, the next one aborted. A mailbox that holds a ticket twice delivers it twice.
#[tactic(auto, using(crate::proofs::DriverRuns::tickets_at_work, crate::proofs::DriverRuns::tickets_need_a_mailbox))]
fn each_ticket_goes_once()
    ensures at_work { TicketsAtWork }
    ensures once { TicketsOfAnyMailbox → ⊥ }
{}

/// DoneAnswersItsRequest: a Read and its bytes. A mailbox that already has an answer delivers one for a request that
/// was placed before.
#[tactic(auto, using(crate::proofs::DriverRuns::answers_at_work, crate::proofs::DriverRuns::answers_need_a_clear_mailbox))]
fn done_answers_its_request()
    ensures at_work { AnswersAtWork }
    ensures clear { AnswersOfAnyMailbox → ⊥ }
{}

/// UnseenNeverComes: a raw host finds its completion queue full.
#[tactic(auto, using(crate::proofs::DriverRuns::unseen_at_work, crate::proofs::DriverRuns::unseen_needs_a_driver))]
fn unseen_never_comes()
    ensures at_work { UnseenAtWork }
    ensures driver { UnseenOfAnyHost → ⊥ }
{}

/// PowerAborts: three requests that were not delivered; a fetch aborts none.
#[tactic(auto, using(crate::proofs::DriverRuns::aborting_at_work, crate::proofs::DriverRuns::aborting_needs_power))]
fn power_aborts()
    ensures at_work { AbortingAtWork }
    ensures power { AbortingByAnyEvent → ⊥ }
{}

/// DoneSinceItCameUp and DoneSincePower: without the premise, a driver may deliver a request that was placed before
/// that moment.
#[tactic(auto, using(crate::proofs::DriverRuns::since_up_at_work, crate::proofs::DriverRuns::since_up_needs_a_driver_down, crate::proofs::DriverRuns::since_power_needs_power))]
fn done_since_it_came_up()
    ensures at_work { SinceUpAtWork }
    ensures down { SinceAnyMoment → ⊥ }
    ensures power { SinceAnyEvent → ⊥ }
{}
