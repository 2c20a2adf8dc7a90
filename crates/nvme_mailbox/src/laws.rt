//! Laws of mailboxes and fleets. Each law is the contract of an empty function.

ghost use Rattle.nvme_mailbox.specs.Answered.{
  DoneAnswersItsRequest,
  DoneIsItsExecution,
  NewIsClear,
  ResetClears,
  TicketNamesItsRequest,
};
ghost use Rattle.nvme_mailbox.specs.Apart.{HostsAreApart};
ghost use Rattle.nvme_mailbox.specs.Determined.{FailuresNeverFall, RunExists, RunIsUnique};
ghost use Rattle.nvme_mailbox.specs.Fencing.{
  OnlyAllowedActionsReserve,
  PermissionsStay,
  FencedWritesAreDenied,
  FencingHolds,
};
ghost use Rattle.nvme_mailbox.specs.IoCommands.{OpeningIsNumbered, NumbersStay, ExecutedAsThePolicyAllows};
ghost use Rattle.nvme_mailbox.specs.Preempting.{
  OutsidersMayNotWrite,
  OutsidersStayOutside,
  PreemptedIsOutside,
  PreemptedStaysOut,
};
ghost use Rattle.nvme_mailbox.specs.SinceUp.{DownIsClear, DoneSinceItCameUp};
ghost use Rattle.nvme_mailbox.specs.Tickets.{
  DriversStay,
  EachIsHeldOnce,
  EachTicketGoesOnce,
  HeldAreCounted,
  NewHoldsEachOnce,
  OpeningHasDrivers,
  OpeningIsNew,
  TicketsAreConsecutive,
  TicketsBalance,
  TicketsOfAnOpeningGoOnce,
};
ghost use Rattle.nvme_mailbox.specs.Unseen.{UnseenNeverComes};

/// Without a fault of the medium, a list of events has exactly one run: each reply, and the last state, is what the
/// definitions compute.
#[tactic(auto, using(crate::proofs::Determined::failures_never_fall, crate::proofs::Determined::run_is_unique))]
pub fn run_is_determined()
    ensures count { FailuresNeverFall }
    ensures exists { RunExists }
    ensures unique { RunIsUnique }
{}

/// A host that has a driver always has one. Its mailbox is changed only by its own events and by the marks of another
/// host's Preempt and Abort. A power cycle counts as an event of every host.
#[tactic(auto, using(crate::proofs::Apart::hosts_are_apart))]
pub fn hosts_are_apart()
    ensures apart { HostsAreApart }
{}

/// For a host with a driver, over every run and for any weights of tickets: the tickets that were held or issued are
/// those that are held, done or aborted at the end. Each executed ticket was waiting at the start or was issued; each
/// done one was answered at the start or was executed.
#[tactic(auto, using(crate::proofs::TicketCounts::held_are_counted, crate::proofs::TicketRuns::drivers_stay))]
pub fn tickets_balance()
    ensures counted { HeldAreCounted }
    ensures drivers { DriversStay }
    ensures balance { TicketsBalance }
{}

/// A host with a driver issues its tickets in order, each once. In every run from an opening, each ticket is executed
/// at most once, and delivered at most once, as done or as aborted; one that was issued is held until then.
#[tactic(auto, using(crate::proofs::TicketCounts::tickets_are_consecutive, crate::proofs::TicketCounts::opening_is_new, crate::proofs::TicketCounts::opening_has_drivers, crate::proofs::TicketCounts::new_holds_each_once, crate::proofs::TicketCounts::each_is_held_once))]
pub fn tickets_go_once()
    ensures consecutive { TicketsAreConsecutive }
    ensures opening { OpeningIsNew }
    ensures drivers { OpeningHasDrivers }
    ensures new { NewHoldsEachOnce }
    ensures held { EachIsHeldOnce }
    ensures once { EachTicketGoesOnce }
    ensures opened { TicketsOfAnOpeningGoOnce }
{}

/// An answer that a driver delivers as done has the status, double word 0 and data of the execution of its own request,
/// over the access state and medium at that moment. The request was placed, and then executed, since the mailbox was
/// last clear. A mailbox is clear at first and after each reset, so nothing from before a reset is delivered as done.
/// Each ticket belongs to one request, so a done answer with its ticket answers that request.
pub fn done_is_its_execution()
    ensures new { NewIsClear }
    ensures reset { ResetClears }
    ensures done { DoneIsItsExecution }
    ensures names { TicketNamesItsRequest }
    ensures request { DoneAnswersItsRequest }
{}

/// No event of a host with a driver finds a completion queue full, delivers a completion that answers no request, or
/// fails to bring up its controller.
pub fn trouble_never_comes()
    ensures unseen { UnseenNeverComes }
{}

/// The rules judge each I/O command that a controller of a fleet executes, of a driver or of a raw host, by the access
/// state of that moment. A denied one is answered with the number and the status of the first rule that fails, and
/// changes neither access state nor medium; an allowed one has exactly its effect. A raw host's controller has its
/// number, at the opening and in every run.
pub fn executed_as_the_policy_allows()
    ensures opening { OpeningIsNumbered }
    ensures numbers { NumbersStay }
    ensures executed { ExecutedAsThePolicyAllows }
{}

/// Each write of a host that may not write a namespace is answered Reservation Conflict, or the denial of an earlier
/// rule, until a reservation command on the namespace is allowed, or power is lost and its reservation does not
/// persist.
pub fn fencing_is_kept()
    ensures reserves { OnlyAllowedActionsReserve }
    ensures permissions { PermissionsStay }
    ensures denied { FencedWritesAreDenied }
    ensures run { FencingHolds }
{}

/// A host that a Preempt has removed stays fenced: while any host holds the reservation, its writes are answered in the
/// same way until it is registered again, which only its own Reservation Register can do.
pub fn preempted_hosts_stay_out()
    ensures outsiders { OutsidersMayNotWrite }
    ensures outside { OutsidersStayOutside }
    ensures preempted { PreemptedIsOutside }
    ensures run { PreemptedStaysOut }
{}

/// In every run from an opening, a driver that is down has no waiting request and no answer. So a request that it
/// delivers as done after it was down was placed, and then executed, since it last came up.
pub fn done_since_it_came_up()
    ensures clear { DownIsClear }
    ensures done { DoneSinceItCameUp }
{}
