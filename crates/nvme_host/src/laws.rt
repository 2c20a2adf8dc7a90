//! Laws that follow from the contracts. Each is the contract of an empty function.

ghost use Rattle.nvme_driver.specs.Ports.{IsStill};
ghost use Rattle.nvme_host.specs.Actions.{PlacingRecordsItsStores};
ghost use Rattle.nvme_host.specs.Determined.{CallsAreDetermined, RunsHaveDistinctTickets};
ghost use Rattle.nvme_host.specs.ExportsDetermined.{ExportsAreDetermined};
ghost use Rattle.nvme_host.specs.Recording.{Records};
ghost use Rattle.nvme_host.specs.Runs.{
  DeliversGivenTicketsOnce,
  DeliversNoneAgain,
  ResetsAbort,
  ExpiryStopsRequests,
  AnswersNameTheirRequests,
  LooksWhereTheDriverLooks,
};

/// The looks and loads of a driver return what is in the port's window, and leave it.
#[tactic(auto, using(crate::proofs::Windows::looks_leave_the_window))]
pub fn looks()
    ensures { IsStill Records (λ p. p.window) }
{}

/// No ticket is delivered twice, and none that no placing gave, whatever C calls, and whatever bytes the device wrote.
pub fn tickets()
    ensures { DeliversGivenTicketsOnce }
{}

/// A ticket that was delivered with the controller's answer is not delivered again, with an answer or as aborted.
pub fn tickets_come_once()
    ensures { DeliversNoneAgain }
{}

/// After a reset no answer of the controller has a ticket from before it: that ticket is delivered as aborted.
pub fn resets()
    ensures { ResetsAbort }
{}

/// After a request expired no request is sent before a reset.
pub fn expiry()
    ensures { ExpiryStopsRequests }
{}

/// A completion is the answer to the live request in the slot that it names. A late one is that of no other request.
pub fn answers()
    ensures { AnswersNameTheirRequests }
{}

/// Each call has one outcome. A poll has one if no two aborted requests have one ticket, which holds in each run.
#[tactic(auto, using(crate::proofs::Determined::calls_are_determined, crate::proofs::Tickets::runs_have_distinct_tickets))]
pub fn calls()
    ensures determined { CallsAreDetermined }
    ensures distinct { RunsHaveDistinctTickets }
{}

/// Each export has one outcome, whether a driver is open or not. Opening has two, of which memory decides. A poll has
/// one if no two aborted requests have one ticket, and if the data of its answer are in the window.
pub fn exports_are_determined()
    ensures { ExportsAreDetermined }
{}

/// A program looks for completions where the driver does, whatever it called before.
pub fn heads()
    ensures { LooksWhereTheDriverLooks }
{}

/// The actions of a placing are the stores of its request.
pub fn actions()
    ensures { PlacingRecordsItsStores }
{}
