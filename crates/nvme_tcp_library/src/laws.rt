//! Laws that follow from the definitions. Each is the contract of an empty function.

ghost use Rattle.nvme_tcp_library.specs.Determined.{
  CapsulesAreDetermined,
  FabricsAreDetermined,
  TakingsAreDetermined,
  TransfersAreDetermined,
};
ghost use Rattle.nvme_tcp_library.specs.Laws.{
  DestinationsDiffer,
  LiveSessionsServe,
  OutcomesDiffer,
  PartsDiffer,
  RefusalsDiffer,
  RequestsDiffer,
  SessionsAreReadBack,
  TakingsDiffer,
};

/// What C holds loses nothing.
fn nothing_is_lost()
    ensures sessions { SessionsAreReadBack }
    ensures takings { TakingsDiffer }
{}

/// What C sees of commands whose data a host sends loses nothing.
fn outcomes_differ()
    ensures parts { PartsDiffer }
    ensures refusals { RefusalsDiffer }
    ensures requests { RequestsDiffer }
{}

/// What C sees of a command capsule loses nothing.
fn capsules_differ()
    ensures outcomes { OutcomesDiffer }
    ensures destinations { DestinationsDiffer }
    ensures sessions { LiveSessionsServe }
{}

/// What C sees of each call is determined, apart from an opening for which memory is refused.
#[tactic(auto, using(crate::proofs::Determined::fabrics_are_determined, crate::proofs::Determined::transfers_are_determined, crate::proofs::Determined::capsules_are_determined, crate::proofs::Determined::takings_are_determined))]
fn calls_are_determined()
    ensures fabrics { FabricsAreDetermined }
    ensures transfers { TransfersAreDetermined }
    ensures capsules { CapsulesAreDetermined }
    ensures takings { TakingsAreDetermined }
{}
