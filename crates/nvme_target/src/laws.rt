//! Laws over any inputs of the associations and any run of the subsystem. Each is the contract of an empty function.

ghost use Rattle.nvme_target.specs.Destinations.{DestinationsAreOfNamedHosts, DestinationsMayCause};
ghost use Rattle.nvme_target.specs.Journals.{
  JournalHoldsTheAccessState,
  JournalRestoresTheAccessState,
  KeptCommandsSucceedAgain,
};
ghost use Rattle.nvme_target.specs.Laws.{
  EventsAreOfNamedHosts,
  FencingHoldsOverTheWire,
  SecrecyHoldsOverTheWire,
  TargetItselfTouchesNothing,
  CausesAreOfOneController,
  OpeningHasItsHosts,
  HostsStay,
};
ghost use Rattle.nvme_target.specs.OwnData.{
  AdmittedDataFit,
  BuffersHoldWhatWasReturned,
  ExecutedAdminCommandsMoveTheirOwn,
  ExecutedCommandsMoveTheirOwn,
  FetchedCommandsArePlaced,
  StoresGiveData,
};

/// What a connection causes happens at a controller whose host that connection has named.
pub fn events_are_of_named_hosts()
    ensures { EventsAreOfNamedHosts }
{}

/// What happens at the destination of a command is of the controller of a host that its connection has named.
pub fn events_at_destinations()
    ensures causes { DestinationsMayCause }
    ensures hosts { DestinationsAreOfNamedHosts }
{}

/// A reservation fences the connections of the hosts that it excludes, at each single event of any run.
pub fn fencing_holds_over_the_wire()
    ensures writes { FencingHoldsOverTheWire }
    ensures reads { SecrecyHoldsOverTheWire }
{}

/// A command that a target has placed moves its own data when it is executed.
pub fn executed_commands_move_their_own()
    ensures stores { StoresGiveData }
    ensures placed { FetchedCommandsArePlaced }
    ensures fit { AdmittedDataFit }
    ensures executions { ExecutedCommandsMoveTheirOwn }
    ensures admin { ExecutedAdminCommandsMoveTheirOwn }
    ensures returned { BuffersHoldWhatWasReturned }
{}

/// What no connection causes writes nothing.
pub fn target_itself_touches_nothing()
    ensures { TargetItselfTouchesNothing }
{}

/// A cause is of one controller.
pub fn causes_are_of_one_controller()
    ensures { CausesAreOfOneController }
{}

/// The hosts of an accepted configuration are those of its controllers, and stay so.
pub fn hosts_are_those_of_the_configuration()
    ensures opening { OpeningHasItsHosts }
    ensures stays { HostsStay }
{}

/// The journal of a run holds all that the run changes of the access state, and restores it.
pub fn journals_hold_the_access_state()
    ensures holds { JournalHoldsTheAccessState }
    ensures restores { JournalRestoresTheAccessState }
    ensures succeed { KeptCommandsSucceedAgain }
{}
