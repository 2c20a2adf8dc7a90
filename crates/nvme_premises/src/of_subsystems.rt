//! Premises on the events of a subsystem.

ghost use Rattle.nvme_premises.specs.Events.{
  AdminComesToItsExecution,
  AllowsIsExecution,
  CallIsOfAnExecution,
  EmptiesIsEnableOrDisable,
  ExecutesNothingIsNoExecution,
  FleetingIsNotPersistent,
  ForgetsIsPowerCycle,
  OfItsControllerIsOfIt,
  OnlyReadyFetches,
  PlacesAreKept,
  ReadGivesTheValue,
  ResetIsEnableOrDisable,
  TakesByWriteIsResetOrDoorbell,
  TakesEntryIsOneOfFour,
  TakesOutIsOneOfThree,
};

/// An event allows a command exactly if it executes one that all rules let pass.
#[tactic(auto, using(crate::proofs::Events::allows_is_execution))]
pub fn only_executions_allow()
    ensures allows { AllowsIsExecution }
{}

/// A reservation is forgotten exactly in a power cycle, if it does not persist.
#[tactic(auto, using(crate::proofs::Events::fleeting_is_not_persistent, crate::proofs::Events::forgets_is_power_cycle))]
pub fn only_power_forgets()
    ensures fleeting { FleetingIsNotPersistent }
    ensures forgets { ForgetsIsPowerCycle }
{}

/// A property of an event's controller is one of the controller that the event names. It holds for a power cycle.
#[tactic(auto, using(crate::proofs::Events::of_its_controller_is_of_it))]
pub fn events_are_of_their_controller()
    ensures said { OfItsControllerIsOfIt }
{}

/// A register write resets exactly if it enables or disables.
#[tactic(auto, using(crate::proofs::Events::reset_is_enable_or_disable, crate::proofs::Events::empties_is_enable_or_disable))]
pub fn enabling_and_disabling_reset()
    ensures reset { ResetIsEnableOrDisable }
    ensures empties { EmptiesIsEnableOrDisable }
{}

/// A fetched command leaves its list exactly by an execution, a reset or a power cycle. Other events leave its place.
pub fn commands_are_taken_out()
    ensures taken { TakesOutIsOneOfThree }
    ensures kept { PlacesAreKept }
{}

/// A completion is taken exactly by a store over it, a reset, the doorbell of its queue, a command or a power cycle.
#[tactic(auto, using(crate::proofs::Events::takes_by_write_is_reset_or_doorbell, crate::proofs::Events::takes_entry_is_one_of_four))]
pub fn completions_are_taken()
    ensures write { TakesByWriteIsResetOrDoorbell }
    ensures event { TakesEntryIsOneOfFour }
{}

/// The results of a controller's events: a read returns the value of its register, and a fetch fetches nothing unless
/// the controller is ready.
#[tactic(auto, using(crate::proofs::Events::read_gives_the_value, crate::proofs::Events::only_ready_fetches))]
pub fn controllers_answer()
    ensures read { ReadGivesTheValue }
    ensures fetch { OnlyReadyFetches }
{}

/// An admin command's answer has all of its execution.
#[tactic(auto, using(crate::proofs::Events::admin_comes_to_its_execution))]
pub fn admin_commands_come_to_their_execution()
    ensures admin { AdminComesToItsExecution }
{}

/// Only executions make calls of the medium.
#[tactic(auto, using(crate::proofs::Events::call_is_of_an_execution, crate::proofs::Events::executes_nothing_is_no_execution))]
pub fn only_executions_call()
    ensures calls { CallIsOfAnExecution }
    ensures others { ExecutesNothingIsNoExecution }
{}
