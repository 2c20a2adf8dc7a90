//! Premises on the events of a fleet.

ghost use Rattle.nvme_premises.specs.FleetEvents.{
  AllowsIsExecution,
  ConcernsItsController,
  ForgetsIsPowerCycle,
  OfItsHostIsOfIt,
  RegistersIsExecution,
};

/// An event allows a command exactly if it executes one that all rules let pass.
#[tactic(auto, using(crate::proofs::FleetEvents::allows_is_execution))]
pub fn only_executions_allow()
    ensures allows { AllowsIsExecution }
{}

/// A reservation is forgotten exactly in a power cycle, if it does not persist.
#[tactic(auto, using(crate::proofs::FleetEvents::forgets_is_power_cycle))]
pub fn only_power_forgets()
    ensures forgets { ForgetsIsPowerCycle }
{}

/// A host is registered exactly by a Reservation Register of its own that all rules let pass.
#[tactic(auto, using(crate::proofs::FleetEvents::registers_is_execution))]
pub fn only_own_commands_register()
    ensures registers { RegistersIsExecution }
{}

/// A property of an event's host is one of the controller that the event names. It holds for a power cycle.
#[tactic(auto, using(crate::proofs::FleetEvents::concerns_its_controller, crate::proofs::FleetEvents::of_its_host_is_of_it))]
pub fn events_are_of_their_host()
    ensures concerns { ConcernsItsController }
    ensures said { OfItsHostIsOfIt }
{}
