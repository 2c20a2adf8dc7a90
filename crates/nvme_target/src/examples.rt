//! Worked examples: which events each cause may make happen, and which it may not.

ghost use Rattle.std.specs.Prelude.{true, false, [], ◌∷◌};
ghost use Rattle.nvme_machine.specs.declared.event.Event.TheVariants.{Read32, Fetch, PowerCycle};
ghost use Rattle.nvme_fabrics.specs.Examples.{hosts, two_queues, other_command};
ghost use Rattle.nvme_fabrics.specs.Runs.{Executes};
ghost use Rattle.nvme_target.specs.Causes.{Commands, Ending, Proving, Accessing, LosingPower, MayCause};
ghost use Rattle.nvme_target.specs.Destinations.{IsOfDestination, destination_after};
ghost use Rattle.nvme_target.specs.Examples.{
  May,
  closed,
  ended,
  asked,
  connecting,
  resets,
  executes,
  read,
  of_fabrics,
};

/// A connection that is a queue causes events of its controller, and no others.
fn commands()
    ensures own { May two_queues (Commands 8) (executes 1) }
    ensures of_another { May two_queues (Commands 8) (executes 2) → ⊥ }
    ensures power { May two_queues (Commands 8) PowerCycle → ⊥ }
    ensures no_queue { May two_queues (Commands 9) (Fetch 1 0) → ⊥ }
    ensures closed { May closed (Commands 8) (executes 1) → ⊥ }
    ensures ended { May ended (Commands 8) (executes 1) → ⊥ }
{}

/// A connection that was a queue before the last input causes events until the next one.
fn ends()
    ensures own { May closed (Ending 8) (executes 1) }
    ensures disconnected { May (Executes 8 (other_command 8 0) ∷ two_queues) (Ending 8) (executes 1) }
    ensures of_another { May closed (Ending 8) (executes 2) → ⊥ }
    ensures not_this { May closed (Ending 7) (executes 1) → ⊥ }
    ensures later { May (Executes 7 (other_command 4 1) ∷ closed) (Ending 8) (executes 1) → ⊥ }
    ensures by_the_target { May ended (Ending 8) (executes 1) → ⊥ }
{}

/// A Connect causes events of the controller that it is admitted for, unless the host has to authenticate itself.
fn connects()
    ensures own { May two_queues (connecting 0xb2) (resets 2) }
    ensures of_another { May two_queues (connecting 0xb2) (resets 1) → ⊥ }
    ensures refused { May two_queues (connecting 0xc3) (resets 2) → ⊥ }
    ensures with_keys { MayCause hosts true two_queues (connecting 0xb2) (resets 2) → ⊥ }
{}

/// A host that has authenticated itself causes events of the controller that its Connect asked for.
fn proves()
    ensures own { MayCause hosts true asked (Proving 7 true) (resets 1) }
    ensures of_another { MayCause hosts true asked (Proving 7 true) (resets 2) → ⊥ }
    ensures not_this { MayCause hosts true asked (Proving 8 true) (resets 1) → ⊥ }
    ensures without_keys { May two_queues (Proving 7 true) (resets 1) → ⊥ }
{}

/// The target accesses registers, and does nothing else; power cycles are of the subsystem.
fn target_itself()
    ensures reset { May two_queues (Accessing 0) (resets 1) }
    ensures status { May two_queues (Accessing 0) (Read32 1 0x1c) }
    ensures status_of_another { May two_queues (Accessing 0) (Read32 2 0x1c) → ⊥ }
    ensures of_another { May two_queues (Accessing 0) (resets 2) → ⊥ }
    ensures execution { May two_queues (Accessing 0) (executes 1) → ⊥ }
    ensures power { May two_queues LosingPower PowerCycle }
    ensures no_power { May two_queues LosingPower (resets 1) → ⊥ }
{}

/// A command is for the queue that its connection is.
fn destinations()
    ensures own { IsOfDestination (destination_after hosts false two_queues 8 read true) (executes 1) }
    ensures of_another { IsOfDestination (destination_after hosts false two_queues 8 read true) (executes 2) → ⊥ }
    ensures no_queue { IsOfDestination (destination_after hosts false two_queues 8 read false) (executes 1) → ⊥ }
    ensures not_connected { IsOfDestination (destination_after hosts false two_queues 9 read true) (executes 1) → ⊥ }
    ensures closed { IsOfDestination (destination_after hosts false closed 8 read true) (executes 1) → ⊥ }
    ensures ended { IsOfDestination (destination_after hosts false ended 8 read true) (executes 1) → ⊥ }
    ensures fabrics { IsOfDestination (destination_after hosts false two_queues 8 of_fabrics true) (executes 1) → ⊥ }
{}
