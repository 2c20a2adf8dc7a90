//! Calls of a host's driver, if it has one.

ghost use Rattle.std.specs.Prelude.{◌≡◌, Option, None, Some};
ghost use Rattle.nvme_driver.specs.Drivers.{Driver};
ghost use Rattle.nvme_machine.specs.Controllers.{Controller};
ghost use Rattle.nvme_event.specs.declared.seen.FleetSeen.TheVariants.{NoDriver};
ghost use Rattle.nvme_event.specs.Replies.{Reply};
ghost use Rattle.nvme_mailbox.specs.Deliveries.{plain};
ghost use Rattle.nvme_refinement.specs.Sound.{mailbox};
ghost use Rattle.nvme_refinement.specs.Steps.{IsStep};
ghost use Rattle.nvme_fleet.specs.FleetStates.{IsCalled, reaction_to};

/// A raw host has no driver, its controller stays as it is, and the reply says so.
fn fleet_driverless_calls()
    ensures driver { (c d : Controller) → (call : _) → (e : Option Driver) → (reply : Reply)
        → IsCalled None c call e d reply → e ≡ None }
    ensures controller { (c d : Controller) → (call : _) → (e : Option Driver) → (reply : Reply)
        → IsCalled None c call e d reply → d ≡ c }
    ensures reply { (c d : Controller) → (call : _) → (e : Option Driver) → (reply : Reply)
        → IsCalled None c call e d reply → reply ≡ plain NoDriver }
{}

/// A call of a driver is the step of its mailbox.
fn fleet_mailbox_calls()
    ensures step { (f : Driver) → (c d : Controller) → (call : _) → (e : Option Driver) → (reply : Reply)
        → IsCalled (Some f) c call e d reply → (g : Driver) × (e ≡ Some g)
        × IsStep (reaction_to call (mailbox f c)) g d reply }
{}
