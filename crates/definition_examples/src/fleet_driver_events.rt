//! The events of the subsystem for calls of a driver and of its port.

ghost use Rattle.std.specs.Prelude.{[], ◌∷◌, ◌≡◌, ℕ, List, Bool, None, Some, Ok, Err};
ghost use Rattle.nvme_driver.specs.declared.answer.Answer.TheVariants.{Done, Aborted};
ghost use Rattle.nvme_driver.specs.declared.ticket.Ticket.{Ticket};
ghost use Rattle.nvme_wire.specs.declared.status.Status.{Status};
ghost use Rattle.nvme_driver.specs.declared.faults.NotUp.{NotUp};
ghost use Rattle.nvme_driver.specs.declared.faults.PollFault.{PollFault};
ghost use Rattle.nvme_driver.specs.declared.lane.Lane.{Lane};
ghost use Rattle.nvme_driver.specs.Calls.{Stores, Writes, Reads, Turns};
ghost use Rattle.nvme_driver.specs.Drivers.{Driver};
ghost use Rattle.nvme_driver.specs.Layout.{head_doorbell};
ghost use Rattle.nvme_machine.specs.declared.event.Event.TheVariants.{Store, Write32};
ghost use Rattle.nvme_machine.specs.declared.seen.Seen.{Seen};
ghost use Rattle.nvme_machine.specs.declared.seen.Seen.TheVariants.{Value, Wrote};
ghost use Rattle.nvme_machine.specs.Subsystems.{Subsystem};
ghost use Rattle.nvme_event.specs.declared.event.FleetEvent.TheVariants.{Reset};
ghost use Rattle.nvme_event.specs.declared.seen.FleetSeen.{FleetSeen};
ghost use Rattle.nvme_event.specs.declared.seen.FleetSeen.TheVariants as seen;
ghost use Rattle.nvme_fleet.specs.FleetStates.{Layers};
ghost use Rattle.nvme_fleet.specs.Layers.{Happens};
ghost use Rattle.nvme_fleet.specs.DriverEvents.{
  events_of,
  ReturnsWhatIsSeen,
  Rings,
  Consumes,
  Ran,
  reset_events,
  Resets,
};

/// A call of a driver's port is these events of its controller.
fn fleet_port_events()
    ensures store { events_of 7 (Stores 4096 (1 ∷ 2 ∷ []))
        ≡ Store 7 4096 (record { ref_ptr = (0, 0); now = 1 ∷ 2 ∷ [] }) ∷ [] }
    ensures reset { reset_events 7 ≡ Write32 7 0x14 0 ∷ [] }
{}

/// A read of a register returns the value of its event. Other calls return nothing.
fn fleet_port_results()
    ensures store { ReturnsWhatIsSeen (Stores 4096 []) [] (Wrote ∷ []) }
    ensures written { ReturnsWhatIsSeen (Writes 0x14 0) [] (Wrote ∷ []) }
    ensures turn { ReturnsWhatIsSeen Turns [] [] }
    ensures value { ReturnsWhatIsSeen (Reads 0x1c 1) [] (Value 1 ∷ []) }
    ensures law { (given : List Seen) → ReturnsWhatIsSeen (Reads 0x1c 1) [] given → given ≡ Value 1 ∷ [] }
{}

/// A refused ringing is no event.
fn fleet_refused_rings()
    ensures driver { (tells : Bool) → (k : ℕ) → (d e : Driver) → (before after : Subsystem) → (why : NotUp)
        → Rings tells k d before (Err why) e after → e ≡ d }
    ensures subsystem { (tells : Bool) → (k : ℕ) → (d e : Driver) → (before after : Subsystem) → (why : NotUp)
        → Rings tells k d before (Err why) e after → after ≡ before }
{}

/// A poll that delivers a completion writes one head doorbell, and any other poll is no event.
fn fleet_delivered_answers()
    ensures done { (tells : Bool) → (k : ℕ) → (before after : Subsystem) → (ticket : Ticket) → (status : Status)
        → (dw0 len : ℕ) → Consumes tells k before (Ok (Some (Done ticket status dw0 len))) after → (lane : Lane)
        × (head : ℕ) × Ran tells before (Write32 k (head_doorbell lane) head ∷ []) after }
    ensures aborted { (tells : Bool) → (k : ℕ) → (before after : Subsystem) → (ticket : Ticket)
        → Consumes tells k before (Ok (Some (Aborted ticket))) after → after ≡ before }
    ensures none { (tells : Bool) → (k : ℕ) → (before after : Subsystem) → Consumes tells k before (Ok None) after
        → after ≡ before }
    ensures failed { (tells : Bool) → (k : ℕ) → (before after : Subsystem) → (why : PollFault)
        → Consumes tells k before (Err why) after → after ≡ before }
{}

/// A reset writes 0 to Controller Configuration. A raw host has no driver that is reset.
fn fleet_resets()
    ensures gives { (tells : Bool) → (d : Driver) → (s : Subsystem) → (what : FleetSeen) → (after : Layers)
        → Happens tells (record { subsystem = s; drivers = Some d ∷ [] }) (Reset 1) what after → what ≡ seen.Reset }
    ensures effect { (tells : Bool) → (d : Driver) → (s : Subsystem) → (what : FleetSeen) → (after : Layers)
        → Happens tells (record { subsystem = s; drivers = Some d ∷ [] }) (Reset 1) what after → (e : Driver)
        × Resets tells 1 d s e after.subsystem }
    ensures raw { (tells : Bool) → (s : Subsystem) → (what : FleetSeen) → (after : Layers)
        → Happens tells (record { subsystem = s; drivers = None ∷ [] }) (Reset 1) what after → what ≡ seen.NoDriver }
    ensures raw_unchanged { (tells : Bool) → (s : Subsystem) → (what : FleetSeen) → (after : Layers)
        → Happens tells (record { subsystem = s; drivers = None ∷ [] }) (Reset 1) what after → after.subsystem ≡ s }
{}
