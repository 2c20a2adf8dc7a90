//! Runs of a fleet without an event, and turns of a controller.

ghost use Rattle.std.specs.Prelude.{[], ◌<◌, ◌≡◌, ◌≤◌, ℕ, List, Bool, length};
ghost use Rattle.nvme_spec.specs.MediumCalls.{MediumCall, MakesCalls};
ghost use Rattle.nvme_medium.specs.Examples.{logs};
ghost use Rattle.nvme_driver.specs.Calls.{Turns};
ghost use Rattle.nvme_machine.specs.Subsystems.{Subsystem};
ghost use Rattle.nvme_event.specs.declared.event.FleetEvent.{FleetEvent};
ghost use Rattle.nvme_event.specs.declared.event.FleetEvent.TheVariants.{Poll, PowerCycle};
ghost use Rattle.nvme_event.specs.Replies.{Reply};
ghost use Rattle.nvme_subsys.specs.OverMedium.{OverMedium};
ghost use Rattle.nvme_fleet.specs.FleetStates.{FleetState, Layers, IsSoundFleet};
ghost use Rattle.nvme_fleet.specs.AllowedCalls.{CallsWhere};
ghost use Rattle.nvme_fleet.specs.LinkCalls.{ReachesMedium, AreCallsOfTurn};
ghost use Rattle.nvme_fleet.specs.Linked.{IsThere, Linked, KeepsSite, Reaches};
ghost use Rattle.nvme_fleet.specs.PowerCycles.{ReservesNothingBelow};
ghost use Rattle.nvme_fleet.specs.RawEvents.{IsOfHost};
ghost use Rattle.nvme_machine.specs.declared.event.Event.TheVariants.{Store, Write32, Read32};
ghost use Rattle.nvme_fleet.specs.Running.{RunsInPart, room_for};

/// A run without an event changes nothing and makes no call.
fn fleet_empty_runs()
    ensures unchanged { (tells : Bool) → (before after : Layers) → (calls : List MediumCall)
        → CallsWhere (λ l event. ⊥) tells before [] [] after calls → after ≡ before }
    ensures calls { (tells : Bool) → (before after : Layers) → (calls : List MediumCall)
        → CallsWhere (λ l event. ⊥) tells before [] [] after calls → calls ≡ [] }
{}

/// A turn of a controller makes the calls of its two events.
fn fleet_turns()
    ensures calls { (tells : Bool) → (k : ℕ) → (before after : Subsystem) → (made : List MediumCall)
        → ReachesMedium logs tells k before after Turns [] made
        → MakesCalls logs (AreCallsOfTurn tells k before after) [] made }
{}

/// The identifiers of controllers count from 1; a link reaches the same controller all along.
fn fleet_links()
    ensures zero { (s : Subsystem) → IsThere s 0 → ⊥ }
    ensures last { (s : Subsystem) → length s.controllers ≡ 2 → IsThere s 2 }
    ensures beyond { (s : Subsystem) → length s.controllers ≡ 2 → IsThere s 3 → ⊥ }
    ensures name { (before after : Linked) → KeepsSite before after → after.name ≡ before.name }
    ensures reached { (p : Linked) → Reaches p → p.place < length p.subsystem.controllers }
{}

/// The buffer of a fleet has the data of its last event, and those of a poll alone have any bytes.
fn fleet_buffers()
    ensures filled { (s : FleetState) → IsSoundFleet s → s.filled ≤ length s.buffer }
    ensures poll { room_for (Poll 7) ≡ 0x20000 }
    ensures cycle { room_for PowerCycle ≡ 0 }
{}

/// Only executions execute reservation commands; stores and register writes are events of raw hosts.
fn fleet_other_events()
    ensures cycle { (n : ℕ) → (l : Layers) → ReservesNothingBelow n l PowerCycle }
    ensures poll { (n : ℕ) → (l : Layers) → ReservesNothingBelow n l (Poll 7) }
    ensures store { IsOfHost (Store 7 0 (record { ref_ptr = (0, 0); now = [] })) }
    ensures written { IsOfHost (Write32 7 0x14 0) }
    ensures looked { IsOfHost (Read32 7 0x14) → ⊥ }
{}

/// A run that stopped early has left out at least one event.
fn fleet_partial_runs()
    ensures fewer { (tells : Bool) → (gave all : List Reply)
        → (before after : OverMedium FleetState (List MediumCall)) → (events : List FleetEvent)
        → (x : RunsInPart logs tells gave before events all after) → x.count < length events }
{}
