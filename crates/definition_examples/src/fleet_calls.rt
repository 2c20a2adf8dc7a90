//! Calls of the medium that a fleet's events make: only executions make some.

ghost use Rattle.std.specs.Prelude.{[], ◌∷◌, ◌≡◌, ℕ, List, Bool};
ghost use Rattle.nvme_spec.specs.MediumCalls.{MediumCall};
ghost use Rattle.nvme_driver.specs.declared.request.Request.{Request};
ghost use Rattle.nvme_event.specs.declared.event.FleetEvent.TheVariants.{
  BringUp,
  Place,
  Ring,
  Fetch,
  Poll,
  Reset,
  RawStore,
  RawWrite32,
  PowerCycle,
};
ghost use Rattle.nvme_event.specs.declared.seen.FleetSeen.{FleetSeen};
ghost use Rattle.nvme_fleet.specs.FleetStates.{Layers};
ghost use Rattle.nvme_fleet.specs.Layers.{Happens};
ghost use Rattle.nvme_fleet.specs.LayerCalls.{HappensCalling};

/// Calls of a driver, fetches and register writes make no call of the medium.
fn fleet_quiet_events()
    ensures up { (tells : Bool) → (before after : Layers) → (k : ℕ) → (what : FleetSeen) → (calls : List MediumCall)
        → HappensCalling tells before (BringUp k) what after calls → calls ≡ [] }
    ensures placed { (tells : Bool) → (before after : Layers) → (k : ℕ) → (request : Request) → (what : FleetSeen)
        → (calls : List MediumCall) → HappensCalling tells before (Place k request) what after calls → calls ≡ [] }
    ensures rung { (tells : Bool) → (before after : Layers) → (k : ℕ) → (what : FleetSeen) → (calls : List MediumCall)
        → HappensCalling tells before (Ring k) what after calls → calls ≡ [] }
    ensures fetched { (tells : Bool) → (before after : Layers) → (k : ℕ) → (q : ℕ) → (what : FleetSeen)
        → (calls : List MediumCall) → HappensCalling tells before (Fetch k q) what after calls → calls ≡ [] }
    ensures polled { (tells : Bool) → (before after : Layers) → (k : ℕ) → (what : FleetSeen)
        → (calls : List MediumCall) → HappensCalling tells before (Poll k) what after calls → calls ≡ [] }
    ensures reset { (tells : Bool) → (before after : Layers) → (k : ℕ) → (what : FleetSeen)
        → (calls : List MediumCall) → HappensCalling tells before (Reset k) what after calls → calls ≡ [] }
    ensures written { (tells : Bool) → (before after : Layers) → (k : ℕ) → (offset v : ℕ) → (what : FleetSeen)
        → (calls : List MediumCall) → HappensCalling tells before (RawWrite32 k offset v) what after calls → calls
        ≡ [] }
    ensures cycled { (tells : Bool) → (before after : Layers) → (what : FleetSeen) → (calls : List MediumCall)
        → HappensCalling tells before PowerCycle what after calls → calls ≡ [] }
{}

/// Apart from that, they have the effects that they have without regard to the medium.
fn fleet_quiet_effects()
    ensures up { (tells : Bool) → (before after : Layers) → (k : ℕ) → (what : FleetSeen) → (calls : List MediumCall)
        → HappensCalling tells before (BringUp k) what after calls → Happens tells before (BringUp k) what after }
    ensures placed { (tells : Bool) → (before after : Layers) → (k : ℕ) → (request : Request) → (what : FleetSeen)
        → (calls : List MediumCall) → HappensCalling tells before (Place k request) what after calls
        → Happens tells before (Place k request) what after }
    ensures rung { (tells : Bool) → (before after : Layers) → (k : ℕ) → (what : FleetSeen) → (calls : List MediumCall)
        → HappensCalling tells before (Ring k) what after calls → Happens tells before (Ring k) what after }
    ensures fetched { (tells : Bool) → (before after : Layers) → (k : ℕ) → (q : ℕ) → (what : FleetSeen)
        → (calls : List MediumCall) → HappensCalling tells before (Fetch k q) what after calls
        → Happens tells before (Fetch k q) what after }
    ensures polled { (tells : Bool) → (before after : Layers) → (k : ℕ) → (what : FleetSeen)
        → (calls : List MediumCall) → HappensCalling tells before (Poll k) what after calls
        → Happens tells before (Poll k) what after }
    ensures reset { (tells : Bool) → (before after : Layers) → (k : ℕ) → (what : FleetSeen)
        → (calls : List MediumCall) → HappensCalling tells before (Reset k) what after calls
        → Happens tells before (Reset k) what after }
    ensures written { (tells : Bool) → (before after : Layers) → (k : ℕ) → (offset v : ℕ) → (what : FleetSeen)
        → (calls : List MediumCall) → HappensCalling tells before (RawWrite32 k offset v) what after calls
        → Happens tells before (RawWrite32 k offset v) what after }
    ensures cycled { (tells : Bool) → (before after : Layers) → (what : FleetSeen) → (calls : List MediumCall)
        → HappensCalling tells before PowerCycle what after calls → Happens tells before PowerCycle what after }
{}

/// A store to the memory that a raw host shares with its controller makes no call either.
fn fleet_quiet_stores()
    ensures calls { (tells : Bool) → (before after : Layers) → (k address : ℕ) → (what : FleetSeen)
        → (calls : List MediumCall)
        → HappensCalling tells before (RawStore k address (record { ref_ptr = (0, 0); now = 7 ∷ [] })) what after calls
        → calls ≡ [] }
    ensures effect { (tells : Bool) → (before after : Layers) → (k address : ℕ) → (what : FleetSeen)
        → (calls : List MediumCall)
        → HappensCalling tells before (RawStore k address (record { ref_ptr = (0, 0); now = 7 ∷ [] })) what after calls
        → Happens tells before (RawStore k address (record { ref_ptr = (0, 0); now = 7 ∷ [] })) what after }
{}
