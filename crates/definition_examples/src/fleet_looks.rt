//! Looks and loads of a driver at its controller.

ghost use Rattle.std.specs.Prelude.{[], ◌∷◌, ◌≡◌, ◌+◌, ℕ, Bool, List, Option, None, Some, length, slice_range, true};
ghost use Rattle.nvme_spec.specs.MediumCalls.{MediumCall};
ghost use Rattle.nvme_medium.specs.Examples.{logs};
ghost use Rattle.nvme_driver.specs.declared.lane.Lane.{Lane as LaneOf};
ghost use Rattle.nvme_driver.specs.Calls.{Loads, Sees};
ghost use Rattle.nvme_driver.specs.Polls.{seen_in};
ghost use Rattle.nvme_machine.specs.Controllers.{Controller};
ghost use Rattle.nvme_machine.specs.Executing.{Setting};
ghost use Rattle.nvme_machine.specs.Subsystems.{Subsystem};
ghost use Rattle.nvme_refinement.specs.Links.{LinkStep};
ghost use Rattle.nvme_refinement.specs.Steps.{after_call};
ghost use Rattle.nvme_fleet.specs.DriverEvents.{ReturnsWhatIsSeen, events_of};
ghost use Rattle.nvme_fleet.specs.LinkCalls.{ReachesMedium};

use nvme_driver::Lane;

/// A look and a load return what is in the window, and change nothing.
fn fleet_looks_of_a_window()
    ensures seen { (tells : Bool) → (old new : Setting) → (lane : LaneOf) → (head : ℕ) → (expected : Bool)
        → (found : Option (List ℕ)) → LinkStep tells old (Sees lane head expected found) new
        → (found ≡ seen_in lane head expected old.controller.window) × (new ≡ old) }
    ensures loaded { (tells : Bool) → (old new : Setting) → (at : ℕ) → (part : List ℕ)
        → LinkStep tells old (Loads at part) new
        → (part ≡ slice_range old.controller.window at (at + length part)) × (new ≡ old) }
    ensures look_leaves { (c : Controller) → after_call (Sees Lane.Io 3 true None) c ≡ c }
    ensures load_leaves { (c : Controller) → after_call (Loads 0 []) c ≡ c }
{}

/// They are no events, and reach no medium.
#[tactic(auto, unfolding(nvme_wire::specs::Completion::phase))]
fn fleet_looks_are_no_events()
    ensures look { events_of 7 (Sees Lane.Admin 0 true None) ≡ [] }
    ensures load { events_of 7 (Loads 0 []) ≡ [] }
    ensures nothing { ReturnsWhatIsSeen (Sees Lane.Admin 0 true None) [] [] }
    ensures bytes { ReturnsWhatIsSeen (Loads 1 (6 ∷ [])) (5 ∷ 6 ∷ []) [] }
    ensures look_reaches_none { (tells : Bool) → (k head : ℕ) → (lane : LaneOf) → (before after : Subsystem)
        → (made : List MediumCall) → ReachesMedium logs tells k before after (Sees lane head true None) [] made
        → made ≡ [] }
    ensures load_reaches_none { (tells : Bool) → (k at : ℕ) → (before after : Subsystem) → (made : List MediumCall)
        → ReachesMedium logs tells k before after (Loads at []) [] made → made ≡ [] }
{}
