//! Placings of requests and commands, by a port that counts its calls, and runs of calls that deliver tickets.

ghost use Rattle.std.specs.Prelude.{◌≡◌, ◌+◌, ◌≤◌, ℕ, List, [], ◌∷◌, None, Some, Ok, true};
ghost use Rattle.nvme_driver.specs.declared.answer.Answer.TheVariants as answer;
ghost use Rattle.nvme_driver.specs.declared.lane.Lane.{Lane as LaneOf};
ghost use Rattle.nvme_driver.specs.Calls.{Calls, Turns};
ghost use Rattle.nvme_driver.specs.Drivers.{
  Driver,
  HoldsItsRequest,
  IsPlaced,
  after_reset,
  new_driver,
  placed,
  placed_window,
};
ghost use Rattle.nvme_driver.specs.Examples.{full_driver, sending_command, small_read, up_driver};
ghost use Rattle.nvme_driver.specs.HostCommands.{
  HoldsItsCommand,
  IsCommandPlaced,
  command_window,
  placed_command,
};
ghost use Rattle.nvme_driver.specs.Layout.{
  EntriesLieInTheirPages,
  command_place,
  completion_place_in,
  completion_queue,
  submission_queue,
};
ghost use Rattle.nvme_driver.specs.Once.{
  Event,
  HandsUpOnce,
  Happens,
  Places,
  PlacesCommand,
  Polls,
  Resets,
  Run,
  Stays,
  borne,
  handed_by,
};
ghost use Rattle.definition_examples.specs.DriverExamples.{bare_driver, counts, one_request};

/// No call leaves the port as it is, and two calls are made one after the other.
fn driver_made_calls()
    ensures none { Calls counts 5 [] 5 }
    ensures not_one { Calls counts 5 [] 6 → ⊥ }
    ensures two { Calls counts 5 (Turns ∷ Turns ∷ []) 7 }
    ensures not_less { Calls counts 5 (Turns ∷ Turns ∷ []) 6 → ⊥ }
    ensures not_more { Calls counts 5 (Turns ∷ []) 7 → ⊥ }
{}

/// A request is placed in the lowest free slot, by three stores, and needs one.
fn driver_placed_requests()
    ensures placed { IsPlaced counts up_driver small_read 5 (placed up_driver small_read 0) 8 }
    ensures no_slot { (after : Driver) → (made : ℕ) → IsPlaced counts full_driver small_read 5 after made → ⊥ }
    ensures not_taken { (made : ℕ) → IsPlaced counts up_driver small_read 5 up_driver made → ⊥ }
    ensures stores { (after : Driver) → (made : ℕ) → IsPlaced counts up_driver small_read 5 after made → made ≡ 8 }
{}

/// A command of a host is placed in the lowest free slot too, by three stores.
fn driver_placed_commands()
    ensures placed { IsCommandPlaced counts up_driver sending_command 5 (placed_command up_driver sending_command 0) 8 }
    ensures no_slot { (after : Driver) → (made : ℕ)
        → IsCommandPlaced counts full_driver sending_command 5 after made → ⊥ }
    ensures not_taken { (made : ℕ) → IsCommandPlaced counts up_driver sending_command 5 up_driver made → ⊥ }
    ensures stores { (after : Driver) → (made : ℕ) → IsCommandPlaced counts up_driver sending_command 5 after made
        → made ≡ 8 }
{}

/// The window after a placing in slot 0, the lowest free one.
fn driver_placed_windows()
    ensures request { (old after : List ℕ) → HoldsItsRequest up_driver old after small_read
        → after ≡ placed_window up_driver old small_read 0 }
    ensures no_slot { (old after : List ℕ) → HoldsItsRequest full_driver old after small_read → ⊥ }
    ensures command { (old after : List ℕ) → HoldsItsCommand up_driver old after sending_command
        → after ≡ command_window up_driver old sending_command 0 }
    ensures no_command_slot { (old after : List ℕ) → HoldsItsCommand full_driver old after sending_command → ⊥ }
{}

/// What one call does to the requests: a placing takes the lowest free slot, a poll of a driver that is down and has no
/// requests changes nothing, and other calls leave the slots and the next ticket.
fn driver_events()
    ensures places { (after : Driver) → Happens (Places small_read 0) up_driver after
        → after ≡ placed up_driver small_read 0 }
    ensures places_lowest { (after : Driver) → Happens (Places small_read 1) up_driver after → ⊥ }
    ensures commands { (after : Driver) → Happens (PlacesCommand sending_command 0) up_driver after
        → after ≡ placed_command up_driver sending_command 0 }
    ensures commands_lowest { (after : Driver) → Happens (PlacesCommand sending_command 1) up_driver after → ⊥ }
    ensures polls { (after : Driver) → (window : List ℕ) → Happens (Polls None window) bare_driver after
        → after ≡ bare_driver }
    ensures stays { (after : Driver) → Happens Stays up_driver after → after.next ≡ 7 }
{}

/// Runs of no call and of a reset, and the tickets that answers and slots have.
fn driver_runs()
    ensures no_tickets { (tickets : List ℕ) → (after : Driver) → Run [] up_driver tickets after → tickets ≡ [] }
    ensures no_call { (tickets : List ℕ) → (after : Driver) → Run [] up_driver tickets after → after ≡ up_driver }
    ensures reset { (tickets : List ℕ) → (after : Driver) → Run (Resets ∷ []) up_driver tickets after
        → after ≡ after_reset up_driver }
    ensures aborted { handed_by (Ok (Some (answer.Aborted (record { 0 = 7 })))) ≡ 7 ∷ [] }
    ensures no_slots { borne 7 [] ≡ 0 }
    ensures one_slot { borne 7 (None ∷ Some (one_request 7 true) ∷ Some (one_request 8 true) ∷ []) ≡ 1 }
{}

/// By its law, no run of a new driver delivers ticket 8 twice.
fn driver_tickets_once()
    ensures once { HandsUpOnce → (events : List Event) → (after : Driver)
        → Run events (new_driver 7) (8 ∷ 8 ∷ []) after → ⊥ }
{}

/// By its law, commands of 64 bytes and completions of 16 bytes are in the pages of their queues.
fn driver_entries_in_pages()
    ensures command_end { EntriesLieInTheirPages → (lane : LaneOf) → (n : ℕ)
        → command_place lane n + 64 ≤ submission_queue lane + 4096 }
    ensures completion_start { EntriesLieInTheirPages → (lane : LaneOf) → (n : ℕ)
        → completion_queue lane ≤ completion_place_in lane n }
    ensures completion_end { EntriesLieInTheirPages → (lane : LaneOf) → (n : ℕ)
        → completion_place_in lane n + 16 ≤ completion_queue lane + 4096 }
{}
