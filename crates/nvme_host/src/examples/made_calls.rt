//! Calls with a reason against them, which change nothing, and what calls leave as it is.

ghost use Rattle.std.specs.Prelude.{◌≡◌, ℕ, List, Result, [], ◌∷◌, None, Some, true, false};
ghost use Rattle.nvme_device.specs.declared.status.Awaited.TheVariants as awaited;
ghost use Rattle.nvme_driver.specs.declared.faults.UpFault.{UpFault};
ghost use Rattle.nvme_driver.specs.declared.lane.Lane.TheVariants.{Io};
ghost use Rattle.nvme_driver.specs.declared.request.Request.TheVariants.{Flush};
ghost use Rattle.nvme_driver.specs.Calls.{Reads};
ghost use Rattle.nvme_driver.specs.Polls.{waiting_at, live_in};
ghost use Rattle.nvme_driver.specs.Requests.{Asked};
ghost use Rattle.nvme_wire.specs.Completion.{cid};
ghost use Rattle.nvme_host.specs.declared.completions.CompletionData.{CompletionData};
ghost use Rattle.nvme_host.specs.declared.open_driver.OpenDriver.{OpenDriver};
ghost use Rattle.nvme_host.specs.declared.outcome.Outcome.{Outcome};
ghost use Rattle.nvme_host.specs.declared.outcome.Placed.{Placed};
ghost use Rattle.nvme_host.specs.declared.recording_port.RecordingPort.{RecordingPort};
ghost use Rattle.nvme_host.specs.declared.stage.Stage.TheVariants as at;
ghost use Rattle.nvme_host.specs.Calls.{
  AskedOf,
  AskingIf,
  BringingUpUnless,
  CheckedStatus,
  CheckingStatusBy,
  Commanding,
  DriverBringsUp,
  ExpiringIf,
  PlacedCommandBy,
  Placing,
  PollingUnless,
  ResettingUnless,
  RingingUnless,
  Rung,
  Shut,
  ShuttingUnless,
};
ghost use Rattle.nvme_host.specs.Completions.{
  StoredCompletion,
  StoringCompletion,
  StoringCompletionUnless,
  StoringDataUnless,
  data_of,
  no_data,
};
ghost use Rattle.nvme_host.specs.DeviceCommands.{awaiting_event};
ghost use Rattle.nvme_host.specs.Examples.{overdue, port, waiting_for_ready};
ghost use Rattle.nvme_host.specs.Facts.{with_command, with_question};
ghost use Rattle.nvme_host.specs.Outcomes.{placed_of, refused, with_code};
ghost use Rattle.nvme_host.specs.Recording.{Records};
ghost use Rattle.nvme_host.specs.RunExamples.{idle};

/// A refused poll, placing or question has its reason as its code, and the driver and the buffer stay.
fn calls_with_reasons()
    ensures poll { PollingUnless (Some 19) idle [] (with_code 19) idle [] }
    ensures poll_of_bytes { PollingUnless (Some 19) idle [] (with_code 19) idle (7 ∷ []) → ⊥ }
    ensures request { Placing (Some 27) idle (Flush 1) (refused 27) idle }
    ensures request_code { Placing (Some 27) idle (Flush 1) (refused 28) idle → ⊥ }
    ensures command_code { Commanding (Some 27) idle false awaiting_event (refused 28) idle → ⊥ }
    ensures question { AskingIf true idle 65 (refused 64) idle }
    ensures question_code { AskingIf true idle 65 (refused 65) idle → ⊥ }
{}

/// A refused reset, shutdown or copy of bytes has its reason as its code. A request expires only if it waits.
fn lifecycle_calls_with_reasons()
    ensures reset { ResettingUnless (Some 19) idle 19 idle }
    ensures reset_code { ResettingUnless (Some 19) idle 20 idle → ⊥ }
    ensures shutdown { ShuttingUnless (Some 19) idle 19 idle }
    ensures shutdown_code { ShuttingUnless (Some 19) idle 20 idle → ⊥ }
    ensures expiry { ExpiringIf true idle 0 overdue }
    ensures expiry_code { ExpiringIf true idle 1 overdue → ⊥ }
    ensures no_expiry { ExpiringIf false idle 34 idle }
    ensures no_expiry_code { ExpiringIf false idle 35 idle → ⊥ }
    ensures bytes { StoringDataUnless (Some 19) idle 0 [] 19 idle }
    ensures bytes_code { StoringDataUnless (Some 19) idle 0 [] 20 idle → ⊥ }
    ensures no_lane { StoringCompletion None idle [] (no_data 31) idle → ⊥ }
{}

/// Polls and placings leave the stage, and a question is noted if it was placed.
fn stages_after_placings()
    ensures poll { (outcome : Outcome) → (old after : OpenDriver) → (before buffer : List ℕ)
        → PollingUnless None old before outcome after buffer → after.stage ≡ old.stage }
    ensures request { (outcome : Placed) → (old after : OpenDriver) → Placing None old (Flush 1) outcome after
        → after.stage ≡ old.stage }
    ensures command { (outcome : Placed) → (old after : OpenDriver)
        → Commanding None old true awaiting_event outcome after
        → after.stage ≡ old.stage }
    ensures question { (outcome : Placed) → (old after : OpenDriver) → AskingIf false old 1 outcome after
        → (mid : OpenDriver) × (after.facts ≡ with_question mid.facts outcome 1) }
{}

/// What a placed command returns, and what it leaves.
fn commands_of_hosts()
    ensures gives { (outcome : Placed) → (old after : OpenDriver) → (asked : Asked)
        → (x : PlacedCommandBy old true asked outcome after) → outcome ≡ placed_of x.result }
    ensures stage { (outcome : Placed) → (old after : OpenDriver) → (asked : Asked)
        → PlacedCommandBy old true asked outcome after → after.stage ≡ old.stage }
    ensures capabilities { (outcome : Placed) → (old after : OpenDriver) → (asked : Asked)
        → PlacedCommandBy old true asked outcome after → after.capabilities ≡ old.capabilities }
    ensures facts { (outcome : Placed) → (old after : OpenDriver) → (asked : Asked)
        → PlacedCommandBy old true asked outcome after → after.facts ≡ with_command old.facts true outcome }
{}

/// What a question leaves, after the placing of its Identify.
fn questions_of_hosts()
    ensures stage { (outcome : Placed) → (old after : OpenDriver) → (x : AskedOf old 1 outcome after)
        → after.stage ≡ x.mid.stage }
    ensures capabilities { (outcome : Placed) → (old after : OpenDriver) → (x : AskedOf old 1 outcome after)
        → after.capabilities ≡ x.mid.capabilities }
    ensures facts { (outcome : Placed) → (old after : OpenDriver) → (x : AskedOf old 1 outcome after)
        → after.facts ≡ with_question x.mid.facts outcome 1 }
{}

/// A ringing of a driver that is up returns 0, and changes nothing but its actions and doorbells.
fn ringings()
    ensures gives { (code : ℕ) → (after : OpenDriver) → Rung idle code after → code ≡ 0 }
    ensures stage { (code : ℕ) → (old after : OpenDriver) → Rung old code after → after.stage ≡ old.stage }
    ensures capabilities { (code : ℕ) → (old after : OpenDriver) → Rung old code after
        → after.capabilities ≡ old.capabilities }
    ensures facts { (code : ℕ) → (old after : OpenDriver) → Rung old code after → after.facts ≡ old.facts }
    ensures made { (code : ℕ) → (old after : OpenDriver) → RingingUnless None old code after
        → after.driver ≡ old.driver }
{}

/// A shutdown returns 0, and a reset as well. A shutdown leaves what is known of the device.
fn shutdowns()
    ensures gives { (code : ℕ) → (old after : OpenDriver) → Shut old code after → code ≡ 0 }
    ensures stage { (code : ℕ) → (old after : OpenDriver) → Shut old code after → after.stage ≡ at.ShuttingDown }
    ensures capabilities { (code : ℕ) → (old after : OpenDriver) → Shut old code after
        → after.capabilities ≡ old.capabilities }
    ensures facts { (code : ℕ) → (old after : OpenDriver) → Shut old code after → after.facts ≡ old.facts }
    ensures made { (code : ℕ) → (old after : OpenDriver) → ShuttingUnless None old code after
        → after.driver ≡ old.driver }
    ensures reset { (code : ℕ) → (old after : OpenDriver) → ResettingUnless None old code after → code ≡ 0 }
{}

/// RDY is 1 after 9 of 500 ms: the awaited status is reached, and the controller is enabled.
fn reached_statuses()
    ensures gives { (code : ℕ) → (after : OpenDriver)
        → CheckedStatus waiting_for_ready awaited.Ready (record { timeout_ms = 500; stride = 4 }) 1 9 code after
        → code ≡ 0 }
    ensures stage { (code : ℕ) → (after : OpenDriver)
        → CheckedStatus waiting_for_ready awaited.Ready (record { timeout_ms = 500; stride = 4 }) 1 9 code after
        → after.stage ≡ at.Enabled }
    ensures made { (code : ℕ) → (after : OpenDriver)
        → CheckingStatusBy (Some awaited.Ready) (Some (record { timeout_ms = 500; stride = 4 })) waiting_for_ready 1 9
        code after
        → code ≡ 0 }
{}

/// What a bring-up leaves, and what it reads: the status of the next report, which is 2.
fn bring_ups_and_reads()
    ensures stage { (result : Result (Unit {0}) UpFault) → (old after : OpenDriver) → DriverBringsUp old result after
        → after.stage ≡ old.stage }
    ensures capabilities { (result : Result (Unit {0}) UpFault) → (old after : OpenDriver)
        → DriverBringsUp old result after → after.capabilities ≡ old.capabilities }
    ensures facts { (result : Result (Unit {0}) UpFault) → (old after : OpenDriver) → DriverBringsUp old result after
        → after.facts ≡ old.facts }
    ensures made { (outcome : Outcome) → (old after : OpenDriver) → BringingUpUnless None old outcome after
        → after.facts ≡ old.facts }
    ensures read { (after : RecordingPort) → Records port (Reads 0x1c 1) after → ⊥ }
{}

/// A completion of a lane (queue pair) says where its data are. Bytes are copied into the window alone.
fn stored_completions()
    ensures gives { (entry : List ℕ) → (outcome : CompletionData) → (old after : OpenDriver)
        → StoredCompletion Io old entry outcome after
        → outcome ≡ data_of (live_in Io (waiting_at old.driver.slots (cid entry))) entry }
    ensures made { (entry : List ℕ) → (outcome : CompletionData) → (old after : OpenDriver)
        → StoringCompletionUnless None Io old entry outcome after → after ≡ record old { port = after.port } }
    ensures bytes { (part : List ℕ) → (at code : ℕ) → (old after : OpenDriver)
        → StoringDataUnless None old at part code after → after ≡ record old { port = after.port } }
{}
