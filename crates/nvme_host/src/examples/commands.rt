//! Commands that are no requests, events, and what the identifier of the host allows.

ghost use Rattle.std.specs.Prelude.{◌≡◌, ◌+◌, ◌*◌, ◌^◌, [], ◌∷◌, None, Some, map, replicate, true, false};
ghost use Rattle.nvme_spec.specs.declared.command.Command.TheVariants as command;
ghost use Rattle.nvme_driver.specs.declared.lane.Lane.TheVariants.{Admin, Io};
ghost use Rattle.nvme_driver.specs.Drivers.{new_driver};
ghost use Rattle.nvme_driver.specs.HostCommands.{placed_command};
ghost use Rattle.nvme_host.specs.Calls.{Commanding};
ghost use Rattle.nvme_host.specs.DeviceCommands.{
  abort_refusal,
  aborting,
  aborting_in,
  awaiting_event,
  configuring_events,
  identifying,
  lane_at,
  live_slot,
  log_refusal,
  of_count,
  reading_log,
};
ghost use Rattle.nvme_host.specs.Events.{event_kind, event_of};
ghost use Rattle.nvme_host.specs.Examples.{answer, facts, waiting};
ghost use Rattle.nvme_host.specs.Exports.{reporting};
ghost use Rattle.nvme_host.specs.Facts.{learned, needs_identifier, with_command, with_identity};
ghost use Rattle.nvme_host.specs.Outcomes.{refused};
ghost use Rattle.nvme_host.specs.Refusals.{identifier_refusal};
ghost use Rattle.nvme_host.specs.RunExamples.{flushed, idle};

/// Their opcodes, double words and data.
fn commands_have_fields()
    ensures identifier { identifying (replicate 16 7) ≡ record {
      command = record { lane = Admin; opcode = 9; nsid = 0; cdw10 = 129; cdw11 = 1; cdw12 = 0 };
      moved = 16;
      sent = replicate 16 7;
      received = 0;
    } }
    ensures events { configuring_events 0x101 ≡ record {
      command = record { lane = Admin; opcode = 9; nsid = 0; cdw10 = 11; cdw11 = 257; cdw12 = 0 };
      moved = 0;
      sent = [];
      received = 0;
    } }
    ensures event { awaiting_event ≡ record {
      command = record { lane = Admin; opcode = 12; nsid = 0; cdw10 = 0; cdw11 = 0; cdw12 = 0 };
      moved = 0;
      sent = [];
      received = 0;
    } }
    ensures log { reading_log 3 0x80 true 16 ≡ record {
      command = record { lane = Admin; opcode = 2; nsid = 3; cdw10 = 0xf8080; cdw11 = 0; cdw12 = 0 };
      moved = 64;
      sent = [];
      received = 64;
    } }
    ensures cleared { (reading_log 3 0x80 false 1).command.cdw10 ≡ 0x80 }
    ensures abort { aborting Io 5 ≡ record {
      command = record { lane = Admin; opcode = 8; nsid = 0; cdw10 = 0x50001; cdw11 = 0; cdw12 = 0 };
      moved = 0;
      sent = [];
      received = 0;
    } }
    ensures admin { (aborting Admin 5).command.cdw10 ≡ 0x50000 }
    ensures report { reporting 16 ≡ record { slba = 0; blocks = 0; bytes = 64 } }
{}

/// The request that an Abort names: the live one with its ticket, by the slot and the lane.
fn aborts_name_a_request()
    ensures slots { map (λ t. live_slot t (None ∷ Some (waiting 7 false) ∷ Some (waiting 8 true) ∷ [])) (7 ∷ 8 ∷ 9 ∷ [])
        ≡ None ∷ Some 2 ∷ None ∷ [] }
    ensures counts { map of_count (None ∷ Some 23 ∷ Some 24 ∷ []) ≡ None ∷ Some 23 ∷ None ∷ [] }
    ensures lanes { map lane_at (None ∷ Some (waiting 7 true) ∷ []) ≡ Admin ∷ Io ∷ [] }
    ensures in_its_slot { aborting_in (None ∷ Some (waiting 7 true) ∷ []) (Some 1) ≡ aborting Io 1 }
    ensures none { aborting_in (None ∷ Some (waiting 7 true) ∷ []) None ≡ aborting Admin 0 }
    ensures waits { abort_refusal 7 flushed ≡ None }
    ensures waits_not { abort_refusal 8 flushed ≡ Some 34 }
    ensures log { map (λ n. log_refusal n idle) (0 ∷ 1 ∷ 32768 ∷ 32769 ∷ [])
        ≡ Some 27 ∷ None ∷ None ∷ Some 27 ∷ [] }
    ensures refusal { Commanding (Some 34) idle false awaiting_event (refused 34) idle }
{}

/// The identifier of the host: it counts once its own command was answered with success.
fn hosts_are_identified()
    ensures needs { map needs_identifier (command.Flush ∷ command.Write ∷ command.Read ∷ command.Compare
        ∷ command.WriteZeroes ∷ command.ReservationRegister ∷ command.ReservationReport ∷ command.ReservationAcquire
        ∷ command.ReservationRelease ∷ [])
        ≡ false ∷ false ∷ false ∷ false ∷ false ∷ true ∷ false ∷ true ∷ true ∷ [] }
    ensures unknown { identifier_refusal (facts 0) command.ReservationAcquire ≡ Some 66 }
    ensures known { identifier_refusal (record (facts 0) { host_identified = true }) command.ReservationAcquire ≡ None }
    ensures read { identifier_refusal (facts 0) command.Read ≡ None }
    ensures placed { with_command (record (facts 0) { host_identified = true }) true (record { ticket = 12; code = 0 })
        ≡ record (facts 0) { identifying = Some 12 } }
    ensures refused { with_command (facts 0) true (record { ticket = 0; code = 28 }) ≡ facts 0 }
    ensures other { with_command (facts 0) false (record { ticket = 12; code = 0 }) ≡ facts 0 }
    ensures success { with_identity (record (facts 0) { identifying = Some 9 }) (answer 0)
        ≡ record (facts 0) { host_identified = true } }
    ensures failure { with_identity (record (facts 0) { identifying = Some 9 }) (record (answer 0) { sc = 2 })
        ≡ facts 0 }
    ensures failure_of_type { with_identity (record (facts 0) { identifying = Some 9 }) (record (answer 0) { sct = 1 })
        ≡ facts 0 }
    ensures other_ticket { with_identity (record (facts 0) { identifying = Some 8 }) (answer 0)
        ≡ record (facts 0) { identifying = Some 8 } }
    ensures aborted { with_identity (record (facts 0) { identifying = Some 9 }) (record (answer 0) { code = 2 })
        ≡ record (facts 0) { identifying = Some 9 } }
    ensures learned { learned (record (facts 0) { asked = None; identifying = Some 9 }) (answer 0) []
        ≡ record (facts 0) { asked = None; host_identified = true } }
{}

/// The events of a controller, by type and information, and the fields of double word 0.
fn events_have_kinds()
    ensures errors { map (event_kind 0) (0 ∷ 5 ∷ []) ≡ 1 ∷ 1 ∷ [] }
    ensures health { map (event_kind 1) (0 ∷ 2 ∷ []) ≡ 2 ∷ 2 ∷ [] }
    ensures notices { map (event_kind 2) (0 ∷ 1 ∷ 2 ∷ []) ≡ 3 ∷ 4 ∷ 0 ∷ [] }
    ensures command_set { map (event_kind 6) (0 ∷ 1 ∷ 2 ∷ []) ≡ 5 ∷ 6 ∷ 0 ∷ [] }
    ensures others { map (λ t. event_kind t 0) (3 ∷ 4 ∷ 5 ∷ 7 ∷ []) ≡ 0 ∷ 0 ∷ 0 ∷ 0 ∷ [] }
    ensures reservation { event_of 0x800006 ≡ record { kind = 5; event_type = 6; info = 0; log_page = 128 } }
    ensures firmware { event_of 0xff0301fa ≡ record { kind = 4; event_type = 2; info = 1; log_page = 3 } }
{}
