//! Codes, stages and reports of the calls, by cases.

ghost use Rattle.std.specs.Prelude.{◌≡◌, ◌+◌, ◌^◌, [], ◌∷◌, None, Some, Ok, Err, map, replicate, true, false};
ghost use Rattle.nvme_device.specs.declared.capabilities.CapabilityFault.TheVariants.{Removed};
ghost use Rattle.nvme_device.specs.declared.status.Awaited.TheVariants as awaited;
ghost use Rattle.nvme_device.specs.declared.status.Progress.TheVariants as progress;
ghost use Rattle.nvme_driver.specs.declared.faults.UpFault.TheVariants.{NoAnswer};
ghost use Rattle.nvme_driver.specs.declared.lane.Lane.TheVariants.{Admin};
ghost use Rattle.nvme_driver.specs.declared.request.Request.TheVariants.{Identify};
ghost use Rattle.nvme_driver.specs.Calls.{Stores, Writes, Reads, Turns, Sees, Loads};
ghost use Rattle.nvme_driver.specs.Rises.{enabling};
ghost use Rattle.nvme_host.specs.declared.recording_port.Need.TheVariants.{Nothing, Status, Completion};
ghost use Rattle.nvme_host.specs.declared.stage.Stage.TheVariants.{
  Unknown,
  Disabling,
  Disabled,
  Enabling,
  Enabled,
  Running,
  Expired,
  ShuttingDown,
  ShutDown,
};
ghost use Rattle.nvme_host.specs.Actions.{action_of};
ghost use Rattle.nvme_host.specs.Calls.{
  Asking,
  CheckingStatus,
  bears_live,
  completion_reports,
  finished_stage,
  judged_to,
  kept_count,
  kept_reports,
  question,
  ready_reports,
  report_code,
  shutting_down,
  stage_after,
  stride_to,
  waits,
};
ghost use Rattle.nvme_host.specs.Completions.{StoringCompletion};
ghost use Rattle.nvme_host.specs.Exports.{moving, sending, zeroing};
ghost use Rattle.nvme_host.specs.Refusals.{bring_up_stage_refusal};
ghost use Rattle.nvme_host.specs.RunExamples.{idle};
ghost use Rattle.nvme_host.specs.Runs.{one_if};
ghost use Rattle.nvme_host.specs.Stages.{reached_from};
ghost use Rattle.nvme_host.specs.Examples.{action, report, waiting};

/// Each stage in order: whether a bring-up may begin there, and where the awaited status leads.
fn stages_are_told_apart()
    ensures bring_ups { map bring_up_stage_refusal (Unknown ∷ Disabling ∷ Disabled ∷ Enabling ∷ Enabled ∷ Running
        ∷ Expired ∷ ShuttingDown ∷ ShutDown ∷ [])
        ≡ Some 21 ∷ Some 21 ∷ None ∷ Some 21 ∷ None ∷ Some 22 ∷ Some 21 ∷ Some 21 ∷ Some 21 ∷ [] }
    ensures reached { map reached_from (Unknown ∷ Disabling ∷ Disabled ∷ Enabling ∷ Enabled ∷ Running
        ∷ Expired ∷ ShuttingDown ∷ ShutDown ∷ [])
        ≡ Unknown ∷ Disabled ∷ Disabled ∷ Enabled ∷ Enabled ∷ Running ∷ Expired ∷ ShutDown ∷ ShutDown ∷ [] }
    ensures finished { map finished_stage (Ok tt ∷ Err NoAnswer ∷ []) ≡ Running ∷ Unknown ∷ [] }
    ensures steps { map (λ need. stage_after need (Ok tt)) (Nothing ∷ Status ∷ Completion ∷ [])
        ≡ Running ∷ Enabling ∷ Enabled ∷ [] }
    ensures kept { map (λ need. kept_count need 7) (Nothing ∷ Status ∷ Completion ∷ []) ≡ 0 ∷ 7 ∷ 7 ∷ [] }
    ensures no_reports { kept_reports Nothing (report 1 ∷ []) ≡ [] }
    ensures status_reports { kept_reports Status (report 1 ∷ []) ≡ report 1 ∷ [] }
    ensures completion_reports { kept_reports Completion (report 1 ∷ []) ≡ report 1 ∷ [] }
{}

/// What is asked and awaited: Identify by CNS, SHN 01b, a request by its ticket, and what a device reports.
fn calls_have_codes()
    ensures controller { question 0 ≡ Identify 1 0 }
    ensures namespace { map question (1 ∷ 2 ∷ []) ≡ Identify 0 1 ∷ Identify 0 2 ∷ [] }
    ensures no_place { Asking idle 65 (record { ticket = 0; code = 64 }) idle }
    ensures shutdown { shutting_down ≡ enabling + 2 ^ 14 }
    ensures bearers { map (bears_live 7) (None ∷ Some (waiting 7 true) ∷ Some (waiting 7 false)
        ∷ Some (waiting 8 true) ∷ []) ≡ false ∷ true ∷ false ∷ false ∷ [] }
    ensures waits { map (λ t. waits t (None ∷ Some (waiting 7 true) ∷ Some (waiting 8 false) ∷ [])) (7 ∷ 8 ∷ 9 ∷ [])
        ≡ true ∷ false ∷ false ∷ [] }
    ensures not_awaited { CheckingStatus idle 1 0 33 idle }
    ensures no_lane { StoringCompletion None idle [] (record { at = 0; len = 0; code = 32 }) idle }
    ensures tickets { map (λ b. one_if b 7) (true ∷ false ∷ []) ≡ (7 ∷ []) ∷ [] ∷ [] }
{}

/// Capabilities that do not suit are not kept; a ready status and a completion are reported where they are needed.
fn reports_are_kept()
    ensures suits { judged_to (Ok (record { timeout_ms = 500; stride = 4 })) None
        ≡ Some (record { timeout_ms = 500; stride = 4 }) }
    ensures unfit { judged_to (Err Removed) (Some (record { timeout_ms = 500; stride = 4 }))
        ≡ Some (record { timeout_ms = 500; stride = 4 }) }
    ensures stride { stride_to (Ok (record { timeout_ms = 500; stride = 8 })) 4 ≡ 8 }
    ensures same_stride { stride_to (Err Removed) 4 ≡ 4 }
    ensures ready { ready_reports awaited.Ready progress.Reached 1 []
        ≡ record { status = 1; entry = replicate 16 0 } ∷ [] }
    ensures still { ready_reports awaited.Ready progress.Waits 0 [] ≡ [] }
    ensures disabled { ready_reports awaited.Disabled progress.Reached 0 [] ≡ [] }
    ensures codes { map (λ need. report_code Enabled need) (Nothing ∷ Status ∷ Completion ∷ [])
        ≡ 33 ∷ 33 ∷ 0 ∷ [] }
    ensures running { report_code Running Completion ≡ 33 }
    ensures completion { completion_reports Enabled Completion (replicate 16 9) []
        ≡ record { status = 0; entry = replicate 16 9 } ∷ [] }
    ensures not_needed { completion_reports Enabled Nothing (replicate 16 9) [] ≡ [] }
    ensures not_enabled { completion_reports Running Completion (replicate 16 9) [] ≡ [] }
{}

/// The actions of the calls of a port, and the blocks and bytes of requests.
fn actions_are_told_apart()
    ensures actions { map action_of (Stores 0x1000 (7 ∷ 8 ∷ 9 ∷ []) ∷ Writes 0x14 1 ∷ Reads 0x1c 1 ∷ Turns ∷ [])
        ≡ record { at = 0x1000; len = 3; value = 0; kind = 1 } ∷ action
        ∷ record { at = 0x1c; len = 0; value = 1; kind = 2 } ∷ record { at = 0; len = 0; value = 0; kind = 2 } ∷ [] }
    ensures no_actions { map action_of (Sees Admin 5 true None ∷ Loads 0x100000 (7 ∷ []) ∷ [])
        ≡ record { at = 0; len = 0; value = 0; kind = 2 } ∷ record { at = 0; len = 0; value = 0; kind = 2 } ∷ [] }
    ensures moving { moving 5 8 ≡ record { slba = 5; blocks = 8; bytes = 4096 } }
    ensures sending { sending 5 4096 ≡ record { slba = 5; blocks = 8; bytes = 4096 } }
    ensures zeroing { zeroing 5 8 ≡ record { slba = 5; blocks = 8; bytes = 0 } }
{}
