//! Codes of results for C, what is known of a device, completions, and values of the computed runs.

ghost use Rattle.std.specs.Prelude.{◌≡◌, ◌++◌, ℕ, [], ◌∷◌, None, Some, Ok, Err, length, map, replicate, true, false};
ghost use Rattle.nvme_spec.specs.declared.command.Command.TheVariants as command;
ghost use Rattle.nvme_device.specs.declared.admission.Admission.TheVariants as admission;
ghost use Rattle.nvme_device.specs.declared.admission.Span.{Span};
ghost use Rattle.nvme_device.specs.declared.capabilities.CapabilityFault.TheVariants.{Removed};
ghost use Rattle.nvme_device.specs.declared.controller.ControllerFault.TheVariants.{NotIo};
ghost use Rattle.nvme_device.specs.declared.namespace.NamespaceFault.TheVariants.{BlockSize};
ghost use Rattle.nvme_driver.specs.declared.answer.Answer.TheVariants.{Aborted};
ghost use Rattle.nvme_driver.specs.declared.faults.PlaceRefusal.TheVariants as place;
ghost use Rattle.nvme_driver.specs.declared.faults.PollFault.TheVariants as poll;
ghost use Rattle.nvme_driver.specs.declared.lane.Lane.TheVariants.{Admin, Io};
ghost use Rattle.nvme_driver.specs.declared.request.Request.TheVariants.{Flush};
ghost use Rattle.nvme_driver.specs.Drivers.{entry_place, placed};
ghost use Rattle.nvme_driver.specs.Polls.{waiting_at};
ghost use Rattle.nvme_host.specs.Calls.{waits};
ghost use Rattle.nvme_host.specs.Completions.{data_of, next_completion_in, phase_by};
ghost use Rattle.nvme_host.specs.DeviceCommands.{aborting};
ghost use Rattle.nvme_host.specs.Devices.{admission_code, controller_of, limits_of, namespace_of, no_controller};
ghost use Rattle.nvme_host.specs.Doorbells.{initial_doorbells};
ghost use Rattle.nvme_host.specs.Events.{command_set_kind, event_kind};
ghost use Rattle.nvme_host.specs.Examples.{answer, busy, doorbells, facts, waiting};
ghost use Rattle.nvme_host.specs.Exports.{zeroing};
ghost use Rattle.nvme_host.specs.Facts.{
  answered_by,
  asked,
  forgotten,
  is_answered,
  is_identity_answer,
  namespace_facts,
  no_facts,
};
ghost use Rattle.nvme_host.specs.Health.{health};
ghost use Rattle.nvme_host.specs.Outcomes.{outcome_of, placed_of};
ghost use Rattle.nvme_host.specs.Refusals.{blocked_by, request_refusal};
ghost use Rattle.nvme_host.specs.RunExamples.{expired, flushed, idle, left_over, one_namespace};
ghost use Rattle.nvme_host.specs.Runs.{IsNoReset, Rings};

/// The code of each admission: none, or the first reason against it.
fn admissions_have_codes()
    ensures admitted { admission_code admission.Admitted ≡ None }
    ensures no_controller { admission_code admission.ControllerNotAsked ≡ Some 59 }
    ensures controller { admission_code (admission.Controller NotIo) ≡ Some 54 }
    ensures no_namespace { admission_code admission.NamespaceNotAsked ≡ Some 60 }
    ensures namespace { admission_code (admission.Namespace BlockSize) ≡ Some 57 }
    ensures not_supported { admission_code admission.NotSupported ≡ Some 61 }
    ensures too_long { admission_code admission.TooLong ≡ Some 62 }
    ensures past_the_end { admission_code admission.PastTheEnd ≡ Some 63 }
{}

/// What a device said of itself, or the code of the reason that nothing is known.
fn devices_have_codes()
    ensures limits { limits_of (Ok (record { timeout_ms = 500; stride = 4 }))
        ≡ record { timeout_ms = 500; stride = 4; code = 0 } }
    ensures no_limits { limits_of (Err Removed) ≡ record { timeout_ms = 0; stride = 0; code = 48 } }
    ensures unknown { no_controller 7 ≡ record { nn = 0; code = 7; cntlid = 0; oncs = 0; mdts = 0; vwc = 0 } }
    ensures not_asked { (controller_of None).code ≡ 59 }
    ensures controller { controller_of (Some (Ok (record { cntlid = 2; mdts = 3; oncs = 4; nn = 5; vwc = 6 })))
        ≡ record { nn = 5; code = 0; cntlid = 2; oncs = 4; mdts = 3; vwc = 6 } }
    ensures no_namespace { namespace_of None ≡ record { blocks = 0; code = 60 } }
    ensures unsuitable { namespace_of (Some (Err BlockSize)) ≡ record { blocks = 0; code = 57 } }
    ensures namespace { namespace_of (Some (Ok (record { blocks = 9 }))) ≡ record { blocks = 9; code = 0 } }
{}

/// Codes of polls and of placings, of CSTS without RDY, and of a driver with actions.
fn results_have_codes()
    ensures nothing { (outcome_of (Ok None)).code ≡ 3 }
    ensures aborted { (outcome_of (Ok (Some (Aborted (record { 0 = 7 }))))).code ≡ 2 }
    ensures not_up { (outcome_of (Err poll.NotUp)).code ≡ 26 }
    ensures unknown { (outcome_of (Err poll.UnknownCommand)).code ≡ 31 }
    ensures not_ready { (placed_of (Err place.NotReady)).code ≡ 26 }
    ensures bad { (placed_of (Err place.BadRequest)).code ≡ 27 }
    ensures no_slot { (placed_of (Err place.NoSlot)).code ≡ 28 }
    ensures full { (placed_of (Err place.RingFull)).code ≡ 29 }
    ensures exhausted { (placed_of (Err place.TicketsExhausted)).code ≡ 30 }
    ensures reset { health 0 ≡ 23 }
    ensures actions { blocked_by busy ≡ Some 19 }
{}

/// The next completion of a lane (queue pair), whose phase tag is 1 in the first pass, and the data of a completion.
#[tactic(auto, unfolding(nvme_wire::specs::Completion::status, nvme_wire::specs::Completion::cid))]
fn completions_are_found()
    ensures first_pass { phase_by (record { size = 32; consumed = 31 }) ≡ 1 }
    ensures second_pass { phase_by (record { size = 32; consumed = 32 }) ≡ 0 }
    ensures no_lane { next_completion_in None doorbells ≡ record { at = 0; phase = 0; code = 32 } }
    ensures lane { next_completion_in (Some Admin) doorbells ≡ record { at = 0x1040; phase = 1; code = 0 } }
    ensures no_request { data_of None (replicate 16 0) ≡ record { at = 0; len = 0; code = 0 } }
    ensures success { (data_of (Some (waiting 7 true)) (replicate 16 0)).code ≡ 0 }
    ensures failure { data_of (Some (waiting 7 true)) (replicate 14 0 ++ 3 ∷ 0 ∷ [])
        ≡ record { at = 0; len = 0; code = 0 } }
{}

/// Abort is opcode 08h of no namespace; doorbells after a reset are 0; and kinds of events.
fn commands_and_events()
    ensures abort { aborting Io 5 ≡ record {
      command = record { lane = Admin; opcode = 8; nsid = 0; cdw10 = 0x50001; cdw11 = 0; cdw12 = 0 };
      moved = 0;
      sent = [];
      received = 0;
    } }
    ensures doorbells { initial_doorbells ≡ record {
      admin_tail = 0;
      io_tail = 0;
      admin_head = record { size = 32; consumed = 0 };
      io_head = record { size = 32; consumed = 0 };
    } }
    ensures reservation { command_set_kind 0 ≡ 5 }
    ensures sanitize { command_set_kind 1 ≡ 6 }
    ensures other_of_set { command_set_kind 2 ≡ 0 }
    ensures of_set { event_kind 6 1 ≡ 6 }
    ensures other { event_kind 7 1 ≡ 0 }
{}

/// What is known of a device, and what a question and its answer change.
fn facts_of_devices()
    ensures places { length no_facts.namespaces ≡ 65 }
    ensures controller { (forgotten (facts 0) 0).controller ≡ None }
    ensures namespace { (forgotten (facts 0) 1).namespaces ≡ None ∷ None ∷ None ∷ [] }
    ensures other { (forgotten (facts 0) 1).controller ≡ (facts 0).controller }
    ensures question { (asked (facts 0) 12 1).asked ≡ Some (record { ticket = 12; nsid = 1 }) }
    ensures no_question { is_answered None (answer 0) ≡ false }
    ensures answered { is_answered (Some (record { ticket = 9; nsid = 1 })) (answer 0) ≡ true }
    ensures other_ticket { is_answered (Some (record { ticket = 8; nsid = 1 })) (answer 0) ≡ false }
    ensures aborted { is_answered (Some (record { ticket = 9; nsid = 1 })) (record (answer 0) { code = 2 }) ≡ false }
    ensures failed { (answered_by (facts 1) (Some (record { ticket = 9; nsid = 1 })) (answer 0) []).asked ≡ None }
    ensures identity { is_identity_answer (Some 9) (answer 0) ≡ true }
    ensures other_identity { is_identity_answer (Some 8) (answer 0) ≡ false }
    ensures aborted_identity { is_identity_answer (Some 9) (record (answer 0) { code = 2 }) ≡ false }
{}

/// Values of the computed runs: namespace 1 of 100 blocks, 24 slots, and ticket 7, or 8 after a request was left over.
fn values_of_runs()
    ensures controller { one_namespace.controller
        ≡ Some (Ok (record { cntlid = 0; mdts = 0; oncs = 0; nn = 1; vwc = 1 })) }
    ensures namespace { namespace_facts one_namespace 1 ≡ Some (Ok (record { blocks = 100 })) }
    ensures places { length one_namespace.namespaces ≡ 65 }
    ensures slots { length idle.driver.slots ≡ 24 }
    ensures first { idle.driver.next ≡ 7 }
    ensures next { left_over.driver.next ≡ 8 }
    ensures left { waiting_at left_over.driver.slots 0 ≡ Some (waiting 7 false) }
    ensures no_reset { IsNoReset Rings }
{}

/// What the computed runs do not depend on: the namespace of a Flush that is placed, its blocks in the namespace, which
/// request a driver refuses after one expired, and which ticket that no request has does not expire.
fn values_that_runs_leave_open()
    ensures driver { placed idle.driver (Flush 1) 0 ≡ placed idle.driver (Flush 2) 0 }
    ensures entry { entry_place idle.driver (Flush 1) ≡ entry_place idle.driver (Flush 2) }
    ensures no_block { request_refusal idle 1 command.Flush (zeroing 0 0) ≡ None }
    ensures one_block { request_refusal idle 1 command.Flush (zeroing 0 1) ≡ None }
    ensures second_block { request_refusal idle 1 command.Flush (zeroing 1 0) ≡ None }
    ensures expired { (nsid : ℕ) → (span : Span) → request_refusal expired nsid command.Flush span ≡ Some 65 }
    ensures no_tickets { map (λ t. waits t flushed.driver.slots) (7 ∷ 8 ∷ 9 ∷ []) ≡ true ∷ false ∷ false ∷ [] }
{}
