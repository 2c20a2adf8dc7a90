//! Worked examples of the definitions, proved by computing.
#![tactic(auto, unfolding(nvme_responses::specs::Entries::entry))]

ghost use Rattle.std.specs.Prelude.{◌≡◌, true, false, [], ◌∷◌, Some, None, Ok, Err, length, map, replicate};
ghost use Rattle.nvme_fabrics.specs.declared.session.Session.TheVariants as session;
ghost use Rattle.nvme_fabrics.specs.declared.session.Subsystem.TheVariants as subsystem;
ghost use Rattle.nvme_fabrics.specs.Answers.{with_cntlid, in_data};
ghost use Rattle.nvme_data_buffers.specs.declared.buffer.DataBuffer.TheVariants as buffer;
ghost use Rattle.nvme_connection.specs.declared.judged.Verdict.TheVariants as judgements;
ghost use Rattle.nvme_fabrics.specs.declared.command.Command.TheVariants as command_of;
ghost use Rattle.nvme_fabrics.specs.declared.session.Place.TheVariants as place;
ghost use Rattle.nvme_tcp_library.specs.Answers.{
  admitted_to,
  answer_seen,
  connection_seen,
  executed_seen,
  live_seen,
  rules_seen,
};
ghost use Rattle.nvme_tcp_library.specs.Buffers.{buffer_of};
ghost use Rattle.nvme_tcp_library.specs.Connections.{layout_if, taken_seen, verdict_seen};
ghost use Rattle.nvme_responses.specs.declared.refused.Refused.TheVariants as refused;
ghost use Rattle.nvme_tcp_library.specs.Examples.{
  asked,
  capsule_seen,
  failed,
  four,
  host,
  live,
  nothing_asked,
  of_kind,
  response,
  sixteen_hosts,
  succeeded,
  without_layout,
};
ghost use Rattle.nvme_tcp_library.specs.Capsules.{destination_seen, live_of, no_capsule, outcome_seen};
ghost use Rattle.nvme_capsules.specs.declared.destination.Destination.TheVariants as destination_of;
ghost use Rattle.nvme_capsules.specs.declared.outcome.Data.TheVariants as data_of;
ghost use Rattle.nvme_capsules.specs.declared.outcome.Outcome.TheVariants as outcome;
ghost use Rattle.nvme_tcp_library.specs.Fabrics.{host_at, hosts_of};
ghost use Rattle.nvme_tcp_library.specs.Responses.{acceptance, answered, entry_if, forgotten, reply_of};
ghost use Rattle.nvme_tcp_library.specs.Sessions.{request_of, session_of, session_seen, session_with, subsystem_of};
ghost use Rattle.nvme_tcp_library.specs.Transfers.{
  begun_code,
  command_of as transfer,
  count_by,
  has_by,
  not_open,
  part_seen,
  request_seen,
};
ghost use Rattle.nvme_transfers.specs.declared.command.Refused.TheVariants as not_begun;
ghost use Rattle.nvme_transfers.specs.Examples.{command, done, many};
ghost use Rattle.nvme_transfers.specs.Transfers.{none, out_of_range};

/// What C's structs are read as.
fn structs()
    ensures first { session_of (of_kind 0) ≡ session.NotConnected }
    ensures queue { session_of (of_kind 2) ≡ session.Queue 3 2 }
    ensures ended { session_of (of_kind 4) ≡ session.Ended }
    ensures other { session_of (of_kind 5) ≡ session.Ended }
    ensures asks { session_of (of_kind 1) ≡ session.Authenticating (request_of (of_kind 1).request) 3 }
    ensures written { session_seen 7 (session.Queue 3 2) ≡ of_kind 2 }
    ensures host_id { (request_of asked).host_id ≡ 36893488147419103233 }
    ensures foreign { subsystem_of 3 ≡ subsystem.Other }
{}

/// What C's structs are written as.
fn written_structs()
    ensures not_connected { session_seen 7 session.NotConnected ≡ session_with 7 nothing_asked 0 0 0 }
    ensures authenticating { session_seen 7 (session.Authenticating (request_of asked) 3) ≡ session_with 7 asked 1 3 0 }
    ensures queue { session_seen 7 (session.Queue 3 2) ≡ session_with 7 nothing_asked 2 3 2 }
    ensures discovery { session_seen 7 session.Discovery ≡ session_with 7 nothing_asked 3 0 0 }
    ensures ended { session_seen 7 session.Ended ≡ session_with 7 nothing_asked 4 0 0 }
    ensures at_once { buffer_of 0 ≡ buffer.AtOnce }
    ensures first_held { buffer_of 1 ≡ buffer.Held 0 }
    ensures third_held { buffer_of 3 ≡ buffer.Held 2 }
{}

/// What C sees of an answer.
fn answers()
    ensures breach { (taken_seen (four (Some (record { status = 1; field = 2 })))).what ≡ 40 }
    ensures status { (taken_seen (four (Some (record { status = 1; field = 2 })))).status ≡ 1 }
    ensures none { (taken_seen (four None)).what ≡ 0 }
    ensures no_pdu { (verdict_seen None).layout.what ≡ 41 }
    ensures cntlid { (answer_seen (with_cntlid 3)).dw0 ≡ 3 }
    ensures refused { rules_seen (Err (in_data 16)) ≡ record { what = 0; dw0 = 65552; sct = 1; sc = 130 } }
    ensures connection { connection_seen (Some 0) ≡ record { connection = 0; what = 0 } }
    ensures no_connection { connection_seen None ≡ record { connection = 0; what = 28 } }
    ensures live { (live_seen (session.Queue 3 2)).qid ≡ 2 }
    ensures sound { taken_seen (four None)
        ≡ record { count = 4; data_begin = 1; data_end = 3; data_offset = 8; what = 0; field = 0; status = 0 } }
    ensures no_layout { layout_if None ≡ without_layout 41 0 0 }
    ensures broken { verdict_seen (Some (judgements.Breaks (record { status = 1; field = 2 })))
        ≡ record { layout = without_layout 40 2 1; is_sound = false } }
{}

/// What C sees of a Connect that is not refused, of other commands, and of connections.
fn fabrics()
    ensures controller { admitted_to (request_of asked) (place.Controller 3)
        ≡ record { request = asked; answer = succeeded; place = 1; index = 3 } }
    ensures discovery { admitted_to (request_of asked) place.Discovery
        ≡ record { request = asked; answer = succeeded; place = 2; index = 0 } }
    ensures authenticate { executed_seen (Ok command_of.Authenticate) ≡ record { answer = succeeded; command = 1 } }
    ensures disconnect { executed_seen (Ok command_of.Disconnect) ≡ record { answer = succeeded; command = 2 } }
    ensures get { executed_seen (Ok command_of.GetProperty) ≡ record { answer = succeeded; command = 3 } }
    ensures set { executed_seen (Ok command_of.SetProperty) ≡ record { answer = succeeded; command = 4 } }
    ensures not_connected { live_seen session.NotConnected ≡ record { what = 0; kind = 0; index = 0; qid = 0 } }
    ensures authenticating { live_seen (session.Authenticating (request_of asked) 3)
        ≡ record { what = 0; kind = 1; index = 3; qid = 0 } }
    ensures queue { live_seen (session.Queue 3 2) ≡ record { what = 0; kind = 2; index = 3; qid = 2 } }
    ensures is_discovery { live_seen session.Discovery ≡ record { what = 0; kind = 3; index = 0; qid = 0 } }
    ensures ended { live_seen session.Ended ≡ record { what = 0; kind = 4; index = 0; qid = 0 } }
{}

/// What C sees of responses.
fn responses()
    ensures accepted { acceptance (Ok false) ≡ 0 }
    ensures conflict { acceptance (Ok true) ≡ 47 }
    ensures full { acceptance (Err refused.Full) ≡ 48 }
    ensures ended { acceptance (Err refused.Ended) ≡ 49 }
    ensures reply { (reply_of failed).status ≡ record { sct = 2; sc = 129 } }
    ensures answer { answered (Some response) ≡ 0 }
    ensures no_answer { answered None ≡ 50 }
    ensures entry { entry_if (Some response) [] ≡ 3 ∷ 0 ∷ 0 ∷ 0 ∷ 4 ∷ 0 ∷ 0 ∷ 0 ∷ 1 ∷ 0 ∷ 0 ∷ 0 ∷ 7 ∷ 0 ∷ 0 ∷ 128 ∷ [] }
    ensures no_entry { entry_if None (1 ∷ []) ≡ 1 ∷ [] }
    ensures dropped { forgotten true ≡ 0 }
    ensures not_dropped { forgotten false ≡ 50 }
{}

/// The hosts of an opening.
fn hosts()
    ensures second { host_at (host ∷ host ∷ []) 1 ≡ Some 36893488147419103233 }
    ensures third { host_at (host ∷ host ∷ []) 2 ≡ None }
    ensures all { length (hosts_of []) ≡ 16 }
    ensures each { hosts_of sixteen_hosts ≡ map Some (1 ∷ 2 ∷ 3 ∷ 4 ∷ 5 ∷ 6 ∷ 7 ∷ 8 ∷ 9 ∷ 10 ∷ 11 ∷ 12 ∷ 13 ∷ 14 ∷ 15
        ∷ 16 ∷ []) }
{}

/// What C sees of commands whose data a host sends.
#[tactic(auto, unfolding(nvme_transfers::specs::Parts::cid_of))]
fn transfers()
    ensures waits { count_by (Some (many 3)) ≡ 3 }
    ensures none { count_by (Some none) ≡ 0 }
    ensures closed { count_by None ≡ 0 }
    ensures has_none { has_by 7 (Some none) ≡ false }
    ensures closed_has_none { has_by 7 None ≡ false }
    ensures has_one { has_by 1 (Some (many 3)) ≡ true }
    ensures command { transfer (command 7 8).entry 8 ≡ command 7 8 }
    ensures begins { begun_code (Ok tt) ≡ 0 }
    ensures conflict { begun_code (Err not_begun.InFlight) ≡ 44 }
    ensures many_wait { begun_code (Err not_begun.NoRoom) ≡ 45 }
    ensures asks { request_seen (Some (record { cid = 7; tag = 1; length = 8 }))
        ≡ record { what = 0; length = 8; cid = 7; tag = 1 } }
    ensures no_request { (request_seen None).what ≡ 46 }
    ensures closed_part { not_open ≡ record {
      what = 16;
      field = 0;
      begin = 0;
      length = 0;
      status = 0;
      is_complete = false;
      is_sound = false;
      entry = replicate 64 0;
    } }
    ensures breach { (part_seen (Err out_of_range)).what ≡ 40 }
    ensures status { (part_seen (Err out_of_range)).status ≡ 4 }
    ensures next { part_seen (Ok (record { begin = 4; completed = None })) ≡ record {
      what = 0;
      field = 0;
      begin = 4;
      length = 0;
      status = 0;
      is_complete = false;
      is_sound = false;
      entry = replicate 64 0;
    } }
    ensures last { part_seen (Ok (record { begin = 4; completed = Some done })) ≡ record {
      what = 0;
      field = 0;
      begin = 4;
      length = 8;
      status = 0;
      is_complete = true;
      is_sound = true;
      entry = (command 7 8).entry;
    } }
{}

/// What C sees of command capsules.
fn capsules()
    ensures breaks { (outcome_seen (outcome.Breaks (record { status = 2; field = 9 }))).what ≡ 40 }
    ensures fatal { (outcome_seen (outcome.Breaks (record { status = 2; field = 9 }))).fatal ≡ 2 }
    ensures field { (outcome_seen (outcome.Breaks (record { status = 2; field = 9 }))).field ≡ 9 }
    ensures refused { outcome_seen (outcome.Refused (record { sct = 1; sc = 145 })) ≡ record {
      what = 0;
      field = 0;
      outcome = 1;
      begin = 0;
      length = 0;
      fatal = 0;
      sct = 1;
      sc = 145;
    } }
    ensures waits { (outcome_seen (outcome.Waits 8)).outcome ≡ 2 }
    ensures sends { (outcome_seen (outcome.Ready (data_of.InCapsule 4 8))).outcome ≡ 3 }
    ensures begin { (outcome_seen (outcome.Ready (data_of.InCapsule 4 8))).begin ≡ 4 }
    ensures length { (outcome_seen (outcome.Ready (data_of.InCapsule 4 8))).length ≡ 8 }
    ensures returns { (outcome_seen (outcome.Ready (data_of.FromController 8))).outcome ≡ 4 }
    ensures closed { no_capsule ≡ capsule_seen 16 0 0 0 }
    ensures no_status { outcome_seen (outcome.Waits 8) ≡ capsule_seen 0 2 0 8 }
    ensures from_the_capsule { outcome_seen (outcome.Ready (data_of.InCapsule 4 8)) ≡ capsule_seen 0 3 4 8 }
    ensures from_the_controller { outcome_seen (outcome.Ready (data_of.FromController 8)) ≡ capsule_seen 0 4 0 8 }
{}

/// What C sees of destinations.
fn destinations()
    ensures admin { destination_seen (destination_of.Admin 3)
        ≡ record { kind = 2; index = 3; qid = 0; sct = 0; sc = 0 } }
    ensures io { destination_seen (destination_of.Io 3 1) ≡ record { kind = 3; index = 3; qid = 1; sct = 0; sc = 0 } }
    ensures status { destination_seen (destination_of.Refused (record { sct = 1; sc = 145 }))
        ≡ record { kind = 4; index = 0; qid = 0; sct = 1; sc = 145 } }
    ensures discovery { destination_seen destination_of.Discovery
        ≡ record { kind = 1; index = 0; qid = 0; sct = 0; sc = 0 } }
    ensures fabrics { destination_seen destination_of.Fabrics
        ≡ record { kind = 0; index = 0; qid = 0; sct = 0; sc = 0 } }
    ensures first { live_of (live 0) ≡ session.NotConnected }
    ensures queue { live_of (live 2) ≡ session.Queue 3 2 }
    ensures other_discovery { live_of (live 3) ≡ session.Discovery }
    ensures ended { live_of (live 5) ≡ session.Ended }
{}
