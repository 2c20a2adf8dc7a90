//! Worked examples of the definitions, proved by computing.
#![tactic(auto, unfolding(crate::specs::DataPlaces::data_place, nvme_transfers::specs::Parts::cid_of, nvme_transfers::specs::Parts::fits,))]

ghost use Rattle.std.specs.Prelude.{◌≡◌, true, false, [], ◌∷◌, Some, None, Ok, Err, length};
ghost use Rattle.nvme_fabrics.specs.declared.session.Session.TheVariants as session;
ghost use Rattle.nvme_capsules.specs.declared.data_place.DataPlace.TheVariants as place;
ghost use Rattle.nvme_capsules.specs.declared.destination.Destination.TheVariants as destination_of;
ghost use Rattle.nvme_capsules.specs.declared.outcome.Data.TheVariants as data_of;
ghost use Rattle.nvme_capsules.specs.declared.outcome.Outcome.TheVariants as outcome;
ghost use Rattle.nvme_capsules.specs.declared.connect_stage.ConnectStage.TheVariants as stage;
ghost use Rattle.nvme_capsules.specs.Capsules.{cid_of, is_connect, precedes_proof, refusal, stage_of};
ghost use Rattle.nvme_capsules.specs.DataPlaces.{
  data_place,
  direction_of,
  fctype_of,
  opcode_of,
  operation,
  psdt_of,
  sgl_identifier_of,
};
ghost use Rattle.nvme_capsules.specs.Destinations.{destination};
ghost use Rattle.nvme_capsules.specs.Outcomes.{out_of_sequence};
ghost use Rattle.nvme_capsules.specs.Laws.{HasOwn, settled_count};
ghost use Rattle.nvme_responses.specs.Laws.{done};
ghost use Rattle.nvme_responses.specs.Responses.{response};
ghost use Rattle.nvme_capsules.specs.Runs.{
  AtOnce,
  Comes,
  Ends,
  Responds,
  Stops,
  commands,
  lost,
  outcome_at,
  ready,
  refused,
  response_calls,
  state_after,
  unwanted,
  waiting,
};
ghost use Rattle.nvme_capsules.specs.Statuses.{
  authentication_required,
  command_id_conflict,
  command_sequence_error,
  data_sgl_length_invalid,
  invalid_field_in_command,
  sgl_descriptor_type_invalid,
  sgl_offset_invalid,
  transient_transport_error,
};
ghost use Rattle.nvme_capsules.specs.Examples.{
  authenticating,
  brings,
  brings_spoiled,
  capsule,
  connect,
  connect_later,
  connected,
  disconnect,
  entry,
  flush,
  queue,
  read,
  reply,
  spoiled,
  waits,
  write,
  write_from,
};

/// Data in a capsule.
fn capsules()
    ensures whole { data_place (write_from 0) 8 ≡ Ok (place.InCapsule 0 8) }
    ensures offset { data_place (write_from 4) 12 ≡ Ok (place.InCapsule 4 8) }
    ensures one_too_many { data_place (write_from 5) 12 ≡ Err data_sgl_length_invalid }
    ensures at_the_end { data_place (write_from 12) 12 ≡ Err data_sgl_length_invalid }
    ensures beyond { data_place (write_from 13) 12 ≡ Err sgl_offset_invalid }
    ensures far_beyond { data_place (write_from 4294967297) 12 ≡ Err sgl_offset_invalid }
    ensures connect { data_place connect 8 ≡ Ok (place.InCapsule 0 8) }
{}

/// Data that the transport moves, and commands without data.
fn transports()
    ensures write { data_place write 0 ≡ Ok (place.OnRequest 8) }
    ensures most { data_place (entry 0x01 0 7 0 131072 0x5a) 0 ≡ Ok (place.OnRequest 131072) }
    ensures too_many { data_place (entry 0x01 0 7 0 131073 0x5a) 0 ≡ Err data_sgl_length_invalid }
    ensures read { data_place read 0 ≡ Ok (place.FromController 8) }
    ensures into_the_capsule { data_place (entry 0x02 0 9 0 8 0x01) 8 ≡ Err sgl_descriptor_type_invalid }
    ensures other_type { data_place (entry 0x01 0 7 0 8 0x00) 8 ≡ Err sgl_descriptor_type_invalid }
    ensures flush { data_place flush 0 ≡ Ok (place.FromController 0) }
    ensures both_ways { data_place (entry 0x03 0 7 0 8 0x5a) 0 ≡ Ok (place.FromController 0) }
    ensures empty { data_place (entry 0x01 0 7 0 0 0x00) 0 ≡ Ok (place.FromController 0) }
    ensures no_sgl { data_place (0x01 ∷ 0x00 ∷ []) 0 ≡ Err invalid_field_in_command }
    ensures metadata_sgl { data_place (0x01 ∷ 0x80 ∷ []) 0 ≡ Err invalid_field_in_command }
{}

/// Fields of an entry.
fn fields()
    ensures cid { cid_of write ≡ 7 }
    ensures opcode { operation read ≡ 0x02 }
    ensures fctype { operation disconnect ≡ 0x08 }
    ensures sends { direction_of write ≡ 1 }
    ensures authenticates { direction_of (entry 0x7f 0x06 1 0 8 0x5a) ≡ 2 }
    ensures connects { is_connect connect ≡ true }
    ensures disconnects { is_connect disconnect ≡ false }
    ensures writes { is_connect (entry 0x01 0x01 7 0 8 0x01) ≡ false }
    ensures ends { precedes_proof disconnect ≡ true }
    ensures sends_proof { precedes_proof (entry 0x7f 0x05 1 0 8 0x01) ≡ true }
    ensures asks_for_proof { precedes_proof (entry 0x7f 0x06 1 0 8 0x5a) ≡ true }
    ensures property { precedes_proof (entry 0x7f 0x04 1 0 0 0) ≡ false }
    ensures other_opcode { precedes_proof (entry 0x01 0x05 1 0 8 0x01) ≡ false }
    ensures no_opcode { opcode_of [] ≡ 0 }
    ensures no_psdt { psdt_of [] ≡ 0 }
    ensures no_fctype { fctype_of [] ≡ 0 }
    ensures no_identifier { sgl_identifier_of [] ≡ 0 }
{}

/// How far connections are with their Connect.
fn stages()
    ensures none { stage_of session.NotConnected ≡ stage.NotConnected }
    ensures proof { stage_of authenticating ≡ stage.Authenticating }
    ensures queue { stage_of queue ≡ stage.Connected }
    ensures discovery { stage_of session.Discovery ≡ stage.Connected }
    ensures ended { stage_of session.Ended ≡ stage.Connected }
{}

/// Commands that are refused before their data matter.
fn refusals()
    ensures sound { refusal stage.Connected (capsule write 0) false ≡ None }
    ensures spoiled { refusal stage.Connected (spoiled write 0) false ≡ Some transient_transport_error }
    ensures in_use { refusal stage.Connected (capsule write 0) true ≡ Some command_id_conflict }
    ensures spoiled_first { refusal stage.Connected (spoiled write 0) true ≡ Some transient_transport_error }
    ensures connects { refusal stage.NotConnected (capsule connect 8) false ≡ None }
    ensures not_connected { refusal stage.NotConnected (spoiled write 0) true ≡ Some command_sequence_error }
    ensures may_end { refusal stage.Authenticating (capsule disconnect 0) false ≡ None }
    ensures not_proved { refusal stage.Authenticating (spoiled write 0) true ≡ Some authentication_required }
{}

/// What becomes of commands.
fn outcomes()
    ensures connects { outcome_at (state_after []) stage.NotConnected (capsule connect 8)
        ≡ outcome.Ready (data_of.InCapsule 0 8) }
    ensures connects_later { outcome_at (state_after []) stage.NotConnected (capsule connect_later 0)
        ≡ outcome.Refused command_sequence_error }
    ensures waits { outcome_at (state_after connected) stage.Connected (capsule write 0) ≡ outcome.Waits 8 }
    ensures ready { outcome_at (state_after connected) stage.Connected (capsule (write_from 0) 8)
        ≡ outcome.Ready (data_of.InCapsule 0 8) }
    ensures returns { outcome_at (state_after waits) stage.Connected (capsule read 0)
        ≡ outcome.Ready (data_of.FromController 8) }
    ensures in_use { outcome_at (state_after waits) stage.Connected (capsule write 0)
        ≡ outcome.Refused command_id_conflict }
    ensures wrong_sgl { outcome_at (state_after connected) stage.Connected (capsule (write_from 1) 8)
        ≡ outcome.Refused data_sgl_length_invalid }
    ensures full { outcome_at (state_after (Comes stage.NotConnected (capsule connect 8) ∷ []))
        stage.NotConnected (capsule connect 8) ≡ outcome.Breaks out_of_sequence }
    ensures ending { outcome_at (state_after (Ends ∷ connected)) stage.Connected (capsule read 0)
        ≡ outcome.Breaks out_of_sequence }
    ensures stopped { outcome_at (state_after (Stops ∷ connected)) stage.Connected (capsule read 0)
        ≡ outcome.Breaks out_of_sequence }
{}

/// Which data are a command's own.
fn own_data()
    ensures inside { HasOwn (AtOnce (capsule (write_from 0) 8) (data_of.InCapsule 0 8)) }
    ensures too_short { HasOwn (AtOnce (capsule (write_from 0) 7) (data_of.InCapsule 0 8)) → ⊥ }
    ensures of_another_place { HasOwn (AtOnce (capsule (write_from 1) 9) (data_of.InCapsule 0 8)) → ⊥ }
    ensures asked_for { HasOwn (AtOnce (capsule write 8) (data_of.InCapsule 0 8)) → ⊥ }
    ensures returned { HasOwn (AtOnce (capsule read 0) (data_of.FromController 8)) }
    ensures none { HasOwn (AtOnce (capsule flush 0) (data_of.FromController 0)) }
    ensures more { HasOwn (AtOnce (capsule read 0) (data_of.FromController 9)) → ⊥ }
    ensures written { HasOwn (AtOnce (capsule write 0) (data_of.FromController 8)) → ⊥ }
    ensures too_many { HasOwn (AtOnce (capsule (entry 0x02 0 9 0 131073 0x5a) 0) (data_of.FromController 131073)) → ⊥ }
{}

/// What became of the commands of a run, the newest call first.
fn runs()
    ensures commands { commands waits ≡ 5 ∷ 7 ∷ [] }
    ensures connects { ready waits ≡ AtOnce (capsule connect 8) (data_of.InCapsule 0 8) ∷ [] }
    ensures waits { waiting (state_after waits) ≡ 7 ∷ [] }
    ensures brings { length (ready (brings ∷ waits)) ≡ 2 }
    ensures no_more { waiting (state_after (brings ∷ waits)) ≡ [] }
    ensures twice { length (ready (brings ∷ brings ∷ waits)) ≡ 2 }
    ensures spoiled { refused (brings_spoiled ∷ waits)
        ≡ record { cid = 7; status = transient_transport_error } ∷ [] }
    ensures not_ready { length (ready (brings_spoiled ∷ waits)) ≡ 1 }
    ensures in_use { refused (Comes stage.Connected (capsule write 0) ∷ waits)
        ≡ record { cid = 7; status = command_id_conflict } ∷ [] }
    ensures lost { lost (Ends ∷ waits) ≡ 7 ∷ [] }
    ensures not_lost { lost (Ends ∷ brings ∷ waits) ≡ [] }
    ensures unwanted { unwanted (Ends ∷ waits) ≡ [] }
    ensures late { length (ready (brings ∷ Ends ∷ waits)) ≡ 1 }
    ensures settled { settled_count (brings ∷ waits) 7 ≡ 1 }
    ensures not_settled { settled_count waits 7 ≡ 0 }
    ensures settled_twice { settled_count (brings ∷ Comes stage.Connected (capsule write 0) ∷ waits) 7 ≡ 2 }
{}

/// A command that is ready is answered once.
fn answers()
    ensures none { done (response_calls (brings ∷ waits)) 7 ≡ 0 }
    ensures ready { response (state_after (brings ∷ waits)).responses reply
        ≡ Some (record { dw0 = 0; dw1 = 0; sqhd = 2; cid = 7; status = 0 }) }
    ensures twice { response (state_after (Responds reply ∷ brings ∷ waits)).responses reply ≡ None }
    ensures done { done (response_calls (Responds reply ∷ brings ∷ waits)) 7 ≡ 1 }
    ensures stopped { response (state_after (Stops ∷ brings ∷ waits)).responses reply ≡ None }
    ensures ending { response (state_after (Ends ∷ brings ∷ waits)).responses reply
        ≡ Some (record { dw0 = 0; dw1 = 0; sqhd = 2; cid = 7; status = 0 }) }
{}

/// Destinations.
fn destinations()
    ensures admin { destination (session.Queue 3 0) read true ≡ destination_of.Admin 3 }
    ensures io { destination queue read true ≡ destination_of.Io 3 1 }
    ensures no_queue { destination queue read false ≡ destination_of.Refused command_sequence_error }
    ensures fabrics { destination queue disconnect true ≡ destination_of.Fabrics }
    ensures fabrics_first { destination session.Ended connect false ≡ destination_of.Fabrics }
    ensures discovery { destination session.Discovery read false ≡ destination_of.Discovery }
    ensures not_connected { destination session.NotConnected read true
        ≡ destination_of.Refused command_sequence_error }
    ensures ended { destination session.Ended read true ≡ destination_of.Refused command_sequence_error }
    ensures not_proved { destination authenticating read true ≡ destination_of.Refused authentication_required }
{}
