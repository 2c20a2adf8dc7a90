//! The values that other worked examples, and example runs of sessions, are about.
#![tactic(auto, unfolding(nvme_session_runs::specs::BothLayers::driven, nvme_session_runs::specs::BothLayers::raw_layers))]

ghost use Rattle.std.specs.Prelude.{
  ◌≡◌,
  ◌++◌,
  ℕ,
  List,
  [],
  ◌∷◌,
  Option,
  None,
  Some,
  replicate,
  true,
  codes,
};
ghost use Rattle.nvme_driver.specs.Drivers.{new_driver};
ghost use Rattle.nvme_driver.specs.declared.answer.Answer.TheVariants.{Done};
ghost use Rattle.nvme_grammar.specs.Lent.{lent};
ghost use Rattle.nvme_grammar.specs.declared.fault.Why.TheVariants.{Byte};
ghost use Rattle.nvme_live.specs.Conversations.{Ends};
ghost use Rattle.nvme_live.specs.SessionLaws.{HasTicketsOnce};
ghost use Rattle.nvme_live.specs.SetUps.{SetUp};
ghost use Rattle.nvme_live.specs.SetUpLaws.{IsSettingLine};
ghost use Rattle.nvme_live.specs.Standings.{Standing, TurnOf};
ghost use Rattle.nvme_live.specs.Streams.{AddsKnown, TakesKnown};
ghost use Rattle.nvme_machine.specs.Controllers.{new_controller};
ghost use Rattle.nvme_program.specs.SystemCalls.{ReadsText};
ghost use Rattle.nvme_session_runs.specs.BothLayers.{driven};
ghost use Rattle.nvme_session_runs.specs.Replays as replay;
ghost use Rattle.nvme_session_runs.specs.Sessions as session;
ghost use Rattle.nvme_spec.specs.Blocks.{Device};
ghost use Rattle.nvme_spec.specs.Configuration.{Capacity, config_fault};
ghost use Rattle.nvme_spec.specs.declared.config.ConfigFault.{ConfigFault};
ghost use Rattle.script_text.specs.Writing.{Sent};
ghost use Rattle.live_views.specs.declared.shown.Shown.TheVariants as shown;
ghost use Rattle.nvme_medium.specs.declared.cached.Cached.{Cached};
ghost use Rattle.nvme_spec.specs.MediumCalls.{MediumCall};
ghost use Rattle.definition_examples.specs.SessionStreams.{Answering, Asking, cached_record, recorded_medium};
ghost use Rattle.definition_examples.specs.TextConfigurations as text;
ghost use Rattle.definition_examples.specs.TextLines.{refusal_byte};
ghost use Rattle.definition_examples.specs.TextStreams.{any_flush};
ghost use Rattle.definition_examples.specs.TextTranscripts.{answered_read, denied_read};
ghost use Rattle.definition_examples.specs.TextViews.{
  busy_controller,
  fetched_read,
  shown_registers,
};

/// The lines of examples of configurations, and their medium of 1,024 blocks.
fn example_lines()
    ensures medium { text.small_medium.medium ≡ 1024 }
    ensures one { text.one_controller ≡ codes "controller 1 host 1" ∷ [] }
    ensures second { text.second_controller ≡ codes "controller 2 host 1" ∷ [] }
    ensures cut { text.second_controller_cut ≡ codes "controller 2 host 1" ∷ codes "x" ∷ [] }
    ensures early { text.early_event_lines ≡ codes "controller 1 host 1" ∷ codes "up 1" ∷ [] }
    ensures alone { text.event_alone ≡ codes "start" ∷ codes "up 1" ∷ [] }
    ensures script { text.script_with_event
        ≡ codes "controller 1 host 1" ++ 10 ∷ codes "start" ++ 10 ∷ codes "up 1" }
    ensures byte { refusal_byte ≡ Byte 7 }
{}

/// The controller, command and answers of examples of views and transcripts.
fn example_views()
    ensures controller { busy_controller.cntlid ≡ 2 }
    ensures entry { fetched_read.entry ≡ 2 ∷ 0 ∷ 7 ∷ 0 ∷ 1 ∷ 0 ∷ 0 ∷ 0 ∷ replicate 56 0 }
    ensures queue { fetched_read.queue ≡ 1 }
    ensures registers { shown_registers
        ≡ shown.Registers (record { cntlid = 2; controller = lent (new_controller 2) }) }
    ensures denied { denied_read.dw0 ≡ 0 }
    ensures answered { answered_read ≡ Done (record { 0 = 5 }) (record { sct = 0; sc = 0 }) 0x10 2 }
    ensures flush { any_flush tt true tt }
{}

/// The media of example runs of sessions: two and three blocks of zeros, and a block of sevens. Host 1 alone has a
/// driver.
fn example_sessions()
    ensures two_blocks { session.medium.content ≡ replicate 1024 0 }
    ensures three_blocks { session.larger.content ≡ replicate 1536 0 }
    ensures without_failures { session.larger.failures ≡ 0 }
    ensures sevens { replay.disk.content ≡ replicate 512 7 }
    ensures one_block { replay.one_block.medium ≡ 1 }
    ensures driver { driven.drivers ≡ Some (new_driver 1) ∷ None ∷ [] }
{}

/// A medium without blocks.
fn example_media()
    ensures blocks { (calls : List MediumCall) → recorded_medium.size calls ≡ 0 }
    ensures failures { (calls : List MediumCall) → (recorded_medium.device calls).failures ≡ 0 }
    ensures cached { (cached : Cached (List MediumCall) recorded_medium) → cached_record.size cached ≡ 0 }
    ensures cached_failures { (cached : Cached (List MediumCall) recorded_medium)
        → (cached_record.device cached).failures ≡ 0 }
{}

/// Answers and calls of a system are recorded, one after the other.
fn example_records()
    ensures answer { Answering [] (Sent []) (Sent [] ∷ []) }
    ensures no_answer { Answering [] (Sent []) [] → ⊥ }
    ensures call { Asking [] (ReadsText [] (Ok [])) (ReadsText [] (Ok []) ∷ []) }
    ensures no_call { Asking [] (ReadsText [] (Ok [])) [] → ⊥ }
{}

/// What the statements would say that are false without a premise: that a refused configuration has a line at fault,
/// and that the same lines have the same answers.
fn example_claims()
    ensures line { (claim : session.RefusalOfAnySetUp) (size : Capacity) (lines : List (List ℕ)) (s : SetUp)
        (fault : ConfigFault) (refused : config_fault s.configuration size ≡ Some fault)
        → IsSettingLine ((claim size lines s fault refused).0) lines }
    ensures answers { (claim : session.EndOverFaults) (size : Capacity) (d : Device) (n : ℕ)
        (old new other : Standing) (text before : List ℕ) (left right after another : Option (List ℕ))
        → HasTicketsOnce old
        → Ends (TurnOf true size d) TakesKnown AddsKnown n old new (Some text) left (Some before) after
        → Ends (TurnOf true size d) TakesKnown AddsKnown n old other (Some text) right (Some before) another
        → another ≡ after }
{}
