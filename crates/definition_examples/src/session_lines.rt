//! The lines of a session: which it saves as a script, how it takes them, and how it answers.

ghost use Rattle.std.specs.Prelude.{◌≡◌, ◌++◌, ℕ, Bool, List, [], ◌∷◌, None, Some, true, false, codes};
ghost use Rattle.nvme_event.specs.declared.event.FleetEvent.{FleetEvent};
ghost use Rattle.nvme_event.specs.Replies.{Reply};
ghost use Rattle.nvme_fleet.specs.FleetStates.{Layers};
ghost use Rattle.nvme_fleet.specs.LayerCalls.{AreCallsOfStep};
ghost use Rattle.nvme_grammar.specs.declared.line.Line.{Line};
ghost use Rattle.nvme_grammar.specs.declared.line.Line.TheVariants as says;
ghost use Rattle.nvme_lines.specs.LineTexts.{reading_text};
ghost use Rattle.nvme_medium.specs.Examples.{logs};
ghost use Rattle.nvme_spec.specs.MediumCalls.{MediumCall, MakesCalls};
ghost use Rattle.nvme_subsys.specs.OverMedium.{OverMedium};
ghost use Rattle.nvme_transcript.specs.Transcript.{line_of};
ghost use Rattle.live_text.specs.Asking.{asked};
ghost use Rattle.live_text.specs.Faults.{refusal};
ghost use Rattle.live_text.specs.declared.asking.Asked.TheVariants as asks;
ghost use Rattle.live_text.specs.declared.fault.Why.{Why};
ghost use Rattle.live_text.specs.declared.fault.Why.TheVariants.{BeforeStart};
ghost use Rattle.nvme_live.specs.AnswerCalls.{AnswersLineBy, HappensBy};
ghost use Rattle.nvme_live.specs.Keeping.{
  LookWell,
  bytes_if,
  is_block_look,
  is_event,
  is_refusal,
  line_if,
};
ghost use Rattle.nvme_live.specs.Saying.{with_feed};
ghost use Rattle.nvme_live.specs.Streams.{AddsKnown, Came, GivesLine, LineCall, SendsBy};
ghost use Rattle.nvme_live.specs.StreamExamples.{Flushing, Writing};
ghost use Rattle.script_text.specs.Streams.{OutputCall};
ghost use Rattle.nvme_live.specs.Taking.{kept};
ghost use Rattle.definition_examples.specs.SessionStreams.{Taking};
ghost use Rattle.script_text.specs.Writing.{Broken, IsSent, Sending};

/// Saved lines, and the answers of the events among them.
fn session_saved_lines()
    ensures empty_answer { is_refusal [] ≡ false }
    ensures no_line { is_event None ≡ false }
    ensures event { (e : FleetEvent) → is_event (Some (says.Event e)) ≡ true }
    ensures saved { line_if true (7 ∷ []) [] ≡ (7 ∷ []) ∷ [] }
    ensures left_out { line_if false (7 ∷ []) [] ≡ [] }
    ensures answered { bytes_if true (7 ∷ []) (8 ∷ []) ≡ 7 ∷ 8 ∷ [] }
    ensures unanswered { bytes_if false (7 ∷ []) (8 ∷ []) ≡ 8 ∷ [] }
{}

/// Only a query of blocks reads the medium. If the medium does not reveal its content, none leaves it as it was.
fn session_looks_at_blocks()
    ensures no_query { is_block_look asks.Nothing ≡ false }
    ensures no_lines { LookWell true 1 [] [] }
    ensures unanswered { (line : List ℕ) → LookWell true 1 (line ∷ []) [] }
    ensures hidden { (line answer : List ℕ) → LookWell false 1 (line ∷ []) (answer ∷ [])
        → is_block_look (asked line) ≡ true → ⊥ }
{}

/// A line comes by one call, and its front is stored.
fn session_taken_lines()
    ensures stored { (unread left : List LineCall) (line : List ℕ) (h : GivesLine Taking true unread left line)
        → line ≡ kept h.0 }
{}

/// Of an answer that was not sent the first bytes were written.
fn session_broken_answers()
    ensures part { AddsKnown (Some []) (Broken (7 ∷ 8 ∷ [])) (Some (7 ∷ [])) }
    ensures other_bytes { AddsKnown (Some []) (Broken (7 ∷ 8 ∷ [])) (Some (9 ∷ [])) → ⊥ }
    ensures by_calls { (old new : List OutputCall) (answer : Sending)
        → SendsBy Writing Flushing (λ calls. None) old answer new → IsSent Writing Flushing old answer new }
{}

/// An event makes its own calls of the medium, and its answer is the line of a script with its result.
fn session_event_answers()
    ensures calls { (tells : Bool) (old new : OverMedium Layers (List MediumCall)) (e : FleetEvent) (answer : List ℕ)
        (h : HappensBy logs tells old e answer new)
        → MakesCalls logs (AreCallsOfStep tells old.state e h.reply new.state) old.medium new.medium }
    ensures says { (tells : Bool) (old new : OverMedium Layers (List MediumCall)) (e : FleetEvent) (answer : List ℕ)
        (h : HappensBy logs tells old e answer new) → answer ≡ line_of e h.reply }
    ensures line { (tells : Bool) (n : ℕ) (old new : OverMedium Layers (List MediumCall)) (e : FleetEvent)
        (answer : List ℕ) (h : AnswersLineBy logs tells n (asks.Does e) old answer new) → answer ≡ line_of e h.reply }
{}

/// Each event has a reply, which its answer shows. Each line is one that came.
fn session_replies()
    ensures replied { (tells : Bool) (n : ℕ) (old new : OverMedium Layers (List MediumCall)) (e : FleetEvent)
        (answer : List ℕ) → AnswersLineBy logs tells n (asks.Does e) old answer new
        → (reply : Reply) × (answer ≡ line_of e reply) }
    ensures came { (unread left : List LineCall) (line : List ℕ) → GivesLine Taking true unread left line
        → (whole : List ℕ) × (left ≡ unread ++ Came whole ∷ []) }
{}

/// The other lines after `start` are answered without a call of the medium.
fn session_other_answers()
    ensures refused { (n : ℕ) (why : Why) (old new : OverMedium Layers (List MediumCall)) (answer : List ℕ)
        → AnswersLineBy logs true n (asks.Fails why) old answer new
        → (answer ≡ with_feed (refusal n why)) × (new ≡ old) }
    ensures nothing { (n : ℕ) (old new : OverMedium Layers (List MediumCall)) (answer : List ℕ)
        → AnswersLineBy logs true n asks.Nothing old answer new
        → (answer ≡ with_feed (codes "ok")) × (new ≡ old) }
    ensures reading { (n : ℕ) (l : Line) (old new : OverMedium Layers (List MediumCall)) (answer : List ℕ)
        → AnswersLineBy logs true n (asks.Parses l) old answer new
        → (answer ≡ with_feed (reading_text l)) × (new ≡ old) }
    ensures early { (n : ℕ) (l : Line) (old new : OverMedium Layers (List MediumCall)) (answer : List ℕ)
        → AnswersLineBy logs true n (asks.Sets l) old answer new
        → (answer ≡ with_feed (refusal n BeforeStart)) × (new ≡ old) }
{}
