//! How a session ends: over its input and its answers, over its script, and as the text of a script.

ghost use Rattle.std.specs.Prelude.{
  ◌≡◌,
  ◌⊎◌,
  ◌+◌,
  ◌++◌,
  ℕ,
  Bool,
  List,
  [],
  ◌∷◌,
  length,
  Option,
  None,
  Some,
  Ok,
  Err,
  true,
  false,
  codes,
};
ghost use Rattle.std.specs.Io.KnownBytes.{Keeps};
ghost use Rattle.nvme_fleet.specs.FleetStates.{Layers};
ghost use Rattle.nvme_fleet.specs.Layers.{Run};
ghost use Rattle.nvme_grammar.specs.Script.{configuration_of, start_of};
ghost use Rattle.nvme_grammar.specs.declared.line.Line.{Line};
ghost use Rattle.live_text.specs.Asking.{asked};
ghost use Rattle.live_text.specs.declared.asking.Asked.TheVariants.{Sets};
ghost use Rattle.nvme_grammar.specs.declared.line.Line.TheVariants.{Start};
ghost use Rattle.nvme_live.specs.Conversations.{CanStarve, Ends, EndsBy, SetsUp, alone};
ghost use Rattle.nvme_live.specs.Lives.{IsFlushed, RunsTo, RunsUnflushed, ScriptStops};
ghost use Rattle.nvme_live.specs.SessionScripts.{IsKeptAs, IsPlayed, IsRefused, IsSetUp};
ghost use Rattle.nvme_live.specs.SetUps.{SetUp};
ghost use Rattle.nvme_live.specs.Standings.{Over, Running, Setting, Standing, TurnOf};
ghost use Rattle.nvme_live.specs.StreamExamples.{Flushing, Writing};
ghost use Rattle.nvme_live.specs.Streams.{Came, Ended, Failed, LineCall};
ghost use Rattle.nvme_medium.specs.Examples.{logs};
ghost use Rattle.nvme_program.specs.declared.fault.ScriptFault.TheVariants.{Config, Read, Write};
ghost use Rattle.nvme_script.specs.Faults.{IsScript};
ghost use Rattle.nvme_script.specs.ScriptWrites.{StopsWriting};
ghost use Rattle.nvme_spec.specs.Blocks.{Device};
ghost use Rattle.nvme_spec.specs.Configuration.{Capacity, Configuration};
ghost use Rattle.nvme_spec.specs.MediumCalls.{MediumCall};
ghost use Rattle.nvme_spec.specs.declared.config.ConfigFault.{ConfigFault};
ghost use Rattle.script_text.specs.Lines.{text_lines};
ghost use Rattle.script_text.specs.Streams.{Flushed, OutputCall};
ghost use Rattle.script_text.specs.Writing.{Sending};
ghost use Rattle.definition_examples.specs.SessionStreams.{Answering, Taking};

/// The last call of the input of a session that ended returned no further line.
fn session_ends_of_input()
    ensures last { (size : Capacity) (d : Device) (n : ℕ) (old new : Standing) (unread left : List LineCall)
        (before after : List Sending)
        (h : Ends (TurnOf true size d) Taking Answering n old new unread left before after)
        → left ≡ h.end ++ Ended ∷ [] }
{}

/// Once a session runs, or is over, no line lacks memory.
fn session_starvation()
    ensures running { (l : Layers) (line : Line) → CanStarve (Running l) line (Unit {0}) → ⊥ }
    ensures over { (n : ℕ) (why : ConfigFault) (line : Line) → CanStarve (Over n why) line (Unit {0}) → ⊥ }
{}

/// A session whose configuration is refused is over, with that fault.
fn session_refused_configurations()
    ensures over { (size : Capacity) (d : Device) (k n : ℕ) (why : ConfigFault) (old new : Standing)
        (unread left : List LineCall) (before after : List Sending)
        → EndsBy (Config k why) (TurnOf true size d) Taking Answering alone n old new unread left before after
        → new ≡ Over k why }
{}

/// Without lines the input ends, or fails, before `start`. A first line that is `start` is line 1.
fn session_first_calls()
    ensures ended { (s : SetUp) → SetsUp Taking Answering (Ok None) s s [] (Ended ∷ []) [] [] }
    ensures failed { (s : SetUp) → SetsUp Taking Answering (Err Read) s s [] (Failed ∷ []) [] [] }
    ensures start { (s : SetUp) (line : List ℕ) → asked line ≡ Sets Start
        → SetsUp Taking Answering (Ok (Some 1)) s s [] (Came line ∷ []) [] [] }
{}

/// The lines before `start` are counted from 1.
fn session_counts_before_start()
    ensures ended { (tells : Bool) (size : Capacity) (d : Device) (old new : SetUp) (unread left : List LineCall)
        (before after : List Sending)
        (h : SetsUp Taking Answering (Ok None) old new unread left before after)
        → (h tells size d).next ≡ 1 + length (h tells size d).conversed.lines }
    ensures start { (tells : Bool) (size : Capacity) (d : Device) (k : ℕ) (old new : SetUp)
        (unread left : List LineCall) (before after : List Sending)
        (h : SetsUp Taking Answering (Ok (Some k)) old new unread left before after)
        → k ≡ 1 + length (h tells size d).conversed.lines }
    ensures broken { (tells : Bool) (size : Capacity) (d : Device) (old new : SetUp) (unread left : List LineCall)
        (before after : List Sending)
        (h : SetsUp Taking Answering (Err Write) old new unread left before after)
        → (h tells size d).next ≡ 1 + length (h tells size d).conversed.lines }
{}

/// The transcript of a script is flushed after its last line; or the flush failed.
fn session_flushes_of_scripts()
    ensures flush { (done : Bool) (old new : List OutputCall)
        → IsFlushed Flushing (λ calls. None) done old new → new ≡ old ++ Flushed done ∷ [] }
    ensures bytes { (old new : Option (List ℕ))
        → IsFlushed (λ before done after. Unit {0}) (λ known. known) true old new → Keeps old new }
    ensures ran { (text : List ℕ) (device : List MediumCall → Device) (old new : List MediumCall) (last : Layers)
        (before after : List OutputCall)
        (h : RunsTo logs true device Writing Flushing (λ calls. None) text old last new before after)
        → after ≡ h.written ++ Flushed true ∷ [] }
    ensures unflushed { (text : List ℕ) (device : List MediumCall → Device) (old new : List MediumCall)
        (before after : List OutputCall)
        (h : RunsUnflushed logs true device Writing Flushing (λ calls. None) text old new before after)
        → after ≡ h.written ++ Flushed false ∷ [] }
{}

/// A script that stopped was a script, and either a line of its transcript was not written whole, or the flush failed.
fn session_stops_of_scripts()
    ensures script { (size : Capacity) (text : List ℕ) (device : List MediumCall → Device)
        (old new : List MediumCall) (before after : List OutputCall)
        → ScriptStops logs true device Writing Flushing (λ calls. None) size text old new before after
        → IsScript text size }
    ensures stops { (size : Capacity) (text : List ℕ) (device : List MediumCall → Device)
        (old new : List MediumCall) (before after : List OutputCall)
        → ScriptStops logs true device Writing Flushing (λ calls. None) size text old new before after
        → StopsWriting logs true device Writing (λ calls. None) text old new before after
        ⊎ RunsUnflushed logs true device Writing Flushing (λ calls. None) text old new before after }
    ensures stopped { (size : Capacity) (text : List ℕ) (device : List MediumCall → Device)
        (old new : List MediumCall) (before after : List OutputCall)
        → IsScript text size
        → StopsWriting logs true device Writing (λ calls. None) text old new before after
        → ScriptStops logs true device Writing Flushing (λ calls. None) size text old new before after }
{}

/// The text of a session that has not started has no `start` and no events, and sets its configuration; that of a
/// refused one has no events.
fn session_texts()
    ensures unstarted { (text said : List ℕ) (c : Configuration) (h : IsSetUp text said c)
        → start_of (text_lines text) ≡ None }
    ensures sets { (text said : List ℕ) (c : Configuration) (h : IsSetUp text said c)
        → configuration_of (text_lines (text ++ codes "start")) ≡ c }
    ensures silent { (text said : List ℕ) (c : Configuration) (h : IsSetUp text said c) → said ≡ [] }
    ensures refused { (size : Capacity) (text said : List ℕ) (why : ConfigFault) (h : IsRefused size text said why)
        → said ≡ [] }
{}

/// Which text a session has, by its state.
fn session_texts_by_state()
    ensures setting { (size : Capacity) (d : Device) (text said : List ℕ) (s : SetUp)
        → IsSetUp text said s.configuration → IsKeptAs (Run true) size d text said (Setting s) }
    ensures setting_is_silent { (size : Capacity) (d : Device) (text : List ℕ) (s : SetUp)
        → IsKeptAs (Run true) size d text (7 ∷ []) (Setting s) → ⊥ }
    ensures running { (size : Capacity) (d : Device) (text said : List ℕ) (l : Layers)
        → IsPlayed (Run true) size d text said l → IsKeptAs (Run true) size d text said (Running l) }
    ensures running_starts { (size : Capacity) (d : Device) (text said : List ℕ) (l : Layers)
        → IsKeptAs (Run true) size d text said (Running l) → start_of (text_lines text) ≡ None → ⊥ }
    ensures over { (size : Capacity) (d : Device) (text said : List ℕ) (n : ℕ) (why : ConfigFault)
        → IsRefused size text said why → IsKeptAs (Run true) size d text said (Over n why) }
    ensures over_is_silent { (size : Capacity) (d : Device) (text : List ℕ) (n : ℕ) (why : ConfigFault)
        → IsKeptAs (Run true) size d text (7 ∷ []) (Over n why) → ⊥ }
{}
