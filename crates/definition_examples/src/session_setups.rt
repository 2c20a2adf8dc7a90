//! A session before `start`: the room for its configuration, and the answers that may not fit.

ghost use Rattle.std.specs.Prelude.{
  ◌≡◌,
  ◌≤◌,
  ◌<◌,
  ◌+◌,
  ℕ,
  List,
  [],
  ◌∷◌,
  length,
  vec_capacity,
  Option,
  Some,
};
ghost use Rattle.nvme_spec.specs.declared.config.Config.{Config};
ghost use Rattle.nvme_spec.specs.declared.config.ConfigFault.{ConfigFault};
ghost use Rattle.nvme_spec.specs.declared.config.ControllerConfig.{ControllerConfig};
ghost use Rattle.nvme_spec.specs.declared.config.NsConfig.{NsConfig};
ghost use Rattle.nvme_event.specs.declared.event.FleetEvent.{FleetEvent};
ghost use Rattle.nvme_fleet.specs.FleetStates.{Layers};
ghost use Rattle.nvme_grammar.specs.declared.line.Line.{Line};
ghost use Rattle.nvme_grammar.specs.declared.line.Line.TheVariants as says;
ghost use Rattle.live_text.specs.declared.asking.Asked.TheVariants as asks;
ghost use Rattle.live_text.specs.declared.fault.Why.{Why};
ghost use Rattle.live_text.specs.declared.looking.Looking.{Looking};
ghost use Rattle.nvme_live.specs.declared.line_numbers.LineNumbers.{LineNumbers};
ghost use Rattle.nvme_live.specs.Saying.{Breaks, LacksRoom, with_feed};
ghost use Rattle.nvme_live.specs.SetUpLaws.{IsSettingLine};
ghost use Rattle.nvme_live.specs.SetUps.{HasSetUpRoom, IsCrowded, SetUp};
ghost use Rattle.nvme_live.specs.Standings.{MayLackRoom, Over, Running, Setting};
ghost use Rattle.script_text.specs.Pages.{most_text};

/// There is room for one controller, namespace and attachment more than a configuration may have, and for the numbers
/// of their lines.
fn session_setup_room()
    ensures controllers { (c : Config) (n : LineNumbers) (h : HasSetUpRoom c n) → 17 ≤ vec_capacity c.controllers }
    ensures namespaces { (c : Config) (n : LineNumbers) (h : HasSetUpRoom c n) → 9 ≤ vec_capacity c.namespaces }
    ensures attached { (c : Config) (n : LineNumbers) (h : HasSetUpRoom c n) → 129 ≤ vec_capacity c.attached }
    ensures controller_lines { (c : Config) (n : LineNumbers) (h : HasSetUpRoom c n) → 17 ≤ vec_capacity n.controllers }
    ensures namespace_lines { (c : Config) (n : LineNumbers) (h : HasSetUpRoom c n) → 9 ≤ vec_capacity n.namespaces }
    ensures attached_lines { (c : Config) (n : LineNumbers) (h : HasSetUpRoom c n) → 129 ≤ vec_capacity n.attached }
{}

/// The 18th controller, the 10th namespace and the 130th attachment may lack memory, and so may those with as many
/// lines before them.
fn session_crowds()
    ensures controllers { (s : SetUp) (k : ControllerConfig)
        → 16 < length s.configuration.controllers → IsCrowded s (says.Controller k) }
    ensures controller_lines { (s : SetUp) (k : ControllerConfig)
        → 16 < length s.numbers.of_controllers → IsCrowded s (says.Controller k) }
    ensures namespaces { (s : SetUp) (n : NsConfig)
        → 8 < length s.configuration.namespaces → IsCrowded s (says.Namespace n) }
    ensures namespace_lines { (s : SetUp) (n : NsConfig)
        → 8 < length s.numbers.of_namespaces → IsCrowded s (says.Namespace n) }
    ensures attached { (s : SetUp) (k n : ℕ)
        → 128 < length s.configuration.attached → IsCrowded s (says.Attached k n) }
    ensures attached_lines { (s : SetUp) (k n : ℕ)
        → 128 < length s.numbers.of_attachments → IsCrowded s (says.Attached k n) }
{}

/// No other line lacks memory, and no line of a configuration within its limits.
fn session_crowds_of_no_line()
    ensures blank { (s : SetUp) → IsCrowded s says.Blank → ⊥ }
    ensures start { (s : SetUp) → IsCrowded s says.Start → ⊥ }
    ensures event { (s : SetUp) (e : FleetEvent) → IsCrowded s (says.Event e) → ⊥ }
    ensures controller { (s : SetUp) (k : ControllerConfig) → IsCrowded s (says.Controller k)
        → length s.configuration.controllers ≤ 16 → 16 < length s.numbers.of_controllers }
    ensures namespace { (s : SetUp) (n : NsConfig) → IsCrowded s (says.Namespace n)
        → length s.configuration.namespaces ≤ 8 → 8 < length s.numbers.of_namespaces }
    ensures attachment { (s : SetUp) (k n : ℕ) → IsCrowded s (says.Attached k n)
        → length s.configuration.attached ≤ 128 → 128 < length s.numbers.of_attachments }
{}

/// Before `start` only refusals, queries, and `start` itself have answers that may be longer than a text may be.
fn session_answers_before_start()
    ensures refused { (s : SetUp) (why : Why) (a : List ℕ)
        → LacksRoom a → MayLackRoom (Setting s) (asks.Fails why) a }
    ensures refused_fits { (s : SetUp) (why : Why) → MayLackRoom (Setting s) (asks.Fails why) [] → ⊥ }
    ensures nothing { (s : SetUp) (a : List ℕ) → MayLackRoom (Setting s) asks.Nothing a → ⊥ }
    ensures query { (s : SetUp) (q : Looking) (a : List ℕ)
        → LacksRoom a → MayLackRoom (Setting s) (asks.Looks q) a }
    ensures query_fits { (s : SetUp) (q : Looking) → MayLackRoom (Setting s) (asks.Looks q) [] → ⊥ }
    ensures reading { (s : SetUp) (l : Line) (a : List ℕ)
        → LacksRoom a → MayLackRoom (Setting s) (asks.Parses l) a }
    ensures reading_fits { (s : SetUp) (l : Line) → MayLackRoom (Setting s) (asks.Parses l) [] → ⊥ }
    ensures blank { (s : SetUp) (a : List ℕ) → MayLackRoom (Setting s) (asks.Sets says.Blank) a → ⊥ }
    ensures controller { (s : SetUp) (k : ControllerConfig) (a : List ℕ)
        → MayLackRoom (Setting s) (asks.Sets (says.Controller k)) a → ⊥ }
    ensures event { (s : SetUp) (e : FleetEvent) (a : List ℕ)
        → LacksRoom a → MayLackRoom (Setting s) (asks.Does e) a }
    ensures event_fits { (s : SetUp) (e : FleetEvent) → MayLackRoom (Setting s) (asks.Does e) [] → ⊥ }
{}

/// After `start` any answer may be too long, except those to lines without effect. A session that is over answers none.
fn session_answers_after_start()
    ensures refused { (l : Layers) (why : Why) (a : List ℕ)
        → LacksRoom a → MayLackRoom (Running l) (asks.Fails why) a }
    ensures refused_fits { (l : Layers) (why : Why) → MayLackRoom (Running l) (asks.Fails why) [] → ⊥ }
    ensures nothing { (l : Layers) (a : List ℕ) → MayLackRoom (Running l) asks.Nothing a → ⊥ }
    ensures query { (l : Layers) (q : Looking) (a : List ℕ)
        → LacksRoom a → MayLackRoom (Running l) (asks.Looks q) a }
    ensures query_fits { (l : Layers) (q : Looking) → MayLackRoom (Running l) (asks.Looks q) [] → ⊥ }
    ensures reading { (l : Layers) (line : Line) (a : List ℕ)
        → LacksRoom a → MayLackRoom (Running l) (asks.Parses line) a }
    ensures reading_fits { (l : Layers) (line : Line) → MayLackRoom (Running l) (asks.Parses line) [] → ⊥ }
    ensures early { (l : Layers) (line : Line) (a : List ℕ)
        → LacksRoom a → MayLackRoom (Running l) (asks.Sets line) a }
    ensures early_fits { (l : Layers) (line : Line) → MayLackRoom (Running l) (asks.Sets line) [] → ⊥ }
    ensures event { (l : Layers) (e : FleetEvent) (a : List ℕ)
        → LacksRoom a → MayLackRoom (Running l) (asks.Does e) a }
    ensures event_fits { (l : Layers) (e : FleetEvent) → MayLackRoom (Running l) (asks.Does e) [] → ⊥ }
    ensures over { (n : ℕ) (fault : ConfigFault) (why : Why) (a : List ℕ)
        → MayLackRoom (Over n fault) (asks.Fails why) a → ⊥ }
{}

/// An answer ends with a line feed. One that is longer than a text may be has no room. If one breaks off, its first
/// bytes were written.
fn session_answer_texts()
    ensures feed { with_feed (7 ∷ []) ≡ 7 ∷ 10 ∷ [] }
    ensures too_long { (a : List ℕ) → most_text < length a → LacksRoom a }
    ensures broken { Breaks (Some []) (Some (7 ∷ [])) (7 ∷ 8 ∷ []) }
    ensures of_the_answer { (old new : Option (List ℕ)) (a : List ℕ) (h : Breaks old new a) → h.0 ≤ length a }
    ensures at_the_front { Breaks (Some []) (Some (8 ∷ [])) (7 ∷ 8 ∷ []) → ⊥ }
{}

/// A refused `start` names a line by its number, which is one more than the number of the lines before it.
fn session_line_numbers()
    ensures counted { (k : ℕ) (lines : List (List ℕ)) (h : IsSettingLine k lines) → k ≡ h.place + 1 }
{}
