//! Worked examples of configurations' texts that are refused or accepted, with counterexamples.

ghost use Rattle.std.specs.Prelude.{◌∷◌, [], None, Some, Ok, Err, codes};
ghost use Rattle.nvme_spec.specs.Configuration.{Configuration, empty_configuration};
ghost use Rattle.nvme_spec.specs.declared.config.ConfigFault.TheVariants.{BadId, BadSize};
ghost use Rattle.nvme_ns.specs.declared.refusal.BrokenRule.TheVariants.{Misnumbered, NoHost};
ghost use Rattle.library_text.specs.EventLines.{PutsLine};
ghost use Rattle.library_text.specs.Putting.{PutsIf};
ghost use Rattle.library_text.specs.Reading.{Accepts, IsBroken, Refuses, RefusesLines, RuleOf};
ghost use Rattle.library_text.specs.declared.putting.Unput.TheVariants.{NoMemory as NoMemoryForText};
ghost use Rattle.library_text.specs.declared.refused.Refused.TheVariants.{TooLong, Line, Rule, Event, Empty, NoMemory};
ghost use Rattle.definition_examples.specs.TextLines.{early_up_fault};
ghost use Rattle.definition_examples.specs.TextConfigurations.{
  early_event_lines,
  event_alone,
  numbered_wrong,
  one_controller,
  script_with_event,
  second_controller,
  second_controller_cut,
  small_medium,
};

/// The refusal of a broken rule has its fault, its rule and the number of its line.
#[tactic(auto, unfolding(nvme_grammar::proofs::OnLiterals::lines_on_literals))]
fn broken_rules_example()
    ensures whole { RuleOf second_controller numbered_wrong (Rule 1 BadId (Misnumbered 1 2)) }
    ensures other_fault { RuleOf second_controller numbered_wrong (Rule 1 BadSize (Misnumbered 1 2)) → ⊥ }
    ensures other_rule { RuleOf second_controller numbered_wrong (Rule 1 BadId (NoHost 2)) → ⊥ }
    ensures other_line { RuleOf second_controller numbered_wrong (Rule 2 BadId (Misnumbered 1 2)) → ⊥ }
    ensures memory { RuleOf second_controller numbered_wrong NoMemory }
    ensures empty { RuleOf second_controller numbered_wrong Empty → ⊥ }
{}

/// A rule is broken only if the lines are of the grammar, and by the first line that breaks one.
#[tactic(auto, unfolding(nvme_grammar::proofs::OnLiterals::lines_on_literals, nvme_ns::specs::Refusals::refusal_of))]
fn first_broken_example()
    ensures broken { IsBroken second_controller small_medium 1 BadId (Misnumbered 1 2) }
    ensures outside { IsBroken second_controller_cut small_medium 1 BadId (Misnumbered 1 2) → ⊥ }
    ensures unbroken { IsBroken one_controller small_medium 1 BadId (Misnumbered 1 2) → ⊥ }
    ensures other_fault { IsBroken second_controller small_medium 1 BadSize (Misnumbered 1 2) → ⊥ }
{}

/// Lines are refused by the first one outside the grammar, by a rule, by an event, or for lack of a controller.
#[tactic(auto, unfolding(nvme_grammar::proofs::OnLiterals::lines_on_literals, nvme_grammar::proofs::OnLiterals::faults_on_literals, nvme_ns::specs::Refusals::refusal_of))]
fn refused_lines_example()
    ensures early { RefusesLines early_event_lines small_medium (Line 2 (early_up_fault 1)) }
    ensures other_column { RefusesLines early_event_lines small_medium (Line 2 (early_up_fault 2)) → ⊥ }
    ensures before_the_first { RefusesLines (codes "up 1" ∷ []) small_medium (Line 0 (early_up_fault 1)) → ⊥ }
    ensures unbroken { RefusesLines one_controller small_medium (Rule 1 BadId (Misnumbered 1 2)) → ⊥ }
    ensures no_event { RefusesLines one_controller small_medium (Event 1 1) → ⊥ }
    ensures has_event { RefusesLines event_alone small_medium Empty → ⊥ }
    ensures short { Refuses (codes "up 1") small_medium TooLong → ⊥ }
{}

/// A text is accepted only without events, and with a controller.
#[tactic(auto, unfolding(nvme_grammar::proofs::OnLiterals::lines_on_literals))]
fn accepted_texts_example()
    ensures event { (c : Configuration) → Accepts script_with_event small_medium c → ⊥ }
    ensures empty { Accepts [] small_medium empty_configuration → ⊥ }
{}

/// A buffer without a line, or without memory for it, is unchanged.
fn unchanged_buffers_example()
    ensures no_line { PutsLine None None (0 ∷ []) (1 ∷ []) → ⊥ }
    ensures untouched { PutsLine None None (0 ∷ []) (0 ∷ []) }
    ensures lost_line { PutsLine (Some (codes "a")) (Some (Ok 1)) (0 ∷ []) (0 ∷ []) → ⊥ }
    ensures invented_line { PutsLine None (Some (Ok 0)) [] [] → ⊥ }
    ensures no_memory { PutsIf (codes "a") (Err NoMemoryForText) (0 ∷ []) (1 ∷ []) → ⊥ }
    ensures no_change { PutsIf (codes "a") (Err NoMemoryForText) (0 ∷ []) (0 ∷ []) }
{}
