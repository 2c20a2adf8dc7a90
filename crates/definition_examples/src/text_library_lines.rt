//! Computed examples of the lines that the library for C writes: of events, their results, and configurations.

ghost use Rattle.std.specs.Prelude.{◌≡◌, ◌++◌, ◌∷◌, [], true, false, None, Some, Ok, codes};
ghost use Rattle.nvme_event.specs.declared.bare.BareFleetSeen.TheVariants as seen;
ghost use Rattle.nvme_event.specs.declared.event.FleetEvent.TheVariants as event;
ghost use Rattle.nvme_grammar.specs.Lent.{lent};
ghost use Rattle.nvme_grammar.specs.declared.line.Line.TheVariants.{Attached, Start};
ghost use Rattle.nvme_machine.specs.declared.bare.BareExecuted.TheVariants.{NoSuch};
ghost use Rattle.nvme_machine.specs.declared.seen.Fetched.TheVariants.{Took};
ghost use Rattle.library_text.specs.AnswerLines.{is_short};
ghost use Rattle.library_text.specs.ConfigLines.{whole_line};
ghost use Rattle.library_text.specs.EventLines.{event_line, if_any};
ghost use Rattle.library_text.specs.Refusals.{reason_text};
ghost use Rattle.definition_examples.specs.TextConfigurations.{
  refused_empty,
  refused_event,
  refused_line,
  refused_no_memory,
  refused_rule,
  refused_too_long,
};

/// The results of a controller or of a raw host have short lines; those of a driver have none.
fn short_results_example()
    ensures fetched { is_short (seen.Fetched Took) ≡ true }
    ensures executed { is_short (seen.Executed NoSuch) ≡ true }
    ensures stored { is_short seen.Stored ≡ true }
    ensures outside { is_short seen.Outside ≡ true }
    ensures wrote { is_short seen.Wrote ≡ true }
    ensures cycled { is_short seen.Cycled ≡ true }
    ensures no_controller { is_short seen.NoController ≡ true }
    ensures up { is_short (seen.Up (Ok tt)) ≡ false }
    ensures polled { is_short (seen.Polled (Ok None)) ≡ false }
    ensures reset { is_short seen.Reset ≡ false }
    ensures not_raw { is_short seen.NotRaw ≡ false }
{}

/// The lines of events, each with its line feed. The place of a fetched command has 16 bits.
#[tactic(auto, unfolding(crate::proofs::TextLiterals::texts_on_literals))]
fn event_lines_example()
    ensures stored { event_line (event.RawStore 2 4096 (lent (0 ∷ 255 ∷ [])))
        ≡ Some (codes "store 2 4096 hex:00ff" ++ 10 ∷ []) }
    ensures stored_nothing { event_line (event.RawStore 2 4096 (lent [])) ≡ None }
    ensures wrote { event_line (event.RawWrite32 2 20 5) ≡ Some (codes "write32 2 20 5" ++ 10 ∷ []) }
    ensures fetch { event_line (event.Fetch 2 1) ≡ Some (codes "fetch 2 1" ++ 10 ∷ []) }
    ensures last_place { event_line (event.Execute 2 65535) ≡ Some (codes "execute 2 65535" ++ 10 ∷ []) }
    ensures no_place { event_line (event.Execute 2 65536) ≡ None }
    ensures power_cycle { event_line event.PowerCycle ≡ Some (codes "powercycle" ++ 10 ∷ []) }
    ensures of_a_driver { event_line (event.Poll 2) ≡ None }
    ensures no_bytes { if_any [] (codes "x") ≡ None }
    ensures some_bytes { if_any (0 ∷ []) (codes "x") ≡ Some (codes "x") }
    ensures setup { whole_line (Attached 2 3) ≡ codes "attached 2 3" ++ 10 ∷ [] }
    ensures start { whole_line Start ≡ codes "start" ++ 10 ∷ [] }
{}

/// Why a text is refused, after the line and the column.
#[tactic(auto, unfolding(crate::proofs::TextLiterals::texts_on_literals, nvme_program::specs::RuleTexts::rule_text))]
fn refused_texts_example()
    ensures too_long { reason_text refused_too_long ≡ codes "1:1: a script has at most 4194304 bytes" }
    ensures line { reason_text refused_line
        ≡ codes "3:2: the byte \\x07 is neither a visible character nor a space, a tab or a carriage return" }
    ensures rule { reason_text refused_rule ≡ codes "3:1: namespace 2 has no blocks" }
    ensures event { reason_text refused_event ≡ codes "3:2: this line is an event; a configuration has none" }
    ensures empty { reason_text refused_empty
        ≡ codes "1:1: there is no controller; add a line 'controller 1 host 1'" }
    ensures memory { reason_text refused_no_memory ≡ codes "out of memory" }
{}
