//! Computed examples of lines of transcripts: the results of events.

ghost use Rattle.std.specs.Prelude.{◌≡◌, ◌++◌, ◌∷◌, [], None, Some, Ok, Err, codes};
ghost use Rattle.nvme_event.specs.declared.event.FleetEvent.TheVariants as event;
ghost use Rattle.nvme_event.specs.declared.seen.FleetSeen.TheVariants as seen;
ghost use Rattle.nvme_driver.specs.declared.faults.PollFault.TheVariants.{UnknownCommand};
ghost use Rattle.nvme_machine.specs.declared.seen.Executed.TheVariants.{Posted, NoSuch, CqFull};
ghost use Rattle.definition_examples.specs.TextTranscripts.{denied_read, answered_read, aborted_read};
ghost use Rattle.nvme_transcript.specs.Transcript.{
  double_word_text,
  executed_text,
  polled_text,
  seen_line,
  seen_text,
};

/// Double words have eight digits.
#[tactic(auto, unfolding(crate::proofs::TextLiterals::texts_on_literals))]
fn double_words_example()
    ensures largest { double_word_text 0xffffffff ≡ codes "ffffffff" }
    ensures small { double_word_text 16 ≡ codes "00000010" }
{}

/// The results of an execution and of a poll.
#[tactic(auto, unfolding(crate::proofs::TextLiterals::texts_on_literals))]
fn execution_results_example()
    ensures posted { executed_text (Posted denied_read) ≡ codes "posted 0:80 7" }
    ensures no_command { executed_text NoSuch ≡ codes "none" }
    ensures full { executed_text CqFull ≡ codes "full" }
    ensures answered { polled_text (Ok (Some answered_read)) (1 ∷ 0 ∷ []) ≡ codes "5 0:00 00000010 2 01" }
    ensures aborted { polled_text (Ok (Some aborted_read)) [] ≡ codes "5 aborted" }
    ensures none_answered { polled_text (Ok None) [] ≡ codes "nothing" }
    ensures unknown { polled_text (Err UnknownCommand) [] ≡ codes "UnknownCommand" }
{}

/// The results of events without an execution.
fn event_results_example()
    ensures reset { seen_text (codes "1") [] seen.Reset [] ≡ codes "reset 1" }
    ensures stored { seen_text (codes "1") [] seen.Stored [] ≡ codes "stored 1" }
    ensures outside { seen_text (codes "1") [] seen.Outside [] ≡ codes "outside 1" }
    ensures wrote { seen_text (codes "1") [] seen.Wrote [] ≡ codes "wrote32 1" }
    ensures cycled { seen_text (codes "0") [] seen.Cycled [] ≡ codes "powercycle" }
    ensures no_controller { seen_text (codes "1") [] seen.NoController [] ≡ codes "nocontroller 1" }
    ensures no_driver { seen_text (codes "1") [] seen.NoDriver [] ≡ codes "nodriver 1" }
    ensures not_raw { seen_text (codes "1") [] seen.NotRaw [] ≡ codes "notraw 1" }
    ensures line_feed { seen_line event.PowerCycle seen.Cycled [] ≡ codes "powercycle" ++ 10 ∷ [] }
{}
