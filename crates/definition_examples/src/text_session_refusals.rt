//! Computed examples of refused lines of sessions, of the kinds of lines, and of queries about a controller.

ghost use Rattle.std.specs.Prelude.{◌≡◌, true, false, None, Some, codes};
ghost use Rattle.nvme_event.specs.declared.event.FleetEvent.TheVariants.{Ring};
ghost use Rattle.nvme_grammar.specs.declared.line.Line.TheVariants.{Blank, Start};
ghost use Rattle.live_text.specs.Asking.{is_mark};
ghost use Rattle.live_text.specs.Faults.{word_of, why_text};
ghost use Rattle.live_text.specs.Looking.{controller_named};
ghost use Rattle.live_text.specs.declared.asking.Asked.TheVariants as asked;
ghost use Rattle.live_text.specs.declared.looking.Looking.TheVariants as look;
ghost use Rattle.definition_examples.specs.TextSessions.{
  why_after_start,
  why_before_start,
  why_long_text,
  why_medium_failed,
  why_misfit,
  why_no_controller,
  why_no_driver,
  why_no_namespace,
  why_outside_namespace,
  why_outside_window,
  why_query_form,
  why_similar,
  why_too_long,
  why_unlike,
};

/// Lines with a question mark are queries, and may be refused; all others are blank, setup lines or events.
fn line_marks_example()
    ensures refused { is_mark (asked.Fails why_long_text) ≡ true }
    ensures query { is_mark (asked.Looks look.Help) ≡ true }
    ensures parsed { is_mark (asked.Parses Blank) ≡ true }
    ensures blank { is_mark asked.Nothing ≡ false }
    ensures setup { is_mark (asked.Sets Start) ≡ false }
    ensures event { is_mark (asked.Does (Ring 1)) ≡ false }
{}

/// The word at fault if the line as a whole is refused.
fn whole_lines_example()
    ensures too_long { word_of why_too_long ≡ 1 }
    ensures of_its_line { word_of why_misfit ≡ 3 }
    ensures query { word_of why_query_form ≡ 1 }
    ensures no_line { word_of why_unlike ≡ 1 }
    ensures before_start { word_of why_before_start ≡ 1 }
    ensures after_start { word_of why_after_start ≡ 1 }
    ensures medium { word_of why_medium_failed ≡ 1 }
{}

/// The word at fault if a query names what does not exist.
fn query_words_example()
    ensures controller { word_of why_no_controller ≡ 2 }
    ensures driver { word_of why_no_driver ≡ 2 }
    ensures namespace { word_of why_no_namespace ≡ 2 }
    ensures text { word_of why_long_text ≡ 2 }
    ensures window { word_of why_outside_window ≡ 3 }
    ensures blocks { word_of why_outside_namespace ≡ 3 }
{}

/// The answers to refused lines.
fn refusal_texts_example()
    ensures too_long { why_text why_too_long ≡ codes "a line has at most 1048576 bytes" }
    ensures query { why_text why_query_form ≡ codes "the line is ?window C ADDR LEN" }
    ensures similar { why_text why_similar ≡ codes "there is no line '?windo'; did you mean '?window'?" }
    ensures unlike { why_text why_unlike ≡ codes "there is no line '?who'; ?help names all" }
    ensures before_start { why_text why_before_start ≡ codes "this line must come before 'start'" }
    ensures after_start { why_text why_after_start ≡ codes "this line needs a 'start' before it" }
    ensures medium { why_text why_medium_failed ≡ codes "the medium failed" }
    ensures text { why_text why_long_text ≡ codes "?line reads a TEXT of at most 262208 bytes" }
{}

/// The answers to queries about what does not exist.
fn absence_texts_example()
    ensures controller { why_text why_no_controller ≡ codes "there is no such controller" }
    ensures driver { why_text why_no_driver ≡ codes "there is no such controller with a driver" }
    ensures namespace { why_text why_no_namespace ≡ codes "there is no such namespace" }
    ensures window { why_text why_outside_window
        ≡ codes "at most 131072 bytes are shown, all of them in the window's 4194304" }
    ensures blocks { why_text why_outside_namespace
        ≡ codes "1 to 256 blocks are shown, all of them in the namespace" }
{}

/// The controller that a query names.
fn named_controllers_example()
    ensures window { controller_named (look.Window 2 4096 64) ≡ Some 2 }
    ensures register { controller_named (look.Register 2 0x14) ≡ Some 2 }
    ensures registers { controller_named (look.Registers 2) ≡ Some 2 }
    ensures queues { controller_named (look.Queues 2) ≡ Some 2 }
    ensures fetched { controller_named (look.Fetched 2) ≡ Some 2 }
    ensures driver { controller_named (look.Driver 2) ≡ None }
    ensures reservation { controller_named (look.Reservation 2) ≡ None }
{}
