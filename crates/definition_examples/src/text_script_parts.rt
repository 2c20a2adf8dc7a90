//! Computed examples of scripts: how a file begins, comments, setup lines, and lines before and after `start`.

ghost use Rattle.std.specs.Prelude.{◌≡◌, ◌++◌, ◌∷◌, [], ℕ, List, true, false, None, Some, codes};
ghost use Rattle.nvme_grammar.specs.Beginnings.{lines_begin, lacks_zeros, begins_script};
ghost use Rattle.nvme_grammar.specs.Example.{example_setup};
ghost use Rattle.nvme_grammar.specs.Lent.{lent};
ghost use Rattle.nvme_grammar.specs.Line.{is_comment};
ghost use Rattle.nvme_grammar.specs.LineFaults.{IsAllowed, IsRefusal};
ghost use Rattle.nvme_grammar.specs.Script.{
  attachment_in,
  configuration_of,
  controller_in,
  fits,
  is_start,
  namespace_in,
  start_of,
};
ghost use Rattle.nvme_event.specs.declared.event.FleetEvent.TheVariants.{Ring};
ghost use Rattle.nvme_grammar.specs.declared.fault.Why.TheVariants.{Byte};
ghost use Rattle.nvme_grammar.specs.declared.line.Line.TheVariants as line;
ghost use Rattle.nvme_grammar.specs.declared.script.ParseFault.TheVariants.{Syntax, NoMemory};

/// A file begins like a script if its first line with words begins with a keyword, and it has no byte 00h.
#[tactic(auto, unfolding(nvme_grammar::specs::Beginnings::begins_script, nvme_grammar::specs::Keywords::keyword_of))]
fn beginnings_example()
    ensures keyword_first { lines_begin (codes "# two hosts" ∷ [] ∷ codes "start" ∷ codes "x" ∷ []) ≡ true }
    ensures other_word_first { lines_begin (codes "x" ∷ codes "controller 1" ∷ []) ≡ false }
    ensures no_lines { lines_begin [] ≡ false }
    ensures byte_00h { lacks_zeros (117 ∷ 0 ∷ []) ≡ false }
    ensures byte_01h { lacks_zeros (117 ∷ 1 ∷ []) ≡ true }
    ensures script { begins_script (codes "up 1") ≡ true }
    ensures with_byte_00h { begins_script (codes "up 1" ++ 10 ∷ 0 ∷ []) ≡ false }
    ensures other_text { begins_script (codes "image 1") ≡ false }
{}

/// A line is a comment by its first byte alone.
fn comments_example()
    ensures comment { is_comment (codes "#up 1") ≡ true }
    ensures indented { is_comment (codes " #up 1") ≡ false }
    ensures dollar { is_comment (codes "$") ≡ false }
    ensures empty { is_comment [] ≡ false }
{}

/// The example of a setup has one controller, whose host is A1h, and one shared namespace of 64 blocks.
#[tactic(auto, unfolding(nvme_grammar::proofs::OnLiterals::lines_on_literals))]
fn small_setup_example()
    ensures whole { configuration_of example_setup ≡ record {
      controllers = record { cntlid = 1; host = 0xa1; raw = false } ∷ [];
      namespaces = record { nsid = 1; blocks = 64; shared = true } ∷ [];
      attached = (1, 1) ∷ [];
    } }
    ensures start { start_of example_setup ≡ Some 4 }
{}

/// What each kind of line is, and on which side of `start` it is allowed.
fn line_kinds_example()
    ensures start { is_start line.Start ≡ true }
    ensures blank { is_start line.Blank ≡ false }
    ensures controller { controller_in (line.Controller (record { cntlid = 2; host = 0xb2; raw = true }))
        ≡ Some (record { cntlid = 2; host = 0xb2; raw = true }) }
    ensures namespace { namespace_in (line.Namespace (record { nsid = 3; blocks = 8; shared = true }))
        ≡ Some (record { nsid = 3; blocks = 8; shared = true }) }
    ensures attachment { attachment_in (line.Attached 2 3) ≡ Some (2, 3) }
    ensures no_attachment { attachment_in line.Start ≡ None }
    ensures blank_before { fits false line.Blank ≡ true }
    ensures event_before { fits false (line.Event (Ring 1)) ≡ false }
    ensures event_after { fits true (line.Event (Ring 1)) ≡ true }
    ensures setup_before { fits false (line.Attached 2 3) ≡ true }
    ensures setup_after { fits true (line.Attached 2 3) ≡ false }
    ensures second_start { fits true line.Start ≡ false }
{}

/// A value without an address.
fn no_address_example()
    ensures bytes { lent {A = List ℕ} (7 ∷ 8 ∷ []) ≡ record { ref_ptr = (0, 0); now = 7 ∷ 8 ∷ [] } }
{}

/// An event is allowed only after `start`, and a refusal names the number of its line.
#[tactic(auto, unfolding(nvme_grammar::proofs::OnLiterals::lines_on_literals))]
fn allowed_lines_example()
    ensures after { IsAllowed true (codes "up 1") }
    ensures before { IsAllowed false (codes "up 1") → ⊥ }
    ensures outside { IsAllowed true (codes "up") → ⊥ }
    ensures same_line { IsRefusal (Syntax 3 (record { column = 2; why = Byte 0 })) 3
        (Some (record { column = 2; why = Byte 0 })) }
    ensures next_line { IsRefusal (Syntax 3 (record { column = 2; why = Byte 0 })) 4
        (Some (record { column = 2; why = Byte 0 })) → ⊥ }
    ensures other_fault { IsRefusal (Syntax 3 (record { column = 2; why = Byte 0 })) 3
        (Some (record { column = 1; why = Byte 0 })) → ⊥ }
    ensures memory { IsRefusal NoMemory 3 None }
{}
