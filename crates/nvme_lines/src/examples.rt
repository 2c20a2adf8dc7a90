//! Worked examples of the definitions. Each is the contract of an empty function, proved by computing.

ghost use Rattle.std.specs.Prelude.{◌≡◌, ◌++◌, ◌∷◌, [], codes, false, replicate, true};
ghost use Rattle.nvme_driver.specs.declared.request.Request.TheVariants.{Attach, Register, Write};
ghost use Rattle.nvme_event.specs.declared.event.FleetEvent.TheVariants.{Place, PowerCycle, RawStore};
ghost use Rattle.nvme_grammar.specs.Lent.{lent};
ghost use Rattle.nvme_grammar.specs.declared.line.Line.TheVariants.{Attached, Blank, Event, Start};
ghost use Rattle.nvme_lines.specs.LineTexts.{controller_line, line_text, namespace_line, reading_text};

/// Lines before `start`, `start`, and lines without effect.
#[tactic(auto, unfolding(crate::proofs::OnLiterals::texts_on_literals))]
pub fn lines_before_start()
    ensures controller { controller_line 1 161 false ≡ codes "controller 1 host 0xa1" }
    ensures raw { controller_line 2 10 true ≡ codes "controller 2 host 0xa raw" }
    ensures shared { namespace_line 1 64 true ≡ codes "namespace 1 blocks 64 shared" }
    ensures private { namespace_line 2 1 false ≡ codes "namespace 2 blocks 1 private" }
    ensures attached { line_text (Attached 1 2) ≡ codes "attached 1 2" }
    ensures start { reading_text Start ≡ codes "line start" }
    ensures blank { reading_text Blank ≡ codes "line blank" }
    ensures nothing { line_text Blank ≡ [] }
{}

/// Events: data are formatted without the zeros at their end, the bytes of a store with them.
#[tactic(auto, unfolding(crate::proofs::OnLiterals::texts_on_literals))]
pub fn lines_of_events()
    ensures data { line_text (Event (Place 1 (Write 1 0 (lent (codes "Hello" ++ replicate 507 0)))))
        ≡ codes "write 1 1 0 1 hex:48656c6c6f" }
    ensures zeros { line_text (Event (Place 1 (Write 1 9 (lent (replicate 512 0))))) ≡ codes "write 1 1 9 1 hex:00" }
    ensures no_data { line_text (Event (Place 1 (Write 1 9 (lent [])))) ≡ codes "write 1 1 9 0 hex:00" }
    ensures store { line_text (Event (RawStore 1 4096 (lent (0 ∷ 255 ∷ 0 ∷ [])))) ≡ codes "store 1 4096 hex:00ff00" }
    ensures keys { line_text (Event (Place 1 (Register 1 0 true 3 10 11))) ≡ codes "register 1 1 0 1 3 10 11" }
    ensures list { line_text (Event (Place 1 (Attach 1 (lent (2 ∷ 3 ∷ []))))) ≡ codes "attach 1 1 2 3" }
    ensures power_cycle { reading_text (Event PowerCycle) ≡ codes "line powercycle" }
{}
