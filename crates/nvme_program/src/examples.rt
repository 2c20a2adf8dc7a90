//! Worked examples of the definitions. Each is the contract of an empty function, proved by computing.

ghost use Rattle.std.specs.Prelude.{◌≡◌, [], ◌∷◌, None, Some, codes};
ghost use Rattle.nvme_program.specs.RuleTexts.{rule_text};
ghost use Rattle.nvme_program.specs.SetupLines.{number_in};

use nvme_ns::{BrokenRule, SetupLine};

/// The number of a line counts comments, empty lines and lines of other kinds.
#[tactic(auto, unfolding(nvme_grammar::proofs::OnLiterals::lines_on_literals))]
fn numbers_of_lines()
    ensures second { number_in (SetupLine.Controller 1)
        (codes "# hosts" ∷ codes "controller 1 host 0xa1" ∷ [] ∷ codes "controller 2 host 0xb2" ∷ []) ≡ Some 4 }
    ensures other { number_in (SetupLine.Namespace 0)
        (codes "controller 1 host 0xa1" ∷ codes "namespace 1 blocks 64 shared" ∷ []) ≡ Some 2 }
    ensures none { number_in (SetupLine.Attached 0) (codes "controller 1 host 0xa1" ∷ []) ≡ None }
{}

/// Sentences.
fn texts()
    ensures controller { rule_text (BrokenRule.Misnumbered 2 3)
        ≡ codes "this must be controller 2, not 3: controllers are numbered from 1" }
    ensures size { rule_text (BrokenRule.TooLarge 3 70000 65536)
        ≡ codes "namespace 3 has 70000 blocks; at most 65536 are allowed" }
    ensures attachment { rule_text (BrokenRule.NotShared 2 3)
        ≡ codes "namespace 3 is private, but controller 2 is the second that is attached to it" }
{}
