//! Worked examples of the definitions. Each is the contract of an empty function, proved by computing.

ghost use Rattle.std.specs.Prelude.{◌≡◌, ◌++◌, ◌∷◌, [], None, Some, codes, true, false};
ghost use Rattle.std.specs.declared.io.Error.{Error};
ghost use Rattle.nvme_spec.specs.Configuration.{empty_configuration, script_capacity};
ghost use Rattle.nvme_spec.specs.Examples.{namespace};
ghost use Rattle.nvme_grammar.specs.declared.line.Line.TheVariants.{Attached, Namespace, Start};
ghost use Rattle.nvme_live.specs.Keeping.{is_kept};
ghost use Rattle.live_views.specs.Showing.{bit_text, io_name};
ghost use Rattle.nvme_live.specs.SetUps.{nothing_set_up, numbered_reason, set_by, with_line};
ghost use Rattle.nvme_live.specs.Standings.{refused_text};
ghost use Rattle.nvme_live.specs.StreamExamples.{Flushing, Writing};
ghost use Rattle.script_text.specs.Writing.{Broken, IsSent, Sent};
ghost use Rattle.nvme_live.specs.Taking.{session_lines};
ghost use Rattle.script_text.specs.Streams.{Flushed, Writes, Wrote};

use nvme_ns::BrokenRule;
use nvme_spec::ConfigFault;

/// A line feed ends a line, and the last line may lack it; no line follows the last line feed.
pub fn lines_of_bytes()
    ensures ended { session_lines (codes "a" ++ 10 ∷ []) ≡ codes "a" ∷ [] }
    ensures open { session_lines (codes "a" ++ 10 ∷ codes "b") ≡ codes "a" ∷ codes "b" ∷ [] }
    ensures empty { session_lines (10 ∷ 10 ∷ []) ≡ [] ∷ [] ∷ [] }
    ensures none { session_lines [] ≡ [] }
{}

/// An answer is sent by writes of all that is left of it and one flush. It is not sent if it is not flushed, flushed
/// first, or written twice.
pub fn answers()
    ensures at_once { IsSent Writing Flushing [] (Sent (codes "ok"))
        (Wrote (Writes (codes "ok") (Some 2)) ∷ Flushed true ∷ []) }
    ensures in_parts { IsSent Writing Flushing [] (Sent (codes "ok"))
        (Wrote (Writes (codes "ok") (Some 1)) ∷ Wrote (Writes (codes "k") (Some 1)) ∷ Flushed true ∷ []) }
    ensures unflushed { ¬ IsSent Writing Flushing [] (Sent (codes "ok")) (Wrote (Writes (codes "ok") (Some 2)) ∷ []) }
    ensures flushed_first { ¬ IsSent Writing Flushing [] (Sent (codes "ok"))
        (Flushed true ∷ Wrote (Writes (codes "ok") (Some 2)) ∷ []) }
    ensures twice { ¬ IsSent Writing Flushing [] (Sent (codes "ok"))
        (Wrote (Writes (codes "ok") (Some 2)) ∷ Wrote (Writes (codes "ok") (Some 2)) ∷ Flushed true ∷ []) }
    ensures failed { (fault : Error)
        → IsSent Writing Flushing [] (Broken (codes "ok")) (Wrote (Writes (codes "ok") None) ∷ []) }
    ensures flush_failed { IsSent Writing Flushing [] (Broken (codes "ok"))
        (Wrote (Writes (codes "ok") (Some 2)) ∷ Flushed false ∷ []) }
{}

/// The saved lines of a session: neither a query nor a line that was answered by a refusal.
pub fn kept_lines()
    ensures event { is_kept (codes "up 1") (codes "up 1 ok") ≡ true }
    ensures looks { is_kept (codes "?attached") (codes "attached") ≡ false }
    ensures parses { is_kept (codes "?line up 1") (codes "line up 1") ≡ false }
    ensures refused { is_kept (codes "pu 1")
        (codes "! line 1 word 1: there is no line 'pu'; did you mean 'up'?") ≡ false }
{}

/// The configuration after a line, with its number.
pub fn configurations()
    ensures attached { set_by empty_configuration (Attached 1 2)
        ≡ record { controllers = []; namespaces = []; attached = (1, 2) ∷ [] } }
    ensures start { set_by empty_configuration Start ≡ empty_configuration }
    ensures number { (with_line 7 nothing_set_up (Attached 1 2)).numbers
        ≡ record { of_controllers = []; of_namespaces = []; of_attachments = 7 ∷ [] } }
{}

/// Why `start` is refused: the fourth line of the session is at fault, although its second one is correct.
#[tactic(auto, unfolding(nvme_ns::specs::Refusals::refusal_of))]
pub fn reasons()
    ensures size { numbered_reason
        (with_line 4 (with_line 2 nothing_set_up (Namespace (namespace 1 64 true)))
        (Namespace (namespace 3 70000 true)))
        (script_capacity 1024) ≡ Some (4, BrokenRule.TooLarge 3 70000 65536) }
    ensures identifiers { numbered_reason
        (with_line 4 (with_line 2 nothing_set_up (Namespace (namespace 1 64 true))) (Namespace (namespace 1 64 true)))
        (script_capacity 1024) ≡ Some (4, BrokenRule.RepeatedNsid 1) }
{}

/// The answer to a refused `start`.
#[tactic(auto, unfolding(crate::proofs::OnLiterals::texts_on_literals))]
pub fn refusals()
    ensures reason { refused_text 6 ConfigFault.BadSize (Some (4, BrokenRule.TooLarge 3 70000 65536))
        ≡ codes "refused line 6: BadSize; line 4: namespace 3 has 70000 blocks; at most 65536 are allowed" }
{}

/// Names in answers to queries.
pub fn names()
    ensures bit { bit_text true ≡ codes "1" }
    ensures command { io_name 5 ≡ codes "compare" }
    ensures other { io_name 3 ≡ codes "unknown" }
{}
