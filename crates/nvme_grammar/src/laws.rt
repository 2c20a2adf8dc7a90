//! Laws of scripts. Each law is the contract of an empty function.

ghost use Rattle.std.specs.Prelude.{◌≡◌, ℕ, List, [], None};
ghost use Rattle.nvme_grammar.specs.Script.{Begins, IsFirstOutside, start_of, events_of};

/// A text either is a script or has a first line outside the grammar, and only one such line.
pub fn one_answer()
    ensures exclusive { (raw : List (List ℕ)) (n : ℕ) → Begins raw → IsFirstOutside n raw → ⊥ }
    ensures unique { (raw : List (List ℕ)) (m n : ℕ) → IsFirstOutside m raw → IsFirstOutside n raw → m ≡ n }
{}

/// Without `start` there are no events.
pub fn nothing_before_start()
    ensures events { (raw : List (List ℕ)) → Begins raw → start_of raw ≡ None → events_of raw ≡ [] }
{}
