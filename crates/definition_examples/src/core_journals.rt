//! Records of a journal that hold the same command.

ghost use Rattle.std.specs.Prelude.{[], ◌∷◌, ◌≡◌, ℕ, List, Bool, true, false};
ghost use Rattle.nvme_spec.specs.AdminRules.{listed_controllers};
ghost use Rattle.nvme_journal.specs.Records.{Command, Cycle};
ghost use Rattle.nvme_journal.specs.Laws.{ReadsTheSame, Matches, AllMatch, IsSameRecord};

/// An admin command reads its list of controllers, and an I/O command all data.
fn core_same_data()
    ensures admin { (sent again : List ℕ) → ReadsTheSame true sent again → listed_controllers again
        ≡ listed_controllers sent }
    ensures admin_enough { (sent again : List ℕ) → listed_controllers again ≡ listed_controllers sent
        → ReadsTheSame true sent again }
    ensures io { (sent again : List ℕ) → ReadsTheSame false sent again → again ≡ sent }
    ensures io_enough { (sent : List ℕ) → ReadsTheSame false sent sent }
{}

/// Records match if they hold the same command of a controller, or if both are power cycles.
fn core_matching_records()
    ensures commands { (k other : ℕ) → (is_admin from_admin : Bool) → (e again sent bytes : List ℕ)
        → Matches (Command k is_admin e sent) (Command other from_admin again bytes)
        → IsSameRecord k other is_admin from_admin e again sent bytes }
    ensures controller { (e sent : List ℕ) → Matches (Command 1 true e sent) (Command 2 true e sent) → ⊥ }
    ensures cycles { Matches Cycle Cycle }
    ensures none { AllMatch [] [] }
    ensures all { AllMatch (Cycle ∷ Cycle ∷ []) (Cycle ∷ Cycle ∷ []) }
    ensures first { (e sent : List ℕ) → AllMatch (Cycle ∷ []) (Command 1 true e sent ∷ []) → ⊥ }
    ensures second { (e sent : List ℕ) → AllMatch (Cycle ∷ Cycle ∷ []) (Cycle ∷ Command 1 true e sent ∷ []) → ⊥ }
{}
