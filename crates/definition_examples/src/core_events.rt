//! Controllers and marks of a fleet's events, and identifiers in their lines.

ghost use Rattle.std.specs.Prelude.{[], ◌∷◌, ◌≡◌};
ghost use Rattle.nvme_spec.specs.declared.outcome.Marks.{Marks};
ghost use Rattle.nvme_spec.specs.Execution.{no_marks};
ghost use Rattle.nvme_machine.specs.declared.bare.BareOutcome.{BareOutcome};
ghost use Rattle.nvme_machine.specs.declared.bare.BareExecuted.TheVariants.{Posted, NoSuch, CqFull};
ghost use Rattle.nvme_event.specs.declared.bare.BareFleetSeen.TheVariants.{Executed, Cycled};
ghost use Rattle.nvme_event.specs.declared.event.FleetEvent.TheVariants.{Poll, PowerCycle};
ghost use Rattle.nvme_event.specs.Events.{controller_of};
ghost use Rattle.nvme_event.specs.Bare.{marks_by};
ghost use Rattle.nvme_lines.specs.LineLaws.{AreIdentifiers};

/// An execution that posted a completion has its marks, and other events have none.
fn core_event_marks()
    ensures posted { (o : BareOutcome) → (m : Marks) → marks_by (Executed (Posted o)) m ≡ m }
    ensures none_posted { (m : Marks) → marks_by (Executed NoSuch) m ≡ no_marks }
    ensures full { (m : Marks) → marks_by (Executed CqFull) m ≡ no_marks }
    ensures cycled { (m : Marks) → marks_by Cycled m ≡ no_marks }
{}

/// A power cycle has no controller.
fn core_event_controllers()
    ensures power { controller_of PowerCycle ≡ 0 }
    ensures poll { controller_of (Poll 7) ≡ 7 }
{}

/// Identifiers of controllers have 16 bits.
fn core_identifiers()
    ensures none { AreIdentifiers [] }
    ensures highest { AreIdentifiers (65535 ∷ []) }
    ensures over { AreIdentifiers (65536 ∷ []) → ⊥ }
    ensures second { AreIdentifiers (1 ∷ 65536 ∷ []) → ⊥ }
{}
