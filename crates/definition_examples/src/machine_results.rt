//! The marks of events, and the controller of an event.

ghost use Rattle.std.specs.Prelude.{◌≡◌};
ghost use Rattle.nvme_spec.specs.declared.outcome.Marks.{Marks};
ghost use Rattle.nvme_spec.specs.Execution.{no_marks};
ghost use Rattle.nvme_machine.specs.declared.bare.BareOutcome.{BareOutcome};
ghost use Rattle.nvme_machine.specs.declared.bare.BareExecuted.TheVariants.{Posted, NoSuch, CqFull};
ghost use Rattle.nvme_machine.specs.declared.bare.BareSeen.TheVariants.{Executed, Wrote};
ghost use Rattle.nvme_machine.specs.declared.event.Event.TheVariants.{Fetch, PowerCycle};
ghost use Rattle.nvme_machine.specs.Bare.{marks_by, marks_by_executed};
ghost use Rattle.nvme_machine.specs.Subsystems.{controller_of};

/// An execution that posted a completion has its marks, and other events have none.
fn machine_marks()
    ensures posted { (o : BareOutcome) → (m : Marks) → marks_by_executed (Posted o) m ≡ m }
    ensures none_posted { (m : Marks) → marks_by_executed NoSuch m ≡ no_marks }
    ensures full { (m : Marks) → marks_by_executed CqFull m ≡ no_marks }
    ensures executed { (o : BareOutcome) → (m : Marks) → marks_by (Executed (Posted o)) m ≡ m }
    ensures written { (m : Marks) → marks_by Wrote m ≡ no_marks }
{}

/// A power cycle has no controller.
fn machine_event_controllers()
    ensures power { controller_of PowerCycle ≡ 0 }
    ensures fetch { controller_of (Fetch 7 1) ≡ 7 }
{}
