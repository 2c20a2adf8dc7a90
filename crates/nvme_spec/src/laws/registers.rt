//! Laws of registers.

ghost use Rattle.nvme_spec.specs.RegisterLaws.{BeginsConsistent, StaysConsistent, EffectsTell, DoorbellsNameQueues};

/// From a new controller on, whatever is written, CC.EN is 0 exactly if the controller is off, and while RDY is 1 the
/// admin queues are at valid places.
fn consistent_registers()
    ensures begins { BeginsConsistent }
    ensures stays { StaysConsistent }
{}

/// Each effect occurs exactly if the controller's state changes accordingly, or its doorbell rings.
fn effects()
    ensures tell { EffectsTell }
    ensures names { DoorbellsNameQueues }
{}
