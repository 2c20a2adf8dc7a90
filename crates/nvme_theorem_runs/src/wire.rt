//! Fencing over the wire at work, and why the theorem needs its premise.

ghost use Rattle.nvme_theorem_runs.specs.Wire.{WireAtWork, WireOfAnyController, WireOfAnyHosts};

/// FencingHoldsOverTheWire: the holder's connection writes before, and what the fenced host's connection causes writes
/// nothing.
#[tactic(auto, using(crate::proofs::WireRuns::wire_at_work))]
fn wire_is_fenced()
    ensures { WireAtWork }
{}

/// It needs a target that gives a connection's commands to the controller of its own queue, and that has the hosts of
/// the subsystem.
#[tactic(auto, using(crate::proofs::WireRuns::wire_needs_the_controller, crate::proofs::WireRuns::wire_needs_the_hosts))]
fn wire_needs()
    ensures controller { WireOfAnyController → ⊥ }
    ensures hosts { WireOfAnyHosts → ⊥ }
{}
