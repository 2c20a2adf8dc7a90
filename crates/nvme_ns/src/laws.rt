//! Laws of refusals.

ghost use Rattle.nvme_ns.specs.RefusalLaws.{FaultIsOfTheRule, LineIsThere};

/// A configuration is refused with the fault of the rule that its reason names, and is accepted if it has no reason.
pub fn fault_is_of_the_rule()
    ensures { FaultIsOfTheRule }
{}

/// The reason of a refusal names an existing line.
pub fn line_is_there()
    ensures { LineIsThere }
{}
