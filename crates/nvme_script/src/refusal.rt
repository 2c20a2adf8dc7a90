//! Why a text is not run to its end, with the line at fault.

ghost use Rattle.nvme_program.specs.FaultKinds.{of_grammar};
ghost use Rattle.nvme_program.specs.declared.fault.ScriptFault.TheVariants.{
  NoMemory as MemoryRefused,
  Write as Unwritten,
};
ghost use Rattle.std.specs.Prelude.{◌≡◌};

use nvme_grammar::{LineFault, ParseFault};
use nvme_ns::BrokenRule;
use nvme_program::ScriptFault;
use std::alloc::AllocError;

/// The fault of a line, found while its text was read.
#[derive(Clone, Copy)]
pub(crate) enum LineReason<'t> {
    /// The line is outside the grammar.
    Outside(LineFault<'t>),
    /// The line with this number, from 1, breaks this rule of configurations.
    Breaks(usize, BrokenRule),
}

/// Why a text is not run to its end, and the fault of its line, if there is one.
#[derive(Clone, Copy)]
pub(crate) struct Refusal<'t> {
    pub(crate) fault: ScriptFault,
    pub(crate) reason: Option<LineReason<'t>>,
}

impl Refusal<'_> {
    /// The output can't be written.
    pub(crate) fn unwritten() -> Self
        ensures { result.fault ≡ Unwritten }
    {
        Refusal {
            fault: ScriptFault::Write,
            reason: None,
        }
    }
}

impl<'t> From<ParseFault<'t>> for Refusal<'t> {
    ghost from_gives = { λ fault e. e.fault ≡ of_grammar fault };

    fn from(fault: ParseFault<'t>) -> Refusal<'t> {
        let reason = match fault {
            ParseFault::Syntax(_, fault) => Some(LineReason::Outside(fault)),
            ParseFault::NoMemory => None,
        };
        Refusal {
            fault: ScriptFault::from(fault),
            reason,
        }
    }
}

impl From<AllocError> for Refusal<'_> {
    ghost from_gives = { λ _ e. e.fault ≡ MemoryRefused };

    fn from(_: AllocError) -> Self {
        Refusal {
            fault: ScriptFault::NoMemory,
            reason: None,
        }
    }
}
