//! Why a script was not run to its end, and the text for it.

ghost use Rattle.std.specs.Prelude.{◌≡◌, Some};
ghost use Rattle.nvme_program.specs.FailureTexts.{config_fault_text, script_fault_text};
ghost use Rattle.nvme_program.specs.FaultKinds.{of_grammar, of_reading};
ghost use Rattle.nvme_program.specs.declared.fault.ScriptFault.TheVariants.{NoMemory as MemoryRefused};

use nvme_grammar::ParseFault;
use nvme_spec::ConfigFault;
use script_text::ReadFault;
use std::alloc::AllocError;
use std::fmt;
use thiserror::Error;

/// Why a script was not run to its end. The program prints its text.
#[derive(Clone, Copy, Debug, Error, PartialEq, Eq)]
pub enum ScriptFault {
    /// The first line that is outside the grammar, counted from 1.
    Syntax(usize),
    /// The line `start`, if the configuration before it is refused, and why.
    Config(usize, ConfigFault),
    /// The text has more than 4,194,304 bytes.
    TooLong,
    /// Memory was refused.
    NoMemory,
    /// The reader failed.
    Read,
    /// The writer failed.
    Write,
}

impl From<ReadFault> for ScriptFault {
    ghost from_gives = { λ fault e. e ≡ of_reading fault };

    fn from(fault: ReadFault) -> ScriptFault {
        match fault {
            ReadFault::TooLong => ScriptFault::TooLong,
            ReadFault::NoMemory => ScriptFault::NoMemory,
            ReadFault::Read => ScriptFault::Read,
        }
    }
}

impl From<ParseFault<'_>> for ScriptFault {
    ghost from_gives = { λ fault e. e ≡ of_grammar fault };

    fn from(fault: ParseFault<'_>) -> ScriptFault {
        match fault {
            ParseFault::Syntax(line, _) => ScriptFault::Syntax(line),
            ParseFault::NoMemory => ScriptFault::NoMemory,
        }
    }
}

impl From<AllocError> for ScriptFault {
    ghost from_gives = { λ _ e. e ≡ MemoryRefused };

    fn from(_: AllocError) -> ScriptFault {
        ScriptFault::NoMemory
    }
}

/// The name of a configuration's fault.
pub fn config_fault_name(fault: ConfigFault) -> &'static str
    ensures { result.now ≡ config_fault_text fault }
{
    match fault {
        ConfigFault::BadId => "BadId",
        ConfigFault::BadSize => "BadSize",
        ConfigFault::TooMany => "TooMany",
        ConfigFault::DoesNotFit => "DoesNotFit",
        ConfigFault::NoMemory => "NoMemory",
    }
}

impl fmt::Display for ScriptFault {
    ghost output = { λ fault. Some (script_fault_text fault) };

    fn fmt<W: fmt::Write>(&self, f: &mut fmt::Formatter<W>) -> fmt::Result {
        match self {
            ScriptFault::Syntax(line) => write!(f, "line {line}: not understood"),
            ScriptFault::Config(line, fault) => {
                write!(f, "line {line}: {}", config_fault_name(*fault))
            }
            ScriptFault::TooLong => f.write_str("script too long"),
            ScriptFault::NoMemory => f.write_str("out of memory"),
            ScriptFault::Read | ScriptFault::Write => f.write_str("file fault"),
        }
    }
}
