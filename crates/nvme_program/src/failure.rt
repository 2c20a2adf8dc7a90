//! Why a program ends with a status other than 0: its status, and its text.

ghost use Rattle.std.specs.Prelude.{◌≡◌, ◌≢◌, ◌≤◌, Some};
ghost use Rattle.std.specs.IoError.{error_kind};
ghost use Rattle.std.specs.declared.io.ErrorKind.TheVariants.{OutOfMemory};
ghost use Rattle.nvme_medium.specs.declared.open.FileFault.TheVariants.{NoMemory as NoFileMemory};
ghost use Rattle.std.specs.Result.{result_err};
ghost use Rattle.nvme_program.specs.Statuses.{end_status, exit_status};
ghost use Rattle.nvme_program.specs.Failures.{IsOfFile};
ghost use Rattle.nvme_program.specs.FailureTexts.{failure_text};
ghost use Rattle.nvme_program.specs.declared.failure.Failure.TheVariants.{File as FileRefused, Memory as MemoryRefused};

use crate::fault::ScriptFault;
use nvme_medium::FileFault;
use std::alloc::AllocError;
use std::{fmt, io};
use thiserror::Error;

/// Why a program ends with a status other than 0. The program prints its text.
#[derive(Clone, Copy, Debug, Error, PartialEq, Eq)]
pub enum Failure {
    /// The script was not run to its end.
    Script(ScriptFault),
    /// A file can't be opened.
    File,
    /// A word of the command line is refused.
    CommandLine,
    /// Memory was refused.
    Memory,
}

impl Failure {
    /// The exit status.
    pub fn status(self) -> u8
        ensures table { result ≡ exit_status self }
        ensures last { result ≤ 4 }
    {
        match self {
            Failure::Script(
                ScriptFault::Syntax(_) | ScriptFault::Config(_, _) | ScriptFault::TooLong,
            ) => 1,
            Failure::Script(ScriptFault::Read | ScriptFault::Write) | Failure::File => 2,
            Failure::CommandLine => 3,
            Failure::Script(ScriptFault::NoMemory) | Failure::Memory => 4,
        }
    }
}

/// The exit status of an end.
pub fn status_of(outcome: Result<(), Failure>) -> u8
    ensures table { result ≡ end_status (result_err outcome) }
    ensures last { result ≤ 4 }
{
    match outcome {
        Ok(()) => 0,
        Err(failure) => failure.status(),
    }
}

impl fmt::Display for Failure {
    ghost output = { λ failure. Some (failure_text failure) };

    fn fmt<W: fmt::Write>(&self, f: &mut fmt::Formatter<W>) -> fmt::Result {
        match self {
            Failure::Script(fault) => write!(f, "{fault}"),
            Failure::File => f.write_str("file fault"),
            Failure::CommandLine => f.write_str("bad command line"),
            Failure::Memory => f.write_str("out of memory"),
        }
    }
}

impl From<io::Error> for Failure {
    ghost from_gives = { λ error e. IsOfFile e × (error_kind error ≡ OutOfMemory → e ≡ MemoryRefused)
        × (error_kind error ≢ OutOfMemory → e ≡ FileRefused) };

    fn from(error: io::Error) -> Failure {
        Failure::from(&error)
    }
}

impl From<&io::Error> for Failure {
    ghost from_gives = { λ error e. IsOfFile e × (error_kind error.now ≡ OutOfMemory → e ≡ MemoryRefused)
        × (error_kind error.now ≢ OutOfMemory → e ≡ FileRefused) };

    fn from(error: &io::Error) -> Failure {
        match error.kind() {
            io::ErrorKind::OutOfMemory => Failure::Memory,
            _ => Failure::File,
        }
    }
}

impl From<FileFault> for Failure {
    ghost from_gives = { λ fault e. IsOfFile e × (fault ≡ NoFileMemory → e ≡ MemoryRefused)
        × (fault ≢ NoFileMemory → e ≡ FileRefused) };

    fn from(fault: FileFault) -> Failure {
        match fault {
            FileFault::NoFile | FileFault::InUse | FileFault::NoLock | FileFault::NoLength => {
                Failure::File
            }
            FileFault::NoMemory => Failure::Memory,
        }
    }
}

impl From<AllocError> for Failure {
    ghost from_gives = { λ _ e. e ≡ MemoryRefused };

    fn from(_: AllocError) -> Failure {
        Failure::Memory
    }
}
