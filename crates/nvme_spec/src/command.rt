//! The commands that a controller supports.

ghost use Rattle.std.specs.Prelude.{◌≡◌};
ghost use Rattle.nvme_spec.specs.AdminCommands as admin;
ghost use Rattle.nvme_spec.specs.Commands as io;

/// Optional NVM Command Support (ONCS) of Identify: Compare, Write Zeroes and the commands on reservations.
pub const OPTIONAL_COMMANDS: u16 = 0x0029;

/// The I/O commands, of queues 1 to 4 (NVM Command Set Specification 1.0; Base Specification 2.0, I/O
/// Command Set Opcodes).
#[derive(Clone, Copy, Debug, PartialEq, Eq)]
pub enum Command {
    Flush,
    Write,
    Read,
    Compare,
    WriteZeroes,
    ReservationRegister,
    ReservationReport,
    ReservationAcquire,
    ReservationRelease,
}

impl Command {
    /// The command's opcode.
    #[inline(always)]
    pub fn opcode(self) -> u8
        ensures { result ≡ io.opcode_of self }
    {
        match self {
            Command::Flush => 0x00,
            Command::Write => 0x01,
            Command::Read => 0x02,
            Command::Compare => 0x05,
            Command::WriteZeroes => 0x08,
            Command::ReservationRegister => 0x0d,
            Command::ReservationReport => 0x0e,
            Command::ReservationAcquire => 0x11,
            Command::ReservationRelease => 0x15,
        }
    }
}

/// What an I/O command acts on.
#[derive(Clone, Copy, Debug, PartialEq, Eq)]
pub enum CommandKind {
    /// The blocks of a namespace.
    OnBlocks,
    /// The reservation of a namespace, which it may change.
    OnReservation,
    /// The reservation of a namespace, which it reports.
    OnReport,
}

/// The admin commands, of queue 0 (Base Specification 2.0, Admin Command Set).
#[derive(Clone, Copy, Debug, PartialEq, Eq)]
pub enum AdminCommand {
    DeleteSubmissionQueue,
    CreateSubmissionQueue,
    DeleteCompletionQueue,
    CreateCompletionQueue,
    Identify,
    SetFeatures,
    GetFeatures,
    NamespaceAttachment,
}

impl AdminCommand {
    /// The command's opcode.
    #[inline(always)]
    pub fn opcode(self) -> u8
        ensures { result ≡ admin.opcode_of self }
    {
        match self {
            AdminCommand::DeleteSubmissionQueue => 0x00,
            AdminCommand::CreateSubmissionQueue => 0x01,
            AdminCommand::DeleteCompletionQueue => 0x04,
            AdminCommand::CreateCompletionQueue => 0x05,
            AdminCommand::Identify => 0x06,
            AdminCommand::SetFeatures => 0x09,
            AdminCommand::GetFeatures => 0x0a,
            AdminCommand::NamespaceAttachment => 0x15,
        }
    }
}
