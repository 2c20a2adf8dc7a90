//! The opcodes of the admin commands, and the data that each transfers.

ghost use Rattle.std.specs.Prelude.{◌≡◌, ◌≤◌};
ghost use Rattle.nvme_spec.specs.AdminCommands as spec;

use crate::fields;
use nvme_spec::AdminCommand;
use nvme_wire::Sqe;

/// The admin command with this opcode.
#[tactic(auto, unfolding(nvme_spec::specs::AdminCommands::command_of))]
pub fn command_of(opcode: u8) -> Option<AdminCommand>
    ensures { result ≡ spec.command_of opcode }
{
    match opcode {
        0x00 => Some(AdminCommand::DeleteSubmissionQueue),
        0x01 => Some(AdminCommand::CreateSubmissionQueue),
        0x04 => Some(AdminCommand::DeleteCompletionQueue),
        0x05 => Some(AdminCommand::CreateCompletionQueue),
        0x06 => Some(AdminCommand::Identify),
        0x09 => Some(AdminCommand::SetFeatures),
        0x0a => Some(AdminCommand::GetFeatures),
        0x15 => Some(AdminCommand::NamespaceAttachment),
        _ => None,
    }
}

/// The number of bytes of data between host and controller.
pub fn data_length(command: AdminCommand, sqe: &Sqe) -> u64
    ensures length { result ≡ spec.data_length command sqe.now }
    ensures few { result ≤ 4096 }
{
    match command {
        AdminCommand::Identify | AdminCommand::NamespaceAttachment => 4096,
        AdminCommand::GetFeatures if fields::fid(sqe) == fields::HOST_IDENTIFIER => 16,
        _ => 0,
    }
}
