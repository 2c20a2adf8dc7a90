//! Whether a command is kept, and how many of its data.

ghost use Rattle.std.specs.Prelude.{◌≡◌};
ghost use Rattle.nvme_wire.specs.Submission.{opcode};
ghost use Rattle.nvme_spec.specs.AdminCommands as admin;
ghost use Rattle.nvme_spec.specs.Commands as io;
ghost use Rattle.nvme_journal.specs.Records as def;

use nvme_data_buffers::{double_word_10, opcode_of};

/// The feature Namespace Write Protection Config.
const WRITE_PROTECTION: u32 = 0x84;

/// Whether a command of the Admin Queue, or of another queue, may change the access state if it succeeds.
#[inline(always)]
#[tactic(auto, unfolding(crate::specs::Records::lasts))]
pub fn lasts(entry: &[u8; 64], is_admin: bool) -> bool
    ensures { result ≡ def.lasts is_admin entry.now }
{
    if is_admin {
        lasts_of_admin(entry)
    } else {
        lasts_of_io(entry)
    }
}

#[inline(always)]
#[tactic(auto, unfolding(nvme_spec::specs::Commands::command_of))]
fn lasts_of_io(entry: &[u8; 64]) -> bool
    ensures { result ≡ io.is_one_of (io.command_of (opcode entry.now)) io.reserving }
{
    // Reservation Register, Acquire, Release
    matches!(opcode_of(entry), 0x0d | 0x11 | 0x15)
}

#[inline(always)]
#[tactic(auto, unfolding(nvme_spec::specs::AdminCommands::command_of, nvme_spec::specs::AdminCommands::fid))]
fn lasts_of_admin(entry: &[u8; 64]) -> bool
    ensures { result ≡ def.lasts_by (admin.command_of (opcode entry.now)) entry.now }
{
    match opcode_of(entry) {
        // Namespace Attachment
        0x15 => true,
        // Set Features
        0x09 => double_word_10(entry) % 256 == WRITE_PROTECTION,
        _ => false,
    }
}

/// How many bytes of its data have to be kept of a command of the Admin Queue, or of another queue, by the first two:
/// the count of a list of controllers, and the list; or two keys.
#[tactic(auto, unfolding(crate::specs::Records::kept_length, nvme_spec::specs::AdminRules::list_count))]
pub fn kept_length(head: &[u8; 2], is_admin: bool) -> u32
    ensures { result ≡ def.kept_length is_admin head.now }
{
    if is_admin {
        2 + 2 * u32::from(u16::from_le_bytes(*head))
    } else {
        16
    }
}
