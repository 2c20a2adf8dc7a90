//! The number of bytes that a command moves between host and controller.

ghost use Rattle.std.specs.Prelude.{◌≡◌, ◌%◌};
ghost use Rattle.nvme_wire.specs.Submission.{cdw10, cdw12, opcode};
ghost use Rattle.nvme_spec.specs.AdminCommands as admin;
ghost use Rattle.nvme_spec.specs.Commands as io;
ghost use Rattle.nvme_data_buffers.specs.Entries as def;

/// The size of a block.
const BLOCK: u64 = 512;

/// The feature Host Identifier.
const HOST_IDENTIFIER: u32 = 0x81;

/// Opcode. These fields are read where they are: to take the whole entry apart costs more than all else here.
#[inline(always)]
#[tactic(auto, using(crate::proofs::Fields::opcode_read))]
pub fn opcode_of(entry: &[u8; 64]) -> u8
    ensures { result ≡ opcode entry.now }
{
    entry[0]
}

/// Double word 10.
#[inline(always)]
#[tactic(auto, unfolding(nvme_wire::specs::Submission::cdw10))]
pub fn double_word_10(entry: &[u8; 64]) -> u32
    ensures { result ≡ cdw10 entry.now }
{
    u32::from_le_bytes([entry[40], entry[41], entry[42], entry[43]])
}

/// Double word 12.
#[inline(always)]
#[tactic(auto, unfolding(nvme_wire::specs::Submission::cdw12))]
fn double_word_12(entry: &[u8; 64]) -> u32
    ensures { result ≡ cdw12 entry.now }
{
    u32::from_le_bytes([entry[48], entry[49], entry[50], entry[51]])
}

/// The number of bytes that a command of the Admin Queue or of another queue moves.
#[inline(always)]
#[tactic(auto, unfolding(crate::specs::Entries::moved))]
pub fn moved(entry: &[u8; 64], is_admin: bool) -> u64
    ensures { result ≡ def.moved is_admin entry.now }
{
    if is_admin {
        moved_by_admin(entry)
    } else {
        moved_by_io(entry)
    }
}

#[inline(always)]
#[tactic(auto, unfolding(nvme_spec::specs::Commands::command_of, nvme_spec::specs::Commands::block_count, nvme_spec::specs::Commands::report_length))]
fn moved_by_io(entry: &[u8; 64]) -> u64
    ensures { result ≡ io.data_length_of (io.command_of (opcode entry.now)) entry.now }
{
    match opcode_of(entry) {
        // Write, Read, Compare
        0x01 | 0x02 | 0x05 => BLOCK * (u64::from(double_word_12(entry) % 65536) + 1),
        // Reservation Register, Acquire
        0x0d | 0x11 => 16,
        // Reservation Report
        0x0e => 4 * (u64::from(double_word_10(entry)) + 1),
        // Reservation Release
        0x15 => 8,
        _ => 0,
    }
}

#[inline(always)]
#[tactic(auto, unfolding(nvme_spec::specs::AdminCommands::command_of, nvme_spec::specs::AdminCommands::fid))]
fn moved_by_admin(entry: &[u8; 64]) -> u64
    ensures { result ≡ admin.data_length_of (admin.command_of (opcode entry.now)) entry.now }
{
    match opcode_of(entry) {
        // Identify, Namespace Attachment
        0x06 | 0x15 => 4096,
        // Get Features
        0x0a if double_word_10(entry) % 256 == HOST_IDENTIFIER => 16,
        _ => 0,
    }
}
