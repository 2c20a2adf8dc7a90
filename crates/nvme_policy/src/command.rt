//! The opcodes of the I/O commands, and the traits of each command.

ghost use Rattle.std.specs.Prelude.{◌≡◌, Some};
ghost use Rattle.nvme_spec.specs.Commands as spec;

use nvme_spec::{Command, CommandKind, Group};

/// The I/O command with this opcode.
#[tactic(auto, unfolding(nvme_spec::specs::Commands::command_of))]
pub fn command_of(opcode: u8) -> Option<Command>
    ensures { result ≡ spec.command_of opcode }
{
    match opcode {
        0x00 => Some(Command::Flush),
        0x01 => Some(Command::Write),
        0x02 => Some(Command::Read),
        0x05 => Some(Command::Compare),
        0x08 => Some(Command::WriteZeroes),
        0x0d => Some(Command::ReservationRegister),
        0x0e => Some(Command::ReservationReport),
        0x11 => Some(Command::ReservationAcquire),
        0x15 => Some(Command::ReservationRelease),
        _ => None,
    }
}

/// A reservation treats the command as a read.
const READS: Option<Group> = Some(Group::Read);

/// A reservation treats the command as a write.
const WRITES: Option<Group> = Some(Group::Write);

/// The traits of a command that the rules and the execution need.
#[derive(Clone, Copy, Debug)]
pub struct Traits {
    /// What it acts on.
    pub kind: CommandKind,
    /// Whether a reservation treats it as a read or as a write; `None` if as neither.
    pub group: Option<Group>,
    /// Whether it changes blocks, so that write protection forbids it.
    pub alters: bool,
    /// Whether it names a range of blocks.
    pub is_ranged: bool,
    /// Whether its blocks are transferred between host and controller.
    pub moves_blocks: bool,
}

/// The traits of this command.
pub fn traits_of(command: Command) -> Traits
    ensures kind { result.kind ≡ spec.kind_of command }
    ensures group { result.group ≡ spec.group_of command }
    ensures alters { result.alters ≡ spec.is_one_of (Some command) spec.altering }
    ensures ranged { result.is_ranged ≡ spec.is_one_of (Some command) spec.ranged }
    ensures moves { result.moves_blocks ≡ spec.is_one_of (Some command) spec.moving }
{
    let (kind, group, alters, is_ranged, moves_blocks) = match command {
        Command::Read | Command::Compare => (CommandKind::OnBlocks, READS, false, true, true),
        Command::Write => (CommandKind::OnBlocks, WRITES, true, true, true),
        Command::WriteZeroes => (CommandKind::OnBlocks, WRITES, true, true, false),
        Command::Flush => (CommandKind::OnBlocks, WRITES, false, false, false),
        Command::ReservationReport => (CommandKind::OnReport, None, false, false, false),
        Command::ReservationRegister | Command::ReservationAcquire | Command::ReservationRelease =>
            (CommandKind::OnReservation, None, false, false, false),
    };
    Traits {
        kind,
        group,
        alters,
        is_ranged,
        moves_blocks,
    }
}
