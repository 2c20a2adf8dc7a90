//! The plan of an allowed command.

ghost use Rattle.std.specs.Prelude.{◌≡◌};
ghost use Rattle.nvme_spec.specs.Commands.{plan_of};

use crate::command::traits_of;
use crate::fields;
use nvme_spec::{Command, Plan};
use nvme_wire::Sqe;

/// The plan of an allowed command.
pub fn plan(command: Command, sqe: &Sqe) -> Plan
    ensures { result ≡ plan_of command sqe.now }
{
    let traits = traits_of(command);
    let (first, blocks) = if traits.is_ranged {
        (fields::starting_lba(sqe), fields::block_count(sqe))
    } else {
        (0, 0)
    };
    let bytes = match command {
        Command::ReservationRegister | Command::ReservationAcquire => 16,
        Command::ReservationRelease => 8,
        Command::ReservationReport => fields::report_length(sqe),
        _ if traits.moves_blocks => 512 * u64::from(blocks),
        _ => 0,
    };
    Plan {
        kind: command,
        first,
        blocks,
        bytes,
    }
}
