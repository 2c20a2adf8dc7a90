//! The calls of the medium that a fetched command needs.

ghost use Rattle.std.specs.Prelude.{◌≡◌};
ghost use Rattle.nvme_spec.specs.World.{LiesWithin};
ghost use Rattle.nvme_machine.specs.Needs as spec;

use nvme_machine::{FetchedCommand, Need};
use nvme_ns::Spaces;
use nvme_policy::{Admitted, admit};
use nvme_spec::Command;

/// What a command that a controller has fetched needs of a medium of `size` blocks. It does not test the rules on the
/// command's data, so the execution may need less.
#[tactic(auto, unfolding(nvme_machine::specs::Needs::need_of))]
pub fn need_of(spaces: &Spaces, size: u64, cntlid: u16, command: &FetchedCommand) -> Need
    requires within { LiesWithin size spaces.now.namespaces }
    ensures { result ≡ spec.need_of spaces.now cntlid command.now }
{
    if command.queue == 0 {
        return Need::Nothing;
    }
    match admit(spaces, cntlid, &command.entry, command.marked) {
        Ok(Admitted { plan, namespace }) => {
            need_by(plan.kind, namespace.first_block() + plan.first, plan.blocks)
        }
        Err(_) => Need::Nothing,
    }
}

/// What a command on these blocks of the medium needs.
fn need_by(kind: Command, first: u64, blocks: u32) -> Need
    ensures { result ≡ spec.need_by kind first blocks }
{
    match kind {
        Command::Flush => Need::Flush,
        Command::Read | Command::Compare => Need::Read { first, blocks },
        Command::Write => Need::Write { first, blocks },
        Command::WriteZeroes => Need::Zero { first, blocks },
        Command::ReservationRegister
        | Command::ReservationReport
        | Command::ReservationAcquire
        | Command::ReservationRelease => Need::Nothing,
    }
}
