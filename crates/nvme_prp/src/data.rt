//! The data of any command: their place, and the rule on their pointer.

ghost use Rattle.std.specs.Prelude.{◌≡◌, ◌≤◌, [], length, None, Ok, Err, OnOk, OnErr, IfErr};
ghost use Rattle.nvme_spec.specs.DataRules as rules;
ghost use Rattle.nvme_spec.specs.Limits.{most_bytes};
ghost use Rattle.nvme_spec.specs.Rules.{judgement_by};
ghost use Rattle.nvme_spec.specs.Transfers.{addresses};

use crate::walking::{Pieces, walk_into};
use nvme_mem::Window;
use nvme_spec::{DataFault, Denial};
use nvme_wire::{Sqe, Status};

/// Finds the place of a command's data by its two PRP entries, at most 131,072 bytes, and replaces `pieces` by it;
/// without data or after a fault, `pieces` is empty.
///
/// # Errors
///
/// Rule 10, with the status of the pointer's first fault.
#[tactic(auto, unfolding(nvme_spec::specs::DataRules::pointer_rule, nvme_spec::specs::Rules::judgement_by))]
pub fn locate(window: &Window, sqe: &Sqe, bytes: u64, pieces: &mut Pieces) -> Result<(), Denial>
    requires few { bytes ≤ most_bytes }
    ensures sound { OnOk result (rules.data_fault bytes window.now sqe.now ≡ None) }
    ensures passed { OnOk result (judgement_by (rules.pointer_rule bytes window.now sqe.now) ≡ Ok tt) }
    ensures placed { OnOk result (addresses pieces.new.parts.items ≡ rules.data_addresses bytes window.now sqe.now) }
    ensures size { OnOk result (length (addresses pieces.new.parts.items) ≡ bytes) }
    ensures denied { IfErr result (λ d. judgement_by (rules.pointer_rule bytes window.now sqe.now) ≡ Err d) }
    ensures none { OnErr result (pieces.new.parts.items ≡ []) }
{
    if bytes == 0 {
        pieces.parts.clear();
        return Ok(());
    }
    match walk_into(window, sqe.prp1(), sqe.prp2(), bytes, pieces) {
        Ok(()) => Ok(()),
        Err(fault) => Err(Denial {
            rule: 10,
            status: status_of(fault),
        }),
    }
}

/// The status of a command whose data pointer has a fault.
fn status_of(fault: DataFault) -> Status
    ensures { result ≡ rules.fault_status fault }
{
    match fault {
        DataFault::Offset => Status::PRP_OFFSET_INVALID,
        DataFault::Outside => Status::DATA_TRANSFER_ERROR,
    }
}
