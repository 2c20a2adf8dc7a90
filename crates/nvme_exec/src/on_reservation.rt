//! The commands that act on a reservation: Reservation Register, Reservation Acquire and Reservation Release.

ghost use Rattle.std.specs.Prelude.{◌≡◌, ◌≤◌, ℕ, length, MatchResult, IsSome, Some, Err};
ghost use Rattle.nvme_wire.specs.Submission.{nsid};
ghost use Rattle.nvme_spec.specs.declared.command.CommandKind.TheVariants.{OnReservation as WorksOnReservation};
ghost use Rattle.nvme_spec.specs.declared.command.Command.TheVariants.{ReservationAcquire};
ghost use Rattle.nvme_spec.specs.Commands.{kind_of, data_length, rtype};
ghost use Rattle.nvme_spec.specs.IoData.{data_of, outcome_in, reservation_outcome};
ghost use Rattle.nvme_spec.specs.World.{host_of, namespace_of};
ghost use Rattle.nvme_spec.specs.Execution.{HasKnownRegistrants, world_after};
ghost use Rattle.nvme_exec.specs.Admitted.{IsAdmitted};
ghost use Rattle.nvme_exec.specs.Carrying.{Removes, Settles};

use crate::actions::{acquire, register, release};
use crate::admission::Admission;
use nvme_mem::Window;
use nvme_ns::Spaces;
use nvme_prp::gather;
use nvme_resv::Change;
use nvme_spec::{Command, Denial};
use nvme_wire::{Sqe, Status};

/// The most bytes of data of such a command: two keys.
const MAX_KEYS: usize = 16;

/// Performs an admitted command of a controller on the reservation of its namespace, and returns the hosts that it
/// removed.
///
/// # Errors
///
/// Rule 11, with the status of a reservation that refuses the action. Nothing is changed then.
pub fn act_on_reservation(
    spaces: &mut Spaces,
    window: &Window,
    cntlid: u16,
    sqe: &Sqe,
    admission: &Admission<'_>,
) -> Result<Change, Denial>
    requires kind { kind_of admission.now.plan.kind ≡ WorksOnReservation }
    requires known { HasKnownRegistrants spaces.old }
    requires admitted { IsAdmitted spaces.old cntlid window.now sqe.now admission.now }
    ensures acts { MatchResult result
        (λ change. Removes (reservation_outcome spaces.old cntlid sqe.now (data_of window.now sqe.now))
        change.removed.items)
        (λ d. (d.rule ≡ 11) × (reservation_outcome spaces.old cntlid sqe.now (data_of window.now sqe.now)
        ≡ Some (Err d.status))) }
    ensures world { spaces.new ≡ world_after spaces.old (nsid sqe.now)
        (reservation_outcome spaces.old cntlid sqe.now (data_of window.now sqe.now)) }
{
    let mut data = [0; MAX_KEYS];
    let keys = &mut data[..admission.plan.bytes as usize];
    gather(window, admission.pieces, keys);
    match act(spaces, sqe, admission, keys) {
        Ok(change) => Ok(change),
        Err(status) => Err(Denial { rule: 11, status }),
    }
}

/// Performs the action of a command, with its keys.
fn act(
    spaces: &mut Spaces,
    sqe: &Sqe,
    admission: &Admission<'_>,
    keys: &[u8],
) -> Result<Change, Status>
    requires kind { kind_of admission.now.plan.kind ≡ WorksOnReservation }
    requires known { HasKnownRegistrants spaces.old }
    requires host { (cntlid : ℕ) × (host_of spaces.old cntlid ≡ Some admission.now.host) }
    requires few { length spaces.old.controllers ≤ 16 }
    requires named { IsSome (namespace_of spaces.old (nsid sqe.now)) }
    requires rtype { admission.now.plan.kind ≡ ReservationAcquire → (1 ≤ rtype sqe.now) × (rtype sqe.now ≤ 6) }
    requires size { length keys.now ≡ data_length admission.now.plan.kind sqe.now }
    ensures { Settles (outcome_in (Some admission.now.plan.kind) (namespace_of spaces.old (nsid sqe.now))
        (Some admission.now.host) sqe.now keys.now)
        (nsid sqe.now) spaces.old result spaces.new }
{
    let host = admission.host;
    let reservation = spaces.reservation_mut(sqe.nsid());
    match admission.plan.kind {
        Command::ReservationRegister => {
            // Every registrant is the host of one of at most sixteen controllers.
            let has_room = reservation.has_room_for(host);
            prove!(has_room);
            register(reservation, host, sqe, keys)
        }
        Command::ReservationAcquire => acquire(reservation, host, sqe, keys),
        Command::ReservationRelease => release(reservation, host, sqe, keys),
        _ => unreachable!(),
    }
}
