//! Namespace Attachment: the Controller List from the host, and its effect.

ghost use Rattle.std.specs.Prelude.{◌≡◌, ◌+◌, ◌*◌, ◌≤◌, length, map, Ok, Err, OnOk, OnErr, IfErr, IsSome};
ghost use Rattle.std.specs.List.{range_with_len};
ghost use Rattle.nvme_wire.specs.Entry.{word_at};
ghost use Rattle.nvme_wire.specs.Submission.{nsid};
ghost use Rattle.nvme_spec.specs.AdminRules.{attachment_outcome, list_count};
ghost use Rattle.nvme_spec.specs.Transfers.{addresses, gathered_bytes};
ghost use Rattle.nvme_spec.specs.World.{namespace_of};

use crate::fields;
use byteorder::{ByteOrder, LittleEndian};
use nvme_mem::Window;
use nvme_ns::Spaces;
use nvme_prp::{Pieces, gather};
use nvme_wire::{Sqe, Status};

/// The length of a Controller List in bytes.
const LIST: usize = 4096;

/// The most identifiers of a list, after their count.
const LONGEST_LIST: usize = 2047;

/// Attaches the namespace of the entry, which must be configured, to the listed controllers, or detaches it from them.
///
/// # Errors
///
/// The status with which the list is refused. Nothing is changed then.
pub fn change_attachments(
    spaces: &mut Spaces,
    window: &Window,
    sqe: &Sqe,
    pieces: &Pieces,
) -> Result<(), Status>
    requires configured { IsSome (namespace_of spaces.old (nsid sqe.now)) }
    requires size { length (addresses pieces.now.parts.items) ≡ 4096 }
    ensures changed { OnOk result
        (attachment_outcome spaces.old sqe.now (gathered_bytes window.now (addresses pieces.now.parts.items))
        ≡ Ok spaces.new) }
    ensures refused { IfErr result
        (λ why. attachment_outcome spaces.old sqe.now (gathered_bytes window.now (addresses pieces.now.parts.items))
        ≡ Err why) }
    ensures unchanged { OnErr result (spaces.new ≡ spaces.old) }
{
    let mut list = [0; LIST];
    gather(window, pieces, &mut list);
    apply_list(spaces, sqe, &list)
}

/// Attaches or detaches the controllers of this list.
#[tactic(auto, unfolding(nvme_spec::specs::AdminRules::listed_controllers))]
fn apply_list(spaces: &mut Spaces, sqe: &Sqe, list: &[u8]) -> Result<(), Status>
    requires configured { IsSome (namespace_of spaces.old (nsid sqe.now)) }
    requires size { length list.now ≡ 4096 }
    ensures changed { OnOk result (attachment_outcome spaces.old sqe.now list.now ≡ Ok spaces.new) }
    ensures refused { IfErr result (λ why. attachment_outcome spaces.old sqe.now list.now ≡ Err why) }
    ensures unchanged { OnErr result (spaces.new ≡ spaces.old) }
{
    let count = count_of(list);
    if count > LONGEST_LIST {
        return Err(Status::CONTROLLER_LIST_INVALID);
    }
    let mut buffer = [0; LONGEST_LIST];
    let controllers = &mut buffer[..count];
    read_controllers(list, controllers);
    match fields::sel(sqe) {
        0 => spaces.attach(sqe.nsid(), controllers),
        _ => spaces.detach(sqe.nsid(), controllers),
    }
}

/// The number of controllers of a list, by its count.
#[tactic(auto, unfolding(nvme_spec::specs::AdminRules::list_count))]
fn count_of(list: &[u8]) -> usize
    requires { 2 ≤ length list.now }
    ensures { result ≡ list_count list.now }
{
    usize::from(LittleEndian::read_u16(&list[..2]))
}

/// Reads the first identifiers of a list into `controllers`.
fn read_controllers(list: &[u8], controllers: &mut [u16])
    requires size { 2 + 2 * length controllers.old ≤ length list.now }
    ensures read { controllers.new
        ≡ map (λ i. word_at list.now (2 + 2 * i)) (range_with_len 0 (length controllers.old)) }
{
    for i in 0..controllers.len() {
        controllers[i] = controller_at(list, i);
    }
}

/// The identifier at a place of a list, from 0.
fn controller_at(list: &[u8], i: usize) -> u16
    requires inside { 4 + 2 * i ≤ length list.now }
    ensures { result ≡ word_at list.now (2 + 2 * i) }
{
    let at = 2 + 2 * i;
    LittleEndian::read_u16(&list[at..at + 2])
}
