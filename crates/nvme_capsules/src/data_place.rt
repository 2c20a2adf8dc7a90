//! The SGL of a command: where its data come from, or go to.

ghost use Rattle.std.specs.Prelude.{◌≡◌};
ghost use Rattle.nvme_capsules.specs.DataPlaces as def;

use nvme_wire::{Status, u32_at, u64_at};

/// The most bytes of data that a command has.
const MOST_DATA: u32 = 128 << 10;

/// The opcode of the commands of Fabrics.
pub(crate) const FABRICS: u8 = 0x7f;

/// SGL Identifiers: a data block at an offset in the capsule, and one that the transport moves.
const IN_CAPSULE: u8 = 0x01;

const TRANSPORT: u8 = 0x5a;

const DATA_SGL_LENGTH_INVALID: Status = Status { sct: 0, sc: 0x0f };

const SGL_DESCRIPTOR_TYPE_INVALID: Status = Status { sct: 0, sc: 0x11 };

const SGL_OFFSET_INVALID: Status = Status { sct: 0, sc: 0x16 };

/// The location of a command's data.
#[derive(Clone, Copy)]
pub enum DataPlace {
    /// The controller returns at most this number of bytes, or 0 if the command has no data.
    FromController(u32),
    /// Bytes of the capsule's data: the offset of the first, and their number.
    InCapsule(u32, u32),
    /// The host sends this number of bytes in answer to R2T.
    OnRequest(u32),
}

impl DataPlace {
    /// The location of the data of a command whose capsule has `in_capsule` bytes of data, or the status of the first
    /// rule that its SGL breaks.
    #[tactic(auto, unfolding(crate::specs::DataPlaces::data_place))]
    pub fn of(entry: &[u8; 64], in_capsule: u32) -> Result<DataPlace, Status>
        ensures { result ≡ def.data_place entry.now in_capsule }
    {
        if entry[1] / 64 != 1 {
            return Err(Status::INVALID_FIELD_IN_COMMAND);
        }
        let direction = operation(entry) % 4;
        if direction == 0 || direction == 3 || u32_at(entry, 32) == 0 {
            return Ok(DataPlace::FromController(0));
        }
        if u32_at(entry, 32) > MOST_DATA {
            return Err(DATA_SGL_LENGTH_INVALID);
        }
        if direction == 1 {
            to_controller(entry, in_capsule)
        } else {
            from_controller(entry)
        }
    }
}

/// The opcode, or FCTYPE of a command of Fabrics.
fn operation(entry: &[u8; 64]) -> u8
    ensures { result ≡ def.operation entry.now }
{
    if entry[0] == FABRICS {
        entry[4]
    } else {
        entry[0]
    }
}

/// The location of data that go to the controller.
fn to_controller(entry: &[u8; 64], in_capsule: u32) -> Result<DataPlace, Status>
    ensures { result ≡ def.to_controller entry.now in_capsule }
{
    match entry[39] {
        IN_CAPSULE => at_offset(u64_at(entry, 24), u32_at(entry, 32), in_capsule),
        TRANSPORT => Ok(DataPlace::OnRequest(u32_at(entry, 32))),
        _ => Err(SGL_DESCRIPTOR_TYPE_INVALID),
    }
}

/// The location of data at an offset in the capsule.
fn at_offset(offset: u64, length: u32, in_capsule: u32) -> Result<DataPlace, Status>
    ensures { result ≡ def.at_offset offset length in_capsule }
{
    if offset > u64::from(in_capsule) {
        return Err(SGL_OFFSET_INVALID);
    }
    if offset + u64::from(length) > u64::from(in_capsule) {
        return Err(DATA_SGL_LENGTH_INVALID);
    }
    Ok(DataPlace::InCapsule(offset as u32, length))
}

/// The location of data that the controller returns.
fn from_controller(entry: &[u8; 64]) -> Result<DataPlace, Status>
    ensures { result ≡ def.from_controller entry.now }
{
    if entry[39] == TRANSPORT {
        Ok(DataPlace::FromController(u32_at(entry, 32)))
    } else {
        Err(SGL_DESCRIPTOR_TYPE_INVALID)
    }
}
