//! The bytes of a part on their way to the command's room.

ghost use Rattle.std.specs.Prelude.{◌≡◌, length};
ghost use Rattle.nvme_transfers.specs.Storing as def;

use crate::part::{Part, Taken};
use crate::transfers::{OUT_OF_RANGE, Transfers};
use nvme_pdu::Fatal;

impl Transfers {
    /// Takes a part, and copies its bytes to their place in the room of its tag, all bytes of which are those of that
    /// command. If it is not taken, the room stays as it is. So it is not if the bytes are not as many as DATAL says,
    /// or go past the room's end.
    pub fn store(&mut self, part: &Part, bytes: &[u8], room: &mut [u8]) -> Result<Taken, Fatal>
        ensures state { self.new ≡ def.after_store self.old part.now bytes.now room.old }
        ensures result { result ≡ def.stored self.old part.now bytes.now room.old }
        ensures room { room.new ≡ def.room_with result bytes.now room.old }
    {
        if !has_place(part, bytes, room) {
            return Err(OUT_OF_RANGE);
        }
        let taken = self.take(part)?;
        let begin = part.offset as usize;
        room[begin..begin + bytes.len()].copy_from_slice(bytes);
        Ok(taken)
    }
}

/// Whether the bytes of a part are as many as DATAL says, and end within the room.
fn has_place(part: &Part, bytes: &[u8], room: &[u8]) -> bool
    ensures { result ≡ def.has_place part.now bytes.now room.now }
{
    let length = bytes.len() as u64;
    length == u64::from(part.length)
        && u64::from(part.offset) + u64::from(part.length) <= room.len() as u64
}
