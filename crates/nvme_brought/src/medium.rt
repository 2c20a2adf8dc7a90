//! A medium of brought blocks.

ghost use Rattle.std.specs.Prelude.{
  ◌≡◌,
  ◌+◌,
  ◌*◌,
  ◌/◌,
  ◌%◌,
  ◌<◌,
  ◌≤◌,
  ◌^◌,
  length,
  true,
  IfOk,
  IfErr,
  OnOk,
  OnErr,
};

use crate::{Disk, Room};
use nvme_medium::{Medium, MediumFault};
use std::mem;

/// A medium over a disk that only its program accesses. The program brings blocks in a room before a command is
/// executed. A block at hand can be read and written, and so can the next one be written, if the room is long enough;
/// all other reads and writes fail. Whether a flush passes is known before.
#[derive(Drop)]
pub struct BroughtMedium {
    disk: Disk,
    room: Room,
    failures: u64,
    ghost countable: { disk.blocks < 2 ^ 64 },
    ghost within: { room.first + room.at_hand ≤ disk.blocks },
}

impl BroughtMedium {
    ghost use Rattle.nvme_spec.specs.Blocks.{CountsFaults, StopsWriting};
    ghost use Rattle.nvme_spec.specs.Bytes.{with_bytes};
    ghost use Rattle.nvme_spec.specs.MediumCalls.{MakesInOrder, writes_from};
    ghost use Rattle.nvme_medium.specs.Reading.{ReadsBlocks};
    ghost use Rattle.nvme_brought.specs.Brought.{content_of, with_room, HasNothing, Fails, brought_step};

    /// A medium over a disk, without a block at hand.
    pub fn of(disk: Disk) -> BroughtMedium
        ensures content { content_of result ≡ disk.content.bytes }
        ensures blocks { result.disk.blocks ≡ disk.blocks }
        ensures nothing { HasNothing result }
        ensures failures { result.failures ≡ 0 }
    {
        BroughtMedium {
            disk,
            room: Room::none(),
            failures: 0,
        }
    }

    /// Takes the blocks of a room for its content, and returns the room that it had before, as `take_room` does. If the
    /// medium does not have all blocks at hand of the new room, that one is returned, and the medium is unchanged.
    pub fn bring(&mut self, room: Room) -> Result<Room, Room>
        ensures brought { OnOk result (self.new.room ≡ room) }
        ensures earlier { IfOk result (λ earlier. earlier ≡ self.old.room) }
        ensures content { OnOk result (content_of self.new ≡ with_room (content_of self.old) room) }
        ensures blocks { self.new.disk.blocks ≡ self.old.disk.blocks }
        ensures failures { self.new.failures ≡ self.old.failures }
        ensures outside { OnErr result (self.old.disk.blocks < room.first + room.at_hand) }
        ensures refused { IfErr result (λ refused. refused ≡ room) }
        ensures unchanged { OnErr result (self.new ≡ self.old) }
    {
        match room.first.checked_add(room.at_hand) {
            Some(end) if end <= self.disk.blocks => {
                let earlier = self.take_room();
                self.room = room;
                Ok(earlier)
            }
            _ => Err(room),
        }
    }

    /// Returns the room. The disk has its blocks at hand from now on, and the medium has none at hand.
    pub fn take_room(&mut self) -> Room
        ensures room { result ≡ self.old.room }
        ensures nothing { HasNothing self.new }
        ensures content { content_of self.new ≡ content_of self.old }
        ensures blocks { self.new.disk.blocks ≡ self.old.disk.blocks }
        ensures failures { self.new.failures ≡ self.old.failures }
    {
        let room = mem::replace(&mut self.room, Room::none());
        self.disk.content.put(room.first, room.bytes_at_hand());
        room
    }

    /// Reads blocks from `first` onto all of `target`, one after the other, up to the first that is not at hand.
    fn read_each(&mut self, first: u64, target: &mut [u8]) -> Result<(), MediumFault>
        requires whole { length target.old % 512 ≡ 0 }
        requires within { 512 * first + length target.old ≤ 512 * self.old.disk.blocks }
        ensures reads { ReadsBlocks brought_step true (content_of self.old) first (length target.old / 512) target.old
            target.new self.old result self.new }
        ensures kept { content_of self.new ≡ content_of self.old }
        ensures size { self.new.disk.blocks ≡ self.old.disk.blocks }
        ensures count { CountsFaults self.old.failures self.new.failures result }
    {
        for j in 0..target.len() / 512 {
            self.read_onto(first + j as u64, &mut target[512 * j..512 * j + 512])?;
        }
        Ok(())
    }

    /// Writes one or more blocks from `first`, one after the other, up to the first that has no place in the room.
    fn write_each(&mut self, first: u64, bytes: &[u8]) -> Result<(), MediumFault>
        requires whole { length bytes.now % 512 ≡ 0 }
        requires within { 512 * first + length bytes.now ≤ 512 * self.old.disk.blocks }
        ensures written { OnOk result
            (content_of self.new ≡ with_bytes (content_of self.old) (512 * first) bytes.now) }
        ensures fault { OnErr result
            (StopsWriting first bytes.now (content_of self.old) (content_of self.new)) }
        ensures calls { MakesInOrder brought_step (writes_from first bytes.now) (length bytes.now / 512) self.old
            result self.new }
        ensures size { self.new.disk.blocks ≡ self.old.disk.blocks }
        ensures count { CountsFaults self.old.failures self.new.failures result }
    {
        for j in 0..bytes.len() / 512 {
            let block = bytes[512 * j..512 * j + 512].as_array::<512>().unwrap();
            self.write(first + j as u64, block)?;
        }
        Ok(())
    }

    /// Counts a failure.
    fn fail(&mut self) -> MediumFault
        ensures { Fails self.old self.new }
    {
        self.failures = self.failures.saturating_add(1);
        MediumFault
    }
}

impl Medium for BroughtMedium {
    ghost use Rattle.nvme_brought.specs.Brought.{content_of, brought_step};
    ghost use Rattle.nvme_brought.specs.Whole.{content_is_whole};

    ghost tells = { true };

    ghost device = { λ m. record { content = content_of m; failures = m.failures } };

    ghost size = { λ m. m.disk.blocks };

    ghost step = { brought_step };

    ghost countable = { λ m. m.countable };

    ghost whole = { λ m _. content_is_whole m };

    fn blocks(&self) -> u64 {
        self.disk.blocks
    }

    fn read(&mut self, i: u64, buffer: &mut [u8; 512]) -> Result<(), MediumFault> {
        match self.room.place_of(i) {
            Some(nth) => {
                buffer.copy_from_slice(self.room.block(nth));
                Ok(())
            }
            None => Err(self.fail()),
        }
    }

    fn read_onto(&mut self, i: u64, target: &mut [u8]) -> Result<(), MediumFault> {
        let Some(nth) = self.room.place_of(i) else {
            return Err(self.fail());
        };
        target.copy_from_slice(self.room.block(nth));
        Ok(())
    }

    fn read_blocks(&mut self, first: u64, target: &mut [u8]) -> Result<(), MediumFault> {
        let Some(nth) = self.room.place_of_all(first, target.len() as u64 / 512) else {
            return self.read_each(first, target);
        };
        target.copy_from_slice(self.room.adjacent_bytes(nth, target.len()));
        Ok(())
    }

    fn write(&mut self, i: u64, block: &[u8; 512]) -> Result<(), MediumFault> {
        let Some(nth) = self.room.place_for(i) else {
            return Err(self.fail());
        };
        self.room.put(nth, block);
        Ok(())
    }

    fn write_blocks(&mut self, first: u64, bytes: &[u8]) -> Result<(), MediumFault> {
        let Some(nth) = self.room.place_for_all(first, bytes.len() as u64 / 512) else {
            return self.write_each(first, bytes);
        };
        self.room.put_adjacent(nth, bytes);
        Ok(())
    }

    fn flush(&mut self) -> Result<(), MediumFault> {
        if self.room.flushes {
            Ok(())
        } else {
            Err(self.fail())
        }
    }
}
