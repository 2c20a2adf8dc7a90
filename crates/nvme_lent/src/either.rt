//! A medium over its own blocks, over borrowed bytes, or over brought blocks.

ghost use Rattle.std.specs.Prelude.{◌≡◌, true, IfErr, IfOk, OnErr};

use crate::{LentMedium, ReturnedBytes};
use nvme_brought::{BroughtMedium, Room};
use nvme_medium::{Medium, MediumFault, MemMedium};

/// A medium of a library: over its own blocks or over bytes that a C program provides, which are in memory, so that no
/// call fails; or over the blocks that the program brings for one command.
#[derive(Drop)]
pub enum OwnOrLent {
    Own(MemMedium),
    Lent(LentMedium),
    Brought(BroughtMedium),
}

/// Why a medium does not take a room, with the unchanged room.
#[derive(Drop)]
pub enum NotBrought {
    /// Its blocks are in memory.
    InMemory(Room),
    /// It does not have all of the room's blocks at hand.
    Outside(Room),
}

impl OwnOrLent {
    ghost use Rattle.nvme_lent.specs.OwnOrLent.{lent_of, blocks_of};
    ghost use Rattle.nvme_lent.specs.Bringing.{Brings, IsRefused, GivesRoom};

    /// Returns the borrowed bytes, if there are any.
    pub fn into_returned(self) -> ReturnedBytes
        ensures { result.bytes ≡ lent_of self }
    {
        match self {
            OwnOrLent::Own(_) => ReturnedBytes::none(),
            OwnOrLent::Lent(medium) => medium.into_returned(),
            OwnOrLent::Brought(_) => ReturnedBytes::none(),
        }
    }

    /// Takes the blocks of a room for the content of the medium, and returns the room that it had before. If it returns
    /// the new room, nothing has changed.
    pub fn bring(&mut self, room: Room) -> Result<Room, NotBrought>
        ensures brought { IfOk result (λ earlier. Brings room self.old earlier self.new) }
        ensures refused { IfErr result (λ why. IsRefused room self.old why) }
        ensures unchanged { OnErr result (self.new ≡ self.old) }
        ensures size { blocks_of self.new ≡ blocks_of self.old }
    {
        let OwnOrLent::Brought(medium) = self else {
            return Err(NotBrought::InMemory(room));
        };
        match medium.bring(room) {
            Ok(earlier) => Ok(earlier),
            Err(room) => Err(NotBrought::Outside(room)),
        }
    }

    /// Returns the room of brought blocks. The medium keeps its content, and has no block at hand. A medium in memory
    /// returns an empty room.
    pub fn take_room(&mut self) -> Room
        ensures room { GivesRoom self.old result self.new }
        ensures size { blocks_of self.new ≡ blocks_of self.old }
    {
        match self {
            OwnOrLent::Brought(medium) => medium.take_room(),
            OwnOrLent::Own(_) | OwnOrLent::Lent(_) => Room::none(),
        }
    }
}

impl Medium for OwnOrLent {
    ghost use Rattle.nvme_lent.specs.OwnOrLent.{
      bytes_of,
      blocks_of,
      device_of,
      step_of,
      countable_of,
      whole_of,
    };

    ghost tells = { true };

    ghost device = { device_of };

    ghost size = { blocks_of };

    ghost step = { step_of };

    ghost countable = { countable_of };

    ghost whole = { λ m _. whole_of m };

    #[inline(always)]
    fn blocks(&self) -> u64 {
        match self {
            OwnOrLent::Own(medium) => medium.blocks(),
            OwnOrLent::Lent(medium) => medium.blocks(),
            OwnOrLent::Brought(medium) => medium.blocks(),
        }
    }

    #[inline(always)]
    fn read(&mut self, i: u64, buffer: &mut [u8; 512]) -> Result<(), MediumFault> {
        match self {
            OwnOrLent::Own(medium) => medium.read(i, buffer),
            OwnOrLent::Lent(medium) => medium.read(i, buffer),
            OwnOrLent::Brought(medium) => medium.read(i, buffer),
        }
    }

    #[inline(always)]
    fn read_onto(&mut self, i: u64, target: &mut [u8]) -> Result<(), MediumFault> {
        match self {
            OwnOrLent::Own(medium) => medium.read_onto(i, target),
            OwnOrLent::Lent(medium) => medium.read_onto(i, target),
            OwnOrLent::Brought(medium) => medium.read_onto(i, target),
        }
    }

    #[inline(always)]
    fn read_blocks(&mut self, first: u64, target: &mut [u8]) -> Result<(), MediumFault> {
        match self {
            OwnOrLent::Own(medium) => medium.read_blocks(first, target),
            OwnOrLent::Lent(medium) => medium.read_blocks(first, target),
            OwnOrLent::Brought(medium) => medium.read_blocks(first, target),
        }
    }

    #[inline(always)]
    fn write(&mut self, i: u64, block: &[u8; 512]) -> Result<(), MediumFault> {
        match self {
            OwnOrLent::Own(medium) => medium.write(i, block),
            OwnOrLent::Lent(medium) => medium.write(i, block),
            OwnOrLent::Brought(medium) => medium.write(i, block),
        }
    }

    #[inline(always)]
    fn write_blocks(&mut self, first: u64, bytes: &[u8]) -> Result<(), MediumFault> {
        match self {
            OwnOrLent::Own(medium) => medium.write_blocks(first, bytes),
            OwnOrLent::Lent(medium) => medium.write_blocks(first, bytes),
            OwnOrLent::Brought(medium) => medium.write_blocks(first, bytes),
        }
    }

    #[inline(always)]
    fn flush(&mut self) -> Result<(), MediumFault> {
        match self {
            OwnOrLent::Own(medium) => medium.flush(),
            OwnOrLent::Lent(medium) => medium.flush(),
            OwnOrLent::Brought(medium) => medium.flush(),
        }
    }
}
