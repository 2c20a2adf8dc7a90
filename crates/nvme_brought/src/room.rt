//! The room for the blocks of one command.

ghost use Rattle.std.specs.Prelude.{◌≡◌, ◌+◌, ◌-◌, ◌*◌, ◌/◌, ◌<◌, ◌≤◌, false, length, max, min, IfSome};
ghost use Rattle.std.specs.Vec.{vec_len, vec_ptr};
ghost use Rattle.nvme_spec.specs.Blocks.{block_at, blocks_from};
ghost use Rattle.nvme_spec.specs.Bytes.{with_bytes};
ghost use Rattle.nvme_brought.specs.Places as places;

use std_alloc::vec::Lodged;

/// Borrowed bytes of a program, for one command: room for the blocks of a medium from `first`. The first `at_hand`
/// blocks have the content of the medium, since the program brought them or the command wrote them.
#[derive(Drop)]
pub struct Room {
    pub(crate) buffer: Vec<u8, Lodged>,
    pub(crate) first: u64,
    pub(crate) at_hand: u64,
    pub(crate) flushes: bool,
    ghost fits: { 512 * at_hand ≤ length buffer.items },
}

impl Room {
    ghost use Rattle.nvme_brought.specs.Brought.{room_bytes, bytes_at_hand, place_of, place_for, IsEmpty};

    /// A room for the blocks from `first`, of which the first `brought` were brought, or all if it has fewer.
    /// `flushes` is whether a flush passes.
    pub fn of(buffer: Vec<u8, Lodged>, first: u64, brought: u64, flushes: bool) -> Room
        ensures buffer { result.buffer ≡ buffer }
        ensures first { result.first ≡ first }
        ensures at_hand { result.at_hand ≡ min brought (length buffer.items / 512) }
        ensures flushes { result.flushes ≡ flushes }
    {
        let at_hand = brought.min(buffer.len() as u64 / 512);
        Room {
            buffer,
            first,
            at_hand,
            flushes,
        }
    }

    /// No block, and no flush passes.
    pub fn none() -> Room
        ensures { IsEmpty result }
    {
        Room {
            buffer: Vec::new(Lodged),
            first: 0,
            at_hand: 0,
            flushes: false,
        }
    }

    /// The number of blocks at hand.
    pub fn at_hand(&self) -> u64
        ensures { result ≡ self.now.at_hand }
    {
        self.at_hand
    }

    /// The buffer.
    pub fn into_buffer(self) -> Vec<u8, Lodged>
        ensures { result ≡ self.buffer }
    {
        self.buffer
    }

    /// The bytes of the blocks at hand.
    pub(crate) fn bytes_at_hand(&self) -> &[u8]
        ensures { result.now ≡ bytes_at_hand self.now }
    {
        &self.buffer[..512 * self.at_hand as usize]
    }

    /// The place of block `i` in the room, if it is at hand.
    pub(crate) fn place_of(&self, i: u64) -> Option<u64>
        ensures place { result ≡ place_of self.now i }
        ensures below { IfSome result (λ nth. nth < self.now.at_hand) }
        ensures is { IfSome result (λ nth. i ≡ self.now.first + nth) }
    {
        place_in(self.first, self.at_hand, i)
    }

    /// The place of block `i` in the room, if it and the next ones, `count` in all, are at hand.
    pub(crate) fn place_of_all(&self, i: u64, count: u64) -> Option<u64>
        ensures place { result ≡ places.place_in self.now.first (self.now.at_hand + 1 - count) i }
        ensures within { IfSome result (λ nth. nth + count ≤ self.now.at_hand) }
        ensures is { IfSome result (λ nth. i ≡ self.now.first + nth) }
    {
        place_in(self.first, (self.at_hand + 1).saturating_sub(count), i)
    }

    /// The place of block `i` in the room if it can be written: it is at hand, or the next one.
    pub(crate) fn place_for(&self, i: u64) -> Option<u64>
        ensures place { result ≡ place_for self.now i }
        ensures below { IfSome result (λ nth. 512 * nth + 512 ≤ length (room_bytes self.now)) }
        ensures next { IfSome result (λ nth. nth ≤ self.now.at_hand) }
        ensures is { IfSome result (λ nth. i ≡ self.now.first + nth) }
    {
        let nth = i.checked_sub(self.first)?;
        if nth <= self.at_hand && nth < self.buffer.len() as u64 / 512 {
            Some(nth)
        } else {
            None
        }
    }

    /// The place of block `i` in the room, if it and the next ones, `count` in all, can be written one after the other.
    pub(crate) fn place_for_all(&self, i: u64, count: u64) -> Option<u64>
        ensures place { result ≡ places.place_in self.now.first
            (min (self.now.at_hand + 1) (length (room_bytes self.now) / 512 + 1 - count)) i }
        ensures within { IfSome result (λ nth. 512 * (nth + count) ≤ length (room_bytes self.now)) }
        ensures next { IfSome result (λ nth. nth ≤ self.now.at_hand) }
        ensures is { IfSome result (λ nth. i ≡ self.now.first + nth) }
    {
        let blocks = self.buffer.len() as u64 / 512;
        let places = (self.at_hand + 1).min((blocks + 1).saturating_sub(count));
        place_in(self.first, places, i)
    }

    /// A block of the room.
    pub(crate) fn block(&self, nth: u64) -> &[u8]
        requires { nth < self.now.at_hand }
        ensures block { result.now ≡ block_at (room_bytes self.now) nth }
        ensures len { length result.now ≡ 512 }
    {
        let at = 512 * nth as usize;
        &self.buffer[at..at + 512]
    }

    /// `len` bytes of blocks of the room, from this one.
    pub(crate) fn adjacent_bytes(&self, nth: u64, len: usize) -> &[u8]
        requires { 512 * nth + len ≤ 512 * self.now.at_hand }
        ensures { result.now ≡ blocks_from (room_bytes self.now) nth len }
    {
        let at = 512 * nth as usize;
        &self.buffer[at..at + len]
    }

    /// Writes a block of the room, which is then at hand.
    pub(crate) fn put(&mut self, nth: u64, block: &[u8; 512])
        requires inside { 512 * nth + 512 ≤ length (room_bytes self.old) }
        requires next { nth ≤ self.old.at_hand }
        ensures bytes { room_bytes self.new ≡ with_bytes (room_bytes self.old) (512 * nth) block.now }
        ensures at_hand { self.new.at_hand ≡ max self.old.at_hand (nth + 1) }
        ensures first { self.new.first ≡ self.old.first }
        ensures flushes { self.new.flushes ≡ self.old.flushes }
        ensures address { vec_ptr self.new.buffer ≡ vec_ptr self.old.buffer }
        ensures len { vec_len self.new.buffer ≡ vec_len self.old.buffer }
    {
        let at = 512 * nth as usize;
        self.buffer[at..at + 512].copy_from_slice(block);
        self.at_hand = self.at_hand.max(nth + 1);
    }

    /// Writes bytes of adjacent blocks of the room, from this one. These blocks are then at hand.
    pub(crate) fn put_adjacent(&mut self, nth: u64, bytes: &[u8])
        requires inside { 512 * nth + length bytes.now ≤ length (room_bytes self.old) }
        requires next { nth ≤ self.old.at_hand }
        ensures bytes { room_bytes self.new ≡ with_bytes (room_bytes self.old) (512 * nth) bytes.now }
        ensures at_hand { self.new.at_hand ≡ max self.old.at_hand (nth + length bytes.now / 512) }
        ensures first { self.new.first ≡ self.old.first }
        ensures flushes { self.new.flushes ≡ self.old.flushes }
        ensures address { vec_ptr self.new.buffer ≡ vec_ptr self.old.buffer }
        ensures len { vec_len self.new.buffer ≡ vec_len self.old.buffer }
    {
        let at = 512 * nth as usize;
        self.buffer[at..at + bytes.len()].copy_from_slice(bytes);
        self.at_hand = self.at_hand.max(nth + bytes.len() as u64 / 512);
    }
}

/// The place of block `i` among `count` blocks from `first`, if it is one of them.
fn place_in(first: u64, count: u64, i: u64) -> Option<u64>
    ensures place { result ≡ places.place_in first count i }
    ensures below { IfSome result (λ nth. nth < count) }
    ensures is { IfSome result (λ nth. i ≡ first + nth) }
{
    let nth = i.checked_sub(first)?;
    if nth < count { Some(nth) } else { None }
}
