//! Bytes that are held back before the output of a program.

ghost use Rattle.std.specs.Prelude.{◌≡◌, ◌≤◌, ◌+◌, ◌++◌, [], IfOk, length, drop};
ghost use Rattle.nvme_script.specs.Buffering.{most_held};

use std::alloc::{AllocError, Global};
use std::marker::Model;

/// The most bytes that are held back.
pub(crate) const MOST_HELD: usize = 8192;

/// At most 8,192 bytes, in a buffer of that length.
#[derive(Drop)]
pub(crate) struct Held {
    room: Vec<u8>,
    /// The number of bytes that are held.
    len: usize,
}

impl Model for Held {
    ghost use Rattle.std.specs.Prelude.{◌≡◌, ◌≤◌, ℕ, List, length, take};
    ghost use Rattle.nvme_script.specs.Buffering.{most_held};

    ghost Value = { List ℕ };

    ghost view = { λ held. take held.len held.room.items };

    ghost invariant = { λ held. (length held.room.items ≡ most_held) × (held.len ≤ most_held) };
}

impl Held {
    /// No bytes yet.
    pub(crate) fn new(alloc: Global) -> Result<Held, AllocError>
        ensures { IfOk result (λ held. held ≡ []) }
    {
        Ok(Held {
            room: vec![in alloc; 0; MOST_HELD]?,
            len: 0,
        })
    }

    /// The bytes that are held.
    pub(crate) fn as_bytes(&self) -> &[u8]
        ensures value { result.now ≡ self.now }
        ensures few { length result.now ≤ most_held }
    {
        &self.room[..self.len]
    }

    /// Appends bytes, which must fit.
    pub(crate) fn add(&mut self, part: &[u8])
        requires { length self.old + length part.now ≤ most_held }
        ensures { self.new ≡ self.old ++ part.now }
    {
        let end = self.len + part.len();
        self.room[self.len..end].copy_from_slice(part);
        self.len = end;
    }

    /// Removes the first bytes.
    pub(crate) fn remove_front(&mut self, count: usize)
        requires { count ≤ length self.old }
        ensures { self.new ≡ drop count self.old }
    {
        self.room.copy_within(count..self.len, 0);
        self.len -= count;
    }
}
