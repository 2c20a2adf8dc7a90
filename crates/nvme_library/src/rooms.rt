//! Buffers for parsing a line.

ghost use Rattle.std.specs.Prelude.{◌≤◌, IfOk, length};
ghost use Rattle.script_text.specs.Words.{most_words};
ghost use Rattle.nvme_grammar.specs.Room.{HasBytesRoom};

use nvme_spec::MOST_BYTES;
use std::alloc::{AllocError, Global};

/// Buffers for parsing a line.
#[derive(Drop)]
pub(crate) struct Rooms {
    /// The data of a request, or the bytes of a store.
    pub bytes: Vec<u8>,
    /// A list of controller identifiers.
    pub identifiers: Vec<u16>,
    /// Decoded bytes that a search for a line's fault needs.
    pub spare: Vec<u8>,
}

impl Rooms {
    /// Buffers that are long enough for this line.
    pub(crate) fn of(alloc: Global, line: &[u8]) -> Result<Rooms, AllocError>
        ensures bytes { IfOk result (λ rooms. HasBytesRoom line.now rooms.bytes.items) }
        ensures identifiers { IfOk result (λ rooms. most_words line.now ≤ length rooms.identifiers.items) }
        ensures spare { IfOk result (λ rooms. HasBytesRoom line.now rooms.spare.items) }
    {
        let half = line.len() / 2 + 1;
        Ok(Rooms {
            bytes: vec![in alloc; 0; half.max(MOST_BYTES)]?,
            identifiers: vec![in alloc; 0; half]?,
            spare: vec![in alloc; 0; half.max(MOST_BYTES)]?,
        })
    }
}
