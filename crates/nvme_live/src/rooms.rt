//! The buffers for the lines of a session: after a session has begun, only setup lines may take memory.

ghost use Rattle.std.specs.Prelude.{◌≡◌, IfOk, length};

use live_text::LINE_LIMIT;
use script_text::Text;
use std::alloc::{AllocError, Global};

/// Half of the bytes of the longest script, and one more: the most bytes in one of its lines.
const MOST_SPELLED: usize = 2_097_153;

/// The buffers for the lines of a session.
#[derive(Drop)]
pub struct Rooms {
    /// The data of a request, or the bytes of a store.
    pub bytes: Vec<u8>,
    /// A list of controller identifiers.
    pub identifiers: Vec<u16>,
    /// Blocks of a query, or decoded bytes that a search for a line's fault needs.
    pub blocks: Vec<u8>,
    /// One answer.
    pub text: Text,
    /// One line of the input, and one byte more.
    pub line: Vec<u8>,
}

/// A buffer for the bytes of a line.
fn room_for_bytes(alloc: Global) -> Result<Vec<u8>, AllocError>
    ensures { IfOk result (λ room. length room.items ≡ 2097153) }
{
    vec![in alloc; 0; MOST_SPELLED]
}

impl Rooms {
    /// Buffers that are long enough for every line.
    pub fn new(alloc: Global) -> Result<Rooms, AllocError>
        ensures bytes { IfOk result (λ rooms. length rooms.bytes.items ≡ 2097153) }
        ensures identifiers { IfOk result (λ rooms. length rooms.identifiers.items ≡ 2097153) }
        ensures blocks { IfOk result (λ rooms. length rooms.blocks.items ≡ 2097153) }
    {
        Ok(Rooms {
            bytes: room_for_bytes(alloc)?,
            identifiers: vec![in alloc; 0; MOST_SPELLED]?,
            blocks: room_for_bytes(alloc)?,
            text: Text::new(alloc)?,
            line: Vec::with_capacity(alloc, LINE_LIMIT + 1)?,
        })
    }
}
