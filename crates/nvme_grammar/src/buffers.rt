//! Buffers for the bytes and the identifiers of a script's events.

ghost use Rattle.std.specs.Prelude.{◌+◌, ◌/◌, ◌≤◌, max, length, IfOk};
ghost use Rattle.nvme_spec.specs.Limits.{most_bytes};
ghost use Rattle.script_text.specs.Lines.{longest_line};
ghost use Rattle.nvme_grammar.specs.Room.{HasTextRoom, HasWordsRoom};

use nvme_spec::MOST_BYTES;
use script_text::line_bound;
use std::alloc::{AllocError, Global};

/// The buffers for one event of a script, reused for each line.
#[derive(Drop)]
pub struct Buffers {
    /// A buffer for the data of a request, or the bytes of a store.
    pub bytes: Vec<u8>,
    /// A buffer for a list of controller identifiers.
    pub identifiers: Vec<u16>,
}

impl Buffers {
    /// Buffers for each line of a text: 131,072 bytes, or one byte for each two bytes of its longest line if that is
    /// more, and one identifier for each two bytes of that line; at most 2,049 more of either. `AllocError` if memory
    /// is refused.
    pub fn for_text(alloc: Global, text: &[u8]) -> Result<Buffers, AllocError>
        ensures bytes { IfOk result (λ buffers. HasTextRoom text.now buffers.bytes.items) }
        ensures identifiers { IfOk result (λ buffers. HasWordsRoom text.now buffers.identifiers.items) }
        ensures few_bytes { IfOk result (λ buffers.
            length buffers.bytes.items ≤ max most_bytes (longest_line text.now / 2 + 2049)) }
        ensures few_identifiers { IfOk result (λ buffers.
            length buffers.identifiers.items ≤ longest_line text.now / 2 + 2049) }
    {
        let half = line_bound(text) / 2 + 1;
        Ok(Buffers {
            bytes: vec![in alloc; 0; half.max(MOST_BYTES)]?,
            identifiers: vec![in alloc; 0; half]?,
        })
    }
}
