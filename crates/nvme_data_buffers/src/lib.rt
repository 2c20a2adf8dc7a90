//! The data buffers of commands in the memory that a controller's host shares with it, and the PRP entries by which a
//! command moves its data there and nowhere else.
#![tactic(auto)]

mod buffer;
mod entry;
mod examples;
mod laws;
mod list;
mod moving;
mod queues;
mod store_examples;

pub use buffer::{DataBuffer, Prps};
pub use entry::{is_filled, with_prps};
pub use list::{LIST_PLACE, prp_list};
pub use moving::{double_word_10, moved, opcode_of};
pub use queues::{completion_queue, submission_queue};
