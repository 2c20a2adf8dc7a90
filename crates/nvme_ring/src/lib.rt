//! The four ends of queues (NVM Express Base Specification 2.0, Submission Queue and Completion Queue): a controller
//! fetches commands at one and posts completions at another, a host puts commands at the third and consumes completions
//! at the fourth.
//!
//! Each end counts entries: modulo the size of its queue if only the slot matters, modulo twice the size if the phase
//! tag does too. A count is increased by a comparison and a wrap, without a division.
#![tactic(auto)]

mod counts;
mod cq_head;
mod cq_tail;
mod sq_head;
mod sq_tail;

pub use cq_head::CqHead;
pub use cq_tail::CqTail;
pub use sq_head::SqHead;
pub use sq_tail::SqTail;
