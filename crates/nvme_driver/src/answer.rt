//! The answers that a driver delivers.

use crate::ticket::Ticket;
use nvme_wire::Status;

/// The answer to a request.
#[derive(Clone, Copy, Debug, PartialEq, Eq)]
pub enum Answer {
    /// The controller answered it, with this status and double word 0. `len` bytes of data came with the answer.
    Done {
        ticket: Ticket,
        status: Status,
        dw0: u32,
        len: usize,
    },
    /// Its controller was reset before the answer was delivered. It may or may not have been executed.
    Aborted {
        ticket: Ticket,
    },
}
