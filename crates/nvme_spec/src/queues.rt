//! The queues of a controller, and the changes that admin commands make.

/// Which queues of a controller exist, by identifier from 0, that of the admin queues.
#[derive(Clone, Copy, Debug, PartialEq, Eq)]
pub struct Queues {
    /// Whether the completion queue exists.
    pub cq: [bool; 5],
    /// The completion queue of the submission queue, if it exists.
    pub sq: [Option<u16>; 5],
}

/// The effect of an admin command on the queues of its controller. Sizes are in entries.
#[derive(Clone, Copy, Debug, PartialEq, Eq)]
pub enum QueueChange {
    /// Nothing.
    Keep,
    /// An I/O completion queue is created.
    MakeCq {
        qid: u16,
        size: u16,
        base: u64,
    },
    /// An I/O submission queue is created, with completion queue `cqid`.
    MakeSq {
        qid: u16,
        size: u16,
        base: u64,
        cqid: u16,
    },
    /// An I/O completion queue is deleted.
    DropCq(u16),
    /// An I/O submission queue is deleted.
    DropSq(u16),
}
