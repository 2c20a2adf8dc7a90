//! A command that a controller has fetched and not yet executed.

use nvme_wire::Sqe;

/// A fetched command: its submission queue entry, its submission queue, and whether a Preempt and Abort has marked it.
#[derive(Clone, Copy, Debug, Default)]
pub struct FetchedCommand {
    /// The submission queue entry, as it was in host memory when it was fetched.
    pub entry: Sqe,
    /// The identifier of its submission queue, 0 for the admin queue.
    pub queue: u16,
    /// Whether a Preempt and Abort has marked it, so that it will be aborted.
    pub marked: bool,
}
